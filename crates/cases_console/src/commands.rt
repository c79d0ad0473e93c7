//! Commands as an answer shows them: their names, and what they were read with.

use cases_text::{put, put_bracketed, put_shown};
use osgi_base::{BundleId, Text};
use osgi_ops::Target;
use osgi_session::Command;
use std::alloc::AllocError;

/// Adds a name and a number.
fn put_number(out: &mut String, name: &str, number: u64) -> Result<(), AllocError> {
    put(out, name)?;
    put(out, " ")?;
    put_shown(out, &number)
}

/// Adds a name, a bundle and a text.
fn put_with_text(
    out: &mut String,
    name: &str,
    bundle: BundleId,
    text: &Text,
) -> Result<(), AllocError> {
    put_number(out, name, u64::from(bundle.0))?;
    put_bracketed(out, text.bytes())
}

/// Adds a name, and the bundle that it is for.
fn put_target(out: &mut String, name: &str, target: &Target) -> Result<(), AllocError> {
    match target {
        Target::Id(bundle) => put_number(out, name, u64::from(bundle.0)),
        Target::Name(_) => put(out, "by name"),
    }
}

/// Adds a name, the bundle that it is for, and whether it is for this time alone.
fn put_aim(
    out: &mut String,
    name: &str,
    target: &Target,
    transient: bool,
) -> Result<(), AllocError> {
    put_target(out, name, target)?;
    put(out, if transient { " transient" } else { " for good" })
}

/// Adds bundles, each after a space.
fn put_bundles(out: &mut String, name: &str, bundles: &[BundleId]) -> Result<(), AllocError> {
    put(out, name)?;
    for bundle in bundles {
        put_number(out, "", u64::from(bundle.0))?;
    }
    Ok(())
}

/// Adds a command.
pub fn put_command(out: &mut String, command: &Command) -> Result<(), AllocError> {
    match command {
        Command::Unregister { service } => put_number(out, "Unregister", service.0),
        Command::Get { service } => put_number(out, "Get", service.0),
        Command::Unget { service } => put_number(out, "Unget", service.0),
        Command::Start { target, transient } => put_aim(out, "Start", target, *transient),
        Command::Stop { target, transient } => put_aim(out, "Stop", target, *transient),
        Command::Load { bundle, class } => put_with_text(out, "Load", *bundle, class),
        Command::Update { bundle, location } => put_with_text(out, "Update", *bundle, location),
        Command::Uninstall { bundle } => put_number(out, "Uninstall", u64::from(bundle.0)),
        Command::Resolve { bundle } => put_number(out, "Resolve", u64::from(bundle.0)),
        Command::Refresh { bundles } => put_bundles(out, "Refresh", bundles.items()),
        Command::Wires { bundle } => put_number(out, "Wires", u64::from(bundle.0)),
        Command::Level { level } => put_number(out, "Level", u64::from(*level)),
        Command::BundleLevel { bundle, level } => {
            put_number(out, "BundleLevel", u64::from(bundle.0))?;
            put_number(out, " to", u64::from(*level))
        }
        Command::Bundles => put(out, "Bundles"),
        Command::Services => put(out, "Services"),
        _ => put(out, "another"),
    }
}
