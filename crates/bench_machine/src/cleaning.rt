//! Console lines run for a bundle that is active, and the stop that cleans up after it.

use crate::machine::run_blocks;
use anyhow::{Result, ensure};
use osgi_base::{BundleId, List, Shared, Tag, Text};
use osgi_core::Core;
use osgi_ops::{Depot, DepotRow, Limits, Op, Stored, Target};
use osgi_world::system_revision;
use std::alloc::{AllocError, Global};

/// The bundle that asks for everything.
const BUNDLE: BundleId = BundleId(1);

/// The tag of all that is done to the bundle.
const TAG: Tag = Tag {
    caller: 0,
    command: 0,
};

/// The name and the location of the bundle.
fn name(alloc: Global) -> Result<Text, AllocError> {
    Text::of(alloc, b"bundle")
}

/// A row whose bundle needs nothing.
fn row(alloc: Global) -> Result<DepotRow, AllocError> {
    let location = name(alloc)?;
    let mut revision = system_revision(alloc)?;
    revision.name = name(alloc)?;
    let revision = Shared::new(alloc, revision)?;
    let stored = Stored::Read {
        revision,
        manifest: Text::empty(),
    };
    Ok(DepotRow { location, stored })
}

fn depot(alloc: Global) -> Result<Depot, AllocError> {
    let mut rows = List::new(alloc)?;
    rows.push(row(alloc)?)?;
    Ok(Depot { rows })
}

/// Has the machine do an operation, which may not be refused.
fn apply(core: &mut Core, op: Op) -> Result<()> {
    let reply = core.apply(TAG, op)?;
    ensure!(!reply.is_refusal(), "an operation is refused");
    Ok(())
}

/// Installs, resolves and starts the bundle.
fn start(alloc: Global, core: &mut Core) -> Result<()> {
    let location = name(alloc)?;
    apply(core, Op::Install { location })?;
    let (bundle, transient, failed) = (BUNDLE, false, false);
    apply(core, Op::Resolve { bundle })?;
    apply(core, Op::BeginStart { bundle, transient })?;
    apply(core, Op::EndStart { bundle, failed })
}

/// Stops the bundle.
fn stop(core: &mut Core) -> Result<()> {
    let (bundle, transient, failed) = (BUNDLE, false, false);
    let target = Target::Id(bundle);
    apply(core, Op::BeginStop { target, transient })?;
    apply(core, Op::EndStop { bundle, failed })
}

/// Runs the blocks of a text between the start and the stop of the bundle, and prints a line once it has stopped.
fn run_between(rt: &HostRuntime, core: &mut Core, text: &str) -> Result<()> {
    start(rt.alloc(), core)?;
    run_blocks(rt, core, BUNDLE, text)?;
    stop(core)?;
    println!(rt; "stopped")?;
    Ok(())
}

/// Runs the blocks of a text on one machine for a bundle, which is stopped after them.
pub fn run(rt: &HostRuntime, text: &str) -> Result<()> {
    let mut core = Core::new(rt.alloc(), Limits::standard(), depot(rt.alloc())?)?;
    let ran = run_between(rt, &mut core, text);
    let _ = core.into_parts();
    ran
}
