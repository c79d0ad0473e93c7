//! Calls of a table of bundles.

ghost use Rattle.std.specs.Prelude.{◌≡◌, ◌+◌, ◌<◌, OnOk};

use cases_text::{put, put_shown};
use osgi_base::{BundleId, Tag, Text};
use osgi_bundle::{Begun, Table};
use osgi_ops::{Refusal, Target, is_up};
use osgi_version::Version;
use std::alloc::{AllocError, Global};

/// The number that a word writes; 0 where it writes none.
fn number(word: Option<&str>) -> u32 {
    match word {
        Some(word) => word.parse::<u32>().unwrap_or(0),
        None => 0,
    }
}

/// Installs a bundle from a location of its name and version.
fn install(
    alloc: Global,
    table: &mut Table,
    name: &[u8],
    version: &[u8],
    fragment: bool,
    row: u32,
) -> Result<(), AllocError>
    requires ids_left { table.old.issued < u32.MAX }
    ensures issued { OnOk result (table.new.issued ≡ table.old.issued + 1) }
{
    let location = Text::of(alloc, version)?;
    let name = Text::of(alloc, name)?;
    let Ok(version) = Version::parse(alloc, version)? else {
        return Err(AllocError);
    };
    match table.install(location, name, version, fragment, row)? {
        Ok(_) => Ok(()),
        Err(_) => Err(AllocError),
    }
}

/// The table that each case begins with.
fn first_table(alloc: Global) -> Result<Table, AllocError> {
    let mut table = Table::new(alloc)?;
    install(alloc, &mut table, b"a", b"1.0.0", false, 4)?;
    install(alloc, &mut table, b"a", b"2.0.0", false, 6)?;
    install(alloc, &mut table, b"f", b"1.5.0", true, 7)?;
    Ok(table)
}

/// Sets a bundle as resolved, and answers whether it may be.
fn resolve(table: &mut Table, bundle: BundleId) -> bool {
    let may = match table.row(bundle) {
        Some(row) => !is_up(row.state),
        None => false,
    };
    if may {
        table.set_resolved(bundle, true);
    }
    may
}

fn put_refusal(out: &mut String, refusal: &Refusal) -> Result<(), AllocError> {
    put(out, "refused ")?;
    put_shown(out, &refusal.number())
}

fn put_begun(out: &mut String, answer: Result<Begun, Refusal>) -> Result<(), AllocError> {
    match answer {
        Ok(Begun::Run { row }) => {
            put(out, "run ")?;
            put_shown(out, &row)
        }
        Ok(Begun::Already) => put(out, "already"),
        Err(refusal) => put_refusal(out, &refusal),
    }
}

fn put_ended(out: &mut String, answer: Result<(), Refusal>) -> Result<(), AllocError> {
    match answer {
        Ok(()) => put(out, "ok"),
        Err(refusal) => put_refusal(out, &refusal),
    }
}

fn put_found(out: &mut String, found: Option<BundleId>) -> Result<(), AllocError> {
    match found {
        Some(bundle) => put_shown(out, &bundle.0),
        None => put(out, "none"),
    }
}

/// Adds what the begin or the end of a start or a stop answers, for the line of this number.
fn add_change(
    out: &mut String,
    table: &mut Table,
    word: &str,
    tag: Tag,
    bundle: BundleId,
    failed: bool,
) -> Result<(), AllocError> {
    match word {
        "begin_start" => put_begun(out, table.begin_start(tag, bundle)),
        "begin_stop" => put_begun(out, table.begin_stop(tag, bundle)),
        "end_start" => put_ended(out, table.end_start(tag, bundle, failed)),
        "end_stop" => put_ended(out, table.end_stop(tag, bundle, failed)),
        _ => put(out, "no such call"),
    }
}

/// Adds what a call answers.
fn add_call(
    alloc: Global,
    out: &mut String,
    table: &mut Table,
    call: &str,
) -> Result<(), AllocError> {
    let mut words = call.split(' ');
    let word = words.next().unwrap_or("");
    let next = words.next();
    let bundle = BundleId(number(next));
    match word {
        "resolved" => put(out, if resolve(table, bundle) { "set" } else { "no" }),
        "state" => match table.state(bundle) {
            Some(state) => put_shown(out, &state),
            None => put(out, "none"),
        },
        "id" => put_found(out, table.target(&Target::Id(bundle))?),
        "name" => {
            let name = Text::of(alloc, next.unwrap_or("").as_bytes())?;
            put_found(out, table.target(&Target::Name(name))?)
        }
        _ => {
            let tag = Tag {
                caller: 0,
                command: bundle.0,
            };
            let bundle = BundleId(number(words.next()));
            add_change(
                out,
                table,
                word,
                tag,
                bundle,
                words.next() == Some("failed"),
            )
        }
    }
}

/// Adds what the calls answer, one after another, on a table of their own.
pub fn add_calls(alloc: Global, out: &mut String, case: &str) -> Result<(), AllocError> {
    let mut table = first_table(alloc)?;
    let mut is_first = true;
    for call in case.split("; ") {
        if !is_first {
            put(out, "; ")?;
        }
        is_first = false;
        add_call(alloc, out, &mut table, call)?;
    }
    Ok(())
}
