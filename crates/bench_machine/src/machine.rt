//! Console lines run on a machine, block by block.

ghost use Rattle.std.specs.Prelude.{◌≡◌};
ghost use Rattle.osgi_session.specs.Beginnings.{is_peek};

use anyhow::{Result, ensure};
use osgi_base::{BundleId, List, Tag};
use osgi_console::parse;
use osgi_core::Core;
use osgi_ops::{Depot, Limits};
use osgi_session::{Command, Content, Line};
use std::alloc::{AllocError, Global};

/// The bundle that asks for everything, where nothing else is said.
const SYSTEM: BundleId = BundleId(0);

/// The lines of a text, which may have as many bytes as lines can be counted.
pub fn lines_of(alloc: Global, text: &[u8]) -> Result<List<Line>> {
    ensure!(text.len() < u32::MAX as usize, "the text is too long");
    Ok(parse(alloc, text, 0)?)
}

/// Whether the command asks for no operation.
fn is_peek(command: &Command) -> bool
    ensures peek { result ≡ is_peek command.now }
{
    matches!(command, Command::Peek { .. })
}

/// Runs a line for a bundle, and answers whether it has a command that was accepted.
fn run_line(
    alloc: Global,
    core: &mut Core,
    asker: BundleId,
    line: &Line,
) -> Result<bool, AllocError> {
    let Content::Run(command) = &line.content else {
        return Ok(false);
    };
    let tag = Tag {
        caller: 0,
        command: line.number,
    };
    let command = command.copy(alloc)?;
    if is_peek(&command) {
        return Ok(false);
    }
    // No plan of a measured command has a second operation.
    let (op, _) = command.into_op(asker);
    let reply = core.apply(tag, op)?;
    Ok(!reply.is_refusal())
}

/// Runs the lines of a block, and answers how many commands were accepted.
fn run_lines(
    alloc: Global,
    core: &mut Core,
    asker: BundleId,
    lines: &[Line],
) -> Result<u64, AllocError> {
    let mut accepted: u64 = 0;
    for line in lines {
        if run_line(alloc, core, asker, line)? {
            accepted = accepted.saturating_add(1);
        }
    }
    Ok(accepted)
}

/// Runs a block for a bundle, and prints a line when it is read and when it has run.
fn run_block(rt: &HostRuntime, core: &mut Core, asker: BundleId, block: &str) -> Result<()> {
    let lines = lines_of(rt.alloc(), block.as_bytes())?;
    println!(rt; "read {}", lines.items().len())?;
    let accepted = run_lines(rt.alloc(), core, asker, lines.items())?;
    println!(rt; "accepted {accepted}")?;
    Ok(())
}

/// Runs the blocks of a text for a bundle, one after another.
pub fn run_blocks(rt: &HostRuntime, core: &mut Core, asker: BundleId, text: &str) -> Result<()> {
    for block in text.split("\n.\n") {
        run_block(rt, core, asker, block)?;
    }
    Ok(())
}

/// Runs the blocks of a text on one machine, for the system bundle.
pub fn run(rt: &HostRuntime, text: &str) -> Result<()> {
    let depot = Depot {
        rows: List::new(rt.alloc())?,
    };
    let mut core = Core::new(rt.alloc(), Limits::standard(), depot)?;
    let ran = run_blocks(rt, &mut core, SYSTEM, text);
    // Its parts are few, and its tables many: a machine that is dropped whole takes minutes of proof.
    let _ = core.into_parts();
    ran
}
