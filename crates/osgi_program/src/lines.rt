//! Lines run in a hall, by caller 0.

ghost use Rattle.std.specs.Prelude.{◌≡◌, ◌==◌, [], length, map, IfOk};
ghost use Rattle.osgi_framework.specs.Entries.{from_hall};
ghost use Rattle.osgi_hall.specs.Passes.{IsPassOf};
ghost use Rattle.osgi_program.specs.computed.Running.{RunsLine, RunsLines};
ghost use Rattle.osgi_runner.specs.Passes.{calls_of, Grown, has_seen};
ghost use Rattle.osgi_session.specs.Scripts.{sections_of};

use osgi_framework::Framework;
use osgi_hall::{Closed, Hall, Pass};
use osgi_outside::Gate;
use osgi_runner::{Ended, Runner};
use osgi_session::{Content, Line, Scripts};
use std::alloc::{AllocError, Global};
use std::sync::Wait;
use std::thread::Threads;

/// How far the running of lines came.
#[derive(Clone, Copy, PartialEq, Eq)]
pub enum Ran {
    /// To the end.
    All,
    /// To a line whose command was cut: the history was full, or enough was handed.
    Cut,
    /// To a line for which memory ran out.
    Starved,
}

/// Runs a line: caller 0 runs its command. A line without one does nothing.
fn run_line<R: Threads + Wait + Sync, M: Framework, G: Gate>(
    rt: &R,
    alloc: Global,
    runner: &Runner<M, G>,
    pass: &mut Pass<M>,
    line: &Line,
) -> Ran
    requires hall { IsPassOf runner.now.hall.now pass.old }
    requires first { pass.old.caller ≡ 0 }
    ensures grown { Grown pass.old pass.new }
    ensures line { RunsLine result (sections_of runner.now.scripts.now)
        (has_seen (M.runs_under runner.now.hall.now.setting).bounds.entries pass.new) line.now
        (calls_of pass.old) (calls_of pass.new) }
{
    let Content::Run(_) = &line.content else {
        return Ran::All;
    };
    match runner.command(rt, alloc, pass, line) {
        Ok(Ended::Done) => Ran::All,
        Ok(Ended::Cut) => Ran::Cut,
        Err(AllocError) => Ran::Starved,
    }
}

/// Runs the lines in order, up to one that could not run to its end.
fn run_each<R: Threads + Wait + Sync, M: Framework, G: Gate>(
    rt: &R,
    alloc: Global,
    runner: &Runner<M, G>,
    pass: &mut Pass<M>,
    lines: &[Line],
) -> Ran
    requires hall { IsPassOf runner.now.hall.now pass.old }
    requires first { pass.old.caller ≡ 0 }
    ensures grown { Grown pass.old pass.new }
    ensures lines { RunsLines result (sections_of runner.now.scripts.now)
        (has_seen (M.runs_under runner.now.hall.now.setting).bounds.entries pass.new) lines.now
        (calls_of pass.old) (calls_of pass.new) }
{
    for line in lines {
        match run_line(rt, alloc, runner, pass, line) {
            Ran::All => {}
            cut => return cut,
        }
    }
    Ran::All
}

/// Runs the lines of a session on a new framework, in a hall that is closed then: one after another, up to one that could not run
/// to its end. The framework that comes back is the one that the hall had, and its history is what the lines made. It may wait. If
/// there is no memory for the hall the framework is dropped, and no line runs.
pub fn run_lines<R: Threads + Wait + Sync, M: Framework + Drop, G: Gate>(
    rt: &R,
    alloc: Global,
    framework: M,
    scripts: &Scripts,
    lines: &[Line],
    gate: &G,
) -> Result<(Ran, M), AllocError>
    requires fresh { M.entries framework ≡ [] }
    ensures setting { IfOk result (λ r. M.setting r.1 ≡ M.setting framework) }
    ensures lines { IfOk result (λ r.
        RunsLines r.0 (sections_of scripts.now)
        (length (M.entries r.1) == (M.runs_under (M.setting framework)).bounds.entries) lines.now
        [] (map from_hall (M.entries r.1))) }
{
    let (hall, mut pass) = Hall::new(alloc, framework)?;
    let ran = run_each(
        rt,
        alloc,
        &Runner::new(&hall, scripts, gate),
        &mut pass,
        lines,
    );
    let Ok(Closed { machine }) = hall.close(pass) else {
        unreachable!()
    };
    Ok((ran, machine))
}
