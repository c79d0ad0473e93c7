//! The runner: callers of a hall run commands of lines and make drains by it.

ghost use Rattle.std.specs.Prelude.{◌≡◌, false, true, IfOk, OnErr};
ghost use Rattle.osgi_hall.specs.Passes.{IsLegal, IsPassOf};
ghost use Rattle.osgi_runner.specs.Calls.{Adds, IsCutDrainOf, IsCutShort, IsDrainCutShort, IsDrainOf};
ghost use Rattle.osgi_runner.specs.Passes.{calls_of, Grown, has_seen};
ghost use Rattle.osgi_runner.specs.declared.lines.Ended.TheVariants as ended;
ghost use Rattle.osgi_session.specs.Lines.{has_command};
ghost use Rattle.osgi_session.specs.Scripts.{sections_of};
ghost use Rattle.osgi_session.specs.Sessions.{IsCutRunOf, IsRunOf};

use crate::lines::{Ended, drain_line, run_line};
use crate::seated::Seated;
use osgi_framework::Framework;
use osgi_hall::{Hall, Pass};
use osgi_outside::Gate;
use osgi_session::{Line, Scripts};
use std::alloc::{AllocError, Global};
use std::sync::Wait;
use std::thread::Threads;

/// What all callers of a hall run lines by: the hall, the scripts that have their sections, and the gate that they come to.
#[derive(Drop)]
pub struct Runner<'a, M: Framework, G> {
    pub hall: &'a Hall<M>,
    pub scripts: &'a Scripts,
    pub gate: &'a G,
}

impl<'a, M: Framework, G: Gate> Runner<'a, M, G> {
    /// A runner of lines. It takes no memory.
    pub fn new(hall: &'a Hall<M>, scripts: &'a Scripts, gate: &'a G) -> Runner<'a, M, G>
        ensures hall { result.hall.now ≡ hall.now }
        ensures scripts { result.scripts.now ≡ scripts.now }
    {
        Runner {
            hall,
            scripts,
            gate,
        }
    }

    /// The pass's caller runs the command of a line, step by step, and then the jobs until none is queued. The line has a
    /// command, and the pass is one of the runner's hall. It may wait, for the turn and at the gate.
    ///
    /// Where it answers Done, the calls that were added are a whole run of the command. Where it answers Cut, they are the
    /// beginning of one, and the pass has seen a history that is full; or one that ends with a Hand refused since enough was
    /// handed. Where memory ran out, they are the beginning of one.
    pub fn command<R: Threads + Wait + Sync>(
        &self,
        rt: &R,
        alloc: Global,
        pass: &mut Pass<M>,
        line: &Line,
    ) -> Result<Ended, AllocError>
        requires command { has_command line.now.content ≡ true }
        requires hall { IsPassOf self.now.hall.now pass.old }
        ensures grown { Grown pass.old pass.new }
        ensures done { IfOk result (λ how.
            how ≡ ended.Done
            → Adds (IsRunOf (sections_of self.now.scripts.now) pass.old.caller line.now)
            (calls_of pass.old) (calls_of pass.new)) }
        ensures cut { IfOk result (λ how.
            how ≡ ended.Cut
            → IsCutShort (sections_of self.now.scripts.now) pass.old.caller line.now
            (has_seen (M.runs_under self.now.hall.now.setting).bounds.entries pass.new)
            (calls_of pass.old) (calls_of pass.new)) }
        ensures wanting { OnErr result
            (Adds (IsCutRunOf (sections_of self.now.scripts.now) pass.old.caller line.now false)
            (calls_of pass.old) (calls_of pass.new)) }
    {
        // What a pass has seen is always legal, and so within the limit: this says so.
        let _ = pass.caller();
        let mut seated = Seated {
            rt,
            hall: self.hall,
            pass,
            gate: self.gate,
            lane: line.lane,
        };
        run_line(alloc, &mut seated, self.scripts, line)
    }

    /// The pass's caller makes one drain for a line, with or without a command: hands one event after another, and runs the
    /// section of each, until no event can be handed now, or the Hand is refused. The pass is one of the runner's hall. It may
    /// wait, for the turn and at the gate.
    ///
    /// Where it answers Done, the calls that were added are a whole drain. Where it answers Cut, they are the beginning of one,
    /// and the pass has seen a history that is full; or one that ends with a Hand refused since enough was handed. Where memory
    /// ran out, they are the beginning of one.
    pub fn drain<R: Threads + Wait + Sync>(
        &self,
        rt: &R,
        alloc: Global,
        pass: &mut Pass<M>,
        line: &Line,
    ) -> Result<Ended, AllocError>
        requires hall { IsPassOf self.now.hall.now pass.old }
        ensures grown { Grown pass.old pass.new }
        ensures done { IfOk result (λ how.
            how ≡ ended.Done
            → Adds (IsDrainOf (sections_of self.now.scripts.now) pass.old.caller line.now)
            (calls_of pass.old) (calls_of pass.new)) }
        ensures cut { IfOk result (λ how.
            how ≡ ended.Cut
            → IsDrainCutShort (sections_of self.now.scripts.now) pass.old.caller line.now
            (has_seen (M.runs_under self.now.hall.now.setting).bounds.entries pass.new)
            (calls_of pass.old) (calls_of pass.new)) }
        ensures wanting { OnErr result
            (Adds
            (IsCutDrainOf (sections_of self.now.scripts.now) pass.old.caller line.now false)
            (calls_of pass.old) (calls_of pass.new)) }
    {
        // What a pass has seen is always legal, and so within the limit: this says so.
        let _ = pass.caller();
        let mut seated = Seated {
            rt,
            hall: self.hall,
            pass,
            gate: self.gate,
            lane: line.lane,
        };
        drain_line(alloc, &mut seated, self.scripts, line)
    }
}
