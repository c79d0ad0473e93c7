//! A caller of a hall, in its seat for the time of one command.

ghost use Rattle.std.specs.Prelude.{◌≡◌, ◌==◌, ◌≤◌, length, map};
ghost use Rattle.std.proofs.Common.{refl, ◌∙◌};
ghost use Rattle.osgi_framework.specs.Entries.{from_hall};
ghost use Rattle.osgi_hall.specs.Passes.{IsPassOf};
ghost use Rattle.osgi_runner.specs.computed.Seats.{goes_further, GoesOn, stays};

use crate::caller::Caller;
use osgi_framework::Framework;
use osgi_hall::{Hall, Pass};
use osgi_ops::{Op, Reply};
use osgi_outside::{Gate, Point};
use std::alloc::AllocError;
use std::sync::Wait;
use std::thread::Threads;

/// What a caller of a hall is lent while it runs a command: the runtime, the hall, its pass and the gate; and the lane of its
/// lines. It comes to the gate outside its turns.
#[derive(Drop)]
pub struct Seated<'a, M: Framework, R, G> {
    pub rt: &'a R,
    pub hall: &'a Hall<M>,
    pub pass: &'a mut Pass<M>,
    pub gate: &'a G,
    pub lane: u32,
    ghost of_hall: { IsPassOf hall.now pass.now },
    ghost within: { length pass.now.seen ≤ (M.runs_under hall.now.setting).bounds.entries },
}

impl<'a, M: Framework, R: Threads + Wait + Sync, G: Gate> Caller for Seated<'a, M, R, G> {
    ghost made = { λ s. map from_hall s.pass.now.own };

    ghost limit = { λ s. (M.runs_under s.hall.now.setting).bounds.entries };

    ghost full = { λ s. length s.pass.now.seen == (M.runs_under s.hall.now.setting).bounds.entries };

    ghost number = { λ s. s.pass.now.caller };

    ghost goes_on = { λ s t. GoesOn s.pass t.pass × (t.hall.now ≡ s.hall.now) };

    ghost stays = { λ s. (stays s.pass, refl) };

    ghost goes_further = { λ s t u one two. (goes_further s.pass t.pass u.pass one.0 two.0, two.1 ∙ one.1) };

    fn call(&mut self, command: u32, op: Op) -> Result<Reply, AllocError> {
        self.gate.at(self.rt, self.lane, Point::BeforeCall);
        let answer = self.hall.call(self.rt, self.pass, command, op, None);
        self.gate.at(self.rt, self.lane, Point::AfterCall);
        answer
    }

    fn section(&mut self) {
        self.gate.at(self.rt, self.lane, Point::InSection);
    }
}
