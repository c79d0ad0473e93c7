//! The machine in a hall, whose callers may be in many threads.

ghost use Rattle.std.proofs.Common.{refl};
ghost use Rattle.std.specs.Prelude.{◌≡◌, map, IfSome};
ghost use Rattle.osgi_core.specs.Ruled.{can_make, gives, HintsNothing, TellsNothing};
ghost use Rattle.osgi_framework.specs.Entries.{as_hall};
ghost use Rattle.osgi_framework.specs.Full.{is_recorded};
ghost use Rattle.osgi_hall.specs.Histories.{IsApplied, TellsOfPrefix};

use crate::machine::Core;
use osgi_base::Tag;
use osgi_framework::Framework;
use osgi_hall::Machine;
use osgi_ops::{Depot, Limits, Op, Refusal, Reply};
use std::alloc::AllocError;
use std::convert::Infallible;
use std::marker::Model;
use std::sync::Wait;

/// What a machine runs under. Only contracts speak of it, and see it as a setting: no value of it is made.
pub struct Ruling {
    pub limits: Limits,
    pub depot: Depot,
}

impl Model for Ruling {
    ghost use Rattle.osgi_ops.specs.Settings.{Setting, setting_of};
    ghost use Rattle.std.specs.Coded.{codes};
    ghost use Rattle.osgi_model.specs.contracts.filter.Filter as filter;
    ghost use Rattle.osgi_model.specs.contracts.value.Value as value;

    ghost Value = { Setting };

    ghost coded = { Prim.hlevel (codes, filter.the_row.coded, value.the_row.coded) };

    ghost view = { λ r. setting_of r.limits r.depot };
}

impl Machine for Core {
    type Op = Op;

    type Reply = Reply;

    type Setting = Ruling;

    /// There is none yet.
    type Hint = Infallible;

    /// Nothing can be asked yet.
    type Ask = Infallible;

    type View = Infallible;

    ghost entries = { λ core. map as_hall core.entries };

    ghost setting = { λ core. core.setting };

    ghost can_make = { can_make };

    ghost is_recorded = { is_recorded };

    ghost gives = { gives };

    ghost hints = { HintsNothing };

    ghost tells = { TellsNothing };

    fn recorded(reply: &Reply) -> bool {
        !matches!(
            reply,
            Reply::Refused {
                refusal: Refusal::HistoryFull
            }
        )
    }

    fn length(&self) -> u64 {
        self.entries().len() as u64
    }

    // The clauses of the trait: the kit does not take them over where a parameter is an `Option` of an associated type.
    fn apply(&mut self, tag: Tag, op: Op, _hint: Option<Infallible>) -> Result<Reply, AllocError>
        requires hint { IfSome _hint (TellsOfPrefix (HintsNothing self.old.setting) (map as_hall self.old.entries)) }
        ensures setting { self.new.setting ≡ self.old.setting }
        ensures applied { IsApplied is_recorded (gives self.old.setting) (map as_hall self.old.entries) (map as_hall self.new.entries) tag op result }
    {
        // What holds of the machine at all times is said where it is asked for.
        let _ = self.world();
        Core::apply(self, tag, op)
    }

    fn view<R: Wait>(&mut self, _rt: &R, ask: Infallible) -> Result<Infallible, AllocError> {
        match ask {}
    }
}

impl Framework for Core {
    ghost runs_under = { λ setting. setting };

    ghost made_is = { λ setting history. (λ made. made, λ legal. legal) };

    ghost recorded_is = { λ reply. refl };

    ghost gives_is = { λ setting history op reply. (λ given. given, λ full. full) };
}
