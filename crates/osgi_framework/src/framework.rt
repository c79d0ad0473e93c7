//! A machine of a hall that is a framework.

ghost use Rattle.std.specs.Prelude.{◌≡◌, ◌↔◌, List, map};
ghost use Rattle.osgi_framework.specs.Entries.{from_hall};
ghost use Rattle.osgi_framework.specs.Full.{is_recorded, IsFullReply};
ghost use Rattle.osgi_hall.specs.declared.entry.Entry.{Entry};
ghost use Rattle.osgi_legal.specs.Legal.{Legal};
ghost use Rattle.osgi_ops.specs.Settings.{Setting};
ghost use Rattle.osgi_ops.specs.declared.op.Op.{Op};
ghost use Rattle.osgi_ops.specs.declared.reply.Reply.{Reply};

use osgi_hall::Machine;
use osgi_ops::{Op, Reply};

/// A machine that runs under limits and a depot, as its setting says, and whose histories are the legal ones.
pub trait Framework: Machine<Op = Op, Reply = Reply> {
    /// What a framework of this setting runs under.
    ghost runs_under: { Self.Setting → Setting };

    /// It can make exactly the legal histories.
    ghost made_is: { (z : Self.Setting) (history : List (Entry Op Reply)) → Self.can_make z history ↔ Legal (runs_under z) (map from_hall history) };

    /// It records every reply but that the history is full.
    ghost recorded_is: { (reply : Reply) → Self.is_recorded reply ≡ is_recorded reply };

    /// And it gives that one exactly where the history has as many entries as it may have.
    ghost gives_is: { (z : Self.Setting) (history : List (Entry Op Reply)) (op : Op) (reply : Reply) → Self.gives z history op reply ↔ IsFullReply (runs_under z) history reply };
}
