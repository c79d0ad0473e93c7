//! The rule of a hall's table, and what each atomic step on it shows the seat that makes it. The table has three words: the next
//! ticket, the place that is served, and the number of entries; and one slot, where the machine is while nobody has the turn.

use crate::board::View;
use crate::machine::Machine;
use atomic_table::{Join, Play, Split, TableRule};
use std::marker::PhantomData;
use std::snapshot::Snapshot;

/// The rule that each step keeps.
pub struct Turns<M> {
    machine: PhantomData<M>,
}

impl<M: Machine> TableRule<Option<M>, View<M::Op, M::Reply, M::Setting>, Snapshot<M>> for Turns<M> {
    ghost use Rattle.osgi_hall.specs.computed.Kept.{Kept};
    ghost use Rattle.osgi_hall.specs.computed.Steps.{first_view};

    ghost holds = { λ key. Kept M.entries M.setting M.can_make (M.setting key.value) };

    ghost first = { λ key. first_view (M.setting key.value) };
}

/// One is added to the next ticket: the seat draws a place.
pub(crate) struct DrawTicket;

impl<M, O, R, Z> Play<Option<M>, View<O, R, Z>> for DrawTicket {
    ghost use Rattle.osgi_hall.specs.computed.Steps.{drawn};

    ghost then = { drawn };
}

/// The served place is read: where it is the seat's own, the seat takes the machine's slot.
pub(crate) struct TakeTurn<M> {
    machine: PhantomData<M>,
}

impl<M: Machine> Play<Option<M>, View<M::Op, M::Reply, M::Setting>> for TakeTurn<M> {
    ghost use Rattle.osgi_hall.specs.computed.Steps.{found};

    ghost then = { found M.entries M.setting };
}

/// The number of entries is written: the seat gives the slot back and has seen the machine's history.
pub(crate) struct NoteEntries<M> {
    machine: PhantomData<M>,
}

impl<M: Machine> Play<Option<M>, View<M::Op, M::Reply, M::Setting>> for NoteEntries<M> {
    ghost use Rattle.osgi_hall.specs.computed.Steps.{noted};

    ghost then = { noted M.entries };
}

/// One is added to the served place: the seat gives the turn on.
pub(crate) struct GiveTurn;

impl<M, O, R, Z> Play<Option<M>, View<O, R, Z>> for GiveTurn {
    ghost use Rattle.osgi_hall.specs.computed.Steps.{given};

    ghost then = { given };
}

/// A word is read: the seat learns what the rule says of its view.
pub(crate) struct Look<M> {
    machine: PhantomData<M>,
}

impl<M: Machine> Play<Option<M>, View<M::Op, M::Reply, M::Setting>> for Look<M> {
    ghost use Rattle.osgi_hall.specs.computed.Steps.{looked};

    ghost then = { looked M.can_make };
}

/// Caller 0's seat makes another.
pub(crate) struct SplitOff;

impl<O, R, Z> Split<View<O, R, Z>> for SplitOff {
    ghost use Rattle.osgi_hall.specs.computed.Steps.{splitting, newcomer};

    ghost left = { splitting };

    ghost right = { newcomer };
}

/// Caller 0's seat takes another in, which is spent.
pub(crate) struct TakeIn;

impl<O, R, Z> Join<View<O, R, Z>> for TakeIn {
    ghost use Rattle.osgi_hall.specs.computed.Steps.{joining};
    ghost use Rattle.osgi_hall.specs.declared.board.View.TheVariants.{Spent};

    ghost both = { joining };

    ghost spent = { Spent };
}
