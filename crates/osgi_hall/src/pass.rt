//! What a caller calls with.

ghost use Rattle.std.specs.Prelude.{◌≡◌};

use crate::board::View;
use crate::machine::Machine;
use atomic_table::Seat;
use std::marker::Model;

/// The handle of one caller of a hall. Contracts see its hall, its caller's number, the history that it has seen, and the
/// caller's own calls in it. The pass of caller 0 knows besides how many passes were made, how many others are out, and the
/// callers that have joined. A pass that is dropped stays out for good.
#[derive(Drop)]
pub struct Pass<M: Machine> {
    pub(crate) seat: Seat<Option<M>, View<M::Op, M::Reply, M::Setting>>,
    pub(crate) caller: u32,
    pub(crate) made: u32,
    pub(crate) out: u32,
}

impl<M: Machine> Model for Pass<M> {
    ghost use Rattle.osgi_hall.specs.Passes.{PassView};
    ghost use Rattle.osgi_hall.specs.computed.Shown.{pass_view, IsAtRest};

    ghost Value = { PassView M.Op M.Reply M.Setting };

    ghost view = { λ p. pass_view p.seat.table_id p.seat.me.0 };

    ghost invariant = { λ p. IsAtRest M.can_make p.caller p.made p.out p.seat.me };
}

impl<M: Machine> Pass<M> {
    ghost use Rattle.osgi_hall.specs.Passes.{IsLegal};

    /// The caller's number, by which its entries are tagged. What a pass has seen is always legal, and who was handed a pass
    /// learns it by this call.
    pub fn caller(&self) -> u32
        ensures caller { result ≡ self.now.caller }
        ensures legal { IsLegal M.can_make self.now }
    {
        self.caller
    }

    /// How many passes were made so far, that of caller 0 among them.
    pub fn made(&self) -> u32
        requires first { self.now.caller ≡ 0 }
        ensures made { result ≡ self.now.made }
    {
        self.made
    }

    /// How many other passes have not joined.
    pub fn out(&self) -> u32
        requires first { self.now.caller ≡ 0 }
        ensures out { result ≡ self.now.out }
    {
        self.out
    }
}
