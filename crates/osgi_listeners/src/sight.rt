//! What a listener sees of an entry.

ghost use Rattle.std.specs.Prelude.{◌↔◌, AllPairs, IsTrue};
ghost use Rattle.osgi_ops.specs.Listening.{ComesBefore};
ghost use Rattle.osgi_listeners.specs.Sights.{sight_of, sights_of};

use osgi_base::ListenerId;
use osgi_ops::Event;

/// How many places of the history an entry has: the happenings of entry `n` stand at the places from `n * ENTRY_PLACES` on.
pub const ENTRY_PLACES: u64 = 4_294_967_296;

/// A listener sees an event of an entry. `place` is the number of the happening among those of the entry.
#[derive(Clone, Copy)]
pub struct Sight {
    pub listener: ListenerId,
    pub place: u32,
    pub event: Event,
}

/// Whether sights stand in order: the lower places first, and of one place the lower listeners.
pub fn are_in_order(sights: &[Sight]) -> bool
    ensures in_order { IsTrue result ↔ AllPairs ComesBefore (sights_of sights.now) }
{
    for at in 1..sights.len() {
        if !comes_before(&sights[at - 1], &sights[at]) {
            return false;
        }
    }
    true
}

fn comes_before(first: &Sight, second: &Sight) -> bool
    ensures before { IsTrue result ↔ ComesBefore (sight_of first.now) (sight_of second.now) }
{
    first.place < second.place
        || first.place == second.place && first.listener.0 < second.listener.0
}
