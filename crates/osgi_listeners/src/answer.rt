//! What a hand answers.

use osgi_base::{List, ListenerId};
use osgi_ops::{Busy, Event};

/// The event that is handed, and to whom; or that nothing can be handed now, with the listeners that wait for the end of their
/// turn with events still to come.
#[derive(Drop)]
pub enum HandAnswer {
    Handed { listener: ListenerId, event: Event },
    Nothing { busy: List<Busy> },
}
