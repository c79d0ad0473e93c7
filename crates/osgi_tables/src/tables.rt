//! The tables that operations read and change.

use osgi_brackets::Brackets;
use osgi_bundle::{IndexedDepot, Table};
use osgi_jobs::Jobs;
use osgi_listeners::Listeners;
use osgi_ops::Depot;
use osgi_registry::Registry;
use osgi_resolver::IndexedWirings;

/// The depot and the limit on the effort of a resolve, which never change; the services that are live, the bundles, the
/// wirings in force, the starts and stops that callers have begun and not ended, the live listeners with the events that wait
/// for them, how many hands may still hand one, and the jobs that are queued.
pub struct Tables {
    pub depot: IndexedDepot,
    pub budget: u64,
    pub registry: Registry,
    pub bundles: Table,
    pub wirings: IndexedWirings,
    pub brackets: Brackets,
    pub listeners: Listeners,
    pub handings_left: u64,
    pub jobs: Jobs,
}

/// Not derived, so that each exit at which one is dropped is a single call, which is cheap to prove.
impl Drop for Tables {
    fn drop(self) {
        let Tables {
            depot: _,
            budget: _,
            registry: _,
            bundles: _,
            wirings: _,
            brackets: _,
            listeners: _,
            handings_left: _,
            jobs: _,
        } = self;
    }
}

impl Tables {
    ghost use Rattle.std.specs.Prelude.{◌≡◌};

    /// The depot, without a copy.
    pub fn into_depot(self) -> Depot
        ensures depot { result ≡ self.depot }
    {
        let Tables {
            depot,
            budget: _,
            registry: _,
            bundles: _,
            wirings: _,
            brackets: _,
            listeners: _,
            handings_left: _,
            jobs: _,
        } = self;
        depot.into_depot()
    }
}
