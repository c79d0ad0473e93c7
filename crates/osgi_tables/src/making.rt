//! Changes made, and those told who see what happens.

ghost use Rattle.std.specs.Prelude.{◌≡◌, ◌<◌, ◌^◌, All, IfOk, OnErr};
ghost use Rattle.osgi_listeners.specs.Sights.{IsOfEarlier, sights_of};
ghost use Rattle.osgi_ops.specs.declared.asked.Asked.{Asked};
ghost use Rattle.osgi_ops.specs.declared.reply.Reply.{Reply};
ghost use Rattle.osgi_sights.specs.Sights.{AreSightsOf};
ghost use Rattle.osgi_tables.specs.Changes.{CanBeMade, cleaned_in, happened, IsReplyAndChange};
ghost use Rattle.osgi_tables.specs.Replied.{IsReplied, StandsStill};

use crate::change::Change;
use crate::happenings::happenings;
use crate::tables::Tables;
use osgi_base::BundleId;
use osgi_listeners::Sight;
use osgi_sights::sights;
use std::alloc::{AllocError, Global};

impl Change {
    /// The bundle that the change cleans, if it cleans one.
    fn cleaned(&self) -> Option<BundleId>
        ensures cleaned { result ≡ cleaned_in self.now }
    {
        match self {
            Change::EndStart {
                bundle,
                failed: true,
                ..
            }
            | Change::EndStop { bundle, .. } => Some(*bundle),
            _ => None,
        }
    }

    /// What the listeners see of what happens as the change is made.
    fn sights(&self, alloc: Global, tables: &Tables) -> Result<Vec<Sight>, AllocError>
        ensures small { IfOk result (λ told. All (λ s. s.place < 2 ^ 32) (sights_of told.items)) }
        ensures sights { IfOk result (λ told.
            AreSightsOf tables.now.listeners (cleaned_in self.now) tables.now.wirings.world
            (happened self.now tables.now.registry tables.now.bundles) (sights_of told.items)) }
    {
        let happened = happenings(alloc, &tables.registry, &tables.bundles, self)?;
        sights(
            alloc,
            &tables.listeners,
            tables.wirings.wirings(),
            &happened,
            self.cleaned(),
        )
    }

    /// Makes the change, by the entry before which there are so many, and has each listener told what it sees of what happens; this
    /// is answered. If memory runs out, the tables stand for what they did.
    ///
    /// Whatever was asked for, and is decided to have this change, is then replied to as it was decided.
    pub fn make(
        self,
        alloc: Global,
        tables: &mut Tables,
        entries: u64,
    ) -> Result<Vec<Sight>, AllocError>
        requires possible { CanBeMade self tables.old }
        requires countable { entries < 4294967295 }
        requires earlier { All (IsOfEarlier entries) tables.old.listeners.rows }
        ensures replied { IfOk result (λ told.
            (asked : Asked) (reply : Reply)
            → IsReplyAndChange asked tables.old reply self
            → IsReplied entries asked tables.old tables.new reply (sights_of told.items)) }
        ensures unchanged { OnErr result (StandsStill tables.old tables.new) }
    {
        let told = self.sights(alloc, tables)?;
        tables.listeners.reserve_for(told.as_slice())?;
        self.commit(tables)?;
        tables.listeners.deliver_all(entries, told.as_slice());
        Ok(told)
    }
}
