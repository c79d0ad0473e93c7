//! What an operation changes in the tables.

ghost use Rattle.std.specs.Prelude.{◌≡◌, ◌<◌, All, OnOk, OnErr};
ghost use Rattle.osgi_bundle.specs.Rows.{IsSettable};
ghost use Rattle.osgi_bundle.specs.Stands.{StandsAfter};
ghost use Rattle.osgi_tables.specs.Replied.{IsBrought, IsSame, StandsStill};
ghost use Rattle.osgi_tables.specs.Changes.{CanBeAdded, Changes, CanBeMade, with_resolved};
ghost use Rattle.osgi_wiring.specs.States.{IsKeptWorld, MayExtend, with_wirings};

use crate::tables::Tables;
use osgi_base::{BundleId, List, ListenerId, Shared, Tag, Text};
use osgi_bundle::{BundleKept, Table};
use osgi_model::Filter;
use osgi_ops::Kind;
use osgi_reply_services::ServiceChange;
use osgi_resolver::IndexedWirings;
use osgi_world::{Revision, Wiring};
use std::alloc::AllocError;

/// A change of the tables, decided and not yet made.
pub enum Change {
    Nothing,
    /// The registry changes.
    Services {
        change: ServiceChange,
    },
    /// The bundle is installed, and its revision becomes known.
    Install {
        made: BundleKept,
        revision: Shared<Revision>,
    },
    /// The wirings are put in force, which resolves these bundles.
    Resolve {
        added: List<Wiring>,
        resolved: List<BundleId>,
    },
    /// The owner's listener of this name is added, under the next id.
    Listen {
        owner: BundleId,
        name: Text,
        kind: Kind,
        filter: Option<Filter>,
    },
    /// The owner's listener of this name goes, if there is one.
    Unlisten {
        owner: BundleId,
        name: Text,
    },
    /// The earliest event that waits is handed to this listener, for the line of the tag.
    Hand {
        tag: Tag,
        listener: ListenerId,
    },
    /// A job of the owner is queued, by the name of its section.
    Queue {
        owner: BundleId,
        name: Text,
    },
    /// The oldest job is taken, for the line of the tag.
    TakeJob {
        tag: Tag,
    },
    /// The start of the bundle begins, for the line of the tag.
    BeginStart {
        tag: Tag,
        bundle: BundleId,
    },
    /// The start that the line of the tag began ends. Where it failed, the bundle's services, uses,
    /// listeners and jobs go.
    EndStart {
        tag: Tag,
        bundle: BundleId,
        failed: bool,
    },
    /// The stop of the bundle begins, for the line of the tag.
    BeginStop {
        tag: Tag,
        bundle: BundleId,
    },
    /// The stop that the line of the tag began ends, and the bundle's services, uses, listeners and jobs go.
    EndStop {
        tag: Tag,
        bundle: BundleId,
    },
}

/// Not derived, so that each exit at which one is dropped is a single call, which is cheap to prove.
impl Drop for Change {
    fn drop(self) {
        match self {
            Change::Nothing => {}
            Change::Services { change: _ } => {}
            Change::Install {
                made: _,
                revision: _,
            } => {}
            Change::Resolve {
                added: _,
                resolved: _,
            } => {}
            Change::Listen {
                owner: _,
                name: _,
                kind: _,
                filter: _,
            } => {}
            Change::Unlisten { owner: _, name: _ } => {}
            Change::Hand {
                tag: _,
                listener: _,
            } => {}
            Change::Queue { owner: _, name: _ } => {}
            Change::TakeJob { tag: _ } => {}
            Change::BeginStart { tag: _, bundle: _ } => {}
            Change::EndStart {
                tag: _,
                bundle: _,
                failed: _,
            } => {}
            Change::BeginStop { tag: _, bundle: _ } => {}
            Change::EndStop { tag: _, bundle: _ } => {}
        }
    }
}

impl Change {
    /// Makes the change. If memory runs out, the tables stand for what they did.
    pub(crate) fn commit(self, tables: &mut Tables) -> Result<(), AllocError>
        requires possible { CanBeMade self tables.old }
        ensures changed { OnOk result (Changes self tables.old tables.new) }
        ensures unchanged { OnErr result (StandsStill tables.old tables.new) }
    {
        match self {
            Change::Nothing => Ok(()),
            Change::Services { change } => {
                change.commit(&mut tables.registry)?;
                Ok(())
            }
            Change::Install { made, revision } => {
                install(&mut tables.bundles, &mut tables.wirings, made, revision)?;
                Ok(())
            }
            Change::Resolve { added, resolved } => {
                extend(&mut tables.bundles, &mut tables.wirings, added, &resolved)?;
                Ok(())
            }
            Change::Listen {
                owner,
                name,
                kind,
                filter,
            } => tables.listen(owner, name, kind, filter),
            Change::Unlisten { owner, name } => {
                tables.listeners.remove(owner, &name);
                Ok(())
            }
            Change::Hand { tag, listener } => tables.hand(tag, listener),
            Change::Queue { owner, name } => tables.jobs.queue(owner, name),
            Change::TakeJob { tag } => tables.take_job(tag),
            Change::BeginStart { tag, bundle } => tables.begin_start(tag, bundle),
            Change::EndStart {
                tag,
                bundle,
                failed,
            } => tables.end_start(tag, bundle, failed),
            Change::BeginStop { tag, bundle } => tables.begin_stop(tag, bundle),
            Change::EndStop { tag, bundle } => tables.end_stop(tag, bundle),
        }
    }
}

/// Adds a bundle to the table, and its revision to those that are known.
fn install(
    bundles: &mut Table,
    wirings: &mut IndexedWirings,
    made: BundleKept,
    revision: Shared<Revision>,
) -> Result<(), AllocError>
    requires can { CanBeAdded made bundles.old wirings.old }
    ensures stands { OnOk result
        (StandsAfter made.location made.name made.version made.fragment made.row made.bundle
        bundles.old bundles.new) }
    ensures known { OnOk result (IsBrought made.bundle revision wirings.old wirings.new) }
    ensures unchanged { OnErr result
        ((bundles.new ≡ bundles.old) × IsSame wirings.old wirings.new) }
{
    // The room is taken first: once the table has changed nothing may fail.
    wirings.reserve()?;
    let bundle = made.bundle;
    bundles.insert(made)?;
    wirings.add(bundle, revision)?;
    Ok(())
}

/// Puts wirings in force, and says in the table that bundles are resolved.
fn extend(
    bundles: &mut Table,
    wirings: &mut IndexedWirings,
    added: List<Wiring>,
    resolved: &List<BundleId>,
) -> Result<(), AllocError>
    requires extends { MayExtend wirings.old.world added }
    requires settable { All (λ b. IsSettable b bundles.old.rows) resolved.now }
    ensures world { OnOk result (wirings.new.world ≡ with_wirings wirings.old.world added) }
    ensures holds { OnOk result (IsKeptWorld wirings.new.world wirings.new.issued) }
    ensures issued { wirings.new.issued ≡ wirings.old.issued }
    ensures rows { OnOk result (bundles.new.rows ≡ with_resolved resolved.now bundles.old.rows) }
    ensures given { bundles.new.issued ≡ bundles.old.issued }
    ensures bundles_unchanged { OnErr result (bundles.new ≡ bundles.old) }
    ensures wirings_unchanged { OnErr result (wirings.new ≡ wirings.old) }
{
    wirings.extend(added)?;
    set_resolved(bundles, resolved.items());
    Ok(())
}

/// Says in the table that bundles are resolved.
fn set_resolved(bundles: &mut Table, list: &[BundleId])
    requires settable { All (λ b. IsSettable b bundles.old.rows) list.now }
    ensures rows { bundles.new.rows ≡ with_resolved list.now bundles.old.rows }
    ensures issued { bundles.new.issued ≡ bundles.old.issued }
{
    for bundle in list {
        bundles.set_resolved(*bundle, true);
    }
}
