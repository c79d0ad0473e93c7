//! The best service that is open to who asks.

ghost use Rattle.std.specs.Prelude.{◌≡◌, None, Some, IfOk};
ghost use Rattle.osgi_ops.specs.declared.op.Op.TheVariants as op;
ghost use Rattle.osgi_tables.specs.Asked.{asker_refusal};
ghost use Rattle.osgi_tables.specs.Replied.{IsAnsweredToAll};

use osgi_base::{BundleId, Text};
use osgi_loader::is_assignable;
use osgi_model::Filter;
use osgi_ops::Reply;
use osgi_registry::Assignability;
use osgi_tables::Tables;
use osgi_wiring::Wirings;
use std::alloc::{AllocError, Global};

/// To whom services are assignable by the wirings in force.
#[derive(Drop)]
struct InForce<'a> {
    alloc: Global,
    wirings: &'a Wirings,
}

impl Assignability for InForce<'_> {
    ghost world = { λ in_force. in_force.wirings.now.world };

    fn is_assignable(
        &self,
        registrant: BundleId,
        asker: BundleId,
        class: &Text,
    ) -> Result<bool, AllocError> {
        is_assignable(self.alloc, self.wirings, registrant, asker, class)
    }
}

/// The best service of the class that the filter, if there is one, matches, and that is assignable to who asks for each of its
/// classes.
pub fn find(
    alloc: Global,
    tables: &Tables,
    asker: BundleId,
    class: &Text,
    filter: &Option<Filter>,
) -> Result<Reply, AllocError>
    requires asker { asker_refusal tables.now.bundles (Some asker) ≡ None }
    ensures replied { IfOk result
        (IsAnsweredToAll (op.Find asker class.now filter.now) tables.now) }
{
    let wirings = tables.wirings.wirings();
    let in_force = InForce { alloc, wirings };
    let service = tables
        .registry
        .find_by(class, filter.as_ref(), asker, &in_force)?;
    Ok(Reply::Best { service })
}
