//! The revision from which a bundle loads a class.

ghost use Rattle.std.specs.Prelude.{◌≡◌, ◌||◌, IfOk, is_none, is_some};
ghost use Rattle.osgi_ops.specs.declared.op.Op.TheVariants as op;
ghost use Rattle.osgi_ops.specs.rows.Bundles.{is_java_class};
ghost use Rattle.osgi_tables.specs.Replied.{IsAnsweredToAll};
ghost use Rattle.osgi_wiring.specs.States.{wiring_at};

use osgi_base::{BundleId, Text};
use osgi_ops::{Refusal, Reply};
use osgi_tables::Tables;
use osgi_wiring::Wirings;
use osgi_world::Known;
use std::alloc::{AllocError, Global};

/// Whether a class is one of those that no bundle has a file for.
fn is_java_class(class: &Text) -> bool
    ensures java { result ≡ is_java_class class.now }
{
    class.bytes().starts_with(b"java.")
}

/// Whether no class of this name is loaded for a revision: it is a fragment, or not in force, or the name begins with `java.`.
fn is_barred(wirings: &Wirings, known: &Known, class: &Text) -> bool
    ensures barred { result
        ≡
        (is_some known.now.revision.host || is_none
        (wiring_at wirings.now.world.wirings known.now.id) || is_java_class class.now) }
{
    known.revision.get().host.is_some()
        || wirings.wiring(known.id).is_none()
        || is_java_class(class)
}

/// The revision whose folder has the file of the class, as the bundle sees it; None where none has.
pub fn load(
    alloc: Global,
    tables: &Tables,
    bundle: BundleId,
    class: &Text,
) -> Result<Reply, AllocError>
    ensures replied { IfOk result (IsAnsweredToAll (op.Load bundle class.now) tables.now) }
{
    let wirings = tables.wirings.wirings();
    let Some(known) = wirings.current(bundle) else {
        let refusal = Refusal::NoSuchBundle;
        return Ok(Reply::Refused { refusal });
    };
    if is_barred(wirings, known, class) {
        let refusal = Refusal::InvalidOperation;
        return Ok(Reply::Refused { refusal });
    }
    let by = osgi_loader::load(alloc, wirings, known.id, class)?;
    Ok(Reply::Loaded { by })
}
