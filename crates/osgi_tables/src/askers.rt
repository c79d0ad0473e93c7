//! Who asks for an operation, and whether that bundle may.

ghost use Rattle.std.specs.Prelude.{◌≡◌};
ghost use Rattle.osgi_bundle.specs.Rows.{state_at};
ghost use Rattle.osgi_tables.specs.Asked.{asker_here, asker_refusal, refusal_by};

use osgi_base::BundleId;
use osgi_bundle::Table;
use osgi_ops::{Op, Refusal, UNINSTALLED, is_up};

/// The bundle that asks for an operation that the framework has, where one does.
fn asker(op: &Op) -> Option<BundleId>
    ensures asker { result ≡ asker_here op.now }
{
    match op {
        Op::Register { owner, .. } | Op::Modify { owner, .. } | Op::Unregister { owner, .. } => {
            Some(*owner)
        }
        Op::Find { asker, .. } | Op::FindAll { asker, .. } => Some(*asker),
        Op::Get { user, .. } | Op::Unget { user, .. } => Some(*user),
        Op::AddListener { owner, .. } | Op::RemoveListener { owner, .. } => Some(*owner),
        Op::QueueJob { owner, .. } | Op::Print { owner, .. } | Op::Fail { owner, .. } => {
            Some(*owner)
        }
        _ => None,
    }
}

/// Why a bundle may not ask for anything, if there is a reason: it is not there, or it is not up.
fn refusal_of(bundles: &Table, asker: BundleId) -> Option<Refusal>
    ensures refusal { result ≡ refusal_by (state_at asker bundles.now) }
{
    match bundles.state(asker) {
        None | Some(UNINSTALLED) => Some(Refusal::NoSuchBundle),
        Some(state) if is_up(state) => None,
        Some(_) => Some(Refusal::InvalidOperation),
    }
}

/// Why the bundle that asks for an operation may not, if there is one and a reason.
pub fn asker_refusal(bundles: &Table, op: &Op) -> Option<Refusal>
    ensures refusal { result ≡ asker_refusal bundles.now (asker_here op.now) }
{
    refusal_of(bundles, asker(op)?)
}
