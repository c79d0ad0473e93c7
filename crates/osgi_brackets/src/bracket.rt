//! A bracket, and which operations open and end one.

ghost use Rattle.std.specs.Prelude.{◌≡◌};
ghost use Rattle.std.specs.Option.{option_map};
ghost use Rattle.osgi_ops.specs.Brackets.{ends, opens};
ghost use Rattle.osgi_brackets.specs.Kinds.{cause_of};

use osgi_base::{BundleId, ListenerId, ServiceId};
use osgi_ops::{Op, Reply};

/// What a bracket is open for.
#[derive(Clone, Copy)]
pub enum BracketKind {
    /// An event that is handed to this listener.
    Hand(ListenerId),
    /// The start of this bundle.
    Start(BundleId),
    /// The stop of this bundle.
    Stop(BundleId),
    /// A job.
    Job,
    /// The making of an object.
    Make(Making),
}

/// For which user, of which service, whether the user asked for one of its own, and whose factory makes it.
#[derive(Clone, Copy)]
pub struct Making {
    pub user: BundleId,
    pub service: ServiceId,
    pub asked_own: bool,
    pub owner: BundleId,
}

/// An open bracket of a caller: the number of the line that opened it, and what it is open for.
#[derive(Clone, Copy)]
pub struct OpenBracket {
    pub command: u32,
    pub kind: BracketKind,
}

/// What an operation with its reply opens a bracket for, if it opens one.
pub fn opens(op: &Op, reply: &Reply) -> Option<BracketKind>
    ensures opens { option_map cause_of result ≡ opens op.now reply.now }
{
    match (op, reply) {
        (Op::Hand, Reply::Handed { listener, .. }) => Some(BracketKind::Hand(*listener)),
        (Op::TakeJob, Reply::Job { .. }) => Some(BracketKind::Job),
        (Op::BeginStart { bundle, .. }, Reply::Begun { .. }) => Some(BracketKind::Start(*bundle)),
        (Op::BeginStop { .. }, Reply::Begun { bundle, .. }) => Some(BracketKind::Stop(*bundle)),
        (Op::Get { user, service }, Reply::Make { owner, .. }) => {
            Some(BracketKind::Make(Making {
                user: *user,
                service: *service,
                asked_own: false,
                owner: *owner,
            }))
        }
        (Op::GetOwn { user, service }, Reply::Make { owner, .. }) => {
            Some(BracketKind::Make(Making {
                user: *user,
                service: *service,
                asked_own: true,
                owner: *owner,
            }))
        }
        _ => None,
    }
}

/// Whether an operation is the end of what a bracket is open for.
pub fn ends(op: &Op, kind: BracketKind) -> bool
    ensures ends { result ≡ ends op.now (cause_of kind) }
{
    match (op, kind) {
        (Op::EndHand { listener }, BracketKind::Hand(held)) => *listener == held,
        (Op::EndJob, BracketKind::Job) => true,
        (Op::EndStart { bundle, .. }, BracketKind::Start(begun)) => *bundle == begun,
        (Op::EndStop { bundle, .. }, BracketKind::Stop(begun)) => *bundle == begun,
        (Op::EndMake { .. }, BracketKind::Make(_)) => true,
        _ => false,
    }
}
