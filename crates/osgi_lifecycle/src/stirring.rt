//! After which operations events are handed.

ghost use Rattle.std.specs.Prelude.{◌≡◌};
ghost use Rattle.osgi_lifecycle.specs.Draining.{begins_to_wait, drained_by, has_begun};
ghost use Rattle.osgi_ops.specs.Replies.{took_effect};
ghost use Rattle.osgi_session.specs.Plans.{stirs};

use osgi_ops::{Op, Refusal, Reply};

/// What of an operation is kept while its reply is awaited: after which replies something may wait to be handed to a listener.
#[derive(Clone, Copy)]
pub enum Stirring {
    Never,
    /// Where it was accepted.
    Accepted,
    /// Where a start or a stop began.
    Begun,
    /// Where a bundle began to wait.
    Waiting,
    /// Where it was accepted, or refused because a section failed.
    Effective,
    Always,
}

/// Whether a start or a stop began.
fn has_begun(reply: &Reply) -> bool
    ensures begun { result ≡ has_begun reply.now }
{
    matches!(reply, Reply::Begun { .. })
}

/// Whether a bundle began to wait.
fn begins_to_wait(reply: &Reply) -> bool
    ensures waited { result ≡ begins_to_wait reply.now }
{
    matches!(reply, Reply::Waiting { .. })
}

/// Whether the operation took effect: it was accepted, or refused because the section of a start or a stop failed.
fn took_effect(reply: &Reply) -> bool
    ensures effective { result ≡ took_effect reply.now }
{
    match reply {
        Reply::Refused { refusal } => matches!(refusal, Refusal::ActivatorError),
        _ => true,
    }
}

impl Stirring {
    pub fn of(op: &Op) -> Stirring
        ensures stirs { drained_by result ≡ stirs op.now }
    {
        match op {
            Op::Register { .. }
            | Op::Modify { .. }
            | Op::Unregister { .. }
            | Op::Install { .. }
            | Op::Resolve { .. }
            | Op::Update { .. }
            | Op::Uninstall { .. }
            | Op::DropWirings
            | Op::EndRefresh
            | Op::EndLevel => Stirring::Accepted,
            Op::BeginStart { .. } | Op::BeginStop { .. } => Stirring::Begun,
            Op::EndStart { .. } | Op::EndStop { .. } => Stirring::Effective,
            Op::Await { .. } => Stirring::Waiting,
            Op::EndMake { .. } => Stirring::Always,
            _ => Stirring::Never,
        }
    }

    /// Whether events are handed after the reply.
    pub fn is_drained(self, reply: &Reply) -> bool
        ensures drained { result ≡ drained_by self reply.now }
    {
        match self {
            Stirring::Never => false,
            Stirring::Accepted => !reply.is_refusal(),
            Stirring::Begun => has_begun(reply),
            Stirring::Waiting => begins_to_wait(reply),
            Stirring::Effective => took_effect(reply),
            Stirring::Always => true,
        }
    }
}
