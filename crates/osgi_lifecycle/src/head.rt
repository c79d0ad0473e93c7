//! What a plan does next, before it is known whether events are handed first.

ghost use Rattle.std.specs.Prelude.{◌≡◌};
ghost use Rattle.osgi_session.specs.Plans.{end_of, after_one, after_register, after_find, stop};
ghost use Rattle.osgi_session.specs.Steps.{at_end, first_step};
ghost use Rattle.osgi_lifecycle.specs.Following.{after_fail, end_in, left_of};
ghost use Rattle.osgi_lifecycle.specs.Pendings.{IsNext};
ghost use Rattle.osgi_lifecycle.specs.declared.rest.Rest.{Rest};

use crate::next::Next;
use osgi_base::{BundleId, ServiceId};
use osgi_ops::{Op, Reply, Section};

/// How a plan ended.
#[derive(Clone, Copy)]
pub enum End {
    Done,
    /// It found or registered a service, or found none.
    Bound { service: Option<ServiceId> },
    Refused,
    /// It said that its section fails.
    Failed,
}

/// What comes next of a plan's own. It is no `Next`: a drain is none of these, since where one comes first is asked afterwards, of
/// the reply before (`Plan::next`).
pub enum Head {
    Ask {
        op: Op,
    },
    Run {
        row: u32,
        owner: BundleId,
        section: Section,
    },
    Stop {
        end: End,
    },
}

/// Not derived, so that each exit at which one is dropped is a single call, which is cheap to prove.
impl Drop for Head {
    fn drop(self) {
        match self {
            Head::Ask { op: _ } => {}
            Head::Run {
                row: _,
                owner: _,
                section: _,
            } => {}
            Head::Stop { end: _ } => {}
        }
    }
}

impl Head {
    /// The step.
    pub fn into_next(self) -> Next
        ensures next { (rest : Rest) → IsNext result (first_step (left_of self rest)).next }
    {
        match self {
            Head::Ask { op } => Next::Do { op },
            Head::Run {
                row,
                owner,
                section,
            } => Next::Run {
                row,
                owner,
                section,
            },
            Head::Stop { end } => end.into_next(),
        }
    }
}

impl End {
    fn into_next(self) -> Next
        ensures next { IsNext result (at_end (end_in self)) }
    {
        let (refused, failed, bound) = match self {
            End::Done => (false, false, None),
            End::Bound { service } => (false, false, Some(service.unwrap_or(ServiceId(0)))),
            End::Refused => (true, false, None),
            End::Failed => (false, true, None),
        };
        Next::End {
            refused,
            failed,
            bound,
        }
    }

    /// The end of a plan of which something was refused, or nothing.
    pub fn of(refused: bool) -> End
        ensures end { end_in result ≡ end_of refused }
    {
        if refused { End::Refused } else { End::Done }
    }

    /// The end after the last operation.
    pub fn after_one(reply: &Reply) -> End
        ensures end { stop (end_in result) ≡ after_one reply.now }
    {
        End::of(reply.is_refusal())
    }

    /// The end after a service was to be registered.
    pub fn after_register(reply: &Reply) -> End
        ensures end { stop (end_in result) ≡ after_register reply.now }
    {
        match reply {
            &Reply::Service { service } => End::Bound {
                service: Some(service),
            },
            _ => End::after_one(reply),
        }
    }

    /// The end after a service was sought.
    pub fn after_find(reply: &Reply) -> End
        ensures end { stop (end_in result) ≡ after_find reply.now }
    {
        match reply {
            &Reply::Best { service } => End::Bound { service },
            _ => End::after_one(reply),
        }
    }

    /// The end after a plan said that its section fails.
    pub fn after_fail(reply: &Reply) -> End
        ensures end { stop (end_in result) ≡ after_fail reply.now }
    {
        if reply.is_refusal() {
            End::Refused
        } else {
            End::Failed
        }
    }
}
