//! What the framework answers to an operation.

ghost use Rattle.std.specs.Prelude.{◌≡◌, IfOk};

use crate::event::{Busy, Event};
use crate::kind::Kind;
use crate::object_id::ObjectId;
use crate::refusal::Refusal;
use crate::rows::{BundleRow, WireRow};
use crate::service::ServiceRow;
use osgi_base::{
    BundleId, Copied, List, ListenerId, RevisionId, ServiceId, Text, copy_option, copy_two,
};
use std::alloc::{AllocError, Global};

pub enum Reply {
    /// The service was registered under this id.
    Service {
        service: ServiceId,
    },
    /// It was done.
    Done,
    /// The best service, if there is one.
    Best {
        service: Option<ServiceId>,
    },
    /// These services, the best first.
    Services {
        services: List<ServiceId>,
    },
    /// The service's object.
    Object {
        text: Text,
    },
    /// The object of a service that a factory made for the user.
    Held {
        object: ObjectId,
        text: Text,
    },
    /// The object is to be made: by the section of the name in the script of the owner's depot row.
    Make {
        owner: BundleId,
        row: u32,
        name: Text,
    },
    /// Whether there was something to take back.
    Flag {
        value: bool,
    },
    /// The listener was added under this id.
    Listener {
        listener: ListenerId,
    },
    /// The event is handed to this listener of this kind, whose section is that of the name in the script of the owner's depot
    /// row.
    Handed {
        listener: ListenerId,
        kind: Kind,
        owner: BundleId,
        row: u32,
        name: Text,
        event: Event,
    },
    /// No event can be handed now. Each listener that has an event to come is busy with another one; these are they, by rising
    /// id.
    Nothing {
        busy: List<Busy>,
    },
    /// The job that was taken: the section of the name in the script of the owner's depot row.
    Job {
        owner: BundleId,
        row: u32,
        name: Text,
    },
    /// No job is queued.
    NoJob,
    /// The bundle at the location, and whether it was known before.
    Bundle {
        bundle: BundleId,
        known: bool,
    },
    /// These bundles were resolved, by rising id.
    Resolved {
        added: List<BundleId>,
    },
    /// The bundle is to be started.
    Go {
        bundle: BundleId,
    },
    /// The bundle is active already.
    Active {
        bundle: BundleId,
    },
    /// The bundle is not started now: its start level is above the active one, or above the target of a change of the level
    /// under way. The start was not transient: a wish to start the bundle marks it to be started with its level.
    Kept {
        bundle: BundleId,
    },
    /// The start or stop of the bundle began; its script is that of this depot row.
    Begun {
        bundle: BundleId,
        row: u32,
    },
    /// The bundle waits, and is started when a class of it is loaded that its policy names.
    Waiting {
        bundle: BundleId,
    },
    /// The bundle does not wait to be started.
    Eager {
        bundle: BundleId,
    },
    /// The bundle was installed or resolved, so there was nothing to stop.
    Idle {
        bundle: BundleId,
    },
    /// The bundles that are refreshed, by rising id, and those of them that are active, in the order of stopping.
    Closure {
        all: List<BundleId>,
        active: List<BundleId>,
    },
    /// These bundles.
    Ids {
        ids: List<BundleId>,
    },
    /// The active start level, and the one that it is to become.
    Level {
        from: u8,
        to: u8,
    },
    /// The active start level moved; these bundles are to be started.
    Moved {
        start: List<BundleId>,
    },
    /// The level was set. Whether the bundle is to be started now.
    Leveled {
        value: bool,
    },
    /// The bundle is active, and is to be stopped before its level is set.
    Up {
        bundle: BundleId,
    },
    /// The revision that the class is loaded from, if there is one.
    Loaded {
        by: Option<RevisionId>,
    },
    /// The same, where the load added a wire, which is shown, or a bundle is to be started that waited for the class.
    LoadedMore {
        by: Option<RevisionId>,
        wire: Option<WireRow>,
        wake: Option<BundleId>,
    },
    /// All live bundles, by rising id.
    Bundles {
        rows: List<BundleRow>,
    },
    /// All live services, by rising id.
    ServiceRows {
        rows: List<ServiceRow>,
    },
    /// The wires of the bundle, in the order of its requirements, its own before its fragments', those of one requirement in the
    /// order of its candidates; and its fragments.
    Wires {
        rows: List<WireRow>,
        fragments: List<WireRow>,
    },
    /// It was refused.
    Refused {
        refusal: Refusal,
    },
}

/// Not derived, so that each exit at which one is dropped is a single call, which is cheap to prove.
impl Drop for Reply {
    fn drop(self) {
        match self {
            Reply::Service { service: _ } => {}
            Reply::Done => {}
            Reply::Best { service: _ } => {}
            Reply::Services { services: _ } => {}
            Reply::Object { text: _ } => {}
            Reply::Held { object: _, text: _ } => {}
            Reply::Make {
                owner: _,
                row: _,
                name: _,
            } => {}
            Reply::Flag { value: _ } => {}
            Reply::Listener { listener: _ } => {}
            Reply::Handed {
                listener: _,
                kind: _,
                owner: _,
                row: _,
                name: _,
                event: _,
            } => {}
            Reply::Nothing { busy: _ } => {}
            Reply::Job {
                owner: _,
                row: _,
                name: _,
            } => {}
            Reply::NoJob => {}
            Reply::Bundle {
                bundle: _,
                known: _,
            } => {}
            Reply::Resolved { added: _ } => {}
            Reply::Go { bundle: _ } => {}
            Reply::Active { bundle: _ } => {}
            Reply::Kept { bundle: _ } => {}
            Reply::Begun { bundle: _, row: _ } => {}
            Reply::Waiting { bundle: _ } => {}
            Reply::Eager { bundle: _ } => {}
            Reply::Idle { bundle: _ } => {}
            Reply::Closure { all: _, active: _ } => {}
            Reply::Ids { ids: _ } => {}
            Reply::Level { from: _, to: _ } => {}
            Reply::Moved { start: _ } => {}
            Reply::Leveled { value: _ } => {}
            Reply::Up { bundle: _ } => {}
            Reply::Loaded { by: _ } => {}
            Reply::LoadedMore {
                by: _,
                wire: _,
                wake: _,
            } => {}
            Reply::Bundles { rows: _ } => {}
            Reply::ServiceRows { rows: _ } => {}
            Reply::Wires {
                rows: _,
                fragments: _,
            } => {}
            Reply::Refused { refusal: _ } => {}
        }
    }
}

fn closure(
    alloc: Global,
    all: &List<BundleId>,
    active: &List<BundleId>,
) -> Result<Reply, AllocError>
    ensures made { IfOk result (λ made. made ≡ Reply.Closure all.now active.now) }
{
    let (all, active) = copy_two(all, active, alloc)?;
    Ok(Reply::Closure { all, active })
}

fn wires(
    alloc: Global,
    rows: &List<WireRow>,
    fragments: &List<WireRow>,
) -> Result<Reply, AllocError>
    ensures made { IfOk result (λ made. made ≡ Reply.Wires rows.now fragments.now) }
{
    let (rows, fragments) = copy_two(rows, fragments, alloc)?;
    Ok(Reply::Wires { rows, fragments })
}

impl Reply {
    ghost use Rattle.std.specs.Prelude.{◌≡◌, IfOk};
    ghost use Rattle.osgi_ops.specs.Replies.{active_in, ids_in, is_refusal, started_in, to_make_in};

    pub fn is_refusal(&self) -> bool
        ensures refused { result ≡ is_refusal self.now }
    {
        matches!(self, Reply::Refused { .. })
    }

    /// The bundles of a refresh that are active, in the order of stopping; None for other replies.
    pub fn into_active(self) -> Option<List<BundleId>>
        ensures active { result ≡ active_in self }
    {
        match self {
            Reply::Closure { all: _, active } => Some(active),
            _ => None,
        }
    }

    /// The bundles that are to be started after a move of the active start level; None for other replies.
    pub fn into_started(self) -> Option<List<BundleId>>
        ensures started { result ≡ started_in self }
    {
        match self {
            Reply::Moved { start } => Some(start),
            _ => None,
        }
    }

    /// The bundles that were listed, or whose wirings were dropped; None for other replies.
    pub fn into_ids(self) -> Option<List<BundleId>>
        ensures ids { result ≡ ids_in self }
    {
        match self {
            Reply::Ids { ids } => Some(ids),
            _ => None,
        }
    }

    /// The bundle whose script makes the object that is to be made, the depot row of that script and the name of the section; None
    /// for other replies.
    pub fn into_make(self) -> Option<(BundleId, u32, Text)>
        ensures made { result ≡ to_make_in self }
    {
        match self {
            Reply::Make { owner, row, name } => Some((owner, row, name)),
            _ => None,
        }
    }

    pub fn copy(&self, alloc: Global) -> Result<Reply, AllocError>
        ensures same { IfOk result (λ copy. copy ≡ self.now) }
    {
        match self {
            &Reply::Service { service } => Ok(Reply::Service { service }),
            Reply::Done => Ok(Reply::Done),
            &Reply::Best { service } => Ok(Reply::Best { service }),
            Reply::Services { services } => Ok(Reply::Services {
                services: services.copy(alloc)?,
            }),
            Reply::Object { text } => Ok(Reply::Object {
                text: text.copy(alloc)?,
            }),
            Reply::Held { object, text } => Ok(Reply::Held {
                object: *object,
                text: text.copy(alloc)?,
            }),
            Reply::Make { owner, row, name } => Ok(Reply::Make {
                owner: *owner,
                row: *row,
                name: name.copy(alloc)?,
            }),
            &Reply::Flag { value } => Ok(Reply::Flag { value }),
            &Reply::Listener { listener } => Ok(Reply::Listener { listener }),
            Reply::Handed {
                listener,
                kind,
                owner,
                row,
                name,
                event,
            } => Ok(Reply::Handed {
                listener: *listener,
                kind: *kind,
                owner: *owner,
                row: *row,
                name: name.copy(alloc)?,
                event: *event,
            }),
            Reply::Nothing { busy } => Ok(Reply::Nothing {
                busy: busy.copy(alloc)?,
            }),
            Reply::Job { owner, row, name } => Ok(Reply::Job {
                owner: *owner,
                row: *row,
                name: name.copy(alloc)?,
            }),
            Reply::NoJob => Ok(Reply::NoJob),
            &Reply::Bundle { bundle, known } => Ok(Reply::Bundle { bundle, known }),
            Reply::Resolved { added } => Ok(Reply::Resolved {
                added: added.copy(alloc)?,
            }),
            &Reply::Go { bundle } => Ok(Reply::Go { bundle }),
            &Reply::Active { bundle } => Ok(Reply::Active { bundle }),
            &Reply::Kept { bundle } => Ok(Reply::Kept { bundle }),
            &Reply::Begun { bundle, row } => Ok(Reply::Begun { bundle, row }),
            &Reply::Waiting { bundle } => Ok(Reply::Waiting { bundle }),
            &Reply::Eager { bundle } => Ok(Reply::Eager { bundle }),
            &Reply::Idle { bundle } => Ok(Reply::Idle { bundle }),
            Reply::Closure { all, active } => closure(alloc, all, active),
            Reply::Ids { ids } => Ok(Reply::Ids {
                ids: ids.copy(alloc)?,
            }),
            &Reply::Level { from, to } => Ok(Reply::Level { from, to }),
            Reply::Moved { start } => Ok(Reply::Moved {
                start: start.copy(alloc)?,
            }),
            &Reply::Leveled { value } => Ok(Reply::Leveled { value }),
            &Reply::Up { bundle } => Ok(Reply::Up { bundle }),
            &Reply::Loaded { by } => Ok(Reply::Loaded { by }),
            Reply::LoadedMore { by, wire, wake } => Ok(Reply::LoadedMore {
                by: *by,
                wire: copy_option(wire, alloc)?,
                wake: *wake,
            }),
            Reply::Bundles { rows } => Ok(Reply::Bundles {
                rows: rows.copy(alloc)?,
            }),
            Reply::ServiceRows { rows } => Ok(Reply::ServiceRows {
                rows: rows.copy(alloc)?,
            }),
            Reply::Wires { rows, fragments } => wires(alloc, rows, fragments),
            Reply::Refused { refusal } => Ok(Reply::Refused {
                refusal: refusal.copy(alloc)?,
            }),
        }
    }
}

impl Copied for Reply {
    fn copied(&self, alloc: Global) -> Result<Reply, AllocError> {
        self.copy(alloc)
    }
}
