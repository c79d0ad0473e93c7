//! What is asked of the framework, what it answers, and what was asked and answered: data and limits, and lists of bundles.
#![tactic(auto)]

mod asked;
mod bundle_lists;
mod depot;
mod entry;
mod event;
mod event_codes;
mod kind;
mod limits;
mod object_id;
mod op;
mod peek;
mod refusal;
mod reply;
mod rows;
mod scope;
mod section;
mod service;
mod state;
mod target;

pub use asked::Asked;
pub use bundle_lists::{those, those_falling};
pub use depot::{Depot, DepotRow, Stored};
pub use entry::Entry;
pub use event::{Busy, Event};
pub use event_codes::{
    BUNDLE_INSTALLED, BUNDLE_LAZY_ACTIVATION, BUNDLE_RESOLVED, BUNDLE_STARTED, BUNDLE_STARTING,
    BUNDLE_STOPPED, BUNDLE_STOPPING, BUNDLE_UNINSTALLED, BUNDLE_UNRESOLVED, BUNDLE_UPDATED,
    FRAMEWORK_PACKAGES_REFRESHED, FRAMEWORK_STARTLEVEL_CHANGED, SERVICE_MODIFIED,
    SERVICE_MODIFIED_ENDMATCH, SERVICE_REGISTERED, SERVICE_UNREGISTERING,
};
pub use kind::Kind;
pub use limits::{
    Limits, MAX_BRACKETS, MAX_BUDGET, MAX_BUNDLES, MAX_ENTRIES, MAX_HANDINGS, MAX_JOBS,
    MAX_JOURNAL_LEN, MAX_LANES, MAX_LEVEL, MAX_LISTENERS, MAX_LOCATIONS, MAX_SERVICES,
};
pub use object_id::ObjectId;
pub use op::Op;
pub use peek::Peek;
pub use refusal::{Many, Refusal, Unmet};
pub use reply::Reply;
pub use rows::{BundleRow, WireRow};
pub use scope::Scope;
pub use section::Section;
pub use service::{Service, ServiceRow};
pub use state::{ACTIVE, INSTALLED, RESOLVED, STARTING, STOPPING, UNINSTALLED, is_changing, is_up};
pub use target::Target;
