//! The next step of a plan.

use osgi_base::{BundleId, ServiceId};
use osgi_ops::{Op, Section};

/// What is to be done next.
#[derive(Drop)]
pub enum Next {
    /// The operation is to be done.
    Do {
        op: Op,
    },
    /// Events are to be handed, until none is left that can be.
    Drain,
    /// The section of the script of this depot row is to be run, for the bundle whose script it is.
    Run {
        row: u32,
        owner: BundleId,
        section: Section,
    },
    /// The plan ended: whether an operation of it was refused, whether it said that its section fails, and the service that it
    /// registered or found. Service 0, which no service has, stands for none found.
    End {
        refused: bool,
        failed: bool,
        bound: Option<ServiceId>,
    },
}
