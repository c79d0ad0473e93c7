//! How far a runner came with a command.

use crate::statements::Binding;
use osgi_base::{BundleId, ListenerId, ServiceId};
use osgi_lifecycle::Plan;
use osgi_ops::{Op, Reply, Section};
use osgi_session::Statement;

/// How what ran ended: whether it counts as failed, and the service that it found or registered.
#[derive(Clone, Copy)]
pub struct Outcome {
    pub failed: bool,
    pub bound: Option<ServiceId>,
}

/// How what ran ended where nothing went wrong and nothing is bound.
pub const DONE: Outcome = Outcome {
    failed: false,
    bound: None,
};

/// How a section ended that failed.
pub const FAILED: Outcome = Outcome {
    failed: true,
    bound: None,
};

/// A section that begins.
#[derive(Drop)]
pub enum Opening {
    /// As a plan says: in the script of this depot row, for this bundle.
    ByPlan {
        row: u32,
        owner: BundleId,
        section: Section,
    },
    /// As the reply says, which hands an event or gives a job.
    ByReply(Reply),
}

/// The statements of a section that are left to run, for this bundle, and what its variables hold; of two bindings of a variable
/// the later counts.
#[derive(Drop)]
pub struct Running<'s> {
    pub owner: BundleId,
    pub bindings: Vec<Binding>,
    pub left: &'s [Statement],
}

/// What a runner comes back to.
#[derive(Drop)]
pub enum Frame<'s> {
    /// A plan, after the drain behind its last reply.
    Drained(Plan),
    /// A plan that ran a section.
    Ran(Plan),
    /// The statements after this one, which runs.
    Statement(&'s Statement, Running<'s>),
    /// The end of a hand to this listener, and the drain that goes on.
    Hand(ListenerId),
    /// The end of a job, and the next job.
    Job,
    /// The jobs, after the plan of a line.
    Jobs,
}

/// What waits for a reply.
#[derive(Drop)]
pub enum Wait {
    /// A plan.
    Plan(Plan),
    /// A drain, for what is handed.
    Drain,
    /// A drain, for the end of a hand to this listener.
    Hand(ListenerId),
    /// The jobs, for the next one.
    Jobs,
    /// The jobs, for the end of one.
    Job,
}

/// What a runner is at, between two operations.
#[derive(Drop)]
pub enum Now<'s> {
    Open(Opening),
    Run(Running<'s>),
    /// What ran ended.
    Back(Outcome),
}

/// What comes next.
#[derive(Drop)]
pub enum Step<'s> {
    /// An operation is asked.
    Ask(Op, Wait),
    Go(Now<'s>),
    /// Nothing is left.
    Over,
}
