//! How the step before came out.

use osgi_ops::Reply;

/// What a plan is told when it is asked for its next step.
#[derive(Drop)]
pub enum Last {
    /// There was no step before.
    Begin,
    /// The operation was answered so.
    Reply { reply: Reply },
    /// What was to be handed was handed.
    Drained,
    /// The section ran, and failed or did not.
    Ran { failed: bool },
}
