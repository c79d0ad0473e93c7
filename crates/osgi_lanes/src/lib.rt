//! Work for several lanes at once: each lane in a thread of its own, and what the lanes give in their order. The only place where
//! the product starts threads.
#![tactic(auto)]

mod running;
mod work;

pub use running::run_lanes;
pub use work::Work;
