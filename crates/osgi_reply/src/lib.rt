//! What each operation does to the tables of the running state, and answers by them.
#![tactic(auto)]

mod listing;
mod replies;

pub use replies::{Replied, reply_to};
