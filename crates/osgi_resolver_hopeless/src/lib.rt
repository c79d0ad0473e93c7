//! Whether what a search has decided cannot lead to consistent wirings any more.
#![tactic(auto)]

mod clashing;
mod concerned;
mod hopeless;
mod leading;
mod losing;
mod offer;
mod onward;
mod packages;
mod place;
mod providers;
mod rivals;
mod settled;
mod stuck;
mod unmet;

pub use hopeless::is_hopeless;
pub use onward::has_become_hopeless;
