//! Candidates: which capabilities of a world each requirement may be wired to, the preferred first.
#![tactic(auto)]

mod choices;
mod collecting;
mod fitting;
mod fragments;
mod held;
mod in_use;
mod names;
mod offer_index;
mod offers;
mod ranked;
mod ranking;
mod texts;

pub use choices::problem;
pub use offer_index::OfferIndex;
pub use offers::Offers;
