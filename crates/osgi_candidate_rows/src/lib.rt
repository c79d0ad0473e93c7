//! The candidates of a problem in linked rows, from which those of one provider are taken out, and put back in the opposite order.
#![tactic(auto)]

mod candidate_rows;
mod gone;
mod index;
mod listing;
mod row;
mod spots;
mod taking;

pub use candidate_rows::CandidateRows;
