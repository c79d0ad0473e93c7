//! Tests of lanes: what they give comes in their order, and they run at the same time.
#![tactic(auto)]

#[cfg(test)]
mod doubling;
#[cfg(test)]
mod meeting;
#[cfg(test)]
mod tests;
