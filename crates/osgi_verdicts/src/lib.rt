//! Each operation has one reply at each moment of a legal history: proofs alone. There is no code here.
#![tactic(auto)]
