//! What holds of legal histories while some operations have not come: proofs alone. There is no code here.
#![tactic(auto)]
