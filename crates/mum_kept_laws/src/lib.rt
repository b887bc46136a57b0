//! That channels last: what is kept of a state is good, and makes the same channels again. The functions
//! of this crate do nothing: each contract is a theorem.
#![tactic(auto)]

pub mod laws;
