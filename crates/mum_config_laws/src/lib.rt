//! That a server begins with what its configuration says. The functions of this crate do nothing: each contract is a theorem.
#![tactic(auto)]

pub mod laws;
