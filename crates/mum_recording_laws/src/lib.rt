//! Recordings and journals: what a run of the core does is a legal journal. The functions of this crate do nothing:
//! each contract is a theorem.
#![tactic(auto)]

pub mod laws;
