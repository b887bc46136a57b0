//! What holds of a voice worker over its turns. The functions of this crate do nothing: each contract is a
//! theorem.
#![tactic(auto)]

pub mod answers;
pub mod laws;
pub mod ports;
