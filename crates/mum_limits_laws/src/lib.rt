//! Needs, limits and reasons, each by its own number and in words of the state. The functions of this crate do
//! nothing: each contract is a theorem.
#![tactic(auto)]

pub mod causes;
pub mod denials;
pub mod limits;
pub mod user_denials;
