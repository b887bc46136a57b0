//! The parts of the turns of the roles as steps of the core: what `serve` runs is made of the steps that `replay`
//! takes. The functions of this crate do nothing: each contract is a theorem.
#![tactic(auto)]

pub mod apart;
pub mod controls;
pub mod owners;
pub mod ports;
pub mod turns;
pub mod workers;
