//! What the journal of a server says is right: each command was decided for the session of its connection, with the
//! verdict that an audit finds, and each packet went to those whom an audit finds. The functions of this crate do
//! nothing: each contract is a theorem.
#![tactic(auto)]

pub mod journals;
pub mod one_server;
pub mod owners;
