//! What is decided of a command is what an audit decides of its entry in a journal, which has the frame of the command
//! as this server encodes it. The function of this crate does nothing: its contract is a theorem.
#![tactic(auto)]

pub mod laws;
