//! What clients know: whoever applies what it is sent knows what is, nothing else is sent, and texts go
//! only to whom they are meant for. The functions of this crate do nothing: each contract is a theorem.
#![tactic(auto)]

pub mod clients;
pub mod recipients;
pub mod texts;
