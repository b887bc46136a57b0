//! What the commands of sessions come to, in the words of what the server promises: who one is after a login, who may do
//! what, and what is reported to whom. The functions of this crate do nothing: each contract is a theorem.
#![tactic(auto)]

pub mod channels;
pub mod connections;
pub mod logins;
pub mod reports;
pub mod users;
