//! The control owner: it decides every command at the state after all accepted edits, publishes what it
//! accepts, and posts to each session what it is to be sent of it.
#![tactic(auto)]

mod control;
pub mod crossing;
mod edits;
mod lagged;
mod permission;
mod post;
mod posted;
mod sessions;

pub use control::Control;
pub use posted::Posted;
