//! What happened was permitted: of the states before and after an accepted message, and of who hears a packet, in words of
//! permissions and of access control lists. The functions of this crate do nothing: each contract is a theorem.
#![tactic(auto)]

pub mod changes;
pub mod channel_requests;
pub mod hearers;
pub mod requests;
pub mod rights;
pub mod sessions;
