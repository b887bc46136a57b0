//! What the definitions come to, in the words of what the server promises: the copies and the packets of a run, its
//! edits, its outboxes, the recordings that are runs, and the exercises of which no step is left out. The functions
//! of this crate do nothing: each contract is a theorem.
#![tactic(auto)]

pub mod copies;
pub mod drains;
pub mod edits;
pub mod exercises;
pub mod offers;
pub mod packets;
pub mod recordings;
