//! What a run of a server came to is what its turns did: the totals, the journal, and whom each packet went to. The
//! functions of this crate do nothing: each contract is a theorem.
#![tactic(auto)]

pub mod laws;
pub mod owners;
pub mod workers;
