//! The audit of a journal. `audit` tests each line against what the server has to have decided and sent:
//! verdicts at the state that the accepted entries before leave, and audiences at the state of the revision
//! that a worker looked at. It answers the counts of a legal journal, or the first wrong line. `Past` decides the
//! control entries one by one, for whoever has to know the states between them.
#![tactic(auto)]

mod audited;
mod control;
mod count;
mod decision;
mod finding;
mod hearing;
mod journal;
pub mod laws;
mod line;
mod past;
mod trail;
mod voice;
mod worker;

pub use audited::Audited;
pub use journal::audit;
pub use past::Past;
