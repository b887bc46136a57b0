//! What holds of parts of the state: who is in a group, and for which cause a change of channels or sessions, a name
//! or a text is refused. The functions of this crate do nothing: each contract is a theorem.
#![tactic(auto)]

pub mod channels;
pub mod groups;
pub mod sessions;
pub mod texts;
