//! Who is here: the sessions with their slots, channels and flags, the channels they listen to, and
//! their voice targets. `Roster` holds them all, and each of its calls makes one named change or none.
//! Contracts see a roster as plain lists, in `specs/State.antt`.
#![tactic(auto)]

mod channel_list;
mod edit;
pub mod fault;
pub mod flags;
pub mod laws;
pub mod limits;
mod listeners;
pub mod listening;
pub mod masks;
pub mod placing;
pub mod roster;
mod sessions;
pub mod target;
pub mod user;

pub use channel_list::ChannelList;
pub use edit::UserChange;
pub use fault::UserFault;
pub use flags::FlagChange;
pub use listening::{ChannelSet, ListenerPair};
pub use masks::MaskRow;
pub use placing::{Placement, Placements};
pub use roster::Roster;
pub use target::{Target, TargetItem};
pub use user::User;
