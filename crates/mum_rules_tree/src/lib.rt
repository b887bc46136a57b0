//! What is decided of the messages that ask for other channels, or for other groups and access control
//! lists: ChannelState, ChannelRemove and ACL. What every decision shares, whatever it is about, is
//! in `reason`, `needs`, `deny`, `denials` and `tokens`, and as definitions in `specs/Decision.antt`.
#![tactic(auto)]

mod acl;
mod answer;
mod channel;
mod decide;
mod denials;
mod deny;
mod edit;
pub mod laws;
pub mod limits;
mod make;
mod message;
mod met;
mod needs;
mod policy;
mod reason;
mod remove;
mod tokens;

pub use answer::acl_told;
pub use channel::{are_there, channel_numbered, channel_or_root, is_there_if_named};
pub use decide::decide_tree;
pub use denials::denial;
pub use edit::is_text_given;
pub use message::TreeMessage;
pub use met::{MetPlaces, need_once};
pub use needs::{Lack, may, need};
pub use policy::policy_asked;
pub use reason::{COMMAND_LIMIT, takes_no_edits};
pub use tokens::tokens_for_once;
