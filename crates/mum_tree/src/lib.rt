//! The tree of channels: names, places, temporary channels, descriptions, and links between any
//! two. `Tree` holds them and refuses what would break the tree; `Scratch` marks a subtree or
//! what links lead to.
#![tactic(auto)]

mod change;
mod channel;
mod components;
mod fault;
pub mod laws;
mod levels;
mod links;
mod rows;
mod scratch;
mod tree;

pub use change::ChannelChange;
pub use channel::{CHANNEL_LIMIT, Channel, ChannelInfo, PATH_LIMIT, Row};
pub use fault::TreeFault;
pub use links::CHANNEL_LINK_LIMIT;
pub use scratch::Scratch;
pub use tree::Tree;
