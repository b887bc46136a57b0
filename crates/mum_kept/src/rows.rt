//! The rows that are kept.

use mum_base::{ChannelId, Items, Octets, Text};
use mum_tree::ChannelInfo;

/// A channel as it is kept.
#[derive(Drop)]
pub struct KeptChannel {
    pub id: ChannelId,
    /// The channel above it. The root's is the root itself.
    pub parent: ChannelId,
    pub name: Text,
    pub info: ChannelInfo,
    /// The payload of the ACL message that answers a query for its policy.
    pub policy: Octets,
}

/// The channels that are kept, in order of number, and the links between them, each once, with the
/// lesser channel first, in order of number.
#[derive(Drop)]
pub struct KeptRows {
    pub channels: Items<KeptChannel>,
    pub links: Items<(ChannelId, ChannelId)>,
}
