//! A channel, what describes it, and the place that it keeps.

ghost use Rattle.std.specs.Prelude.{◌≡◌, IfOk};
ghost use Rattle.mum_tree.specs.State.{plain_info};

use mum_base::{ChannelId, OutOfMemory, Text};
use std::alloc::Global;

/// The most channels of a new tree, with the root, until its limit is raised.
pub const CHANNEL_LIMIT: usize = 1024;

/// The most channels from the root down to one, with both: a channel is at most 32 under the root.
pub const PATH_LIMIT: usize = 33;

/// What describes a channel to its visitors (Mumble.proto, `ChannelState`).
#[derive(Drop)]
pub struct ChannelInfo {
    pub description: Text,
    /// Where clients sort it among its siblings.
    pub position: i32,
    /// The most users that it takes; 0 for no limit of its own.
    pub max_users: u32,
}

impl ChannelInfo {
    // No description, no place among its siblings, no limit of users.
    pub(crate) fn plain(alloc: Global) -> ChannelInfo
        ensures { result ≡ plain_info }
    {
        ChannelInfo {
            description: Text::empty(alloc),
            position: 0,
            max_users: 0,
        }
    }

    /// The same once more, without a copy of the description.
    pub fn share(&self) -> Result<ChannelInfo, OutOfMemory>
        ensures { IfOk result (λ shared. shared ≡ self.now) }
    {
        Ok(ChannelInfo {
            description: self.description.share()?,
            position: self.position,
            max_users: self.max_users,
        })
    }
}

/// A channel.
#[derive(Drop)]
pub struct Channel {
    pub id: ChannelId,
    /// The channel above it. The root's is the root itself.
    pub parent: ChannelId,
    pub name: Text,
    /// It goes when its last user leaves, and has no sub-channels.
    pub temporary: bool,
    pub info: ChannelInfo,
}

impl Channel {
    /// The same channel once more, without a copy of its texts.
    pub fn share(&self) -> Result<Channel, OutOfMemory>
        ensures { IfOk result (λ shared. shared ≡ self.now) }
    {
        Ok(Channel {
            id: self.id,
            parent: self.parent,
            name: self.name.share()?,
            temporary: self.temporary,
            info: self.info.share()?,
        })
    }
}

/// A channel and its place: a number below the limit of the tree that no other channel has, kept
/// while the channel is there and given again once it is gone.
#[derive(Drop)]
pub struct Row {
    pub place: u16,
    pub channel: Channel,
}
