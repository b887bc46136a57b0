//! The edits: all that changes a state.

use mum_base::{AccountId, ChannelId, Items, Octets, SessionId, Slot, Text};
use mum_policy::ChannelPolicy;
use mum_tree::ChannelInfo;
use mum_users::{ChannelList, Target};

/// A change of the state. Each accepted command is one of these, also where it leaves the state as it
/// was, and a configuration is a list of them. An edit of a configuration has no actor and no maker.
#[derive(Drop)]
pub enum Edit {
    /// The settings of the server.
    SetServer {
        welcome: Text,
        bandwidth: u32,
        password: Option<[u8; 32]>,
    },
    /// The limits of sessions, at most 512, and of channels, at most 2,048. Neither falls.
    SetLimits {
        sessions: u16,
        channels: u32,
    },
    /// One account more.
    AddAccount {
        account: AccountId,
        name: Text,
        digest: [u8; 32],
    },
    /// A session logs in: with the next number, in the least free slot, into the root channel.
    Join {
        session: SessionId,
        slot: Slot,
        name: Text,
        account: Option<AccountId>,
        tokens: Items<Text>,
    },
    /// A session goes, with its listening and its voice targets.
    Leave {
        session: SessionId,
    },
    /// A session is kicked, and goes in the same way.
    Kick {
        session: SessionId,
        actor: SessionId,
        reason: Text,
        ban: bool,
    },
    /// A new channel. The maker of a temporary one enters it.
    MakeChannel {
        id: ChannelId,
        parent: ChannelId,
        name: Text,
        temporary: bool,
        info: ChannelInfo,
        maker: Option<SessionId>,
    },
    /// What is given of a channel is set; links are added, and then others are taken away.
    EditChannel {
        id: ChannelId,
        actor: Option<SessionId>,
        name: Option<Text>,
        parent: Option<ChannelId>,
        description: Option<Text>,
        position: Option<i32>,
        max_users: Option<u32>,
        links_add: Items<ChannelId>,
        links_remove: Items<ChannelId>,
    },
    /// A channel goes with all below it. Whoever is in one of them enters the parent of the first.
    RemoveChannel {
        id: ChannelId,
        actor: SessionId,
    },
    /// What is given of a session is set. Where `clear_suppress` is true, it may speak where it is.
    SetUser {
        session: SessionId,
        actor: SessionId,
        channel: Option<ChannelId>,
        mute: Option<bool>,
        deaf: Option<bool>,
        clear_suppress: bool,
        priority: Option<bool>,
        self_mute: Option<bool>,
        self_deaf: Option<bool>,
        recording: Option<bool>,
        comment: Option<Text>,
        /// The plugin context.
        context: Option<Octets>,
        listen: Items<ChannelId>,
        unlisten: ChannelList,
    },
    /// The access tokens of a session, in place of those that it had.
    SetTokens {
        session: SessionId,
        tokens: Items<Text>,
    },
    /// A voice target of a session, 1 to 30; one without items is unset.
    SetTarget {
        session: SessionId,
        id: u8,
        target: Target,
    },
    /// The policy of a channel, in place of the one that it had.
    SetAcl {
        channel: ChannelId,
        actor: Option<SessionId>,
        policy: ChannelPolicy,
    },
    /// A text for sessions, for those in channels, and for those in channels and all below them. It
    /// changes nothing.
    Text {
        actor: SessionId,
        sessions: Items<SessionId>,
        channels: Items<ChannelId>,
        trees: Items<ChannelId>,
        message: Text,
    },
}
