//! The messages that are decided here.

use mum_msg_rule::{PermissionQuery, TextMessage, VoiceTarget};
use mum_msg_state::{Authenticate, UserRemove, UserState};

/// A message of a client on users, as it was read, or the end of its connection.
#[derive(Drop)]
pub enum UserMessage {
    /// A login, with the version that the client sent before, if it sent one; of a session, its access
    /// tokens again.
    Join(Authenticate, Option<u32>),
    /// Another channel, other flags, texts or channels to listen to, of the sender or of another.
    User(UserState),
    /// Somebody is kicked.
    Kick(UserRemove),
    /// A text for users, for those in channels, and for those in trees of channels.
    Text(TextMessage),
    /// Whom the sender's whispers reach, under a number.
    Target(VoiceTarget),
    /// What the sender may do in a channel.
    Query(PermissionQuery),
    /// The sender goes, as its connection did.
    Leave,
}
