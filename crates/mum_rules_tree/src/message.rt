//! The messages that are decided here.

use mum_msg_rule::Acl;
use mum_msg_state::{ChannelRemove, ChannelState};

/// A message of a client on channels, as it was read.
#[derive(Drop)]
pub enum TreeMessage {
    /// A new channel, where it names none, or else other parts of one.
    State(ChannelState),
    Remove(ChannelRemove),
    /// Other groups and another access control list of a channel, or a query for those that it has.
    Acl(Acl),
}
