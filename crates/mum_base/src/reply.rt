//! What the control owner answers to a command, in plain numbers.

use crate::number::{ChannelId, SessionId, Slot};
use crate::perm::Perm;

/// How the wait for a reply ends.
#[derive(Clone, Copy, Debug, PartialEq, Eq)]
pub enum ReplyEnd {
    /// A login was accepted: this session is in this slot.
    Joined(SessionId, Slot),
    /// The command was decided.
    Decided,
    /// A login was rejected, and nothing more is taken from the connection.
    Rejected,
}

/// A verdict without its edit and without the frame that answers it.
#[derive(Clone, Copy, Debug, PartialEq, Eq)]
pub enum Mark {
    /// The edit was appended, and is the edit of this revision.
    Accepted { revision: u64 },
    /// The first permission that was missing, and the channel where it was.
    Lacks { perm: Perm, channel: ChannelId },
    /// A limit refuses it: a type of `PermissionDenied` (Mumble.proto, `DenyType`).
    Refused { kind: u8 },
    /// A login was refused: a type of `Reject` (Mumble.proto, `RejectType`).
    Rejected { kind: u8 },
    /// A query was answered.
    Answer,
    /// It was passed over, for a reason from 1 to 8.
    Ignored { why: u8 },
}
