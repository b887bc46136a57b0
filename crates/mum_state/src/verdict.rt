//! What is decided of a command.

ghost use Rattle.std.specs.Prelude.{◌≡◌};
ghost use Rattle.mum_base.specs.Codes.{deny_code, reason_code, reject_code};

use crate::edit::Edit;
use mum_base::{ChannelId, DenyType, Perm, Reason, RejectType};
use mum_frame::Frame;

/// What is decided of a command at a state.
#[derive(Drop)]
pub enum Verdict {
    /// It is this edit, which fits the state.
    Accepted(Edit),
    /// The first permission that is missing, and the channel where it is.
    Lacks { perm: Perm, channel: ChannelId },
    /// A limit refuses it: a type of `PermissionDenied` (Mumble.proto, `DenyType`).
    Refused { kind: u8 },
    /// A login is refused: a type of `Reject` (Mumble.proto, `RejectType`).
    Rejected { kind: u8 },
    /// A query is answered by this frame.
    Answer(Frame),
    /// It is passed over, for a reason from 1 to 8.
    Ignored { why: u8 },
}

impl Verdict {
    /// The command is ignored for this reason.
    pub fn ignored(reason: Reason) -> Verdict
        ensures { result ≡ Verdict.Ignored (reason_code reason) }
    {
        Verdict::Ignored { why: reason.code() }
    }

    /// A limit refuses the command, with this type.
    pub fn refused(kind: DenyType) -> Verdict
        ensures { result ≡ Verdict.Refused (deny_code kind) }
    {
        Verdict::Refused { kind: kind.code() }
    }

    /// The login is rejected, with this type.
    pub fn rejected(kind: RejectType) -> Verdict
        ensures { result ≡ Verdict.Rejected (reject_code kind) }
    {
        Verdict::Rejected { kind: kind.code() }
    }
}
