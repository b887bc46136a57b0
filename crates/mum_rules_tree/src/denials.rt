//! The frames by which an actor is notified that a command is denied.

ghost use Rattle.std.specs.Prelude.{◌≡◌, IfOk};
ghost use Rattle.std.specs.Option.{option_map};
ghost use Rattle.mum_rules_tree.specs.Denial.{denial, denial_of_lack, denial_of_limit, denied_frame, rejected_frame, rejection, word_of_refusal};

use mum_base::{ChannelId, DenyType, OutOfMemory, Perm, SessionId, Text};
use mum_frame::Frame;
use mum_frame::kind::{PERMISSION_DENIED, REJECT};
use mum_msg_rule::{Message, PermissionDenied};
use mum_msg_state::Reject;
use mum_state::Verdict;
use std::alloc::Global;

fn number_of(session: Option<SessionId>) -> Option<u32>
    ensures { result ≡ option_map (λ session. session.0) session }
{
    match session {
        Some(session) => Some(session.0),
        None => None,
    }
}

// The word by which a denial that has no type of its own reports why.
fn word_of_refusal(alloc: Global, kind: u8) -> Result<Option<Text>, OutOfMemory>
    ensures { IfOk result (λ word. word ≡ word_of_refusal kind) }
{
    if kind == DenyType::Text.code() {
        Ok(Some(Text::of(alloc, "refused")?))
    } else {
        Ok(None)
    }
}

fn denied_frame(alloc: Global, message: &PermissionDenied) -> Result<Frame, OutOfMemory>
    ensures { IfOk result (λ frame. frame ≡ denied_frame message.now) }
{
    Ok(Frame {
        kind: PERMISSION_DENIED,
        payload: message.encode(alloc)?,
    })
}

fn rejected_frame(alloc: Global, message: &Reject) -> Result<Frame, OutOfMemory>
    ensures { IfOk result (λ frame. frame ≡ rejected_frame message.now) }
{
    Ok(Frame {
        kind: REJECT,
        payload: message.encode(alloc)?,
    })
}

fn denial_of_lack(actor: Option<SessionId>, perm: Perm, channel: ChannelId) -> PermissionDenied
    ensures { result ≡ denial_of_lack actor perm channel }
{
    PermissionDenied {
        permission: Some(perm.0),
        channel_id: Some(channel.0),
        session: number_of(actor),
        reason: None,
        kind: Some(u32::from(DenyType::Permission.code())),
        name: None,
    }
}

fn denial_of_limit(
    alloc: Global,
    actor: Option<SessionId>,
    kind: u8,
) -> Result<PermissionDenied, OutOfMemory>
    ensures { IfOk result (λ message. message ≡ denial_of_limit actor kind) }
{
    Ok(PermissionDenied {
        permission: None,
        channel_id: None,
        session: number_of(actor),
        reason: word_of_refusal(alloc, kind)?,
        kind: Some(u32::from(kind)),
        name: None,
    })
}

/// The frame that notifies the actor of a verdict that denies: PermissionDenied with the permission and
/// its channel, or with the type of the limit and, for type 0, the word `refused`; Reject with its type
/// alone. No other verdict has one.
pub fn denial(
    alloc: Global,
    actor: Option<SessionId>,
    verdict: &Verdict,
) -> Result<Option<Frame>, OutOfMemory>
    ensures { IfOk result (λ frame. frame ≡ denial actor verdict.now) }
{
    match *verdict {
        Verdict::Lacks { perm, channel } => {
            let message = denial_of_lack(actor, perm, channel);
            Ok(Some(denied_frame(alloc, &message)?))
        }
        Verdict::Refused { kind } => {
            let message = denial_of_limit(alloc, actor, kind)?;
            Ok(Some(denied_frame(alloc, &message)?))
        }
        Verdict::Rejected { kind } => {
            let message = Reject {
                kind: Some(u32::from(kind)),
                reason: None,
            };
            Ok(Some(rejected_frame(alloc, &message)?))
        }
        _ => Ok(None),
    }
}
