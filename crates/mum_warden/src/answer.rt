//! What is sent to who brings a list of bans, and to who is banned.

ghost use Rattle.std.specs.Prelude.{◌≡◌, ◌≢◌, None, IfOk, OnErr};
ghost use Rattle.mum_warden.specs.Answer.{answer_to, refusal, rejection, sent};

use mum_bans::BanVerdict;
use mum_base::{ChannelId, DenyType, Octets, OutOfMemory, Perm, SessionId, Text};
use mum_frame::kind::REJECT;
use mum_frame::{Frame, put_frame};
use mum_msg_state::{Message, Reject};
use mum_session::{BAN_LIST, wire_of};
use mum_state::Verdict;
use std::alloc::Global;

// The verdict that answers who brought a list of bans; none where the list is malformed or sets the bans.
fn answer_to(verdict: BanVerdict) -> Option<Verdict>
    ensures { result ≡ answer_to verdict }
{
    match verdict {
        BanVerdict::Ignored => None,
        BanVerdict::Lacks => Some(Verdict::Lacks {
            perm: Perm::BAN,
            channel: ChannelId::ROOT,
        }),
        BanVerdict::Answer(payload) => Some(Verdict::Answer(Frame {
            kind: BAN_LIST,
            payload,
        })),
        BanVerdict::Refused => Some(Verdict::Refused {
            kind: DenyType::Text.code(),
        }),
        BanVerdict::Set => None,
    }
}

// The bytes that are sent to the session that brought a list of bans.
pub(crate) fn sent(
    alloc: Global,
    session: SessionId,
    verdict: BanVerdict,
) -> Result<Octets, OutOfMemory>
    ensures sent { IfOk result (λ bytes. bytes ≡ sent session verdict) }
    ensures starved { OnErr result (answer_to verdict ≢ None) }
{
    match answer_to(verdict) {
        Some(answer) => wire_of(alloc, Some(session), &answer),
        None => Ok(Octets::from_vec(Vec::new(alloc))),
    }
}

// The message to who is banned.
fn rejection(alloc: Global) -> Result<Reject, OutOfMemory>
    ensures { IfOk result (λ message. message ≡ rejection) }
{
    Ok(Reject {
        kind: Some(0),
        reason: Some(Text::of(alloc, "banned")?),
    })
}

/// The bytes that a login of who is banned is answered by: a Reject of type 0 (None of `RejectType` in
/// Mumble.proto), for the reason `banned`.
pub fn refusal(alloc: Global) -> Result<Octets, OutOfMemory>
    ensures { IfOk result (λ bytes. bytes ≡ refusal) }
{
    let message = rejection(alloc)?;
    let payload = message.encode(alloc)?;
    put_frame(alloc, REJECT, payload.as_slice())
}
