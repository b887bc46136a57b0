//! What a verdict is to the actor: the outcome, how its wait ends, and the bytes that it is sent.

ghost use Rattle.std.specs.Prelude.{◌≡◌, [], IfOk};
ghost use Rattle.std.specs.Option.{option_map_or};
ghost use Rattle.mum_rules_tree.specs.Denial.{denial};
ghost use Rattle.mum_session.specs.Reply.{mark, reply_end, sendable, wire};

use mum_base::{Mark, Octets, OutOfMemory, ReplyEnd, SessionId};
use mum_frame::{Frame, PAYLOAD_LIMIT, put_frame};
use mum_rules_tree::denial;
use mum_state::{Edit, Verdict};
use std::alloc::Global;

/// The outcome of a command, where an accepted edit gets this revision.
pub fn mark_of(revision: u64, verdict: &Verdict) -> Mark
    ensures { result ≡ mark revision verdict.now }
{
    match *verdict {
        Verdict::Accepted(_) => Mark::Accepted { revision },
        Verdict::Lacks { perm, channel } => Mark::Lacks { perm, channel },
        Verdict::Refused { kind } => Mark::Refused { kind },
        Verdict::Rejected { kind } => Mark::Rejected { kind },
        Verdict::Answer(_) => Mark::Answer,
        Verdict::Ignored { why } => Mark::Ignored { why },
    }
}

/// How the wait for the reply ends: `Joined` where a login was accepted, `Rejected` where one was
/// rejected, and else `Decided`.
pub fn end_of(verdict: &Verdict) -> ReplyEnd
    ensures { result ≡ reply_end verdict.now }
{
    match *verdict {
        Verdict::Accepted(Edit::Join { session, slot, .. }) => ReplyEnd::Joined(session, slot),
        Verdict::Rejected { .. } => ReplyEnd::Rejected,
        _ => ReplyEnd::Decided,
    }
}

fn no_bytes(alloc: Global) -> Octets
    ensures { result ≡ [] }
{
    Octets::from_vec(Vec::new(alloc))
}

// The bytes of a frame; none where its payload is longer than the limit of frames.
fn sendable(alloc: Global, frame: &Frame) -> Result<Octets, OutOfMemory>
    ensures { IfOk result (λ bytes. bytes ≡ sendable frame.now) }
{
    let payload = frame.payload.as_slice();
    if payload.len() > PAYLOAD_LIMIT {
        return Ok(no_bytes(alloc));
    }
    put_frame(alloc, frame.kind, payload)
}

// The bytes of the frame of a denial; none where the verdict is none.
fn denied(
    alloc: Global,
    session: Option<SessionId>,
    verdict: &Verdict,
) -> Result<Octets, OutOfMemory>
    ensures { IfOk result (λ bytes. bytes ≡ option_map_or sendable (denial session verdict.now) []) }
{
    match denial(alloc, session, verdict)? {
        Some(frame) => sendable(alloc, &frame),
        None => Ok(no_bytes(alloc)),
    }
}

/// The bytes that the actor, who may have a session, is sent: the frame of a denial, of a rejection or of
/// an answer. There are none for an accepted or an ignored command, nor where the payload of the frame
/// is longer than the limit of frames.
pub fn wire_of(
    alloc: Global,
    session: Option<SessionId>,
    verdict: &Verdict,
) -> Result<Octets, OutOfMemory>
    ensures { IfOk result (λ bytes. bytes ≡ wire session verdict.now) }
{
    match verdict {
        Verdict::Answer(frame) => sendable(alloc, frame),
        _ => denied(alloc, session, verdict),
    }
}
