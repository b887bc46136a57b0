//! What the core decides of the next command of a connection, and what it answers.

ghost use Rattle.std.specs.Prelude.{◌≡◌, ◌<◌, IfOk, IfSome, Some, is_some, true};
ghost use Rattle.std.specs.List.{AllByRecursion};
ghost use Rattle.std.specs.Option.{option_map};
ghost use Rattle.mum_state.specs.Proper.{IsProper};
ghost use Rattle.mum_rules_tree.specs.Decision.{FitsWhereAccepted};
ghost use Rattle.mum_notify.specs.Notices.{FitsFrame};
ghost use Rattle.mum_session.specs.Verdict.{edits_of, verdict};
ghost use Rattle.mum_base.specs.declared.number.TheConstants.{SLOTS as slots};
ghost use Rattle.mum_core.specs.Connection.{next_command, session_of};
ghost use Rattle.mum_core.specs.Reply.{reply, seat_in, seat_of};

use crate::connection::{Connection, Reply, Seat};
use crate::slot::ValidSlot;
use mum_base::{OutOfMemory, ReplyEnd, SessionId};
use mum_rules_user::UserMessage;
use mum_session::{Asked, decide, end_of, mark_of, wire_of};
use mum_state::{State, Verdict};
use std::alloc::Global;
use std::mem::drop;

// That the slots of the sessions are below the greatest limit.
pub(crate) fn know_proper(state: &State)
    ensures { IsProper state.now }
{
    let _roster = state.roster();
}

// What is decided at a state of the next command of a connection: that of its frame, or else its leave.
pub(crate) fn decide_next(
    alloc: Global,
    state: &State,
    connection: &Connection,
) -> Result<Verdict, OutOfMemory>
    requires { is_some (next_command connection.now) ≡ true }
    ensures verdict { IfOk result
        (λ decided. option_map (verdict state.now (session_of connection.now)) (next_command connection.now)
        ≡ Some decided) }
    ensures fits { IfOk result (FitsWhereAccepted state.now) }
    ensures framed { IfOk result (λ decided. AllByRecursion FitsFrame (edits_of decided)) }
    ensures seated { IfOk result (λ decided. IfSome (seat_of decided) (λ seat. seat.slot.0 < slots)) }
{
    know_proper(state);
    let session = connection.session();
    match connection.next_of_frame() {
        Some(command) => decide(alloc, state, session, command),
        None => decide(alloc, state, session, &Asked::User(UserMessage::Leave)),
    }
}

// The seat of the session that joined.
fn seat_in(end: ReplyEnd) -> Option<Seat>
    requires { IfSome (seat_in end) (λ seat. seat.slot.0 < slots) }
    ensures { result ≡ seat_in end }
{
    match end {
        ReplyEnd::Joined(session, slot) => Some(Seat {
            session,
            slot: ValidSlot::new(usize::from(slot.0)),
        }),
        _ => None,
    }
}

// What a connection is answered, where an accepted edit gets this revision.
pub(crate) fn reply(
    alloc: Global,
    revision: u64,
    session: Option<SessionId>,
    verdict: &Verdict,
) -> Result<Reply, OutOfMemory>
    requires { IfSome (seat_of verdict.now) (λ seat. seat.slot.0 < slots) }
    ensures { IfOk result (λ answered. answered ≡ reply revision session verdict.now) }
{
    Ok(Reply {
        mark: mark_of(revision, verdict),
        seat: seat_in(end_of(verdict)),
        wire: wire_of(alloc, session, verdict)?,
    })
}
