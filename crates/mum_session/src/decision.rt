//! What is decided of a command.

ghost use Rattle.std.specs.Prelude.{◌≡◌, IfOk};
ghost use Rattle.std.specs.List.{AllByRecursion};
ghost use Rattle.mum_rules_tree.specs.Decision.{FitsWhereAccepted};
ghost use Rattle.mum_session.specs.declared.command.Asked.TheVariants as asked;
ghost use Rattle.mum_notify.specs.Notices.{FitsFrame};
ghost use Rattle.mum_session.specs.Verdict.{edits_of, reason_for_nobody, verdict};

use crate::command::Asked;
use mum_base::{OutOfMemory, Reason, SessionId};
use mum_rules_tree::{TreeMessage, decide_tree, takes_no_edits};
use mum_rules_user::{UserMessage, decide_user};
use mum_state::{State, Verdict};
use std::alloc::Global;

// Why a message on channels is ignored that comes of a connection without a session.
fn reason_for_nobody(state: &State) -> Reason
    ensures { result ≡ reason_for_nobody state.now }
{
    if takes_no_edits(state) {
        Reason::Gone
    } else {
        Reason::NotLoggedIn
    }
}

// What is decided of a message on channels.
#[tactic(auto, unfolding(crate::specs::Verdict::verdict))]
fn decide_on_channels(
    alloc: Global,
    state: &State,
    session: Option<SessionId>,
    message: &TreeMessage,
) -> Result<Verdict, OutOfMemory>
    ensures verdict { IfOk result (λ decided. decided ≡ verdict state.now session (asked.Tree message.now)) }
    ensures fits { IfOk result (FitsWhereAccepted state.now) }
{
    match session {
        Some(session) => decide_tree(alloc, state, session, message),
        None => Ok(Verdict::ignored(reason_for_nobody(state))),
    }
}

// What is decided of a message on users.
#[tactic(auto, unfolding(crate::specs::Verdict::verdict))]
fn decide_on_users(
    alloc: Global,
    state: &State,
    session: Option<SessionId>,
    message: &UserMessage,
) -> Result<Verdict, OutOfMemory>
    ensures verdict { IfOk result (λ decided. decided ≡ verdict state.now session (asked.User message.now)) }
    ensures fits { IfOk result (FitsWhereAccepted state.now) }
{
    decide_user(alloc, state, session, message)
}

/// What is decided at a state of a command of a connection, which may have a session. An accepted edit
/// fits the state, and what it says itself fits a frame.
pub fn decide(
    alloc: Global,
    state: &State,
    session: Option<SessionId>,
    command: &Asked,
) -> Result<Verdict, OutOfMemory>
    ensures verdict { IfOk result (λ decided. decided ≡ verdict state.now session command.now) }
    ensures fits { IfOk result (FitsWhereAccepted state.now) }
    ensures framed { IfOk result (λ decided. AllByRecursion FitsFrame (edits_of decided)) }
{
    match command {
        Asked::Tree(message) => decide_on_channels(alloc, state, session, message),
        Asked::User(message) => decide_on_users(alloc, state, session, message),
    }
}
