//! Who hears what is said and why the others do not, line by line.

ghost use Rattle.std.specs.Prelude.{◌≡◌, ◌++◌, IfOk, string_bytes};
ghost use Rattle.murmur_why.specs.Hearers.{hearer_line, hearer_lines};

use crate::names::{push_number, push_session};
use crate::reasons::push_reason;
use crate::route::reason;
use mum_base::{OutOfMemory, SessionId};
use mum_state::State;
use mum_tree::Scratch;
use mum_users::User;
use std::alloc::Global;

// Who says something at a revision, to which target.
#[derive(Clone, Copy)]
pub(crate) struct Said {
    pub revision: u64,
    pub speaker: SessionId,
    pub target: u8,
}

// Appends the line of a session: whether it hears what is said, and in which context, or else why not.
fn push_hearer(
    alloc: Global,
    text: &mut String,
    state: &State,
    said: Said,
    hearer: SessionId,
    scratch: &mut Scratch,
) -> Result<(), OutOfMemory>
    ensures { IfOk result (λ _. string_bytes text.new ≡ string_bytes text.old
        ++ hearer_line state.now said.speaker said.target hearer) }
{
    push_session(alloc, text, state, hearer)?;
    text.push_str(" ")?;
    let why = reason(state, said.speaker, hearer, said.target, scratch);
    push_reason(alloc, text, state, said.target, why)?;
    text.push_str("\n")
}

// Appends the lines of sessions.
fn push_hearers(
    alloc: Global,
    text: &mut String,
    state: &State,
    said: Said,
    users: &[User],
    scratch: &mut Scratch,
) -> Result<(), OutOfMemory>
    ensures { IfOk result (λ _. string_bytes text.new ≡ string_bytes text.old
        ++ hearer_lines state.now said.speaker said.target users.now) }
{
    for user in users {
        push_hearer(alloc, text, state, said, user.session, scratch)?;
    }
    Ok(())
}

// Appends the line of one session, or those of all that are there, in the order of their slots.
pub(crate) fn push_lines(
    alloc: Global,
    text: &mut String,
    state: &State,
    said: Said,
    session: Option<SessionId>,
    scratch: &mut Scratch,
) -> Result<(), OutOfMemory> {
    match session {
        Some(session) => push_hearer(alloc, text, state, said, session, scratch),
        None => push_hearers(alloc, text, state, said, state.roster().users(), scratch),
    }
}

// Appends the revision, who says something and to which target, and a line feed.
pub(crate) fn push_said(
    alloc: Global,
    text: &mut String,
    state: &State,
    said: Said,
) -> Result<(), OutOfMemory> {
    text.push_str("revision ")?;
    push_number(alloc, text, said.revision)?;
    text.push_str(" speaker ")?;
    push_session(alloc, text, state, said.speaker)?;
    text.push_str(" target ")?;
    push_number(alloc, text, u64::from(said.target))?;
    text.push_str("\n")
}
