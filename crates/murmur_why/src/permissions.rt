//! What a session may do in a channel, and what takes the rest away, line by line.

use crate::cuts::push_cut;
use crate::names::{push_channel, push_number, push_session};
use crate::route::cut;
use mum_base::{ChannelId, OutOfMemory, Perm, SessionId};
use mum_state::State;
use std::alloc::Global;

// Each permission with its name, by its bit.
const PERMISSIONS: [(Perm, &str); 17] = [
    (Perm::WRITE, "Write"),
    (Perm::TRAVERSE, "Traverse"),
    (Perm::ENTER, "Enter"),
    (Perm::SPEAK, "Speak"),
    (Perm::MUTE_DEAFEN, "MuteDeafen"),
    (Perm::MOVE, "Move"),
    (Perm::MAKE_CHANNEL, "MakeChannel"),
    (Perm::LINK_CHANNEL, "LinkChannel"),
    (Perm::WHISPER, "Whisper"),
    (Perm::TEXT_MESSAGE, "TextMessage"),
    (Perm::MAKE_TEMP_CHANNEL, "MakeTempChannel"),
    (Perm::LISTEN, "Listen"),
    (Perm::KICK, "Kick"),
    (Perm::BAN, "Ban"),
    (Perm::REGISTER, "Register"),
    (Perm::SELF_REGISTER, "SelfRegister"),
    (Perm::RESET_USER_CONTENT, "ResetUserContent"),
];

// Appends the line of a permission: its number and its name, and that it is held, or what takes it away.
fn push_permission(
    alloc: Global,
    text: &mut String,
    state: &State,
    session: SessionId,
    channel: ChannelId,
    row: (Perm, &str),
) -> Result<(), OutOfMemory> {
    let (permission, name) = row;
    push_number(alloc, text, u64::from(permission.0))?;
    text.push_str(" ")?;
    text.push_str(name)?;
    text.push_str(" ")?;
    match cut(state, session, channel, permission) {
        Some(cut) => push_cut(alloc, text, state, cut)?,
        None => text.push_str("held")?,
    }
    text.push_str("\n")
}

// Appends the lines of all permissions.
fn push_permissions(
    alloc: Global,
    text: &mut String,
    state: &State,
    session: SessionId,
    channel: ChannelId,
) -> Result<(), OutOfMemory> {
    for row in PERMISSIONS.iter() {
        push_permission(alloc, text, state, session, channel, *row)?;
    }
    Ok(())
}

// Appends who is asked about, where, and at which revision.
fn push_head(
    alloc: Global,
    text: &mut String,
    state: &State,
    revision: u64,
    session: SessionId,
    channel: ChannelId,
) -> Result<(), OutOfMemory> {
    text.push_str("revision ")?;
    push_number(alloc, text, revision)?;
    text.push_str(" session ")?;
    push_session(alloc, text, state, session)?;
    text.push_str(" channel ")?;
    push_channel(alloc, text, state, channel)?;
    text.push_str("\n")
}

// Whether a session and a channel are there.
fn are_there(state: &State, session: SessionId, channel: ChannelId) -> bool {
    state.roster().session(session).is_some() && state.tree().channel(channel).is_some()
}

// Appends all lines.
pub(crate) fn push_answer(
    alloc: Global,
    text: &mut String,
    state: &State,
    revision: u64,
    session: SessionId,
    channel: ChannelId,
) -> Result<(), OutOfMemory> {
    push_head(alloc, text, state, revision, session, channel)?;
    if are_there(state, session, channel) {
        push_permissions(alloc, text, state, session, channel)
    } else {
        text.push_str("one of the two is not there\n")
    }
}
