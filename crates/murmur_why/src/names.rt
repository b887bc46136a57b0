//! Sessions, channels and entries of access control lists, each by its number and, after it, its name.

ghost use Rattle.std.specs.Prelude.{◌≡◌, ◌++◌, ◌∷◌, IfOk, string_bytes};
ghost use Rattle.std.specs.Option.{option_copied};
ghost use Rattle.std.specs.Fmt.{decimal};
ghost use Rattle.murmur_why.specs.Names.{channel_text, entry_text, place_text, session_text, whom_text};
ghost use Rattle.murmur_why.specs.Names as spec;

use mum_base::{ChannelId, OutOfMemory, SessionId};
use mum_policy::{AclEntry, Policies, Whom};
use mum_record::{Word, push_word};
use mum_state::State;
use std::alloc::Global;

// Appends a number.
pub(crate) fn push_number(alloc: Global, text: &mut String, number: u64) -> Result<(), OutOfMemory>
    ensures { IfOk result (λ _. string_bytes text.new ≡ string_bytes text.old ++ decimal number) }
{
    push_word(alloc, text, &Word::Number(number))
}

// Appends a name after a space.
fn push_name(text: &mut String, name: &str) -> Result<(), OutOfMemory>
    ensures { IfOk result (λ _. string_bytes text.new ≡ string_bytes text.old ++ 32 ∷ name.now) }
{
    text.push_str(" ")?;
    text.push_str(name)
}

// Appends a session.
pub(crate) fn push_session(
    alloc: Global,
    text: &mut String,
    state: &State,
    session: SessionId,
) -> Result<(), OutOfMemory>
    ensures { IfOk result (λ _. string_bytes text.new ≡ string_bytes text.old ++ session_text state.now session) }
{
    push_number(alloc, text, u64::from(session.0))?;
    match state.roster().session(session) {
        Some(user) => push_name(text, user.name.as_str()),
        None => Ok(()),
    }
}

// Appends a channel.
pub(crate) fn push_channel(
    alloc: Global,
    text: &mut String,
    state: &State,
    channel: ChannelId,
) -> Result<(), OutOfMemory>
    ensures { IfOk result (λ _. string_bytes text.new ≡ string_bytes text.old ++ channel_text state.now channel) }
{
    push_number(alloc, text, u64::from(channel.0))?;
    match state.tree().channel(channel) {
        Some(found) => push_name(text, found.name.as_str()),
        None => Ok(()),
    }
}

// Appends whom an entry is for, in brackets.
fn push_whom(alloc: Global, text: &mut String, whom: &Whom) -> Result<(), OutOfMemory>
    ensures { IfOk result (λ _. string_bytes text.new ≡ string_bytes text.old ++ whom_text whom.now) }
{
    match whom {
        Whom::Account(account) => {
            text.push_str(" (account ")?;
            push_number(alloc, text, u64::from(account.0))?;
        }
        Whom::Group(name) => {
            text.push_str(" (group ")?;
            text.push_str(name.as_str())?;
        }
    }
    text.push_str(")")
}

// The entry at a place of the access control list of a channel, if it is there.
fn entry_at(state: &State, channel: ChannelId, index: usize) -> Option<&AclEntry>
    ensures { option_copied result ≡ spec.entry_at state.now channel index }
{
    match state.policy(channel) {
        Some(policy) => policy.acls.as_slice().get(index),
        None => None,
    }
}

// Appends the place of an entry and its channel.
fn push_place(
    alloc: Global,
    text: &mut String,
    state: &State,
    channel: ChannelId,
    index: usize,
) -> Result<(), OutOfMemory>
    ensures { IfOk result (λ _. string_bytes text.new ≡ string_bytes text.old ++ place_text state.now channel index) }
{
    push_number(alloc, text, index as u64)?;
    text.push_str(" of ")?;
    push_channel(alloc, text, state, channel)
}

// Appends an entry of the access control list of a channel: its place, the channel, and whom it is for.
pub(crate) fn push_entry(
    alloc: Global,
    text: &mut String,
    state: &State,
    channel: ChannelId,
    index: usize,
) -> Result<(), OutOfMemory>
    ensures { IfOk result (λ _. string_bytes text.new ≡ string_bytes text.old ++ entry_text state.now channel index) }
{
    push_place(alloc, text, state, channel, index)?;
    match entry_at(state, channel, index) {
        Some(entry) => push_whom(alloc, text, &entry.whom),
        None => Ok(()),
    }
}
