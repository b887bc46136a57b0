//! Which messages are heard, and which are ignored.

ghost use Rattle.std.specs.Prelude.{◌≡◌, ◌∷◌, [], length, nat_lt, not};
ghost use Rattle.mum_fields.specs.Survey.{cut};
ghost use Rattle.mum_rules_tree.specs.Decision.{case_of, first_standing};
ghost use Rattle.mum_rules_tree.specs.declared.reason.TheConstants.{COMMAND_LIMIT};
ghost use Rattle.mum_state.specs.Fits.{holds_of_given};
ghost use Rattle.mum_rules_user.specs.Asked.{is_empty_text, is_here, names_there, payload_of, sets_own, sets_own_of_another};

use crate::message::UserMessage;
use crate::session::{is_here, is_oneself, session_or};
use mum_base::{Reason, SessionId};
use mum_msg_rule::Message;
use mum_msg_state::UserState;
use mum_rules_tree::{COMMAND_LIMIT, are_there, is_there_if_named};
use mum_state::State;
use mum_users::Roster;

// How many bytes the payload of a message has as this server encodes it, or 2^64 - 1 where they are more.
fn payload_length(message: &UserMessage) -> u64
    ensures { result ≡ cut (length (payload_of message.now)) }
{
    match message {
        UserMessage::Join(message, _) => message.length(),
        UserMessage::User(message) => message.length(),
        UserMessage::Kick(message) => message.length(),
        UserMessage::Text(message) => message.length(),
        UserMessage::Target(message) => message.length(),
        UserMessage::Query(message) => message.length(),
        UserMessage::Leave => 0,
    }
}

// Whether the payload of a message, as this server encodes it, has more bytes than a command may have.
pub(crate) fn is_too_long(message: &UserMessage) -> bool
    ensures { result ≡ nat_lt COMMAND_LIMIT (length (payload_of message.now)) }
{
    payload_length(message) > COMMAND_LIMIT as u64
}

// Whether the session that is named, if one is, is here.
fn is_here_if_named(roster: &Roster, number: Option<u32>) -> bool
    ensures { result ≡ holds_of_given (is_here roster.now) number }
{
    match number {
        Some(number) => is_here(roster, number),
        None => true,
    }
}

// Whether each session and each channel that a message names is there.
fn names_there(state: &State, message: &UserMessage) -> bool
    ensures { result ≡ names_there state.now message.now }
{
    let tree = state.tree();
    match message {
        UserMessage::User(message) => {
            is_here_if_named(state.roster(), message.session)
                && is_there_if_named(tree, message.channel_id)
                && are_there(tree, message.listening_channel_add.as_slice())
                && are_there(tree, message.listening_channel_remove.as_slice())
        }
        UserMessage::Kick(message) => match message.session {
            Some(number) => is_here(state.roster(), number),
            None => false,
        },
        UserMessage::Query(message) => is_there_if_named(tree, message.channel_id),
        _ => true,
    }
}

// Whether it sets what each session sets for itself.
fn sets_own(message: &UserState) -> bool
    ensures { result ≡ sets_own message.now }
{
    message.self_mute.is_some()
        || message.self_deaf.is_some()
        || message.comment.is_some()
        || message.plugin_context.is_some()
        || message.recording.is_some()
        || !message.listening_channel_add.as_slice().is_empty()
        || !message.listening_channel_remove.as_slice().is_empty()
}

fn sets_own_of_another(actor: SessionId, message: &UserMessage) -> bool
    ensures { result ≡ sets_own_of_another actor message.now }
{
    match message {
        UserMessage::User(message) => {
            !is_oneself(actor, session_or(actor, message.session)) && sets_own(message)
        }
        _ => false,
    }
}

fn is_empty_text(message: &UserMessage) -> bool
    ensures { result ≡ is_empty_text message.now }
{
    match message {
        UserMessage::Text(message) => match &message.message {
            Some(text) => text.as_slice().is_empty(),
            None => true,
        },
        _ => false,
    }
}

// The first reason to ignore a message of a session that is here, while edits are taken.
pub(crate) fn reason_to_ignore(
    state: &State,
    actor: SessionId,
    message: &UserMessage,
) -> Option<Reason>
    ensures { result ≡ first_standing
        (case_of Reason.TooLong (nat_lt COMMAND_LIMIT (length (payload_of message.now)))
        ∷ case_of Reason.NotThere (not (names_there state.now message.now))
        ∷ case_of Reason.OfAnother (sets_own_of_another actor message.now)
        ∷ case_of Reason.EmptyText (is_empty_text message.now)
        ∷ []) }
{
    if is_too_long(message) {
        return Some(Reason::TooLong);
    }
    if !names_there(state, message) {
        return Some(Reason::NotThere);
    }
    if sets_own_of_another(actor, message) {
        return Some(Reason::OfAnother);
    }
    if is_empty_text(message) {
        return Some(Reason::EmptyText);
    }
    None
}
