//! What is decided of a message on channels.

ghost use Rattle.std.specs.Prelude.{◌≡◌, IfOk, IsTrue, length, nat_lt};
ghost use Rattle.mum_fields.specs.Survey.{cut};
ghost use Rattle.mum_policy.specs.Member.{actor_of};
ghost use Rattle.mum_rules_tree.specs.Asked.{command_of, is_named_there, is_query, names_there, payload_of};
ghost use Rattle.mum_rules_tree.specs.Decision.{FitsWhereAccepted};
ghost use Rattle.mum_rules_tree.specs.Verdict.{command_verdict, tree_verdict};

use crate::acl::{decide_policy, decide_query};
use crate::channel::{are_there, channel_or_root, is_there_if_named};
use crate::edit::decide_edit;
use crate::make::decide_new;
use crate::message::TreeMessage;
use crate::reason::{COMMAND_LIMIT, takes_no_edits};
use crate::remove::decide_removal;
use mum_base::{ChannelId, OutOfMemory, Reason, SessionId};
use mum_msg_rule::{Acl, Message};
use mum_msg_state::ChannelState;
use mum_policy::Who;
use mum_state::{State, Verdict, home_of, who_is};
use mum_tree::Tree;
use std::alloc::Global;

// How many bytes the payload of a message has as this server encodes it, or 2^64 - 1 where they are more.
fn payload_length(message: &TreeMessage) -> u64
    ensures { result ≡ cut (length (payload_of message.now)) }
{
    match message {
        TreeMessage::State(message) => message.length(),
        TreeMessage::Remove(message) => message.length(),
        TreeMessage::Acl(message) => message.length(),
    }
}

// Whether the payload of a message, as this server encodes it, is above the limit of commands.
fn is_too_long(message: &TreeMessage) -> bool
    ensures { result ≡ nat_lt COMMAND_LIMIT (length (payload_of message.now)) }
{
    payload_length(message) > COMMAND_LIMIT as u64
}

// Whether a channel is named, and is there.
fn is_named_there(tree: &Tree, number: Option<u32>) -> bool
    ensures { result ≡ is_named_there tree.now number }
{
    match number {
        Some(number) => tree.is_there(ChannelId(number)),
        None => false,
    }
}

// Whether each channel that a message names is there.
fn names_there(tree: &Tree, message: &TreeMessage) -> bool
    ensures { result ≡ names_there tree.now message.now }
{
    match message {
        TreeMessage::State(message) => {
            is_named_there(tree, message.channel_id.or(message.parent))
                && is_there_if_named(tree, message.parent)
                && are_there(tree, message.links_add.as_slice())
                && are_there(tree, message.links_remove.as_slice())
        }
        TreeMessage::Remove(message) => is_named_there(tree, message.channel_id),
        TreeMessage::Acl(message) => is_named_there(tree, message.channel_id),
    }
}

fn decide_state(
    alloc: Global,
    state: &State,
    who: &Who<'_>,
    message: &ChannelState,
) -> Result<Verdict, OutOfMemory>
    requires { IsTrue (names_there state.now.tree (TreeMessage.State message.now)) }
    ensures { IfOk result (λ verdict. verdict ≡ command_verdict state.now (actor_of who.now)
        who.now.session (command_of (TreeMessage.State message.now))) }
{
    match message.channel_id {
        Some(number) => decide_edit(alloc, state, who, ChannelId(number), message),
        None => decide_new(alloc, state, who, message),
    }
}

fn decide_acl(
    alloc: Global,
    state: &State,
    who: &Who<'_>,
    message: &Acl,
) -> Result<Verdict, OutOfMemory>
    ensures { IfOk result (λ verdict. verdict ≡ command_verdict state.now (actor_of who.now)
        who.now.session (command_of (TreeMessage.Acl message.now))) }
{
    let id = channel_or_root(message.channel_id);
    if message.query.unwrap_or(false) {
        decide_query(alloc, state, who, id)
    } else {
        decide_policy(alloc, state, who, id, message)
    }
}

// What is decided of a message where each channel that it names is there.
fn decide_command(
    alloc: Global,
    state: &State,
    who: &Who<'_>,
    message: &TreeMessage,
) -> Result<Verdict, OutOfMemory>
    requires { IsTrue (names_there state.now.tree message.now) }
    ensures { IfOk result (λ verdict. verdict ≡ command_verdict state.now (actor_of who.now)
        who.now.session (command_of message.now)) }
{
    match message {
        TreeMessage::State(message) => decide_state(alloc, state, who, message),
        TreeMessage::Remove(message) => {
            let id = channel_or_root(message.channel_id);
            Ok(decide_removal(state, who, id))
        }
        TreeMessage::Acl(message) => decide_acl(alloc, state, who, message),
    }
}

/// What is decided of a message that a session sends. It is decided whole, and in this order: it is
/// ignored where the session is gone or no edit is taken any more, where its payload as this server
/// encodes it has more than 65,000 bytes, or where a channel that it names is not there; then the first
/// permission that is missing is named, with its channel; then the first limit that applies, by its type.
/// Else it is an edit, which fits the state, or the answer to a query. The state stays as it is.
pub fn decide_tree(
    alloc: Global,
    state: &State,
    actor: SessionId,
    message: &TreeMessage,
) -> Result<Verdict, OutOfMemory>
    ensures decided { IfOk result (λ verdict. verdict ≡ tree_verdict state.now actor message.now) }
    ensures fits { IfOk result (FitsWhereAccepted state.now) }
{
    let Some(user) = state.roster().session(actor) else {
        return Ok(Verdict::ignored(Reason::Gone));
    };
    if takes_no_edits(state) {
        return Ok(Verdict::ignored(Reason::Gone));
    }
    if is_too_long(message) {
        return Ok(Verdict::ignored(Reason::TooLong));
    }
    if !names_there(state.tree(), message) {
        return Ok(Verdict::ignored(Reason::NotThere));
    }
    let home = home_of(state.tree(), user);
    let who = who_is(user, home.as_slice());
    decide_command(alloc, state, &who, message)
}
