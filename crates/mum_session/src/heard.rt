//! The payloads of commands, each first surveyed without memory: a malformed one is not decoded, and
//! neither is one whose message is too long as this server encodes it.

ghost use Rattle.std.specs.Prelude.{◌≡◌, IfOk};
ghost use Rattle.mum_fields.specs.Table.{decoded, parts};
ghost use Rattle.mum_session.specs.Heard.{Reads, command_heard, heard_map, login_heard, read, well_formed};

use crate::asks::Asks;
use crate::command::Asked;
use mum_base::OutOfMemory;
use mum_frame::kind::{
    ACL, CHANNEL_REMOVE, CHANNEL_STATE, TEXT_MESSAGE, USER_REMOVE, USER_STATE, VOICE_TARGET,
};
use mum_msg_rule::{Acl, PermissionQuery, TextMessage, VoiceTarget};
use mum_msg_state::{
    Authenticate, ChannelRemove, ChannelState, Message, MessageFault, UserRemove, UserState,
};
use mum_rules_tree::COMMAND_LIMIT;
use mum_rules_user::UserMessage;
use std::alloc::{AllocError, Global};

/// What the payload of a command is.
#[derive(Drop)]
pub enum Heard<T> {
    Message(T),
    /// It is no message.
    Malformed,
    /// The message is longer than a command may be, as this server encodes it.
    TooLong,
}

// A message that was decoded. What is wrong with a malformed payload is reported to nobody.
fn well_formed<M: Drop>(decoded: Result<M, MessageFault>) -> Result<Option<M>, OutOfMemory>
    ensures { result ≡ well_formed decoded }
{
    match decoded {
        Ok(message) => Ok(Some(message)),
        Err(MessageFault::Field(_)) => Ok(None),
        Err(MessageFault::MissingField { .. }) => Ok(None),
        Err(MessageFault::OutOfMemory) => Err(AllocError),
    }
}

/// The message of a payload, or nothing where that is malformed.
pub fn message_in<M: Message>(alloc: Global, payload: &[u8]) -> Result<Option<M>, OutOfMemory>
    ensures { IfOk result (λ found. Reads (parts M.rows) found (decoded M.rows payload.now)) }
{
    well_formed(M::decode(alloc, payload))
}

// The message of a command. A malformed payload and a message that is too long take no memory.
fn read<M: Message>(alloc: Global, payload: &[u8]) -> Result<Heard<M>, OutOfMemory>
    ensures { IfOk result (λ heard. heard_map (parts M.rows) heard ≡ read M.rows payload.now) }
{
    match M::survey(payload) {
        Ok(length) => {
            if length > COMMAND_LIMIT as u64 {
                return Ok(Heard::TooLong);
            }
            Ok(Heard::Message(M::decode_surveyed(alloc, payload)?))
        }
        Err(_) => Ok(Heard::Malformed),
    }
}

/// A login, with the number of the version that was sent before.
#[tactic(auto, using(mum_msg_state::specs::Parts::authenticate_back))]
pub fn login(
    alloc: Global,
    version: Option<u32>,
    payload: &[u8],
) -> Result<Heard<Asked>, OutOfMemory>
    ensures { IfOk result (λ heard. heard ≡ login_heard version payload.now) }
{
    match read::<Authenticate>(alloc, payload)? {
        Heard::Message(message) => Ok(Heard::Message(Asked::User(UserMessage::Join(
            message, version,
        )))),
        Heard::Malformed => Ok(Heard::Malformed),
        Heard::TooLong => Ok(Heard::TooLong),
    }
}

// The command that a message of this type is.
fn read_asked<M: Asks>(alloc: Global, payload: &[u8]) -> Result<Heard<Asked>, OutOfMemory>
    ensures { IfOk result (λ heard. heard ≡ heard_map M.asked_by (read M.table payload.now)) }
{
    match read::<M>(alloc, payload)? {
        Heard::Message(message) => Ok(Heard::Message(message.asked())),
        Heard::Malformed => Ok(Heard::Malformed),
        Heard::TooLong => Ok(Heard::TooLong),
    }
}

/// The command of who is logged in that a frame of this type is.
pub fn command(alloc: Global, kind: u16, payload: &[u8]) -> Result<Heard<Asked>, OutOfMemory>
    ensures { IfOk result (λ heard. heard ≡ command_heard kind payload.now) }
{
    match kind {
        CHANNEL_REMOVE => read_asked::<ChannelRemove>(alloc, payload),
        CHANNEL_STATE => read_asked::<ChannelState>(alloc, payload),
        USER_REMOVE => read_asked::<UserRemove>(alloc, payload),
        USER_STATE => read_asked::<UserState>(alloc, payload),
        TEXT_MESSAGE => read_asked::<TextMessage>(alloc, payload),
        ACL => read_asked::<Acl>(alloc, payload),
        VOICE_TARGET => read_asked::<VoiceTarget>(alloc, payload),
        _ => read_asked::<PermissionQuery>(alloc, payload),
    }
}
