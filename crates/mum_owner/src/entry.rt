//! What the journal keeps of a command.

ghost use Rattle.std.specs.Prelude.{◌≡◌, Some, IfOk, IfSome};
ghost use Rattle.mum_fields.specs.Table.{spelled};
ghost use Rattle.mum_frame.specs.Frame.{IsOneFrame, spelling_of};
ghost use Rattle.mum_owner.specs.Written.{IsWritableDraft, own_frame, version_of};

use mum_base::{Octets, OutOfMemory};
use mum_fields::Message;
use mum_frame::kind::{
    ACL, AUTHENTICATE, CHANNEL_REMOVE, CHANNEL_STATE, PERMISSION_QUERY, TEXT_MESSAGE, USER_REMOVE,
    USER_STATE, VOICE_TARGET,
};
use mum_frame::{PAYLOAD_LIMIT, put_frame};
use mum_rules_tree::TreeMessage;
use mum_rules_user::UserMessage;
use mum_session::{Asked, Command};
use std::alloc::{AllocError, Global};

/// What is known of a journal's entry before its command is decided.
#[derive(Drop)]
pub struct Draft {
    pub version: Option<u32>,
    pub frame: Option<Octets>,
}

// The version that a login reported.
fn version_of(what: &Asked) -> Option<u32>
    ensures { result ≡ version_of what.now }
{
    match what {
        Asked::User(UserMessage::Join(_, version)) => *version,
        _ => None,
    }
}

// The frame of a message, of this type. A message that no frame takes, which no port hands on as a command, is
// refused as if memory ran out.
fn framed<M: Message>(alloc: Global, kind: u16, message: &M) -> Result<Option<Octets>, OutOfMemory>
    ensures frame { IfOk result (λ frame. frame ≡ Some (spelling_of kind (spelled M.rows message.now))) }
    ensures one { IfOk result (λ frame. IfSome frame IsOneFrame) }
{
    let payload = message.encode(alloc)?;
    let payload = payload.as_slice();
    if payload.len() > PAYLOAD_LIMIT {
        return Err(AllocError);
    }
    Ok(Some(put_frame(alloc, kind, payload)?))
}

// The frame of a command.
fn own_frame(alloc: Global, what: &Asked) -> Result<Option<Octets>, OutOfMemory>
    ensures frame { IfOk result (λ frame. frame ≡ own_frame what.now) }
    ensures one { IfOk result (λ frame. IfSome frame IsOneFrame) }
{
    match what {
        Asked::Tree(TreeMessage::State(message)) => framed(alloc, CHANNEL_STATE, message),
        Asked::Tree(TreeMessage::Remove(message)) => framed(alloc, CHANNEL_REMOVE, message),
        Asked::Tree(TreeMessage::Acl(message)) => framed(alloc, ACL, message),
        Asked::User(UserMessage::Join(message, _)) => framed(alloc, AUTHENTICATE, message),
        Asked::User(UserMessage::User(message)) => framed(alloc, USER_STATE, message),
        Asked::User(UserMessage::Kick(message)) => framed(alloc, USER_REMOVE, message),
        Asked::User(UserMessage::Text(message)) => framed(alloc, TEXT_MESSAGE, message),
        Asked::User(UserMessage::Target(message)) => framed(alloc, VOICE_TARGET, message),
        Asked::User(UserMessage::Query(message)) => framed(alloc, PERMISSION_QUERY, message),
        Asked::User(UserMessage::Leave) => Ok(None),
    }
}

// What the journal's entry has of a command: the version of a login, and the command's own frame.
pub(crate) fn entry_of(alloc: Global, command: &Command) -> Result<Draft, OutOfMemory>
    ensures version { IfOk result (λ draft. draft.version ≡ version_of command.now.what) }
    ensures frame { IfOk result (λ draft. draft.frame ≡ own_frame command.now.what) }
    ensures writable { IfOk result IsWritableDraft }
{
    let frame = own_frame(alloc, &command.what)?;
    Ok(Draft {
        version: version_of(&command.what),
        frame,
    })
}
