//! Messages as frames. Whoever makes one whose texts or lists may be long shows that it is within the
//! limit of a frame.

ghost use Rattle.std.specs.Prelude.{◌≡◌, IfOk};
ghost use Rattle.mum_fields.specs.Table.{spelled};
ghost use Rattle.mum_frame.specs.Frame.{spelling_of};
ghost use Rattle.mum_notify.specs.Parcels.{IsWithinFrame, channel_frame, channel_gone_frame, channel_payload, codecs_frame, permissions_frame, sync_frame, sync_payload, text_frame, text_payload, user_frame, user_gone_frame, user_gone_payload, user_payload, version_frame, version_payload};

use mum_base::{Octets, OutOfMemory};
use mum_fields::Message;
use mum_frame::kind::{
    CHANNEL_REMOVE, CHANNEL_STATE, CODEC_VERSION, PERMISSION_QUERY, SERVER_SYNC, TEXT_MESSAGE,
    USER_REMOVE, USER_STATE, VERSION,
};
use mum_frame::put_frame;
use mum_msg_rule::{PermissionQuery, TextMessage};
use mum_msg_state::{
    ChannelRemove, ChannelState, CodecVersion, ServerSync, UserRemove, UserState, Version,
};
use std::alloc::Global;

fn frame_of<M: Message>(alloc: Global, kind: u16, message: &M) -> Result<Octets, OutOfMemory>
    requires { IsWithinFrame (spelled M.rows message.now) }
    ensures { IfOk result (λ frame. frame ≡ spelling_of kind (spelled M.rows message.now)) }
{
    let payload = message.encode(alloc)?;
    let frame = put_frame(alloc, kind, payload.as_slice())?;
    frame.into_shared()
}

pub(crate) fn version_frame(alloc: Global, message: &Version) -> Result<Octets, OutOfMemory>
    requires { IsWithinFrame (version_payload message.now) }
    ensures { IfOk result (λ frame. frame ≡ version_frame message.now) }
{
    frame_of(alloc, VERSION, message)
}

pub(crate) fn codecs_frame(alloc: Global, message: &CodecVersion) -> Result<Octets, OutOfMemory>
    ensures { IfOk result (λ frame. frame ≡ codecs_frame message.now) }
{
    frame_of(alloc, CODEC_VERSION, message)
}

pub(crate) fn channel_frame(alloc: Global, message: &ChannelState) -> Result<Octets, OutOfMemory>
    requires { IsWithinFrame (channel_payload message.now) }
    ensures { IfOk result (λ frame. frame ≡ channel_frame message.now) }
{
    frame_of(alloc, CHANNEL_STATE, message)
}

pub(crate) fn channel_gone_frame(
    alloc: Global,
    message: &ChannelRemove,
) -> Result<Octets, OutOfMemory>
    ensures { IfOk result (λ frame. frame ≡ channel_gone_frame message.now) }
{
    frame_of(alloc, CHANNEL_REMOVE, message)
}

pub(crate) fn user_frame(alloc: Global, message: &UserState) -> Result<Octets, OutOfMemory>
    requires { IsWithinFrame (user_payload message.now) }
    ensures { IfOk result (λ frame. frame ≡ user_frame message.now) }
{
    frame_of(alloc, USER_STATE, message)
}

pub(crate) fn user_gone_frame(alloc: Global, message: &UserRemove) -> Result<Octets, OutOfMemory>
    requires { IsWithinFrame (user_gone_payload message.now) }
    ensures { IfOk result (λ frame. frame ≡ user_gone_frame message.now) }
{
    frame_of(alloc, USER_REMOVE, message)
}

pub(crate) fn sync_frame(alloc: Global, message: &ServerSync) -> Result<Octets, OutOfMemory>
    requires { IsWithinFrame (sync_payload message.now) }
    ensures { IfOk result (λ frame. frame ≡ sync_frame message.now) }
{
    frame_of(alloc, SERVER_SYNC, message)
}

pub(crate) fn text_frame(alloc: Global, message: &TextMessage) -> Result<Octets, OutOfMemory>
    requires { IsWithinFrame (text_payload message.now) }
    ensures { IfOk result (λ frame. frame ≡ text_frame message.now) }
{
    frame_of(alloc, TEXT_MESSAGE, message)
}

pub(crate) fn permissions_frame(
    alloc: Global,
    message: &PermissionQuery,
) -> Result<Octets, OutOfMemory>
    ensures { IfOk result (λ frame. frame ≡ permissions_frame message.now) }
{
    frame_of(alloc, PERMISSION_QUERY, message)
}
