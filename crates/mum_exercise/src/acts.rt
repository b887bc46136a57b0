//! What a user of an exercise asks for, as frames on the wire.

ghost use Rattle.std.specs.Prelude.{◌≡◌, ◌≤◌, ◌<◌, ◌∷◌, [], IfOk, length};
ghost use Rattle.mum_fields.specs.Table.{spelled};
ghost use Rattle.mum_frame.specs.Frame.{IsOneFrame, spelling_of};
ghost use Rattle.mum_frame.specs.declared.frame.TheConstants.{PAYLOAD_LIMIT};
ghost use Rattle.mum_exercise.specs.Acts.{aiming, blank_channel, blank_user, channel_frame, entering, linking};
ghost use Rattle.mum_exercise.specs.Acts.{listening, login, login_frame, packet_bytes, self_muting, target_frame};
ghost use Rattle.mum_exercise.specs.Acts.{user_frame, user_name, voice_frame};

use mum_base::{ChannelId, Items, Octets, OutOfMemory, Text};
use mum_frame::kind::{AUTHENTICATE, CHANNEL_STATE, UDP_TUNNEL, USER_STATE, VOICE_TARGET};
use mum_frame::put_frame;
use mum_msg_rule::{TargetBlock, VoiceTarget};
use mum_msg_state::{Authenticate, ChannelState, Message, UserState};
use mum_voice::write_varint;
use std::alloc::Global;
use std::mem::drop;

// The header of a voice packet of Opus to target 0.
const OPUS: u8 = 0x80;

// What follows the number of a packet: four bytes, the first of them their length.
const AUDIO: [u8; 4] = [0x03, 0xAA, 0xBB, 0xCC];

// A list of one element.
fn one<T: Drop>(alloc: Global, element: T) -> Result<Items<T>, OutOfMemory>
    ensures { IfOk result (λ items. items ≡ element ∷ []) }
{
    let mut items = Items::new(alloc);
    items.push(element)?;
    Ok(items)
}

// A UserState that says nothing.
fn blank_user(alloc: Global) -> UserState
    ensures { result ≡ blank_user }
{
    UserState {
        session: None,
        actor: None,
        name: None,
        user_id: None,
        channel_id: None,
        mute: None,
        deaf: None,
        suppress: None,
        self_mute: None,
        self_deaf: None,
        plugin_context: None,
        plugin_identity: None,
        comment: None,
        priority_speaker: None,
        recording: None,
        temporary_access_tokens: Items::new(alloc),
        listening_channel_add: Items::new(alloc),
        listening_channel_remove: Items::new(alloc),
    }
}

// A ChannelState that says nothing.
fn blank_channel(alloc: Global) -> ChannelState
    ensures { result ≡ blank_channel }
{
    ChannelState {
        channel_id: None,
        parent: None,
        name: None,
        links: Items::new(alloc),
        description: None,
        links_add: Items::new(alloc),
        links_remove: Items::new(alloc),
        temporary: None,
        position: None,
        max_users: None,
    }
}

// The frame of a message.
fn frame_of<M: Message + Drop>(alloc: Global, kind: u16, message: M) -> Result<Octets, OutOfMemory>
    requires { length (spelled M.rows message) ≤ PAYLOAD_LIMIT }
    ensures frame { IfOk result (λ bytes. bytes ≡ spelling_of kind (spelled M.rows message)) }
    ensures one { IfOk result IsOneFrame }
{
    let encoded = message.encode(alloc);
    drop(message);
    let payload = encoded?;
    put_frame(alloc, kind, payload.as_slice())
}

// The name of user `number`.
fn user_name(alloc: Global, number: u32) -> Result<Text, OutOfMemory>
    ensures { IfOk result (λ name. name ≡ user_name number) }
{
    let name = format!(in alloc; "u{number}")?;
    Ok(Text::from_string(name))
}

// The login of user `number`.
pub(crate) fn login_frame(alloc: Global, number: u32) -> Result<Octets, OutOfMemory>
    ensures frame { IfOk result (λ bytes. bytes ≡ login_frame number) }
    ensures one { IfOk result IsOneFrame }
{
    let message = Authenticate {
        username: Some(user_name(alloc, number)?),
        password: None,
        tokens: Items::new(alloc),
        celt_versions: Items::new(alloc),
        opus: None,
    };
    frame_of(alloc, AUTHENTICATE, message)
}

// To enter a channel.
pub(crate) fn enter_frame(alloc: Global, channel: ChannelId) -> Result<Octets, OutOfMemory>
    ensures frame { IfOk result (λ bytes. bytes ≡ user_frame (entering channel.0)) }
    ensures one { IfOk result IsOneFrame }
{
    let mut message = blank_user(alloc);
    message.channel_id = Some(channel.0);
    frame_of(alloc, USER_STATE, message)
}

// To mute oneself, or no longer.
pub(crate) fn self_mute_frame(alloc: Global, muted: bool) -> Result<Octets, OutOfMemory>
    ensures frame { IfOk result (λ bytes. bytes ≡ user_frame (self_muting muted)) }
    ensures one { IfOk result IsOneFrame }
{
    let mut message = blank_user(alloc);
    message.self_mute = Some(muted);
    frame_of(alloc, USER_STATE, message)
}

// To listen to a channel from now on.
pub(crate) fn listen_frame(alloc: Global, channel: ChannelId) -> Result<Octets, OutOfMemory>
    ensures frame { IfOk result (λ bytes. bytes ≡ user_frame (listening channel.0)) }
    ensures one { IfOk result IsOneFrame }
{
    let listened = one(alloc, channel.0)?;
    let mut message = blank_user(alloc);
    message.listening_channel_add = listened;
    frame_of(alloc, USER_STATE, message)
}

// To link a channel with the root.
pub(crate) fn link_frame(alloc: Global, channel: ChannelId) -> Result<Octets, OutOfMemory>
    ensures frame { IfOk result (λ bytes. bytes ≡ channel_frame (linking channel.0)) }
    ensures one { IfOk result IsOneFrame }
{
    let linked = one(alloc, 0)?;
    let mut message = blank_channel(alloc);
    message.channel_id = Some(channel.0);
    message.links_add = linked;
    frame_of(alloc, CHANNEL_STATE, message)
}

// To aim the first voice target at a channel and those below it.
pub(crate) fn aim_frame(alloc: Global, channel: ChannelId) -> Result<Octets, OutOfMemory>
    ensures frame { IfOk result (λ bytes. bytes ≡ target_frame (aiming channel.0)) }
    ensures one { IfOk result IsOneFrame }
{
    let block = TargetBlock {
        session: Items::new(alloc),
        channel_id: Some(channel.0),
        group: None,
        links: None,
        children: Some(true),
    };
    let message = VoiceTarget {
        id: Some(1),
        targets: one(alloc, block)?,
    };
    frame_of(alloc, VOICE_TARGET, message)
}

// The voice packet of a number, to target 0 or 1.
fn packet(alloc: Global, target: u8, number: u64) -> Result<Octets, OutOfMemory>
    requires { target < 2 }
    ensures bytes { IfOk result (λ bytes. bytes ≡ packet_bytes target number) }
    ensures short { IfOk result (λ bytes. length bytes ≤ 14) }
{
    let mut bytes = Vec::new(alloc);
    bytes.push(OPUS + target)?;
    bytes.extend_from_slice(write_varint(number).as_slice())?;
    bytes.extend_from_slice(AUDIO.as_slice())?;
    Ok(Octets::from_vec(bytes))
}

// The frame of a voice packet of this number, to target 0 or 1.
pub(crate) fn voice_frame(alloc: Global, target: u8, number: u64) -> Result<Octets, OutOfMemory>
    requires { target < 2 }
    ensures frame { IfOk result (λ bytes. bytes ≡ voice_frame target number) }
    ensures one { IfOk result IsOneFrame }
{
    let bytes = packet(alloc, target, number)?;
    put_frame(alloc, UDP_TUNNEL, bytes.as_slice())
}
