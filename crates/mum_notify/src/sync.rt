//! What a session that joins is sent first.

ghost use Rattle.std.specs.Prelude.{◌≡◌, [], ◌∷◌, ◌++◌, IfOk, IsTrue, OnOk, map};
ghost use Rattle.std.specs.List.{flat_map, list_all};
ghost use Rattle.mum_base.specs.declared.number.TheConstants.ChannelId.{ROOT};
ghost use Rattle.mum_state.specs.Named.{given};
ghost use Rattle.mum_tree.specs.Rows.{is_there};
ghost use Rattle.mum_state.specs.Proper.{IsProper, is_sound_user};
ghost use Rattle.mum_notify.specs.Channels.{channel_of, channel_told, has_links, if_it_tells, links_told};
ghost use Rattle.mum_notify.specs.Parcels.{IsWithinFrame, channel_frame, channel_payload, parcel, sync_frame, user_frame, version_frame};
ghost use Rattle.mum_notify.specs.Sync.{all_links_told, server_codecs, server_version, sync_block, sync_frames, sync_parcels, tree_told, welcome_told};
ghost use Rattle.mum_notify.specs.Users.{user_told};

use crate::channels::{frame_of_channel, numbers, partners, text_unless_empty};
use crate::children::{channel_ids, tree_order};
use crate::frames::{channel_frame, codecs_frame, sync_frame, version_frame};
use crate::notice::{Notice, Notices};
use crate::parcels::tell_one;
use crate::texts::held_in;
use crate::users::frame_of_user;
use mum_base::{ChannelId, Items, Octets, OutOfMemory, SessionId, Text};
use mum_msg_state::{ChannelState, CodecVersion, ServerSync, Version};
use mum_state::State;
use mum_tree::Tree;
use mum_users::User;
use std::alloc::Global;

/// The version of the protocol that the server speaks, 1.4.0: two bytes of the major number, one of the
/// minor, one of the patch.
pub const PROTOCOL: u32 = 0x0001_0400;

/// The number that definitions name. This does nothing: its contract is what it is.
pub fn protocol()
    ensures { PROTOCOL ≡ 66560 }
{}

fn server_version(alloc: Global) -> Result<Version, OutOfMemory>
    ensures { IfOk result (λ told. told ≡ server_version) }
{
    Ok(Version {
        version: Some(PROTOCOL),
        release: Some(Text::of(alloc, "murmur")?),
        os: None,
        os_version: None,
    })
}

fn frame_of_version(alloc: Global) -> Result<Octets, OutOfMemory>
    ensures { IfOk result (λ frame. frame ≡ version_frame server_version) }
{
    let told = server_version(alloc)?;
    version_frame(alloc, &told)
}

fn server_codecs() -> CodecVersion
    ensures { result ≡ server_codecs }
{
    CodecVersion {
        alpha: Some(0),
        beta: Some(0),
        prefer_alpha: Some(true),
        opus: Some(true),
    }
}

// The frame of a channel, where it is there.
fn tell_channel(
    alloc: Global,
    frames: &mut Vec<Octets>,
    state: &State,
    id: ChannelId,
) -> Result<(), OutOfMemory>
    ensures { OnOk result (frames.new.items ≡ frames.old.items
        ++ map channel_frame (map channel_told (given (channel_of state.now.tree id)))) }
{
    let tree = state.tree();
    let Some(channel) = tree.channel(id) else {
        return Ok(());
    };
    frames.push(frame_of_channel(alloc, channel)?)?;
    Ok(())
}

// The frames of these channels.
fn tell_channels(
    alloc: Global,
    frames: &mut Vec<Octets>,
    state: &State,
    ids: &[ChannelId],
) -> Result<(), OutOfMemory>
    ensures { OnOk result (frames.new.items ≡ frames.old.items ++ map channel_frame
        (flat_map (λ id. map channel_told (given (channel_of state.now.tree id))) ids.now)) }
{
    for id in ids {
        tell_channel(alloc, frames, state, *id)?;
    }
    Ok(())
}

fn links_told(alloc: Global, tree: &Tree, id: ChannelId) -> Result<ChannelState, OutOfMemory>
    ensures { IfOk result (λ told. told ≡ links_told tree.now id) }
{
    let linked = partners(alloc, tree, id)?;
    Ok(ChannelState {
        channel_id: Some(id.0),
        parent: None,
        name: None,
        links: numbers(alloc, &linked)?,
        description: None,
        links_add: Items::new(alloc),
        links_remove: Items::new(alloc),
        temporary: None,
        position: None,
        max_users: None,
    })
}

// One frame more, where the message names links.
fn push_links(
    alloc: Global,
    frames: &mut Vec<Octets>,
    told: &ChannelState,
) -> Result<(), OutOfMemory>
    requires { IsWithinFrame (channel_payload told.now) }
    ensures { OnOk result (frames.new.items ≡ frames.old.items
        ++ map channel_frame (if_it_tells has_links told.now)) }
{
    if told.links.as_slice().is_empty() {
        return Ok(());
    }
    frames.push(channel_frame(alloc, told)?)?;
    Ok(())
}

// The frame of the links of a channel, where it has some.
fn tell_links_of(
    alloc: Global,
    frames: &mut Vec<Octets>,
    state: &State,
    id: ChannelId,
) -> Result<(), OutOfMemory>
    ensures { OnOk result (frames.new.items ≡ frames.old.items
        ++ map channel_frame (if_it_tells has_links (links_told state.now.tree id))) }
{
    let tree = state.tree();
    let told = links_told(alloc, tree, id)?;
    push_links(alloc, frames, &told)
}

// The frames of the links of these channels.
fn tell_links(
    alloc: Global,
    frames: &mut Vec<Octets>,
    state: &State,
    ids: &[ChannelId],
) -> Result<(), OutOfMemory>
    ensures { OnOk result (frames.new.items ≡ frames.old.items ++ map channel_frame
        (flat_map (λ id. if_it_tells has_links (links_told state.now.tree id)) ids.now)) }
{
    for id in ids {
        tell_links_of(alloc, frames, state, *id)?;
    }
    Ok(())
}

// The frames of the whole tree: its channels, and then their links.
fn tell_tree(alloc: Global, frames: &mut Vec<Octets>, state: &State) -> Result<(), OutOfMemory>
    ensures { OnOk result (frames.new.items
        ≡ (frames.old.items ++ map channel_frame (tree_told state.now.tree))
        ++ map channel_frame (all_links_told state.now.tree)) }
{
    let tree = state.tree();
    let ordered = tree_order(alloc, tree)?;
    tell_channels(alloc, frames, state, ordered.as_slice())?;
    let ids = channel_ids(alloc, tree)?;
    tell_links(alloc, frames, state, ids.as_slice())?;
    Ok(())
}

fn tell_user(
    alloc: Global,
    frames: &mut Vec<Octets>,
    state: &State,
    user: &User,
) -> Result<(), OutOfMemory>
    requires { IsTrue (is_sound_user user.now) }
    ensures { OnOk result (frames.new.items ≡ frames.old.items
        ++ user_frame (user_told state.now.roster user.now) ∷ []) }
{
    let roster = state.roster();
    frames.push(frame_of_user(alloc, roster, user)?)?;
    Ok(())
}

// The frames of these sessions.
fn tell_users(
    alloc: Global,
    frames: &mut Vec<Octets>,
    state: &State,
    users: &[User],
) -> Result<(), OutOfMemory>
    requires { IsTrue (list_all is_sound_user users.now) }
    ensures { OnOk result (frames.new.items ≡ frames.old.items
        ++ map (λ user. user_frame (user_told state.now.roster user)) users.now) }
{
    for user in users {
        tell_user(alloc, frames, state, user)?;
    }
    Ok(())
}

fn welcome_told(state: &State, user: &User) -> Result<ServerSync, OutOfMemory>
    requires { IsTrue (is_there state.now.tree.channels ROOT) }
    ensures { IfOk result (λ told. told ≡ welcome_told state.now user.now) }
{
    Ok(ServerSync {
        session: Some(user.session.0),
        max_bandwidth: Some(state.server().bandwidth),
        welcome_text: text_unless_empty(&state.server().welcome)?,
        permissions: Some(u64::from(held_in(state, user, ChannelId::ROOT).0)),
    })
}

fn frame_of_welcome(alloc: Global, state: &State, user: &User) -> Result<Octets, OutOfMemory>
    requires { IsProper state.now }
    ensures { IfOk result (λ frame. frame ≡ sync_frame (welcome_told state.now user.now)) }
{
    let told = welcome_told(state, user)?;
    sync_frame(alloc, &told)
}

// All frames for a session, in their order.
fn sync_frames(alloc: Global, state: &State, user: &User) -> Result<Vec<Octets>, OutOfMemory>
    ensures { IfOk result (λ frames. frames.items ≡ sync_frames state.now user.now) }
{
    let mut frames = Vec::new(alloc);
    frames.push(frame_of_version(alloc)?)?;
    frames.push(codecs_frame(alloc, &server_codecs())?)?;
    tell_tree(alloc, &mut frames, state)?;
    let roster = state.roster();
    tell_users(alloc, &mut frames, state, roster.users())?;
    frames.push(frame_of_welcome(alloc, state, user)?)?;
    Ok(frames)
}

// Each frame as a parcel for one session.
fn send_all(list: &mut Vec<Notice>, user: &User, frames: &[Octets]) -> Result<(), OutOfMemory>
    ensures { OnOk result (list.new.items
        ≡ list.old.items ++ map (λ frame. parcel frame user.now) frames.now) }
{
    for frame in frames {
        tell_one(list, user, frame)?;
    }
    Ok(())
}

// Sends a session all that there is: the server's version and codecs, the channels, each after its
// parent, their links, the sessions, and at last what is its own.
pub(crate) fn tell_state(
    alloc: Global,
    list: &mut Vec<Notice>,
    state: &State,
    user: &User,
) -> Result<(), OutOfMemory>
    ensures { OnOk result (list.new.items ≡ list.old.items ++ sync_parcels state.now user.now) }
{
    let frames = sync_frames(alloc, state, user)?;
    send_all(list, user, frames.as_slice())
}

/// What a session is sent first, as the parcels of one that joins. A session that is not there is sent
/// nothing.
pub fn sync_block(alloc: Global, state: &State, session: SessionId) -> Result<Notices, OutOfMemory>
    ensures { IfOk result (λ told. told ≡ sync_block state.now session) }
{
    let mut list = Vec::new(alloc);
    let roster = state.roster();
    let Some(user) = roster.session(session) else {
        return Ok(Items::from_vec(list));
    };
    tell_state(alloc, &mut list, state, user)?;
    Ok(Items::from_vec(list))
}
