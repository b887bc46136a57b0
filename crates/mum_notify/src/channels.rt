//! What is reported of channels that are new or changed.

ghost use Rattle.std.specs.Prelude.{◌≡◌, ◌++◌, ◌==◌, ◌≤◌, IfOk, OnOk, filter, fold, length, map, not, pos};
ghost use Rattle.std.specs.Ordering.{int_eq};
ghost use Rattle.mum_state.specs.Kinds.{is_empty};
ghost use Rattle.mum_tree.specs.Rows.{is_root};
ghost use Rattle.std.specs.List.{flat_map};
ghost use Rattle.std.specs.Option.{option_copied};
ghost use Rattle.std.specs.Str.{bytes_eq};
ghost use Rattle.mum_base.specs.Channels.{is_among};
ghost use Rattle.mum_tree.specs.State.{partners};
ghost use Rattle.mum_users.specs.Order.{Rises};
ghost use Rattle.mum_notify.specs.Channels.{channel_change_told, channel_changes_told, channel_difference, channel_told, edited_channels, if_it_tells, is_lower, new_channel, new_channels_told, numbers, partners_only_in, place_for, said_unless, stands_at, tells_of_channel, with_channel};
ghost use Rattle.mum_notify.specs.Parcels.{IsWithinFrame, channel_frame, channel_payload};

use crate::frames::channel_frame;
use crate::users::said_if_set;
use mum_base::{ChannelId, Items, Octets, OutOfMemory, Text};
use mum_msg_state::ChannelState;
use mum_state::{Edit, State};
use mum_tree::{Channel, Tree};
use std::alloc::Global;

pub(crate) fn numbers(alloc: Global, ids: &[ChannelId]) -> Result<Items<u32>, OutOfMemory>
    ensures { IfOk result (λ listed. listed ≡ numbers ids.now) }
{
    let mut listed = Vec::with_capacity(alloc, ids.len())?;
    for id in ids {
        listed.push(id.0)?;
    }
    Ok(Items::from_vec(listed))
}

// A text, unless it is empty.
pub(crate) fn text_unless_empty(text: &Text) -> Result<Option<Text>, OutOfMemory>
    ensures { IfOk result (λ said. said ≡ said_unless (is_empty text.now) text.now) }
{
    if text.as_slice().is_empty() {
        Ok(None)
    } else {
        Ok(Some(text.share()?))
    }
}

// A text, unless it is the one that was.
pub(crate) fn text_unless_same(was: &Text, now: &Text) -> Result<Option<Text>, OutOfMemory>
    ensures { IfOk result (λ said. said ≡ said_unless (bytes_eq was.now now.now) now.now) }
{
    if was.as_str() == now.as_str() {
        Ok(None)
    } else {
        Ok(Some(now.share()?))
    }
}

// A number, unless it is the one that need not be said.
pub(crate) fn number_unless(unsaid: u32, number: u32) -> Option<u32>
    ensures { result ≡ said_unless (unsaid == number) number }
{
    if unsaid == number { None } else { Some(number) }
}

fn position_unless(unsaid: i32, position: i32) -> Option<i32>
    ensures { result ≡ said_unless (int_eq unsaid position) position }
{
    if unsaid == position {
        None
    } else {
        Some(position)
    }
}

fn number_unless_zero(number: u32) -> Option<u32>
    ensures { result ≡ said_unless (number == 0) number }
{
    if number == 0 { None } else { Some(number) }
}

fn position_unless_zero(position: i32) -> Option<i32>
    ensures { result ≡ said_unless (int_eq position (pos 0)) position }
{
    if position == 0 { None } else { Some(position) }
}

// The parent of a channel, which the root has not.
fn parent_told(channel: &Channel) -> Option<u32>
    ensures { result ≡ said_unless (is_root channel.now.id) channel.now.parent.0 }
{
    if channel.id.0 == ChannelId::ROOT.0 {
        None
    } else {
        Some(channel.parent.0)
    }
}

// All that is not as it is by default.
pub(crate) fn channel_told(alloc: Global, channel: &Channel) -> Result<ChannelState, OutOfMemory>
    ensures { IfOk result (λ told. told ≡ channel_told channel.now) }
{
    Ok(ChannelState {
        name: Some(channel.name.share()?),
        description: text_unless_empty(&channel.info.description)?,
        channel_id: Some(channel.id.0),
        parent: parent_told(channel),
        links: Items::new(alloc),
        links_add: Items::new(alloc),
        links_remove: Items::new(alloc),
        temporary: said_if_set(channel.temporary),
        position: position_unless_zero(channel.info.position),
        max_users: number_unless_zero(channel.info.max_users),
    })
}

// The frame that reports all of a channel.
pub(crate) fn frame_of_channel(alloc: Global, channel: &Channel) -> Result<Octets, OutOfMemory>
    requires { IsWithinFrame (channel_payload (channel_told channel.now)) }
    ensures { IfOk result (λ frame. frame ≡ channel_frame (channel_told channel.now)) }
{
    let told = channel_told(alloc, channel)?;
    channel_frame(alloc, &told)
}

// The channel that the edit makes.
fn new_channel<'a>(after: &'a Tree, edit: &Edit) -> Option<&'a Channel>
    ensures { option_copied result ≡ new_channel after.now edit.now }
{
    match *edit {
        Edit::MakeChannel { id, .. } => after.channel(id),
        _ => None,
    }
}

// The frames that report the channel that the edit makes.
pub(crate) fn new_channel_frames(
    alloc: Global,
    after: &State,
    edit: &Edit,
) -> Result<Vec<Octets>, OutOfMemory>
    ensures { IfOk result (λ frames. frames.items
        ≡ map channel_frame (new_channels_told after.now edit.now)) }
{
    let mut frames = Vec::new(alloc);
    let tree = after.tree();
    let Some(channel) = new_channel(tree, edit) else {
        return Ok(frames);
    };
    frames.push(frame_of_channel(alloc, channel)?)?;
    Ok(frames)
}

// The channels linked to one, in order of number.
pub(crate) fn partners(
    alloc: Global,
    tree: &Tree,
    id: ChannelId,
) -> Result<Vec<ChannelId>, OutOfMemory>
    ensures { IfOk result (λ found. found.items ≡ partners tree.now id) }
{
    let mut found = Vec::new(alloc);
    while let Some(partner) = tree.link_at(id, found.len()) {
        found.push(partner)?;
    }
    Ok(found)
}

// The channels of these that are not among the others.
fn only_in(
    alloc: Global,
    ids: &[ChannelId],
    others: &[ChannelId],
) -> Result<Items<u32>, OutOfMemory>
    ensures { IfOk result (λ listed. listed
        ≡ numbers (filter (λ id. not (is_among others.now id)) ids.now)) }
{
    let mut listed = Vec::new(alloc);
    for id in ids {
        if !others.contains(id) {
            listed.push(id.0)?;
        }
    }
    Ok(Items::from_vec(listed))
}

// The channels linked to one in one tree and not in the other.
fn partners_only_in(
    alloc: Global,
    tree: &Tree,
    other: &Tree,
    id: ChannelId,
) -> Result<Items<u32>, OutOfMemory>
    ensures { IfOk result (λ listed. listed
        ≡ numbers (partners_only_in tree.now other.now id)) }
{
    let here = partners(alloc, tree, id)?;
    let there = partners(alloc, other, id)?;
    only_in(alloc, &here, &there)
}

// What of a channel is another.
fn channel_change_told(
    alloc: Global,
    before: &Tree,
    after: &Tree,
    was: &Channel,
    now: &Channel,
) -> Result<ChannelState, OutOfMemory>
    ensures { IfOk result (λ told. told
        ≡ channel_change_told before.now after.now was.now now.now) }
{
    Ok(ChannelState {
        name: text_unless_same(&was.name, &now.name)?,
        description: text_unless_same(&was.info.description, &now.info.description)?,
        links_add: partners_only_in(alloc, after, before, now.id)?,
        links_remove: partners_only_in(alloc, before, after, now.id)?,
        channel_id: Some(now.id.0),
        parent: number_unless(was.parent.0, now.parent.0),
        links: Items::new(alloc),
        temporary: None,
        position: position_unless(was.info.position, now.info.position),
        max_users: number_unless(was.info.max_users, now.info.max_users),
    })
}

// Whether the message names something beside the channel.
fn tells_of_channel(message: &ChannelState) -> bool
    ensures { result ≡ tells_of_channel message.now }
{
    message.parent.is_some()
        || message.name.is_some()
        || message.description.is_some()
        || message.position.is_some()
        || message.max_users.is_some()
        || !message.links_add.as_slice().is_empty()
        || !message.links_remove.as_slice().is_empty()
}

// One frame more, where the message reports something.
fn push_difference(
    alloc: Global,
    frames: &mut Vec<Octets>,
    told: &ChannelState,
) -> Result<(), OutOfMemory>
    requires { IsWithinFrame (channel_payload told.now) }
    ensures { OnOk result (frames.new.items ≡ frames.old.items
        ++ map channel_frame (if_it_tells tells_of_channel told.now)) }
{
    if !tells_of_channel(told) {
        return Ok(());
    }
    frames.push(channel_frame(alloc, told)?)?;
    Ok(())
}

// One frame more, where something of the channel is another.
fn add_difference(
    alloc: Global,
    frames: &mut Vec<Octets>,
    before: &State,
    after: &State,
    id: ChannelId,
) -> Result<(), OutOfMemory>
    ensures { OnOk result (frames.new.items ≡ frames.old.items
        ++ map channel_frame (channel_difference before.now.tree after.now.tree id)) }
{
    let old = before.tree();
    let new = after.tree();
    let Some(was) = old.channel(id) else {
        return Ok(());
    };
    let Some(now) = new.channel(id) else {
        return Ok(());
    };
    let told = channel_change_told(alloc, old, new, was, now)?;
    push_difference(alloc, frames, &told)
}

// How many of these are lower, from the first on. They are in order of number, so it is found by binary search.
fn place_for(ids: &[ChannelId], id: ChannelId) -> usize
    requires { Rises is_lower ids.now }
    ensures place { result ≡ place_for id ids.now }
    ensures within { result ≤ length ids.now }
{
    ids.partition_point(|one| one.0 < id.0)
}

fn stands_at(ids: &[ChannelId], place: usize, id: ChannelId) -> bool
    ensures { result ≡ stands_at ids.now place id }
{
    match ids.get(place) {
        Some(one) => one.0 == id.0,
        None => false,
    }
}

// Puts a channel in at its place among channels in order of number, if it is not there.
fn put_channel(ordered: &mut Vec<ChannelId>, id: ChannelId) -> Result<(), OutOfMemory>
    requires { Rises is_lower ordered.old.items }
    ensures value { OnOk result (ordered.new.items ≡ with_channel id ordered.old.items) }
    ensures rise { OnOk result (Rises is_lower ordered.new.items) }
{
    let place = place_for(ordered.as_slice(), id);
    if stands_at(ordered.as_slice(), place, id) {
        return Ok(());
    }
    ordered.insert(place, id)?;
    Ok(())
}

fn put_channels(ordered: &mut Vec<ChannelId>, ids: &[ChannelId]) -> Result<(), OutOfMemory>
    requires { Rises is_lower ordered.old.items }
    ensures value { OnOk result (ordered.new.items
        ≡ fold (λ ordered id. with_channel id ordered) ordered.old.items ids.now) }
    ensures rise { OnOk result (Rises is_lower ordered.new.items) }
{
    for id in ids {
        put_channel(ordered, *id)?;
    }
    Ok(())
}

// The channels that the edit can make others, in order of number.
fn edited_channels(alloc: Global, edit: &Edit) -> Result<Vec<ChannelId>, OutOfMemory>
    ensures { IfOk result (λ ids. ids.items ≡ edited_channels edit.now) }
{
    let mut ordered = Vec::new(alloc);
    let Edit::EditChannel {
        id,
        links_add,
        links_remove,
        ..
    } = edit
    else {
        return Ok(ordered);
    };
    put_channel(&mut ordered, *id)?;
    put_channels(&mut ordered, links_add.as_slice())?;
    put_channels(&mut ordered, links_remove.as_slice())?;
    Ok(ordered)
}

// The frames of those of these channels that are others.
fn differences(
    alloc: Global,
    before: &State,
    after: &State,
    ids: &[ChannelId],
) -> Result<Vec<Octets>, OutOfMemory>
    ensures { IfOk result (λ frames. frames.items ≡ map channel_frame
        (flat_map (channel_difference before.now.tree after.now.tree) ids.now)) }
{
    let mut frames = Vec::new(alloc);
    for id in ids {
        add_difference(alloc, &mut frames, before, after, *id)?;
    }
    Ok(frames)
}

// The frames that report channels that the edit made others.
pub(crate) fn channel_change_frames(
    alloc: Global,
    before: &State,
    edit: &Edit,
    after: &State,
) -> Result<Vec<Octets>, OutOfMemory>
    ensures { IfOk result (λ frames. frames.items
        ≡ map channel_frame (channel_changes_told before.now edit.now after.now)) }
{
    let ids = edited_channels(alloc, edit)?;
    differences(alloc, before, after, &ids)
}
