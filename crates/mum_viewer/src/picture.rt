//! A picture of a state, taken while nothing changes it. It copies numbers and flags, and shares texts.

ghost use Rattle.std.specs.Prelude.{◌≡◌, IfOk, map, slice_get};
ghost use Rattle.std.specs.Option.{option_copied, option_map};
ghost use Rattle.mum_tree.specs.Rows.{Rise};
ghost use Rattle.mum_tree.specs.State.{partners};
ghost use Rattle.mum_users.specs.Listeners.{pairs_of};
ghost use Rattle.mum_viewer.specs.Picture.{picture_of, shown_channel, shown_channels, shown_parent, shown_user, shown_users};

use mum_base::{AccountId, ChannelId, Items, OutOfMemory, SessionId, Text};
use mum_state::State;
use mum_tree::{Channel, Tree};
use mum_users::{ListenerPair, Roster, User};
use std::alloc::Global;

// What a view shows of a channel.
#[derive(Drop)]
pub(crate) struct ShownChannel {
    pub id: ChannelId,
    /// The channels linked to it, in order of number.
    pub links: Items<ChannelId>,
    pub name: Text,
    /// The channel above it; `None` for the root.
    pub parent: Option<ChannelId>,
    pub temporary: bool,
}

// What a view shows of a user.
#[derive(Drop)]
pub(crate) struct ShownUser {
    pub account: Option<AccountId>,
    pub channel: ChannelId,
    /// Others or the user made it deaf.
    pub deaf: bool,
    /// The channels that it listens to, in order of number.
    pub listens: Items<ChannelId>,
    /// Others or the user made it mute, or it may not speak where it is.
    pub mute: bool,
    pub name: Text,
    pub session: SessionId,
}

// What a view shows of a state.
#[derive(Drop)]
pub(crate) struct Picture {
    /// In order of number.
    pub channels: Items<ShownChannel>,
    /// How many edits sessions had made.
    pub revision: u64,
    /// In order of slot.
    pub users: Items<ShownUser>,
}

// The channels linked to one, in order of number.
fn partners(alloc: Global, tree: &Tree, id: ChannelId) -> Result<Items<ChannelId>, OutOfMemory>
    ensures { IfOk result (λ found. found ≡ partners tree.now id) }
{
    let mut found = Vec::new(alloc);
    while let Some(partner) = tree.link_at(id, found.len()) {
        found.push(partner)?;
    }
    Ok(Items::from_vec(found))
}

fn shown_parent(channel: &Channel) -> Option<ChannelId>
    ensures { result ≡ shown_parent channel.now }
{
    if channel.id.0 == ChannelId::ROOT.0 {
        None
    } else {
        Some(channel.parent)
    }
}

fn shown_channel(alloc: Global, tree: &Tree, channel: &Channel) -> Result<ShownChannel, OutOfMemory>
    ensures { IfOk result (λ shown. shown ≡ shown_channel tree.now channel.now) }
{
    Ok(ShownChannel {
        id: channel.id,
        links: partners(alloc, tree, channel.id)?,
        name: channel.name.share()?,
        parent: shown_parent(channel),
        temporary: channel.temporary,
    })
}

// The channel at this index in order of number.
fn nth_channel(tree: &Tree, index: usize) -> Option<&Channel>
    requires { Rise tree.now.channels }
    ensures { option_copied result ≡ option_map (λ row. row.channel) (slice_get tree.now.channels index) }
{
    match tree.nth(index) {
        Some(id) => tree.channel(id),
        None => None,
    }
}

fn shown_channels(alloc: Global, tree: &Tree) -> Result<Items<ShownChannel>, OutOfMemory>
    requires { Rise tree.now.channels }
    ensures { IfOk result (λ shown. shown ≡ shown_channels tree.now) }
{
    let mut shown = Vec::new(alloc);
    while let Some(channel) = nth_channel(tree, shown.len()) {
        shown.push(shown_channel(alloc, tree, channel)?)?;
    }
    Ok(Items::from_vec(shown))
}

// The channels of these pairs.
fn channels_of(alloc: Global, pairs: &[ListenerPair]) -> Result<Items<ChannelId>, OutOfMemory>
    ensures { IfOk result (λ channels. channels ≡ map (λ pair. pair.channel) pairs.now) }
{
    let mut channels = Vec::with_capacity(alloc, pairs.len())?;
    for pair in pairs {
        channels.push(pair.channel)?;
    }
    Ok(Items::from_vec(channels))
}

fn shown_user(alloc: Global, roster: &Roster, user: &User) -> Result<ShownUser, OutOfMemory>
    ensures { IfOk result (λ shown. shown ≡ shown_user roster.now user.now) }
{
    Ok(ShownUser {
        account: user.account,
        channel: user.channel,
        deaf: user.deaf || user.self_deaf,
        listens: channels_of(alloc, roster.pairs_of(user.session))?,
        mute: user.mute || user.self_mute || user.suppress,
        name: user.name.share()?,
        session: user.session,
    })
}

fn shown_users(
    alloc: Global,
    roster: &Roster,
    users: &[User],
) -> Result<Items<ShownUser>, OutOfMemory>
    ensures { IfOk result (λ shown. shown ≡ map (shown_user roster.now) users.now) }
{
    let mut shown = Vec::with_capacity(alloc, users.len())?;
    for user in users {
        shown.push(shown_user(alloc, roster, user)?)?;
    }
    Ok(Items::from_vec(shown))
}

impl Picture {
    // What a view shows of this state. Its texts are not copied.
    pub(crate) fn of(alloc: Global, state: &State) -> Result<Picture, OutOfMemory>
        ensures { IfOk result (λ picture. picture ≡ picture_of state.now) }
    {
        let roster = state.roster();
        Ok(Picture {
            channels: shown_channels(alloc, state.tree())?,
            revision: state.revision(),
            users: shown_users(alloc, roster, roster.users())?,
        })
    }
}
