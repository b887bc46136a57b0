//! The rows that are kept of a state.

ghost use Rattle.std.specs.Prelude.{◌≡◌, ◌++◌, ◌<◌, IfOk, IfSome, OnOk, filter, length};
ghost use Rattle.std.specs.Option.{option_copied};
ghost use Rattle.mum_tree.specs.Proper.{IsProper as IsProperTree};
ghost use Rattle.mum_tree.specs.Rows.{Rise};
ghost use Rattle.mum_tree.specs.State.{partners};
ghost use Rattle.mum_notify.specs.Channels.{channel_ids};
ghost use Rattle.mum_kept.specs.Kept.{is_kept_link, kept, kept_channel, kept_channels, kept_links, kept_of, kept_policy, lasts, links_from};
ghost use Rattle.mum_kept.specs.Policy.{policy_payload};
ghost use Rattle.mum_kept.specs.Standing.{HasPolicyOf, HavePoliciesOf};

use crate::rows::{KeptChannel, KeptRows};
use mum_base::{ChannelId, Items, Octets, OutOfMemory};
use mum_msg_rule::Message;
use mum_policy::{ChannelPolicy, Policies};
use mum_rules_tree::acl_told;
use mum_state::State;
use mum_tree::{Channel, Tree};
use std::alloc::Global;

// The channels, in order of number.
fn channel_ids(alloc: Global, tree: &Tree) -> Result<Vec<ChannelId>, OutOfMemory>
    ensures { IfOk result (λ ids. ids.items ≡ channel_ids tree.now) }
{
    let mut ids = Vec::new(alloc);
    while let Some(id) = tree.nth(ids.len()) {
        ids.push(id)?;
    }
    Ok(ids)
}

// The channels linked to one, in order of number.
fn partners(alloc: Global, tree: &Tree, id: ChannelId) -> Result<Vec<ChannelId>, OutOfMemory>
    ensures { IfOk result (λ found. found.items ≡ partners tree.now id) }
{
    let mut found = Vec::new(alloc);
    while let Some(partner) = tree.link_at(id, found.len()) {
        found.push(partner)?;
    }
    Ok(found)
}

// What answers a query for the policy of the channel, held once for all who share it.
fn policy_payload(
    alloc: Global,
    id: ChannelId,
    policy: &ChannelPolicy,
) -> Result<Octets, OutOfMemory>
    ensures { IfOk result (λ payload. payload ≡ policy_payload id policy.now) }
{
    let told = acl_told(alloc, id, policy)?;
    told.encode(alloc)?.into_shared()
}

fn encoded_policy(alloc: Global, state: &State, id: ChannelId) -> Result<Octets, OutOfMemory>
    ensures { IfOk result (λ payload. payload ≡ kept_policy state.now id) }
{
    match state.policy(id) {
        Some(policy) => policy_payload(alloc, id, policy),
        None => Ok(Octets::from_vec(Vec::new(alloc))),
    }
}

// The policy of a channel: that of the row, where this is the channel's.
fn kept_policy(
    alloc: Global,
    state: &State,
    id: ChannelId,
    known: Option<&KeptChannel>,
) -> Result<Octets, OutOfMemory>
    requires { IfSome (option_copied known) (HasPolicyOf state.now) }
    ensures { IfOk result (λ payload. payload ≡ kept_policy state.now id) }
{
    let Some(row) = known else {
        return encoded_policy(alloc, state, id);
    };
    if row.id.0 != id.0 {
        return encoded_policy(alloc, state, id);
    }
    row.policy.share()
}

fn kept_channel(
    alloc: Global,
    state: &State,
    channel: &Channel,
    known: Option<&KeptChannel>,
) -> Result<KeptChannel, OutOfMemory>
    requires { IfSome (option_copied known) (HasPolicyOf state.now) }
    ensures { IfOk result (λ kept. kept ≡ kept_channel state.now channel.now) }
{
    Ok(KeptChannel {
        id: channel.id,
        parent: channel.parent,
        name: channel.name.share()?,
        info: channel.info.share()?,
        policy: kept_policy(alloc, state, channel.id, known)?,
    })
}

// Adds the row of a channel, if it is kept.
fn add_channel(
    alloc: Global,
    channels: &mut Vec<KeptChannel>,
    state: &State,
    id: ChannelId,
    known: Option<&KeptChannel>,
) -> Result<(), OutOfMemory>
    requires { IfSome (option_copied known) (HasPolicyOf state.now) }
    ensures { OnOk result (channels.new.items ≡ channels.old.items ++ kept_of state.now id) }
{
    let tree = state.tree();
    let Some(channel) = tree.channel(id) else {
        return Ok(());
    };
    if channel.temporary {
        return Ok(());
    }
    channels.push(kept_channel(alloc, state, channel, known)?)?;
    Ok(())
}

// The index of the first row, from this one on, whose number is not below that of the channel.
fn first_from(rows: &[KeptChannel], from: usize, id: ChannelId) -> usize {
    let mut at = from;
    while at < rows.len() && rows[at].id.0 < id.0 {
        at += 1;
    }
    at
}

// The channels' rows; the policies that the known rows have are shared. Both are in order of number, and each
// known row is met once.
fn kept_channels(
    alloc: Global,
    state: &State,
    ids: &[ChannelId],
    known: &[KeptChannel],
) -> Result<Vec<KeptChannel>, OutOfMemory>
    requires ids { ids.now ≡ channel_ids state.now.tree }
    requires rise { Rise state.now.tree.channels }
    requires known { HavePoliciesOf state.now known.now }
    ensures { IfOk result (λ channels. channels.items ≡ kept_channels state.now) }
{
    let mut channels = Vec::with_capacity(alloc, ids.len())?;
    let mut at = 0;
    for id in ids {
        at = first_from(known, at, *id);
        add_channel(alloc, &mut channels, state, *id, known.get(at))?;
    }
    Ok(channels)
}

// Whether the channel is there and not temporary.
fn lasts(tree: &Tree, id: ChannelId) -> bool
    ensures { result ≡ lasts tree.now id }
{
    match tree.channel(id) {
        Some(channel) => !channel.temporary,
        None => false,
    }
}

fn is_kept_link(tree: &Tree, from: ChannelId, to: ChannelId) -> bool
    ensures { result ≡ is_kept_link tree.now (from, to) }
{
    from.0 < to.0 && lasts(tree, from) && lasts(tree, to)
}

// Adds those links of a channel that are kept with it.
fn add_links(
    alloc: Global,
    links: &mut Vec<(ChannelId, ChannelId)>,
    tree: &Tree,
    id: ChannelId,
) -> Result<(), OutOfMemory>
    ensures { OnOk result (links.new.items
        ≡ links.old.items ++ filter (is_kept_link tree.now) (links_from tree.now id)) }
{
    let others = partners(alloc, tree, id)?;
    for other in &others {
        if is_kept_link(tree, id, *other) {
            links.push((id, *other))?;
        }
    }
    Ok(())
}

fn kept_links(
    alloc: Global,
    tree: &Tree,
    ids: &[ChannelId],
) -> Result<Vec<(ChannelId, ChannelId)>, OutOfMemory>
    requires ids { ids.now ≡ channel_ids tree.now }
    requires proper { IsProperTree tree.now }
    ensures { IfOk result (λ links. links.items ≡ kept_links tree.now) }
{
    let mut links = Vec::new(alloc);
    for id in ids {
        add_links(alloc, &mut links, tree, *id)?;
    }
    Ok(links)
}

// The rows that are kept of a state; the policies that the known rows have are shared.
fn rows_sharing(
    alloc: Global,
    state: &State,
    known: &[KeptChannel],
) -> Result<KeptRows, OutOfMemory>
    requires { HavePoliciesOf state.now known.now }
    ensures { IfOk result (λ rows. rows ≡ kept state.now) }
{
    let tree = state.tree();
    let ids = channel_ids(alloc, tree)?;
    let channels = kept_channels(alloc, state, &ids, known)?;
    let links = kept_links(alloc, tree, &ids)?;
    Ok(KeptRows {
        channels: Items::from_vec(channels),
        links: Items::from_vec(links),
    })
}

/// The rows that are kept of a state. It costs in proportion to the channels, their links and their
/// policies, each link and each channel found by binary search.
pub fn kept_rows(alloc: Global, state: &State) -> Result<KeptRows, OutOfMemory>
    ensures { IfOk result (λ rows. rows ≡ kept state.now) }
{
    rows_sharing(alloc, state, &[])
}

/// The same, where earlier rows have policies of this state: these are shared, and only those of channels that
/// have no row there are encoded. Policies cost nothing where the earlier rows were made by `kept_rows`.
pub fn kept_rows_sharing(
    alloc: Global,
    state: &State,
    earlier: &KeptRows,
) -> Result<KeptRows, OutOfMemory>
    requires { HavePoliciesOf state.now earlier.now.channels }
    ensures { IfOk result (λ rows. rows ≡ kept state.now) }
{
    rows_sharing(alloc, state, earlier.channels.as_slice())
}
