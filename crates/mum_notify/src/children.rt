//! The channels of a tree, each with all that is below it after it.

ghost use Rattle.std.specs.Prelude.{◌≡◌, ◌++◌, ◌≤◌, IfOk, OnOk, filter, length, nat_lt, not, position};
ghost use Rattle.std.specs.List.{position_or_len};
ghost use Rattle.mum_base.specs.declared.number.ChannelId.{ChannelId};
ghost use Rattle.mum_users.specs.Order.{Rises};
ghost use Rattle.mum_notify.specs.Channels.{channel_ids, children, family};
ghost use Rattle.mum_notify.specs.Child.{is_not_after, is_under, children_in, child_of, children_of};
ghost use Rattle.mum_notify.specs.Sync.{tree_order};

use mum_base::{ChannelId, OutOfMemory};
use mum_tree::{PATH_LIMIT, Tree};
use std::alloc::Global;

// A channel under another.
#[derive(Clone, Copy)]
pub(crate) struct Child {
    pub(crate) parent: ChannelId,
    pub(crate) id: ChannelId,
}

// The channels, in order of number.
pub(crate) fn channel_ids(alloc: Global, tree: &Tree) -> Result<Vec<ChannelId>, OutOfMemory>
    ensures { IfOk result (λ ids. ids.items ≡ channel_ids tree.now) }
{
    let mut ids = Vec::new(alloc);
    while let Some(id) = tree.nth(ids.len()) {
        ids.push(id)?;
    }
    Ok(ids)
}

fn child_of(tree: &Tree, id: ChannelId) -> Child
    ensures { result ≡ child_of tree.now id }
{
    let parent = match tree.channel(id) {
        Some(channel) => channel.parent,
        None => id,
    };
    Child { parent, id }
}

// Of these channels each but the root, with its parent.
fn children_of(alloc: Global, tree: &Tree, ids: &[ChannelId]) -> Result<Vec<Child>, OutOfMemory>
    ensures { IfOk result (λ listed. listed.items ≡ children_of tree.now ids.now) }
{
    let mut listed = Vec::with_capacity(alloc, ids.len())?;
    for id in ids {
        if id.0 != ChannelId::ROOT.0 {
            listed.push(child_of(tree, *id))?;
        }
    }
    Ok(listed)
}

// All channels of a tree but the root by their parents, those under one by their numbers.
fn sorted_children(alloc: Global, tree: &Tree) -> Result<Vec<Child>, OutOfMemory>
    ensures rise { IfOk result (λ listed. Rises is_not_after listed.items) }
    ensures children { IfOk result (λ listed.
        (parent : ChannelId) → children_in listed.items parent ≡ children tree.now parent) }
{
    let ids = channel_ids(alloc, tree)?;
    let mut listed = children_of(alloc, tree, &ids)?;
    listed.sort_by_key(|child| child.parent.0)?;
    Ok(listed)
}

// Whether this child comes before those under the channel.
fn is_before(child: Child, parent: ChannelId) -> bool
    ensures { result ≡ nat_lt child.parent.0 parent.0 }
{
    child.parent.0 < parent.0
}

fn first_elsewhere(listed: &[Child], parent: ChannelId) -> Option<usize>
    ensures { result ≡ position (λ child. not (is_under parent child)) listed.now }
{
    listed.iter().position(|child| child.parent.0 != parent.0)
}

// How many of these are under the channel, from the first on.
fn count_under(listed: &[Child], parent: ChannelId) -> usize
    ensures count { result ≡ position_or_len (λ child. not (is_under parent child)) listed.now }
    ensures within { result ≤ length listed.now }
{
    first_elsewhere(listed, parent).unwrap_or(listed.len())
}

// Those under a channel. The first is found by binary search.
fn children_under(listed: &[Child], parent: ChannelId) -> &[Child]
    requires { Rises is_not_after listed.now }
    ensures { result.now ≡ filter (is_under parent) listed.now }
{
    let first = listed.partition_point(|child| is_before(*child, parent));
    let rest = &listed[first..];
    let count = count_under(rest, parent);
    &rest[..count]
}

// A channel, and then each under it with all that is below, n levels deep.
fn add_family(
    ordered: &mut Vec<ChannelId>,
    listed: &[Child],
    levels: usize,
    id: ChannelId,
) -> Result<(), OutOfMemory>
    requires { Rises is_not_after listed.now }
    ensures { OnOk result (ordered.new.items
        ≡ ordered.old.items ++ family (children_in listed.now) levels id) }
{
    if levels == 0 {
        return Ok(());
    }
    ordered.push(id)?;
    let under = children_under(listed, id);
    for child in under {
        add_family(ordered, listed, levels - 1, child.id)?;
    }
    Ok(())
}

// A channel before its children, and these by their numbers.
pub(crate) fn tree_order(alloc: Global, tree: &Tree) -> Result<Vec<ChannelId>, OutOfMemory>
    ensures { IfOk result (λ ids. ids.items ≡ tree_order tree.now) }
{
    let listed = sorted_children(alloc, tree)?;
    let mut ordered = Vec::with_capacity(alloc, listed.len())?;
    add_family(&mut ordered, &listed, PATH_LIMIT, ChannelId::ROOT)?;
    Ok(ordered)
}
