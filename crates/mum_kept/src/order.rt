//! Kept channels in the order of the tree: each after its parent.

ghost use Rattle.std.specs.Prelude.{◌≡◌, ◌++◌, ℕ, ◌<◌, ◌≤◌, IfOk, OnOk, filter, length, slice_index_or};
ghost use Rattle.std.specs.List.Sorted.{IsNonDecreasingBy};
ghost use Rattle.mum_base.specs.declared.number.ChannelId.{ChannelId};
ghost use Rattle.mum_tree.specs.Rows.{Rise};
ghost use Rattle.mum_tree.specs.State.{ends_from, starts_at};
ghost use Rattle.mum_notify.specs.Channels.{children, family};
ghost use Rattle.mum_notify.specs.Sync.{tree_order};
ghost use Rattle.mum_kept.specs.Rows.{children_of, tree_of, tree_rows};

use crate::found::is_root;
use crate::rows::KeptChannel;
use mum_base::{ChannelId, OutOfMemory};
use mum_tree::PATH_LIMIT;
use std::alloc::Global;

// Each channel but the root after its parent's number, in order of number.
fn children_of(
    alloc: Global,
    channels: &[KeptChannel],
) -> Result<Vec<(ChannelId, ChannelId)>, OutOfMemory>
    ensures { IfOk result (λ listed. listed.items ≡ children_of channels.now) }
{
    let mut listed = Vec::with_capacity(alloc, channels.len())?;
    for channel in channels {
        if !is_root(channel.id) {
            listed.push((channel.parent, channel.id))?;
        }
    }
    Ok(listed)
}

// The same by the parents' numbers; those under one parent stay in order.
fn sorted_children(
    alloc: Global,
    channels: &[KeptChannel],
) -> Result<Vec<(ChannelId, ChannelId)>, OutOfMemory>
    requires { Rise (tree_rows channels.now) }
    ensures sorted { IfOk result (λ listed. IsNonDecreasingBy (λ child. child.0.0) listed.items) }
    ensures children { IfOk result (λ listed. (parent : ChannelId) →
        ends_from parent listed.items ≡ children (tree_of channels.now) parent) }
{
    let mut listed = children_of(alloc, channels)?;
    listed.sort_by_key(|child| child.0.0)?;
    Ok(listed)
}

// Where those under the channel begin.
fn first_under(listed: &[(ChannelId, ChannelId)], parent: ChannelId) -> usize
    requires { IsNonDecreasingBy (λ child. child.0.0) listed.now }
    ensures within { result ≤ length listed.now }
    ensures before { (k : ℕ) (other : ChannelId × ChannelId) → k < result →
        (slice_index_or listed.now k other).0.0 < parent.0 }
    ensures after { (k : ℕ) (other : ChannelId × ChannelId) → result ≤ k → k < length listed.now →
        parent.0 ≤ (slice_index_or listed.now k other).0.0 }
{
    listed.partition_point(|child| child.0.0 < parent.0)
}

// Those under the channel.
fn children_under(listed: &[(ChannelId, ChannelId)], parent: ChannelId) -> &[(ChannelId, ChannelId)]
    requires { IsNonDecreasingBy (λ child. child.0.0) listed.now }
    ensures { result.now ≡ filter (starts_at parent) listed.now }
{
    let rest = &listed[first_under(listed, parent)..];
    &rest[..rest.partition_point(|child| child.0.0 == parent.0)]
}

// A channel, and then each under it with all that is below, n levels deep.
fn add_family(
    ordered: &mut Vec<ChannelId>,
    listed: &[(ChannelId, ChannelId)],
    levels: usize,
    id: ChannelId,
) -> Result<(), OutOfMemory>
    requires { IsNonDecreasingBy (λ child. child.0.0) listed.now }
    ensures { OnOk result (ordered.new.items ≡ ordered.old.items
        ++ family (λ parent. ends_from parent listed.now) levels id) }
{
    if levels == 0 {
        return Ok(());
    }
    ordered.push(id)?;
    let under = children_under(listed, id);
    for child in under {
        add_family(ordered, listed, levels - 1, child.1)?;
    }
    Ok(())
}

// A channel before its children, and these by their numbers.
pub(crate) fn tree_order(
    alloc: Global,
    channels: &[KeptChannel],
) -> Result<Vec<ChannelId>, OutOfMemory>
    requires { Rise (tree_rows channels.now) }
    ensures { IfOk result (λ ids. ids.items ≡ tree_order (tree_of channels.now)) }
{
    let listed = sorted_children(alloc, channels)?;
    let mut ordered = Vec::with_capacity(alloc, listed.len())?;
    add_family(&mut ordered, &listed, PATH_LIMIT, ChannelId::ROOT)?;
    Ok(ordered)
}
