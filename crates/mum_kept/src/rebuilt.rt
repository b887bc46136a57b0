//! The edits that make the channels of kept rows again.

ghost use Rattle.std.specs.Prelude.{◌≡◌, ◌++◌, [], ◌∷◌, ◌≤◌, IfOk, None, OnOk, Some, filter, length, map, not};
ghost use Rattle.mum_base.specs.declared.number.TheConstants.{PLACES};
ghost use Rattle.mum_tree.specs.Refusals.{name_of};
ghost use Rattle.mum_tree.specs.Rows.{is_root, Rise};
ghost use Rattle.mum_state.specs.declared.edit.Edit.TheVariants.{EditChannel};
ghost use Rattle.mum_kept.specs.Good.{IsTree};
ghost use Rattle.mum_kept.specs.Prefix.{free_prefix};
ghost use Rattle.mum_kept.specs.Rebuild.{describes_root, info_edit, info_edits, is_plain, link_edit, make_edit, make_edits, parent_below_root, place_edit, place_edits, policy_edit, rebuild};
ghost use Rattle.mum_kept.specs.Rows.{below_root, tree_of, tree_rows};

use crate::asked::policy_in;
use crate::found::{find, is_root, parent_of};
use crate::order::tree_order;
use crate::prefix::{free_prefix, made_name};
use crate::rows::{KeptChannel, KeptRows};
use mum_base::{ChannelId, Items, OutOfMemory, Text};
use mum_state::Edit;
use mum_tree::ChannelInfo;
use std::alloc::Global;
use std::mem::drop;

// Adds the edit that makes a channel.
fn push_make(
    alloc: Global,
    prefix: &str,
    channel: &KeptChannel,
    edits: &mut Vec<Edit>,
) -> Result<(), OutOfMemory>
    ensures { OnOk result (edits.new.items
        ≡ edits.old.items ++ make_edit prefix.now channel.now ∷ []) }
{
    let name = made_name(alloc, prefix, channel.id)?;
    match channel.info.share() {
        Ok(info) => {
            edits.push(Edit::MakeChannel {
                id: channel.id,
                parent: ChannelId::ROOT,
                name,
                temporary: false,
                info,
                maker: None,
            })?;
            Ok(())
        }
        Err(error) => {
            drop(name);
            Err(error)
        }
    }
}

// Adds the edits that make the channels, under names that begin with the prefix.
fn push_makes(
    alloc: Global,
    prefix: &str,
    channels: &[KeptChannel],
    edits: &mut Vec<Edit>,
) -> Result<(), OutOfMemory>
    ensures { OnOk result (edits.new.items
        ≡ edits.old.items ++ map (make_edit prefix.now) (below_root channels.now)) }
{
    for channel in channels {
        if !is_root(channel.id) {
            push_make(alloc, prefix, channel, edits)?;
        }
    }
    Ok(())
}

fn parent_below_root(parent: ChannelId) -> Option<ChannelId>
    ensures { result ≡ parent_below_root parent }
{
    if is_root(parent) { None } else { Some(parent) }
}

// The name of a channel; none where it is not there.
fn name_of(alloc: Global, channels: &[KeptChannel], id: ChannelId) -> Result<Text, OutOfMemory>
    requires { Rise (tree_rows channels.now) }
    ensures { IfOk result (λ name. name ≡ name_of (tree_of channels.now) id) }
{
    match find(channels, id) {
        Some(channel) => channel.name.share(),
        None => Ok(Text::empty(alloc)),
    }
}

// Adds the edit that gives a channel its name and its parent.
fn push_place(
    alloc: Global,
    channels: &[KeptChannel],
    id: ChannelId,
    edits: &mut Vec<Edit>,
) -> Result<(), OutOfMemory>
    requires { Rise (tree_rows channels.now) }
    ensures { OnOk result (edits.new.items
        ≡ edits.old.items ++ place_edit (tree_of channels.now) id ∷ []) }
{
    let name = name_of(alloc, channels, id)?;
    let parent = parent_below_root(parent_of(channels, id));
    edits.push(Edit::EditChannel {
        id,
        actor: None,
        name: Some(name),
        parent,
        description: None,
        position: None,
        max_users: None,
        links_add: Items::new(alloc),
        links_remove: Items::new(alloc),
    })?;
    Ok(())
}

// Adds the edits that give these channels but the root their names and their parents.
fn push_places(
    alloc: Global,
    channels: &[KeptChannel],
    ids: &[ChannelId],
    edits: &mut Vec<Edit>,
) -> Result<(), OutOfMemory>
    requires { Rise (tree_rows channels.now) }
    ensures { OnOk result (edits.new.items ≡ edits.old.items
        ++ map (place_edit (tree_of channels.now)) (filter (λ id. not (is_root id)) ids.now)) }
{
    for id in ids {
        if !is_root(*id) {
            push_place(alloc, channels, *id, edits)?;
        }
    }
    Ok(())
}

fn is_plain(info: &ChannelInfo) -> bool
    ensures { result ≡ is_plain info.now }
{
    info.description.as_slice().is_empty() && info.position == 0 && info.max_users == 0
}

// Adds the edit that describes the root.
fn push_info(alloc: Global, info: &ChannelInfo, edits: &mut Vec<Edit>) -> Result<(), OutOfMemory>
    ensures { OnOk result (edits.new.items ≡ edits.old.items ++ info_edit info.now ∷ []) }
{
    let description = info.description.share()?;
    edits.push(Edit::EditChannel {
        id: ChannelId::ROOT,
        actor: None,
        name: None,
        parent: None,
        description: Some(description),
        position: Some(info.position),
        max_users: Some(info.max_users),
        links_add: Items::new(alloc),
        links_remove: Items::new(alloc),
    })?;
    Ok(())
}

// Whether this is the root, and something describes it.
fn describes_root(channel: &KeptChannel) -> bool
    ensures { result ≡ describes_root channel.now }
{
    is_root(channel.id) && !is_plain(&channel.info)
}

// Adds the edit that describes the root, if something describes it.
fn push_infos(
    alloc: Global,
    channels: &[KeptChannel],
    edits: &mut Vec<Edit>,
) -> Result<(), OutOfMemory>
    ensures { OnOk result (edits.new.items ≡ edits.old.items ++ info_edits channels.now) }
{
    for channel in channels {
        if describes_root(channel) {
            push_info(alloc, &channel.info, edits)?;
        }
    }
    Ok(())
}

// Adds the edit of a link.
fn push_link(
    alloc: Global,
    from: ChannelId,
    to: ChannelId,
    edits: &mut Vec<Edit>,
) -> Result<(), OutOfMemory>
    ensures { OnOk result (edits.new.items ≡ edits.old.items ++ link_edit (from, to) ∷ []) }
{
    let mut links_add = Items::new(alloc);
    links_add.push(to)?;
    edits.push(Edit::EditChannel {
        id: from,
        actor: None,
        name: None,
        parent: None,
        description: None,
        position: None,
        max_users: None,
        links_add,
        links_remove: Items::new(alloc),
    })?;
    Ok(())
}

// Adds the edits of the links.
fn push_links(
    alloc: Global,
    links: &[(ChannelId, ChannelId)],
    edits: &mut Vec<Edit>,
) -> Result<(), OutOfMemory>
    ensures { OnOk result (edits.new.items ≡ edits.old.items ++ map link_edit links.now) }
{
    for link in links {
        push_link(alloc, link.0, link.1, edits)?;
    }
    Ok(())
}

// Adds the edit that gives a channel its policy.
fn push_policy(
    alloc: Global,
    channel: &KeptChannel,
    edits: &mut Vec<Edit>,
) -> Result<(), OutOfMemory>
    ensures { OnOk result (edits.new.items ≡ edits.old.items ++ policy_edit channel.now ∷ []) }
{
    let policy = policy_in(alloc, channel.policy.as_slice())?;
    edits.push(Edit::SetAcl {
        channel: channel.id,
        actor: None,
        policy,
    })?;
    Ok(())
}

// Adds the edits that give the channels their policies.
fn push_policies(
    alloc: Global,
    channels: &[KeptChannel],
    edits: &mut Vec<Edit>,
) -> Result<(), OutOfMemory>
    ensures { OnOk result (edits.new.items ≡ edits.old.items ++ map policy_edit channels.now) }
{
    for channel in channels {
        push_policy(alloc, channel, edits)?;
    }
    Ok(())
}

// Adds the edits that make the channels.
fn push_made(
    alloc: Global,
    channels: &[KeptChannel],
    edits: &mut Vec<Edit>,
) -> Result<(), OutOfMemory>
    requires { length channels.now ≤ PLACES }
    ensures { OnOk result (edits.new.items ≡ edits.old.items ++ make_edits channels.now) }
{
    let prefix = free_prefix(alloc, channels)?;
    push_makes(alloc, prefix.as_str(), channels, edits)?;
    Ok(())
}

// Adds the edits that give the channels their names and their parents, each after its parent's.
fn push_placed(
    alloc: Global,
    channels: &[KeptChannel],
    edits: &mut Vec<Edit>,
) -> Result<(), OutOfMemory>
    requires { Rise (tree_rows channels.now) }
    ensures { OnOk result (edits.new.items ≡ edits.old.items ++ place_edits channels.now) }
{
    let ids = tree_order(alloc, channels)?;
    push_places(alloc, channels, &ids, edits)?;
    Ok(())
}

// Adds all edits.
fn push_all(alloc: Global, rows: &KeptRows, edits: &mut Vec<Edit>) -> Result<(), OutOfMemory>
    requires { IsTree rows.now }
    ensures { OnOk result (edits.new.items ≡ edits.old.items ++ rebuild rows.now) }
{
    let channels = rows.channels.as_slice();
    push_made(alloc, channels, edits)?;
    push_placed(alloc, channels, edits)?;
    push_infos(alloc, channels, edits)?;
    push_links(alloc, rows.links.as_slice(), edits)?;
    push_policies(alloc, channels, edits)?;
    Ok(())
}

/// The edits that make the channels of rows that are good and not empty, with the links and the
/// policies of each, from a state that has the root alone. No edit has an actor or a maker. It costs in
/// proportion to the rows, but for the order of the tree, which sorts them.
pub fn rebuild(alloc: Global, rows: &KeptRows) -> Result<Vec<Edit>, OutOfMemory>
    requires { IsTree rows.now }
    ensures { IfOk result (λ edits. edits.items ≡ rebuild rows.now) }
{
    let mut edits = Vec::new(alloc);
    match push_all(alloc, rows, &mut edits) {
        Ok(()) => Ok(edits),
        Err(error) => {
            drop(edits);
            Err(error)
        }
    }
}
