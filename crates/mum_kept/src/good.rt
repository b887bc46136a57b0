//! Whether rows are those of channels that a server may have.

ghost use Rattle.std.specs.Prelude.{◌≡◌, ◌↔◌, IfOk, IsTrue};
ghost use Rattle.std.specs.List.{list_all};
ghost use Rattle.mum_tree.specs.Proper.{HasRoot};
ghost use Rattle.mum_tree.specs.Rows.{Rise};
ghost use Rattle.mum_state.specs.Proper.{is_name, is_text};
ghost use Rattle.mum_kept.specs.Good.{AreGoodChannels, AreShaped, IsGood, are_sound, has_name, has_policy, has_text, is_named_root, leads_up};
ghost use Rattle.mum_kept.specs.Rows.{tree_rows};

use crate::asked::holds_policy;
use crate::found::{find, is_root};
use crate::joined::are_good_links;
use crate::rows::{KeptChannel, KeptRows};
use crate::siblings::are_apart;
use mum_base::{ChannelId, OutOfMemory, PLACES, Text, check_name, check_text};
use mum_tree::PATH_LIMIT;
use std::alloc::Global;

fn rise(channels: &[KeptChannel]) -> bool
    ensures { IsTrue result ↔ Rise (tree_rows channels.now) }
{
    channels.is_sorted_by(|channel, next| channel.id.0 < next.id.0)
}

fn is_named_root(channel: &KeptChannel) -> bool
    ensures { result ≡ is_named_root channel.now }
{
    is_root(channel.parent) && channel.name.as_str() == "Root"
}

// Whether the root is there, named Root and under itself.
fn has_root(channels: &[KeptChannel]) -> bool
    requires { Rise (tree_rows channels.now) }
    ensures { IsTrue result ↔ HasRoot (tree_rows channels.now) }
{
    match find(channels, ChannelId::ROOT) {
        Some(root) => is_named_root(root),
        None => false,
    }
}

// Whether parents lead from the channel to the root, within 32 steps.
fn leads_up(channels: &[KeptChannel], from: ChannelId) -> bool
    requires { Rise (tree_rows channels.now) }
    ensures { result ≡ leads_up (tree_rows channels.now) from }
{
    let mut id = from;
    for _step in 0..PATH_LIMIT {
        let Some(channel) = find(channels, id) else {
            return false;
        };
        if id.0 == ChannelId::ROOT.0 {
            return true;
        }
        id = channel.parent;
    }
    false
}

fn all_lead_up(channels: &[KeptChannel]) -> bool
    requires { Rise (tree_rows channels.now) }
    ensures { result ≡ list_all (λ channel. leads_up (tree_rows channels.now) channel.id) channels.now }
{
    channels
        .iter()
        .all(|channel| leads_up(channels, channel.id))
}

fn is_name(name: &Text) -> bool
    ensures { result ≡ is_name name.now }
{
    check_name(name.as_str()).is_ok()
}

fn is_text(text: &Text) -> bool
    ensures { result ≡ is_text text.now }
{
    check_text(text.as_str()).is_ok()
}

fn are_named(channels: &[KeptChannel]) -> bool
    ensures { result ≡ list_all has_name channels.now }
{
    channels.iter().all(|channel| is_name(&channel.name))
}

fn are_described(channels: &[KeptChannel]) -> bool
    ensures { result ≡ list_all has_text channels.now }
{
    channels
        .iter()
        .all(|channel| is_text(&channel.info.description))
}

fn have_policies(alloc: Global, channels: &[KeptChannel]) -> Result<bool, OutOfMemory>
    ensures { IfOk result (λ have. have ≡ list_all has_policy channels.now) }
{
    for channel in channels {
        let holds = holds_policy(alloc, channel.id, channel.policy.as_slice())?;
        if !holds {
            return Ok(false);
        }
    }
    Ok(true)
}

// Whether parents lead to the root, and names and descriptions are as they may be.
fn are_sound(channels: &[KeptChannel]) -> bool
    requires { Rise (tree_rows channels.now) }
    ensures { result ≡ are_sound channels.now }
{
    all_lead_up(channels) && are_named(channels) && are_described(channels)
}

// What can be said of the channels without memory.
fn are_shaped(channels: &[KeptChannel]) -> bool
    ensures { IsTrue result ↔ AreShaped channels.now }
{
    let count = channels.len();
    if count > PLACES {
        return false;
    }
    if !rise(channels) {
        return false;
    }
    if !has_root(channels) {
        return false;
    }
    are_sound(channels)
}

fn are_good_channels(alloc: Global, channels: &[KeptChannel]) -> Result<bool, OutOfMemory>
    ensures { IfOk result (λ good. IsTrue good ↔ AreGoodChannels channels.now) }
{
    if !are_shaped(channels) {
        return Ok(false);
    }
    let have = have_policies(alloc, channels)?;
    if !have {
        return Ok(false);
    }
    are_apart(alloc, channels)
}

/// Whether rows can be kept: there are none, or they are those of channels that a server may have. It
/// costs in proportion to the rows, each channel that is named found by binary search.
pub fn good_rows(alloc: Global, rows: &KeptRows) -> Result<bool, OutOfMemory>
    ensures { IfOk result (λ good. IsTrue good ↔ IsGood rows.now) }
{
    let channels = rows.channels.as_slice();
    let links = rows.links.as_slice();
    if channels.is_empty() {
        return Ok(links.is_empty());
    }
    let good = are_good_channels(alloc, channels)?;
    if !good {
        return Ok(false);
    }
    are_good_links(alloc, channels, links)
}
