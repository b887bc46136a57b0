//! Whether the rows of links are those of channels that a server may have.

ghost use Rattle.std.specs.Prelude.{◌≡◌, ℕ, ◌+◌, ◌↔◌, ◌<◌, ◌≤◌, ◌==◌, IfOk, IsTrue, if◌then◌else◌};
ghost use Rattle.std.specs.List.{count_by, list_all, All};
ghost use Rattle.mum_base.specs.declared.number.ChannelId.{ChannelId};
ghost use Rattle.mum_tree.specs.declared.links.TheConstants.{CHANNEL_LINK_LIMIT};
ghost use Rattle.mum_tree.specs.Rows.{Rise};
ghost use Rattle.mum_tree.specs.State.{is_above, Ordered};
ghost use Rattle.mum_kept.specs.Good.{AreGoodLinks, count_at, is_end, is_link_of, joins_two};
ghost use Rattle.mum_kept.specs.Rows.{tree_rows};

use crate::found::is_there;
use crate::rows::KeptChannel;
use indexmap::IndexMap;
use mum_base::{ChannelId, OutOfMemory};
use mum_tree::CHANNEL_LINK_LIMIT;
use std::alloc::Global;

fn joins_two(channels: &[KeptChannel], from: ChannelId, to: ChannelId) -> bool
    requires { Rise (tree_rows channels.now) }
    ensures { result ≡ joins_two (tree_rows channels.now) (from, to) }
{
    is_there(channels, from) && is_there(channels, to) && from.0 < to.0
}

fn all_join_two(channels: &[KeptChannel], links: &[(ChannelId, ChannelId)]) -> bool
    requires { Rise (tree_rows channels.now) }
    ensures { result ≡ list_all (joins_two (tree_rows channels.now)) links.now }
{
    links.iter().all(|link| joins_two(channels, link.0, link.1))
}

// Whether the pair is below the other.
fn is_below(link: &(ChannelId, ChannelId), other: &(ChannelId, ChannelId)) -> bool
    ensures { result ≡ is_above link.now.0 link.now.1 other.now }
{
    link.0.0 < other.0.0 || (link.0.0 == other.0.0 && link.1.0 < other.1.0)
}

fn rise(links: &[(ChannelId, ChannelId)]) -> bool
    ensures { IsTrue result ↔ Ordered links.now }
{
    links.is_sorted_by(|link, next| is_below(link, next))
}

// How many links of a channel are counted.
fn count_at(counts: &IndexMap<u32, usize>, id: ChannelId) -> usize
    ensures { result ≡ count_at counts.now.entries id.0 }
{
    counts.get(&id.0).copied().unwrap_or(0)
}

// Counts one more link of a channel. Whether that is not too many.
fn count_one(counts: &mut IndexMap<u32, usize>, id: ChannelId) -> Result<bool, OutOfMemory>
    ensures few { IfOk result (λ few. IsTrue few ↔ (count_at counts.old.entries id.0 < CHANNEL_LINK_LIMIT)) }
    ensures counted { IfOk result (λ few. IsTrue few → (channel : ℕ) →
        count_at counts.new.entries channel
        ≡ count_at counts.old.entries channel + (if id.0 == channel then 1 else 0)) }
{
    let count = count_at(counts, id);
    if count >= CHANNEL_LINK_LIMIT {
        return Ok(false);
    }
    counts.insert(id.0, count + 1)?;
    Ok(true)
}

// Counts a link for both of its channels. Whether that is not too many for one of them.
fn count_link(
    counts: &mut IndexMap<u32, usize>,
    from: ChannelId,
    to: ChannelId,
) -> Result<bool, OutOfMemory>
    requires { from.0 < to.0 }
    ensures few { IfOk result (λ few. IsTrue few ↔
        ((count_at counts.old.entries from.0 < CHANNEL_LINK_LIMIT)
        × (count_at counts.old.entries to.0 < CHANNEL_LINK_LIMIT))) }
    ensures counted { IfOk result (λ few. IsTrue few → (channel : ℕ) →
        count_at counts.new.entries channel
        ≡ count_at counts.old.entries channel + (if is_end channel (from, to) then 1 else 0)) }
{
    let few = count_one(counts, from)?;
    if !few {
        return Ok(false);
    }
    count_one(counts, to)
}

// Whether no channel has more links than it may have.
fn are_few_each(alloc: Global, links: &[(ChannelId, ChannelId)]) -> Result<bool, OutOfMemory>
    requires { All (λ pair. pair.0.0 < pair.1.0) links.now }
    ensures { IfOk result (λ few. IsTrue few ↔
        ((id : ChannelId) → count_by (is_link_of id) links.now ≤ CHANNEL_LINK_LIMIT)) }
{
    let mut counts = IndexMap::new(alloc);
    for link in links {
        let few = count_link(&mut counts, link.0, link.1)?;
        if !few {
            return Ok(false);
        }
    }
    Ok(true)
}

// Whether these are links that the channels may have.
pub(crate) fn are_good_links(
    alloc: Global,
    channels: &[KeptChannel],
    links: &[(ChannelId, ChannelId)],
) -> Result<bool, OutOfMemory>
    requires { Rise (tree_rows channels.now) }
    ensures { IfOk result (λ good. IsTrue good ↔ AreGoodLinks (tree_rows channels.now) links.now) }
{
    if !all_join_two(channels, links) {
        return Ok(false);
    }
    if !rise(links) {
        return Ok(false);
    }
    are_few_each(alloc, links)
}
