//! Links between channels. A link is in the list twice, once from each of its two channels, in order
//! of the numbers.

ghost use Rattle.std.specs.Prelude.{◌≡◌, ◌≢◌, ◌&&◌, ◌||◌, not, ℕ, ◌+◌, ◌*◌, ◌<◌, ◌≤◌, ◌==◌, vec_capacity, vec_len, true, false, length, nat_le, slice_get, slice_index_or, IsTrue, if◌then◌else◌};
ghost use Rattle.std.specs.List.{All, AllPairs, count_by, filter, list_all, list_any};
ghost use Rattle.mum_base.specs.Channels.{is_among};
ghost use Rattle.mum_tree.specs.declared.channel.Row.{Row};
ghost use Rattle.mum_tree.specs.Rows.{is_there, Rise};
ghost use Rattle.mum_tree.specs.State.{Pair, Ordered, ends_from, is_pair, is_above, pairs_with, pairs_without, starts_at, with_pair};
ghost use Rattle.mum_tree.specs.Change.{pairs_set, pairs_with_all, pairs_without_all};
ghost use Rattle.mum_tree.specs.Proper.{AreBothWays, ArePairs};

use crate::channel::Row;
use crate::rows::{both_there, has_mark, places_of};
use mum_base::{ChannelId, PLACES};

/// The most links of a channel.
pub const CHANNEL_LINK_LIMIT: usize = 64;

// Whether two channels are linked.
pub(crate) fn has_link(links: &[(ChannelId, ChannelId)], from: ChannelId, to: ChannelId) -> bool
    requires { Ordered links.now }
    ensures { result ≡ list_any (is_pair from to) links.now }
{
    links.binary_search(&(from, to)).is_ok()
}

// Whether a link is between these two channels.
pub(crate) fn joins(link: &(ChannelId, ChannelId), a: ChannelId, b: ChannelId) -> bool
    ensures { result ≡ (is_pair a b link.now || is_pair b a link.now) }
{
    (link.0.0 == a.0 && link.1.0 == b.0) || (link.0.0 == b.0 && link.1.0 == a.0)
}

// Where the pairs of a channel begin.
pub(crate) fn first_link(links: &[(ChannelId, ChannelId)], from: ChannelId) -> usize
    requires { Ordered links.now }
    ensures within { result ≤ length links.now }
    ensures before { (k : ℕ) (other : Pair) → k < result → (slice_index_or links.now k other).0.0 < from.0 }
    ensures after { (k : ℕ) (other : Pair) → result ≤ k → k < length links.now
        → from.0 ≤ (slice_index_or links.now k other).0.0 }
{
    links.partition_point(|link| link.0.0 < from.0)
}

// The pairs of a channel.
fn links_of(links: &[(ChannelId, ChannelId)], of: ChannelId) -> &[(ChannelId, ChannelId)]
    requires { Ordered links.now }
    ensures { result.now ≡ filter (starts_at of) links.now }
{
    let rest = &links[first_link(links, of)..];
    &rest[..rest.partition_point(|link| link.0.0 == of.0)]
}

// Whether a channel has as many links as it may have.
pub(crate) fn is_crowded(links: &[(ChannelId, ChannelId)], of: ChannelId) -> bool
    requires { Ordered links.now }
    ensures { result ≡ nat_le CHANNEL_LINK_LIMIT (length (ends_from of links.now)) }
{
    links_of(links, of).len() >= CHANNEL_LINK_LIMIT
}

// The channel linked to one at this index in order of number.
pub(crate) fn nth_end(
    links: &[(ChannelId, ChannelId)],
    of: ChannelId,
    i: usize,
) -> Option<ChannelId>
    requires { Ordered links.now }
    ensures { result ≡ slice_get (ends_from of links.now) i }
{
    links_of(links, of).get(i).map(|link| link.1)
}

// Where a new link belongs: before the first that is above it.
pub(crate) fn place_for(links: &[(ChannelId, ChannelId)], from: ChannelId, to: ChannelId) -> usize
    requires { Ordered links.now }
    ensures within { result ≤ length links.now }
    ensures before { (k : ℕ) (other : Pair) → k < result → is_above from to (slice_index_or links.now k other) ≡ false }
    ensures here { (other : Pair) → result < length links.now
        → is_above from to (slice_index_or links.now result other) ≡ true }
{
    links.partition_point(|link| *link <= (from, to))
}

// Puts a link between two channels in its place. There is room for it.
pub(crate) fn put_link(links: &mut Vec<(ChannelId, ChannelId)>, a: ChannelId, b: ChannelId)
    requires ordered { Ordered links.old.items }
    requires unlinked { list_any (is_pair a b) links.old.items ≡ false }
    requires room { vec_len links.old + 2 ≤ vec_capacity links.old }
    ensures made { links.new.items ≡ with_pair b a (with_pair a b links.old.items) }
    ensures len { vec_len links.new ≡ vec_len links.old + 2 }
    ensures capacity { vec_capacity links.old ≤ vec_capacity links.new }
{
    let at = place_for(links, a, b);
    links.insert(at, (a, b)).unwrap();
    let at = place_for(links, b, a);
    links.insert(at, (b, a)).unwrap();
}

// Links two channels, if they are two and are not linked yet. There is room for it.
fn join(links: &mut Vec<(ChannelId, ChannelId)>, a: ChannelId, b: ChannelId)
    requires ordered { Ordered links.old.items }
    requires both { AreBothWays links.old.items }
    requires room { vec_len links.old + 2 ≤ vec_capacity links.old }
    ensures made { links.new.items ≡ pairs_with a b links.old.items }
    ensures ordered { Ordered links.new.items }
    ensures both { AreBothWays links.new.items }
    ensures len { vec_len links.new ≤ vec_len links.old + 2 }
    ensures capacity { vec_capacity links.old ≤ vec_capacity links.new }
{
    if a.0 == b.0 || has_link(links, a, b) {
        return;
    }
    put_link(links, a, b);
}

// Removes the link between two channels, if there is one.
pub(crate) fn take_link(links: &mut Vec<(ChannelId, ChannelId)>, a: ChannelId, b: ChannelId)
    requires ordered { Ordered links.old.items }
    requires both { AreBothWays links.old.items }
    ensures made { links.new.items ≡ pairs_without a b links.old.items }
    ensures ordered { Ordered links.new.items }
    ensures both { AreBothWays links.new.items }
    ensures len { vec_len links.new ≤ vec_len links.old }
    ensures capacity { vec_capacity links.old ≤ vec_capacity links.new }
{
    if !has_link(links, a, b) {
        return;
    }
    links.retain(|link| !joins(link, a, b));
}

// Removes the link between two channels where it goes, else puts it there where it comes.
fn set_link(
    links: &mut Vec<(ChannelId, ChannelId)>,
    id: ChannelId,
    other: ChannelId,
    comes: bool,
    goes: bool,
)
    requires ordered { Ordered links.old.items }
    requires both { AreBothWays links.old.items }
    requires room { IsTrue (not goes && (comes && not (other.0 == id.0)))
        → vec_len links.old + 2 ≤ vec_capacity links.old }
    ensures made { links.new.items ≡ pairs_set id other comes goes links.old.items }
    ensures len { vec_len links.new
        ≤ vec_len links.old + (if not goes && (comes && not (other.0 == id.0)) then 2 else 0) }
    ensures capacity { vec_capacity links.old ≤ vec_capacity links.new }
{
    if goes {
        take_link(links, id, other);
        return;
    }
    if comes && other.0 != id.0 {
        join(links, id, other);
    }
}

// Links a channel to some and then unlinks it from others. There is room for as many links as a
// channel may have.
pub(crate) fn change_links(
    links: &mut Vec<(ChannelId, ChannelId)>,
    rows: &[Row],
    id: ChannelId,
    adds: &[ChannelId],
    removes: &[ChannelId],
)
    requires rise { Rise rows.now }
    requires places_fit { All (λ row. row.place < PLACES) rows.now }
    requires places_apart { AllPairs (λ row other. row.place ≢ other.place) rows.now }
    requires pairs { ArePairs rows.now links.old.items }
    requires here { IsTrue (is_there rows.now id) }
    requires added { IsTrue (list_all (is_there rows.now) adds.now) }
    requires removed { IsTrue (list_all (is_there rows.now) removes.now) }
    requires few { count_by (λ row. (list_any (is_pair id row.channel.id) links.old.items
        || (is_among adds.now row.channel.id && not (row.channel.id.0 == id.0)))
        && not (is_among removes.now row.channel.id)) rows.now ≤ CHANNEL_LINK_LIMIT }
    requires room { vec_len links.old + 2 * CHANNEL_LINK_LIMIT ≤ vec_capacity links.old }
    ensures made { links.new.items ≡ pairs_without_all id removes.now (pairs_with_all id adds.now links.old.items) }
    ensures pairs { ArePairs rows.now links.new.items }
{
    let mut added = [false; PLACES];
    let mut removed = [false; PLACES];
    places_of(rows, adds, &mut added);
    places_of(rows, removes, &mut removed);
    for row in rows {
        let comes = has_mark(&added, row.place);
        let goes = has_mark(&removed, row.place);
        set_link(links, id, row.channel.id, comes, goes);
    }
}

// Removes the links of channels that are not there.
pub(crate) fn keep_ends(links: &mut Vec<(ChannelId, ChannelId)>, rows: &[Row])
    requires { Rise rows.now }
    ensures { links.new.items ≡ filter (λ pair. is_there rows.now pair.0 && is_there rows.now pair.1) links.old.items }
{
    let mut kept = 0;
    for at in 0..links.len() {
        let link = links[at];
        if both_there(rows, link.0, link.1) {
            links[kept] = link;
            kept += 1;
        }
    }
    links.truncate(kept);
}
