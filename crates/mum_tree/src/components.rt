//! The components of the links: the channels that links lead to from one another. The number beside a
//! row is the index of the first row of its component.

ghost use Rattle.std.specs.Prelude.{◌≡◌, ◌≢◌, ◌<◌, ◌≤◌, ◌+◌, ◌*◌, ◌&&◌, ◌||◌, not, ℕ, Bool, length, map, slice_index_or, ◌==◌, vec_capacity, vec_len, IsTrue, if◌then◌else◌};
ghost use Rattle.std.specs.List.{All, AllPairs, count_by, filter, list_all, list_any};
ghost use Rattle.mum_base.specs.Channels.{is_among};
ghost use Rattle.mum_base.specs.declared.number.TheConstants.{PLACES};
ghost use Rattle.mum_tree.specs.Change.{pairs_with_all, pairs_without_all};
ghost use Rattle.mum_tree.specs.State.{is_pair};
ghost use Rattle.mum_tree.specs.declared.channel.Row.{Row};
ghost use Rattle.mum_tree.specs.Components.{united, AreComponents, AreUnited, Descends, IsForest};
ghost use Rattle.mum_tree.specs.Proper.{ArePairs};
ghost use Rattle.mum_tree.specs.Rows.{is_there, Rise};

use crate::channel::Row;
use crate::links::{CHANNEL_LINK_LIMIT, change_links};
use crate::rows::place_in_rows;
use crate::scratch::Scratch;
use mum_base::ChannelId;

// Makes a component of each row.
fn separate(numbers: &mut [u16])
    requires { length numbers.old ≤ PLACES }
    ensures whole { length numbers.new ≡ length numbers.old }
    ensures alone { (k : ℕ) → k < length numbers.old → slice_index_or numbers.new k 0 ≡ k }
{
    for at in 0..numbers.len() {
        numbers[at] = at as u16;
    }
}

// Where the component of a row begins. The way there is halved for those who go it next.
fn find_first(numbers: &mut [u16], from: usize) -> usize
    requires within { from < length numbers.old }
    requires down { Descends numbers.old }
    ensures whole { length numbers.new ≡ length numbers.old }
    ensures within { result ≤ from }
    ensures down { Descends numbers.new }
    ensures ends { slice_index_or numbers.new result 0 ≡ result }
    ensures found { (first : ℕ → ℕ) → IsForest numbers.old first → IsForest numbers.new first × (result ≡ first from) }
{
    let mut at = from;
    while numbers[at] as usize != at {
        let next = numbers[numbers[at] as usize];
        numbers[at] = next;
        at = next as usize;
    }
    at
}

// Makes the components of two rows one.
fn unite(numbers: &mut [u16], a: usize, b: usize)
    requires few { length numbers.old ≤ PLACES }
    requires one { a < length numbers.old }
    requires other { b < length numbers.old }
    requires down { Descends numbers.old }
    ensures whole { length numbers.new ≡ length numbers.old }
    ensures down { Descends numbers.new }
    ensures united { (first : ℕ → ℕ) → IsForest numbers.old first → IsForest numbers.new (united first a b) }
{
    let one = find_first(numbers, a);
    let other = find_first(numbers, b);
    if one < other {
        numbers[other] = one as u16;
    } else {
        numbers[one] = other as u16;
    }
}

// Makes one component of those that a link joins.
fn unite_linked(numbers: &mut [u16], rows: &[Row], links: &[(ChannelId, ChannelId)])
    requires rise { Rise rows.now }
    requires few { length rows.now ≤ PLACES }
    requires pairs { ArePairs rows.now links.now }
    requires whole { length numbers.old ≡ length rows.now }
    requires alone { (k : ℕ) → k < length numbers.old → slice_index_or numbers.old k 0 ≡ k }
    ensures whole { length numbers.new ≡ length numbers.old }
    ensures united { (first : ℕ → ℕ) × IsForest numbers.new first
        × AreUnited rows.now links.now (length links.now) first }
{
    for link in links {
        let from = place_in_rows(rows, link.0);
        let to = place_in_rows(rows, link.1);
        unite(numbers, from, to);
    }
}

// Gives each row the number of the first of its component.
fn number_by_first(numbers: &mut [u16])
    requires { Descends numbers.old }
    ensures whole { length numbers.new ≡ length numbers.old }
    ensures numbers { (first : ℕ → ℕ) (k : ℕ) → IsForest numbers.old first → k < length numbers.old
        → slice_index_or numbers.new k 0 ≡ first k }
{
    for at in 0..numbers.len() {
        numbers[at] = numbers[numbers[at] as usize];
    }
}

// Numbers the components of these channels.
fn number_rows(numbers: &mut [u16], rows: &[Row], links: &[(ChannelId, ChannelId)])
    requires rise { Rise rows.now }
    requires few { length rows.now ≤ PLACES }
    requires pairs { ArePairs rows.now links.now }
    requires whole { length numbers.old ≡ length rows.now }
    ensures { AreComponents rows.now links.now numbers.new }
{
    separate(numbers);
    unite_linked(numbers, rows, links);
    number_by_first(numbers);
}

// Numbers the components of these channels after a change of their links.
pub(crate) fn number_components(
    numbers: &mut Vec<u16>,
    rows: &[Row],
    links: &[(ChannelId, ChannelId)],
)
    requires rise { Rise rows.now }
    requires few { length rows.now ≤ PLACES }
    requires pairs { ArePairs rows.now links.now }
    requires whole { length numbers.old.items ≡ length rows.now }
    ensures { AreComponents rows.now links.now numbers.new.items }
{
    number_rows(numbers, rows, links);
}

// Whether no link comes and none goes.
pub(crate) fn names_no_links(adds: &[ChannelId], removes: &[ChannelId]) -> bool
    ensures { result ≡ ((length adds.now == 0) && (length removes.now == 0)) }
{
    adds.is_empty() && removes.is_empty()
}

// The pairs for which a change of links needs room: those of as many links as a channel may have.
pub(crate) fn link_room(adds: &[ChannelId], removes: &[ChannelId]) -> usize
    ensures { result ≡ (if (length adds.now == 0) && (length removes.now == 0) then 0 else 2 * CHANNEL_LINK_LIMIT) }
{
    if names_no_links(adds, removes) {
        0
    } else {
        2 * CHANNEL_LINK_LIMIT
    }
}

// Links a channel to some, then unlinks it from others, and numbers the components after that.
// There is room.
pub(crate) fn relink(
    links: &mut Vec<(ChannelId, ChannelId)>,
    numbers: &mut Vec<u16>,
    rows: &[Row],
    id: ChannelId,
    adds: &[ChannelId],
    removes: &[ChannelId],
)
    requires rise { Rise rows.now }
    requires few { length rows.now ≤ PLACES }
    requires places_fit { All (λ row. row.place < PLACES) rows.now }
    requires places_apart { AllPairs (λ row other. row.place ≢ other.place) rows.now }
    requires pairs { ArePairs rows.now links.old.items }
    requires numbered { AreComponents rows.now links.old.items numbers.old.items }
    requires here { IsTrue (is_there rows.now id) }
    requires added { IsTrue (list_all (is_there rows.now) adds.now) }
    requires removed { IsTrue (list_all (is_there rows.now) removes.now) }
    requires partners { count_by (λ row. (list_any (is_pair id row.channel.id) links.old.items
        || (is_among adds.now row.channel.id && not (row.channel.id.0 == id.0)))
        && not (is_among removes.now row.channel.id)) rows.now ≤ CHANNEL_LINK_LIMIT }
    requires room { vec_len links.old
        + (if (length adds.now == 0) && (length removes.now == 0) then 0 else 2 * CHANNEL_LINK_LIMIT)
        ≤ vec_capacity links.old }
    ensures made { links.new.items ≡ pairs_without_all id removes.now (pairs_with_all id adds.now links.old.items) }
    ensures numbered { AreComponents rows.now links.new.items numbers.new.items }
{
    if names_no_links(adds, removes) {
        return;
    }
    change_links(links, rows, id, adds, removes);
    number_components(numbers, rows, links);
}

// Marks the channels whose rows have the number of this row.
pub(crate) fn mark_component(rows: &[Row], numbers: &[u16], at: usize, scratch: &mut Scratch)
    requires rise { Rise rows.now }
    requires few { length rows.now ≤ PLACES }
    requires whole { length numbers.now ≡ length rows.now }
    requires there { at < length rows.now }
    ensures { (chosen : Row → Bool) → ((k : ℕ) (row : Row) → k < length rows.now →
        chosen (slice_index_or rows.now k row) ≡ (slice_index_or numbers.now k 0 == slice_index_or numbers.now at 0)) →
        scratch.new ≡ map (λ row. row.channel.id) (filter chosen rows.now) }
{
    let number = numbers[at];
    scratch.clear();
    for (k, row) in rows.iter().enumerate() {
        scratch.mark_if(row.channel.id, numbers[k] == number);
    }
}
