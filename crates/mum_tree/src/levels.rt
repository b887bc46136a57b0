//! How far channels are under one of them.

ghost use Rattle.std.specs.Prelude.{◌≡◌, ◌≢◌, ◌+◌, ◌<◌, ◌≤◌, ℕ, None, length, nat_lt, false, map, slice_index_or, IfSome};
ghost use Rattle.std.specs.List.{All, AllPairs, filter, list_any};
ghost use Rattle.std.specs.Option.{option_map, option_map_or};
ghost use Rattle.mum_tree.specs.Proper.{LeadUp};
ghost use Rattle.mum_tree.specs.Rows.{is_below, level, nests, path, AreLevels, Rise};
ghost use Rattle.mum_tree.specs.declared.channel.Row.{Row};

use crate::channel::{PATH_LIMIT, Row};
use crate::rows::{path_length, place_in_rows};
use crate::scratch::Scratch;
use mum_base::{ChannelId, PLACES};

// One step more.
fn one_further(level: Option<u8>) -> Option<u8>
    requires { IfSome level (λ steps. steps < PATH_LIMIT) }
    ensures { result ≡ option_map (λ steps. steps + 1) level }
{
    match level {
        Some(steps) => Some(steps + 1),
        None => None,
    }
}

// How many steps the channel of a row is under the top, if it is the top or below it. What is
// found on the way up is kept, by place, and what is kept is not looked for again.
fn find_level(
    rows: &[Row],
    top: ChannelId,
    at: usize,
    known: &mut [Option<Option<u8>>],
) -> Option<u8>
    requires rise { Rise rows.now }
    requires lead { LeadUp rows.now }
    requires places_fit { All (λ row. row.place < PLACES) rows.now }
    requires places_apart { AllPairs (λ row other. row.place ≢ other.place) rows.now }
    requires there { at < length rows.now }
    requires room { length known.old ≡ PLACES }
    requires right { AreLevels rows.now top known.old }
    ensures value { (other : Row) → result ≡ level rows.now top (slice_index_or rows.now at other).channel.id }
    ensures kept { AreLevels rows.now top known.new }
{
    let row = &rows[at];
    if row.channel.id.0 == top.0 {
        return Some(0);
    }
    if row.channel.id.0 == ChannelId::ROOT.0 {
        return None;
    }
    let place = row.place as usize;
    if let Some(level) = known[place] {
        return level;
    }
    let above = place_in_rows(rows, row.channel.parent);
    let level = one_further(find_level(rows, top, above, known));
    known[place] = Some(level);
    level
}

// Marks a channel and all below it. The parent of each channel is looked up at most once.
pub(crate) fn mark_below(rows: &[Row], top: ChannelId, scratch: &mut Scratch)
    requires rise { Rise rows.now }
    requires lead { LeadUp rows.now }
    requires few { length rows.now ≤ PLACES }
    requires places_fit { All (λ row. row.place < PLACES) rows.now }
    requires places_apart { AllPairs (λ row other. row.place ≢ other.place) rows.now }
    ensures { scratch.new
        ≡ map (λ row. row.channel.id) (filter (λ row. is_below rows.now top row.channel.id) rows.now) }
{
    let mut known = [None; PLACES];
    scratch.clear();
    for (at, row) in rows.iter().enumerate() {
        let level = find_level(rows, top, at, &mut known);
        scratch.mark_if(row.channel.id, level.is_some());
    }
}

// Finds the places of the channels that are the top, or below it.
pub(crate) fn places_below(rows: &[Row], top: ChannelId, below: &mut [bool])
    requires rise { Rise rows.now }
    requires lead { LeadUp rows.now }
    requires places_fit { All (λ row. row.place < PLACES) rows.now }
    requires places_apart { AllPairs (λ row other. row.place ≢ other.place) rows.now }
    requires room { length below.old ≡ PLACES }
    ensures length { length below.new ≡ PLACES }
    ensures value { All
        (λ row. slice_index_or below.new row.place false ≡ is_below rows.now top row.channel.id) rows.now }
{
    let mut known = [None; PLACES];
    for (at, row) in rows.iter().enumerate() {
        let level = find_level(rows, top, at, &mut known);
        below[row.place as usize] = level.is_some();
    }
}

// Whether a channel at this level under the moved one is too deep once that one is under a channel
// with this many channels on its path.
fn is_too_deep(level: Option<u8>, above: usize) -> bool
    requires { above ≤ PATH_LIMIT }
    ensures { result ≡ option_map_or (λ steps. nat_lt PATH_LIMIT (above + 1 + steps)) level false }
{
    match level {
        Some(steps) => PATH_LIMIT < above + 1 + steps as usize,
        None => false,
    }
}

// Whether a channel under this one would be too deep once this one is under the parent.
pub(crate) fn nests_too_deep(rows: &[Row], id: ChannelId, parent: ChannelId) -> bool
    requires rise { Rise rows.now }
    requires lead { LeadUp rows.now }
    requires places_fit { All (λ row. row.place < PLACES) rows.now }
    requires places_apart { AllPairs (λ row other. row.place ≢ other.place) rows.now }
    ensures { result ≡ list_any (nests rows.now id parent) rows.now }
{
    let above = path_length(rows, parent);
    let mut known = [None; PLACES];
    for at in 0..rows.len() {
        let level = find_level(rows, id, at, &mut known);
        if is_too_deep(level, above) {
            return true;
        }
    }
    false
}
