//! Look-ups in the rows of a tree, which are in order of number.

ghost use Rattle.std.specs.Prelude.{◌≡◌, ◌≢◌, ◌&&◌, ℕ, ◌≤◌, true, false, slice_index_or, ◌<◌, None, Some, length, replicate, MatchOption, IfOk, IfSome, IsTrue, is_some};
ghost use Rattle.std.specs.Option.{option_copied};
ghost use Rattle.std.specs.List.{All, AllPairs, count_by, list_all, list_any};
ghost use Rattle.mum_base.specs.Channels.{is_among};
ghost use Rattle.mum_tree.specs.Places.{least_place, IsFree};
ghost use Rattle.mum_tree.specs.Rows.{row_of, is_temporary, is_there, path, level, is_below, is_taken, nests, Rise};
ghost use Rattle.mum_tree.specs.Proper.{LeadUp};
ghost use Rattle.mum_tree.specs.declared.channel.Row.{Row};

use crate::channel::{PATH_LIMIT, Row};
use arrayvec::ArrayVec;
use mum_base::{ChannelId, OutOfMemory, PLACES};
use std::alloc::Global;

// The index of the row of a channel.
pub(crate) fn locate(rows: &[Row], id: ChannelId) -> Option<usize>
    requires { Rise rows.now }
    ensures { MatchOption result (row_of rows.now id ≡ None)
        (λ at. (at < length rows.now)
        × ((other : Row) → row_of rows.now id ≡ Some (slice_index_or rows.now at other))) }
{
    rows.binary_search_by_key(&id.0, |row| row.channel.id.0)
        .ok()
}

// The index of the row of a channel that is there.
pub(crate) fn place_in_rows(rows: &[Row], id: ChannelId) -> usize
    requires rise { Rise rows.now }
    requires there { IsTrue (is_there rows.now id) }
    ensures within { result < length rows.now }
    ensures is { (other : Row) → (slice_index_or rows.now result other).channel.id ≡ id }
{
    match locate(rows, id) {
        Some(at) => at,
        None => unreachable!(),
    }
}

// The row of a channel.
pub(crate) fn find_row(rows: &[Row], id: ChannelId) -> Option<&Row>
    requires { Rise rows.now }
    ensures value { option_copied result ≡ row_of rows.now id }
    ensures named { IfSome result (λ row. row.now.channel.id ≡ id) }
{
    match locate(rows, id) {
        Some(at) => Some(&rows[at]),
        None => None,
    }
}

// Whether a channel is there.
pub(crate) fn is_there(rows: &[Row], id: ChannelId) -> bool
    requires { Rise rows.now }
    ensures { result ≡ is_there rows.now id }
{
    find_row(rows, id).is_some()
}

// Whether two channels are there.
pub(crate) fn both_there(rows: &[Row], a: ChannelId, b: ChannelId) -> bool
    requires { Rise rows.now }
    ensures { result ≡ (is_there rows.now a && is_there rows.now b) }
{
    is_there(rows, a) && is_there(rows, b)
}

// Whether all these channels are there.
pub(crate) fn all_there(rows: &[Row], ids: &[ChannelId]) -> bool
    requires { Rise rows.now }
    ensures { result ≡ list_all (is_there rows.now) ids.now }
{
    ids.iter().all(|id| is_there(rows, *id))
}

// Whether a channel is there and is temporary.
pub(crate) fn is_temporary_there(rows: &[Row], id: ChannelId) -> bool
    requires { Rise rows.now }
    ensures { result ≡ is_temporary rows.now id }
{
    match find_row(rows, id) {
        Some(row) => row.channel.temporary,
        None => false,
    }
}

// The channels from the root down to one.
pub(crate) fn find_path(rows: &[Row], id: ChannelId) -> Option<ArrayVec<ChannelId, PATH_LIMIT>>
    requires rise { Rise rows.now }
    requires lead { LeadUp rows.now }
    ensures value { MatchOption result (row_of rows.now id ≡ None) (λ found. found.items ≡ path rows.now id) }
    ensures there { is_some result ≡ is_there rows.now id }
{
    let mut channels = ArrayVec::new();
    let mut at = id;
    while !channels.is_full() {
        let Some(row) = find_row(rows, at) else {
            return None;
        };
        channels.push(at);
        if at.0 == ChannelId::ROOT.0 {
            channels.reverse();
            return Some(channels);
        }
        at = row.channel.parent;
    }
    unreachable!()
}

// How many steps a channel is under the top, if it is the top or below it.
pub(crate) fn steps_under(rows: &[Row], top: ChannelId, id: ChannelId) -> Option<usize>
    requires { Rise rows.now }
    ensures value { result ≡ level rows.now top id }
    ensures within { IfSome result (λ steps. steps < PATH_LIMIT) }
{
    let mut at = id;
    for steps in 0..PATH_LIMIT {
        let Some(row) = find_row(rows, at) else {
            return None;
        };
        if at.0 == top.0 {
            return Some(steps);
        }
        if at.0 == ChannelId::ROOT.0 {
            return None;
        }
        at = row.channel.parent;
    }
    None
}

// How many channels there are from the root down to one, with both.
pub(crate) fn path_length(rows: &[Row], id: ChannelId) -> usize
    requires rise { Rise rows.now }
    requires lead { LeadUp rows.now }
    ensures value { result ≡ length (path rows.now id) }
    ensures within { result ≤ PATH_LIMIT }
{
    match steps_under(rows, ChannelId::ROOT, id) {
        Some(steps) => steps + 1,
        None => 0,
    }
}

// Whether a channel is the top, or below it.
pub(crate) fn is_at_or_below(rows: &[Row], top: ChannelId, id: ChannelId) -> bool
    requires { Rise rows.now }
    ensures { result ≡ is_below rows.now top id }
{
    steps_under(rows, top, id).is_some()
}

// Whether another child of the parent has the name.
pub(crate) fn has_name(rows: &[Row], parent: ChannelId, id: ChannelId, name: &str) -> bool
    ensures { result ≡ is_taken rows.now parent id name.now }
{
    rows.iter().any(|row| {
        let channel = &row.channel;
        channel.id.0 != ChannelId::ROOT.0
            && channel.parent.0 == parent.0
            && channel.id.0 != id.0
            && channel.name.as_str() == name
    })
}

// Clears all marks.
fn clear(marks: &mut [bool])
    requires { length marks.old ≡ PLACES }
    ensures { marks.new ≡ replicate PLACES false }
{
    marks.fill(false);
}

// Finds which places have a channel.
pub(crate) fn taken_places(rows: &[Row], taken: &mut [bool])
    requires places_fit { All (λ row. row.place < PLACES) rows.now }
    requires room { length taken.old ≡ PLACES }
    ensures length { length taken.new ≡ PLACES }
    ensures free { (place : ℕ) → place < PLACES → slice_index_or taken.new place false ≡ false → IsFree rows.now place }
    ensures taken { (place : ℕ) → slice_index_or taken.new place false ≡ true → IsFree rows.now place → ⊥ }
    ensures count { count_by (λ one. one) taken.new ≤ length rows.now }
{
    clear(taken);
    for row in rows {
        taken[row.place as usize] = true;
    }
}

// Finds which places have one of these channels.
pub(crate) fn places_of(rows: &[Row], ids: &[ChannelId], marks: &mut [bool])
    requires rise { Rise rows.now }
    requires places_fit { All (λ row. row.place < PLACES) rows.now }
    requires places_apart { AllPairs (λ row other. row.place ≢ other.place) rows.now }
    requires there { IsTrue (list_all (is_there rows.now) ids.now) }
    requires room { length marks.old ≡ PLACES }
    ensures length { length marks.new ≡ PLACES }
    ensures value { All (λ row. slice_index_or marks.new row.place false ≡ is_among ids.now row.channel.id) rows.now }
{
    clear(marks);
    for id in ids {
        let row = &rows[place_in_rows(rows, *id)];
        marks[row.place as usize] = true;
    }
}

// Whether a place is marked.
pub(crate) fn has_mark(marks: &[bool], place: u16) -> bool
    ensures { result ≡ slice_index_or marks.now place false }
{
    match marks.get(place as usize) {
        Some(mark) => *mark,
        None => false,
    }
}

// The least place that no channel has.
pub(crate) fn least_free_place(rows: &[Row]) -> u16
    requires places_fit { All (λ row. row.place < PLACES) rows.now }
    requires room { length rows.now < PLACES }
    ensures least { result ≡ least_place rows.now }
    ensures within { result < PLACES }
{
    let mut taken = [false; PLACES];
    taken_places(rows, &mut taken);
    for place in 0..PLACES {
        if !taken[place] {
            return place as u16;
        }
    }
    unreachable!()
}

// A copy of the rows.
pub(crate) fn copy_rows(alloc: Global, rows: &[Row]) -> Result<Vec<Row>, OutOfMemory>
    ensures { IfOk result (λ copy. copy.items ≡ rows.now) }
{
    let mut copy = Vec::new(alloc);
    for row in rows {
        copy.push(Row {
            place: row.place,
            channel: row.channel.share()?,
        })?;
    }
    Ok(copy)
}
