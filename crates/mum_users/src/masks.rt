//! The slots of sessions that are in a channel, or that listen to it, as masks.

ghost use Rattle.std.specs.Prelude.{◌≡◌, ◌+◌, ◌*◌, ◌%◌, ◌^◌, ◌≤◌, ◌<◌, ◌==◌, not, filter, length, remove, set, slice_index_or, IfOk, IsTrue, if◌then◌else◌};
ghost use Rattle.std.specs.List.{list_any, position_or_len};
ghost use Rattle.std.specs.Vec.{vec_capacity, vec_len};
ghost use Rattle.mum_users.specs.Order.{Rises};
ghost use Rattle.mum_users.specs.SlotMasks.{is_mask_below, is_mask_of, is_row_of, mask_at, mask_below, masks_of, with_pairs, with_slot, without_pairs, without_slot};

use crate::listening::{ChannelSet, ListenerPair};
use crate::user::User;
use mum_base::{ChannelId, OutOfMemory, SLOTS, Slot};
use std::alloc::Global;

/// The slots that one mask covers.
pub const WORD_SLOTS: usize = 128;

/// Slots of sessions that are in a channel, or that listen to it: bit b of the mask is slot
/// 128 * `word` + b.
#[derive(Clone, Copy)]
pub struct MaskRow {
    pub channel: ChannelId,
    pub word: usize,
    /// It is not 0.
    pub mask: u128,
}

fn is_below(row: &MaskRow, channel: ChannelId, word: usize) -> bool
    ensures { result ≡ is_mask_below channel word row.now }
{
    row.channel.0 < channel.0 || row.channel.0 == channel.0 && row.word < word
}

// How many rows come before those of this channel from this word on, found by binary search.
fn place_of(rows: &[MaskRow], channel: ChannelId, word: usize) -> usize
    requires { Rises mask_below rows.now }
    ensures place { result ≡ position_or_len (λ row. not (is_mask_below channel word row)) rows.now }
    ensures within { result ≤ length rows.now }
{
    rows.partition_point(|row| is_below(row, channel, word))
}

// Whether the row at a place is that of this channel and this word.
fn is_at(rows: &[MaskRow], place: usize, channel: ChannelId, word: usize) -> bool
    ensures within { IsTrue result → place < length rows.now }
    ensures same { (d : MaskRow) → place < length rows.now →
        is_mask_of channel word (slice_index_or rows.now place d) ≡ result }
{
    place < rows.len() && rows[place].channel == channel && rows[place].word == word
}

// The mask of a channel and a word, 0 where it has no row. The row is found by binary search.
pub(crate) fn mask_at(rows: &[MaskRow], channel: ChannelId, word: usize) -> u128
    requires { Rises mask_below rows.now }
    ensures { result ≡ mask_at channel word rows.now }
{
    let place = place_of(rows, channel, word);
    if is_at(rows, place, channel, word) {
        rows[place].mask
    } else {
        0
    }
}

// Whether a channel has a row. It is found by binary search.
pub(crate) fn has_row(rows: &[MaskRow], channel: ChannelId) -> bool
    requires { Rises mask_below rows.now }
    ensures { result ≡ list_any (is_row_of channel) rows.now }
{
    rows.binary_search_by_key(&channel.0, |row| row.channel.0)
        .is_ok()
}

// Puts a row in place of the one that is there, or takes that out where the mask is 0.
fn replace_mask(rows: &mut Vec<MaskRow>, place: usize, new: MaskRow)
    requires within { place < length rows.old.items }
    ensures items { rows.new.items
        ≡ (if new.mask == 0 then remove rows.old.items place else set rows.old.items place new) }
    ensures len { vec_len rows.new ≤ vec_len rows.old }
    ensures room { vec_capacity rows.old ≤ vec_capacity rows.new }
{
    if new.mask == 0 {
        rows.remove(place);
    } else {
        rows[place] = new;
    }
}

// The bit of a slot in its word.
fn bit_of(slot: Slot) -> u128
    ensures { result ≡ 1 * 2 ^ (slot.0 % WORD_SLOTS) % 2 ^ 128 }
{
    1u128 << (slot.0 as usize % WORD_SLOTS)
}

// Sets the slot for the channel. The row is found by binary search.
pub(crate) fn set_slot(rows: &mut Vec<MaskRow>, channel: ChannelId, slot: Slot)
    requires rise { Rises mask_below rows.old.items }
    requires room { vec_len rows.old < vec_capacity rows.old }
    ensures items { rows.new.items ≡ with_slot channel slot.0 rows.old.items }
    ensures len { vec_len rows.new ≤ vec_len rows.old + 1 }
    ensures room { vec_capacity rows.old ≤ vec_capacity rows.new }
{
    let word = slot.0 as usize / WORD_SLOTS;
    let place = place_of(rows.as_slice(), channel, word);
    if is_at(rows.as_slice(), place, channel, word) {
        let mask = rows[place].mask | bit_of(slot);
        replace_mask(
            rows,
            place,
            MaskRow {
                channel,
                word,
                mask,
            },
        );
        return;
    }
    let mask = bit_of(slot);
    match rows.insert(
        place,
        MaskRow {
            channel,
            word,
            mask,
        },
    ) {
        Ok(()) => {}
        Err(_) => unreachable!(),
    }
}

// Clears the slot for the channel. The row is found by binary search.
pub(crate) fn clear_slot(rows: &mut Vec<MaskRow>, channel: ChannelId, slot: Slot)
    requires { Rises mask_below rows.old.items }
    ensures items { rows.new.items ≡ without_slot channel slot.0 rows.old.items }
    ensures len { vec_len rows.new ≤ vec_len rows.old }
    ensures room { vec_capacity rows.old ≤ vec_capacity rows.new }
{
    let word = slot.0 as usize / WORD_SLOTS;
    let place = place_of(rows.as_slice(), channel, word);
    if !is_at(rows.as_slice(), place, channel, word) {
        return;
    }
    let mask = rows[place].mask & !bit_of(slot);
    replace_mask(
        rows,
        place,
        MaskRow {
            channel,
            word,
            mask,
        },
    );
}

// Sets the slot for the channels of these pairs, from the last on.
pub(crate) fn set_pairs(rows: &mut Vec<MaskRow>, pairs: &[ListenerPair], slot: Slot)
    requires rise { Rises mask_below rows.old.items }
    requires room { vec_len rows.old + length pairs.now ≤ vec_capacity rows.old }
    ensures { rows.new.items ≡ with_pairs slot.0 pairs.now rows.old.items }
{
    let mut rest = pairs.len();
    'pairs: while rest > 0 {
        rest -= 1;
        let channel = pairs[rest].channel;
        set_slot(rows, channel, slot);
    }
}

// Clears the slot for the channels of these pairs, from the last on.
pub(crate) fn clear_pairs(rows: &mut Vec<MaskRow>, pairs: &[ListenerPair], slot: Slot)
    requires { Rises mask_below rows.old.items }
    ensures items { rows.new.items ≡ without_pairs slot.0 pairs.now rows.old.items }
    ensures len { vec_len rows.new ≤ vec_len rows.old }
    ensures room { vec_capacity rows.old ≤ vec_capacity rows.new }
{
    let mut rest = pairs.len();
    'pairs: while rest > 0 {
        rest -= 1;
        let channel = pairs[rest].channel;
        clear_slot(rows, channel, slot);
    }
}

// A session in a slot goes from one channel to another.
pub(crate) fn move_slot(rows: &mut Vec<MaskRow>, slot: Slot, from: ChannelId, to: ChannelId)
    requires rise { Rises mask_below rows.old.items }
    requires room { length (without_slot from slot.0 rows.old.items) < vec_capacity rows.old }
    ensures items { rows.new.items ≡ with_slot to slot.0 (without_slot from slot.0 rows.old.items) }
    ensures room { vec_capacity rows.old ≤ vec_capacity rows.new }
{
    clear_slot(rows, from, slot);
    set_slot(rows, to, slot);
}

// The rows of these sessions, each in the channel in which it is, in place of those that are there.
pub(crate) fn put_members(rows: &mut Vec<MaskRow>, users: &[User])
    requires room { length users.now ≤ vec_capacity rows.old }
    ensures items { rows.new.items ≡ masks_of users.now }
    ensures room { vec_capacity rows.old ≤ vec_capacity rows.new }
{
    rows.clear();
    let mut rest = users.len();
    'users: while rest > 0 {
        rest -= 1;
        let user = &users[rest];
        set_slot(rows, user.channel, user.slot);
    }
}

// Equal rows, with room for one of each session.
pub(crate) fn copy_of_masks(alloc: Global, rows: &[MaskRow]) -> Result<Vec<MaskRow>, OutOfMemory>
    ensures items { IfOk result (λ copy. copy.items ≡ rows.now) }
    ensures room { IfOk result (λ copy. SLOTS ≤ vec_capacity copy) }
{
    let mut copy = Vec::with_capacity(alloc, SLOTS)?;
    copy.extend_from_slice(rows)?;
    Ok(copy)
}

// Leaves out the rows of these channels.
pub(crate) fn drop_masks<G: ChannelSet>(rows: &mut Vec<MaskRow>, gone: &G)
    ensures { rows.new.items ≡ filter (λ row. not (G.has_channel gone.now row.channel)) rows.old.items }
{
    rows.retain(|row| !gone.has(row.channel));
}
