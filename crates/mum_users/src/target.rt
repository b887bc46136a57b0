//! Voice targets: to whom a session whispers.

ghost use Rattle.std.specs.Prelude.{◌≡◌, ◌<◌, ◌≤◌, nat_lt, not, IfOk, IsTrue, OnErr, OnOk, filter, find, length, slice_index_or, sum_by};
ghost use Rattle.mum_users.specs.declared.target.TargetRow.{TargetRow};
ghost use Rattle.std.specs.List.{list_any, position_or_len};
ghost use Rattle.std.specs.Option.{option_copied};
ghost use Rattle.mum_users.specs.Order.{Rises};
ghost use Rattle.mum_users.specs.Proper.{row_below};
ghost use Rattle.mum_users.specs.State.{is_of, is_target};
ghost use Rattle.mum_users.specs.Targets.{target_below, with_target};

use mum_base::{ChannelId, Items, OutOfMemory, SessionId, Text};
use std::alloc::Global;

/// The greatest number of a voice target. The least is 1.
pub const LAST_TARGET: u8 = 30;

/// The most items of a voice target.
pub const TARGET_ITEMS: usize = 16;

/// The most sessions that a voice target names, counted over all its items together.
pub const TARGET_SESSIONS: usize = 128;

/// The most bytes of a group that an item of a voice target names.
pub const GROUP_BYTES: usize = 128;

/// A voice target, as the message VoiceTarget of the Mumble protocol sets it.
#[derive(Drop)]
pub struct Target {
    pub items: Items<TargetItem>,
}

/// One of those whom a voice target reaches: these sessions, and those of a channel.
#[derive(Drop)]
pub struct TargetItem {
    pub sessions: Items<SessionId>,
    pub channel: Option<ChannelId>,
    /// Only the members of this group, if it is not empty.
    pub group: Text,
    /// Also the channels that are linked with the channel.
    pub links: bool,
    /// Also the channels below the channel.
    pub children: bool,
}

/// A voice target that is set: that of a session, under a number.
#[derive(Drop)]
pub struct TargetRow {
    pub session: SessionId,
    /// 1 to 30.
    pub id: u8,
    pub target: Target,
}

impl TargetItem {
    /// An item of its own that is equal.
    pub fn copy(&self, alloc: Global) -> Result<TargetItem, OutOfMemory>
        ensures { IfOk result (λ copy. copy ≡ self.now) }
    {
        Ok(TargetItem {
            sessions: Items::from_vec(Vec::from_slice(alloc, self.sessions.as_slice())?),
            channel: self.channel,
            group: self.group.share()?,
            links: self.links,
            children: self.children,
        })
    }
}

impl Target {
    ghost use Rattle.mum_users.specs.Targets.{is_oversize};

    /// A target of its own that is equal.
    pub fn copy(&self, alloc: Global) -> Result<Target, OutOfMemory>
        ensures { IfOk result (λ copy. copy ≡ self.now) }
    {
        let mut items = Vec::with_capacity(alloc, self.items.as_slice().len())?;
        for item in self.items.as_slice() {
            items.push(item.copy(alloc)?)?;
        }
        Ok(Target {
            items: Items::from_vec(items),
        })
    }

    /// Whether it has more than 16 items, names more than 128 sessions over all of them together, or
    /// names a group of more than 128 bytes.
    pub fn is_oversize(&self) -> bool
        ensures { result ≡ is_oversize self.now }
    {
        let items = self.items.as_slice();
        items.len() > TARGET_ITEMS || names_too_many(items) || has_long_group(items)
    }
}

// Equal rows in the same order.
pub(crate) fn copy_of_targets(
    alloc: Global,
    rows: &[TargetRow],
) -> Result<Vec<TargetRow>, OutOfMemory>
    ensures { IfOk result (λ copy. copy.items ≡ rows.now) }
{
    let mut copies = Vec::with_capacity(alloc, rows.len())?;
    for row in rows {
        copies.push(TargetRow {
            session: row.session,
            id: row.id,
            target: row.target.copy(alloc)?,
        })?;
    }
    Ok(copies)
}

// Whether the items name more sessions together than a target may.
fn names_too_many(items: &[TargetItem]) -> bool
    ensures { result ≡ nat_lt TARGET_SESSIONS (sum_by (λ item. length item.sessions) items.now) }
{
    let mut named = 0;
    for item in items {
        let more = item.sessions.as_slice().len();
        if more > TARGET_SESSIONS - named {
            return true;
        }
        named += more;
    }
    false
}

fn has_long_group(items: &[TargetItem]) -> bool
    ensures { result ≡ list_any (λ item. nat_lt GROUP_BYTES (length item.group)) items.now }
{
    items
        .iter()
        .any(|item| item.group.as_slice().len() > GROUP_BYTES)
}

fn is_below(row: &TargetRow, session: SessionId, id: u8) -> bool
    ensures { result ≡ target_below session id row.now }
{
    row.session.0 < session.0 || row.session.0 == session.0 && row.id < id
}

// How many rows are below this number of this session, found by binary search.
fn place_of(rows: &[TargetRow], session: SessionId, id: u8) -> usize
    requires { Rises row_below rows.now }
    ensures place { result ≡ position_or_len (λ row. not (target_below session id row)) rows.now }
    ensures within { result ≤ length rows.now }
{
    rows.partition_point(|row| is_below(row, session, id))
}

// Whether the row at a place is that of this number of this session.
fn is_at(rows: &[TargetRow], place: usize, session: SessionId, id: u8) -> bool
    ensures within { IsTrue result → place < length rows.now }
    ensures same { (d : TargetRow) → place < length rows.now →
        is_target session id (slice_index_or rows.now place d) ≡ result }
{
    place < rows.len() && rows[place].session == session && rows[place].id == id
}

// The row of this number of this session, found by binary search.
pub(crate) fn row_of_target(rows: &[TargetRow], session: SessionId, id: u8) -> Option<&TargetRow>
    requires { Rises row_below rows.now }
    ensures { option_copied result ≡ find (is_target session id) rows.now }
{
    let place = place_of(rows, session, id);
    if is_at(rows, place, session, id) {
        Some(&rows[place])
    } else {
        None
    }
}

// Puts a target in at its place, or in the place of that of the same number.
pub(crate) fn put_target(rows: &mut Vec<TargetRow>, new: TargetRow) -> Result<(), OutOfMemory>
    requires { Rises row_below rows.old.items }
    ensures ok { OnOk result (rows.new.items ≡ with_target new rows.old.items) }
    ensures err { OnErr result (rows.new.items ≡ rows.old.items) }
{
    let place = place_of(rows.as_slice(), new.session, new.id);
    if is_at(rows.as_slice(), place, new.session, new.id) {
        rows[place] = new;
        return Ok(());
    }
    rows.insert(place, new)?;
    Ok(())
}

// Takes a target out, if it is set.
pub(crate) fn take_target(rows: &mut Vec<TargetRow>, session: SessionId, id: u8)
    ensures { rows.new.items ≡ filter (λ row. not (is_target session id row)) rows.old.items }
{
    rows.retain(|row| !(row.session == session && row.id == id));
}

// Takes the targets of a session out.
pub(crate) fn take_targets(rows: &mut Vec<TargetRow>, session: SessionId)
    ensures { rows.new.items ≡ filter (λ row. not (is_of session row)) rows.old.items }
{
    rows.retain(|row| row.session != session);
}
