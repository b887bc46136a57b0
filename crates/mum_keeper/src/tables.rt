//! Rows in memory.

ghost use Rattle.std.specs.Prelude.{◌≡◌, ◌<◌, ◌≤◌, IfOk, IsTrue, OnErr, OnOk, length, slice_get};
ghost use Rattle.mum_keeper.specs.Changes.{AreInOrder, all_made, link_of, made, without_channel, without_link};
ghost use Rattle.mum_keeper.specs.MapKeeper.{no_rows};
ghost use Rattle.mum_keeper.specs.Order.{is_taken, place_of, with_row};

use crate::change::Change;
use crate::row::{Row, share};
use mum_base::{ChannelId, Items, OutOfMemory};
use mum_kept::{KeptChannel, KeptRows};
use std::alloc::Global;
use std::marker::Model;

// Rows in memory, in order.
#[derive(Drop)]
pub(crate) struct Tables {
    channels: Vec<KeptChannel>,
    links: Vec<(ChannelId, ChannelId)>,
}

impl Model for Tables {
    ghost use Rattle.mum_kept.specs.declared.rows.KeptRows.{KeptRows};
    ghost use Rattle.mum_keeper.specs.Changes.{AreInOrder};

    ghost Value = { KeptRows };

    ghost view = { λ t. record { channels = t.channels.items; links = t.links.items } };

    ghost invariant = { λ t. AreInOrder (record { channels = t.channels.items; links = t.links.items }) };
}

// How many rows come before a row.
fn place_of<T: Row>(rows: &[T], new: &T) -> usize
    ensures place { result ≡ place_of T.before new.now rows.now }
    ensures within { result ≤ length rows.now }
{
    let mut at = 0;
    while at < rows.len() {
        if !rows[at].is_before(new) {
            return at;
        }
        at += 1;
    }
    at
}

// Whether the row at an index, if there is one, has the key of a new one, which does not come after it.
fn is_taken<T: Row>(rows: &[T], at: usize, new: &T) -> bool
    ensures taken { result ≡ is_taken T.before new.now (slice_get rows.now at) }
    ensures within { IsTrue result → at < length rows.now }
{
    match rows.get(at) {
        Some(row) => !new.is_before(row),
        None => false,
    }
}

// Puts a row at its place among the others, in place of one with its key.
fn put_row<T: Row>(rows: &mut Vec<T>, new: T) -> Result<(), OutOfMemory>
    ensures ok { OnOk result (rows.new.items ≡ with_row T.before new rows.old.items) }
    ensures err { OnErr result (rows.new.items ≡ rows.old.items) }
{
    let at = place_of(rows.as_slice(), &new);
    if is_taken(rows.as_slice(), at, &new) {
        rows[at] = new;
        return Ok(());
    }
    rows.insert(at, new)?;
    Ok(())
}

fn link_of(one: ChannelId, other: ChannelId) -> (ChannelId, ChannelId)
    ensures { result ≡ link_of one other }
{
    if other.0 < one.0 {
        (other, one)
    } else {
        (one, other)
    }
}

fn drop_channel(channels: &mut Vec<KeptChannel>, id: ChannelId)
    ensures { channels.new.items ≡ without_channel id channels.old.items }
{
    channels.retain(|channel| !(channel.id.0 == id.0));
}

fn drop_link(links: &mut Vec<(ChannelId, ChannelId)>, link: (ChannelId, ChannelId))
    ensures { links.new.items ≡ without_link link links.old.items }
{
    links.retain(|other| !(other.0.0 == link.0.0 && other.1.0 == link.1.0));
}

fn copies_of(alloc: Global, channels: &[KeptChannel]) -> Result<Vec<KeptChannel>, OutOfMemory>
    ensures { IfOk result (λ copies. copies.items ≡ channels.now) }
{
    let mut copies = Vec::with_capacity(alloc, channels.len())?;
    for channel in channels {
        copies.push(share(channel)?)?;
    }
    Ok(copies)
}

impl Tables {
    // No rows.
    pub(crate) fn new(alloc: Global) -> Tables
        ensures { result ≡ no_rows }
    {
        Tables {
            channels: Vec::new(alloc),
            links: Vec::new(alloc),
        }
    }

    // The channels, in order of number.
    pub(crate) fn channels(&self) -> &[KeptChannel]
        ensures { result.now ≡ self.now.channels }
    {
        self.channels.as_slice()
    }

    // The links, in order.
    pub(crate) fn links(&self) -> &[(ChannelId, ChannelId)]
        ensures { result.now ≡ self.now.links }
    {
        self.links.as_slice()
    }

    // The rows once more.
    pub(crate) fn rows(&self, alloc: Global) -> Result<KeptRows, OutOfMemory>
        ensures rows { IfOk result (λ rows. rows ≡ self.now) }
        ensures order { AreInOrder self.now }
    {
        let channels = copies_of(alloc, &self.channels)?;
        let links = Vec::from_slice(alloc, self.links.as_slice())?;
        Ok(KeptRows {
            channels: Items::from_vec(channels),
            links: Items::from_vec(links),
        })
    }

    // The same rows, in tables of their own.
    fn copy(&self, alloc: Global) -> Result<Tables, OutOfMemory>
        ensures { IfOk result (λ copy. copy ≡ self.now) }
    {
        Ok(Tables {
            channels: copies_of(alloc, &self.channels)?,
            links: Vec::from_slice(alloc, self.links.as_slice())?,
        })
    }

    // Makes a change. Where memory runs out, nothing changes.
    fn make(&mut self, change: &Change) -> Result<(), OutOfMemory>
        ensures { OnOk result (self.new ≡ made change.now self.old) }
    {
        match change {
            Change::Put(channel) => put_row(&mut self.channels, share(channel)?),
            Change::Drop(id) => {
                drop_channel(&mut self.channels, *id);
                Ok(())
            }
            Change::Link(one, other) => put_row(&mut self.links, link_of(*one, *other)),
            Change::Unlink(one, other) => {
                drop_link(&mut self.links, link_of(*one, *other));
                Ok(())
            }
        }
    }

    // The rows after these changes, in tables of their own.
    pub(crate) fn changed(&self, alloc: Global, changes: &[Change]) -> Result<Tables, OutOfMemory>
        ensures { IfOk result (λ after. after ≡ all_made changes.now self.now) }
    {
        let mut after = self.copy(alloc)?;
        for change in changes {
            after.make(change)?;
        }
        Ok(after)
    }
}
