//! Links between channels.

ghost use Rattle.std.specs.Prelude.{◌≡◌, ◌++◌, [], ◌∷◌, OnOk, false, map, true};
ghost use Rattle.std.specs.Option.{option_map};
ghost use Rattle.serde_json.specs.View.{view};
ghost use Rattle.mum_config.specs.Link.{AreCounted, crowding_fault, end_fault, ends_of, is_crowded, is_new, join_edit, link_count, link_edit, link_fault, pair_of, with_ends, with_link_met};
ghost use Rattle.mum_document.specs.Object.{elements_fault};
ghost use Rattle.mum_document.specs.Reading.{Reads};
ghost use Rattle.mum_document.specs.Value.{number_of};

use crate::channel::depth_in;
use indexmap::{IndexMap, IndexSet};
use mum_base::{ChannelId, Items, OutOfMemory};
use mum_document::{ConfigFault, DocumentError, at_place, fault_at, read_number};
use mum_state::Edit;
use mum_tree::CHANNEL_LINK_LIMIT;
use serde_json::Value;
use std::alloc::Global;

// The links so far.
#[derive(Drop)]
struct Met {
    /// Each once, with its lesser channel first.
    ends: IndexSet<(u32, u32)>,
    /// For each channel that has links, how many.
    counts: IndexMap<u32, usize>,
}

// The channels of a link, the lesser first.
fn ends_of(a: u32, b: u32) -> (u32, u32)
    ensures { result ≡ ends_of a b }
{
    (a.min(b), a.max(b))
}

impl Met {
    // Whether the link joins two channels that no link joins yet.
    fn is_new(&self, a: u32, b: u32) -> bool
        ensures { result ≡ is_new self.now.ends.keys a b }
    {
        a != b && !self.ends.contains(&ends_of(a, b))
    }

    // How many channels links join to this one.
    fn count(&self, channel: u32) -> usize
        requires { AreCounted self.now.counts.entries self.now.ends.keys }
        ensures { result ≡ link_count self.now.ends.keys channel }
    {
        depth_in(&self.counts, channel).unwrap_or(0)
    }

    // Adds a link that is new, of channels that may have one more.
    fn add(&mut self, a: u32, b: u32) -> Result<(), OutOfMemory>
        requires counted { AreCounted self.old.counts.entries self.old.ends.keys }
        requires new { is_new self.old.ends.keys a b ≡ true }
        requires room { is_crowded self.old.ends.keys a b ≡ false }
        ensures ends { OnOk result
            (self.new.ends.keys ≡ self.old.ends.keys ++ ends_of a b ∷ []) }
        ensures counted { OnOk result (AreCounted self.new.counts.entries self.new.ends.keys) }
    {
        let of_a = self.count(a);
        let of_b = self.count(b);
        self.ends.insert(ends_of(a, b))?;
        self.counts.insert(a, of_a + 1)?;
        self.counts.insert(b, of_b + 1)?;
        Ok(())
    }

    // Notes a link, if it is new; refuses it where one of its channels has all that it may have.
    fn note(&mut self, alloc: Global, a: u32, b: u32) -> Result<(), DocumentError>
        requires { AreCounted self.old.counts.entries self.old.ends.keys }
        ensures reads { Reads (crowding_fault self.old.ends.keys a b) tt result }
        ensures ends { OnOk result (self.new.ends.keys ≡ with_ends self.old.ends.keys a b) }
        ensures counted { OnOk result (AreCounted self.new.counts.entries self.new.ends.keys) }
    {
        if !self.is_new(a, b) {
            return Ok(());
        }
        if self.count(a) >= CHANNEL_LINK_LIMIT || self.count(b) >= CHANNEL_LINK_LIMIT {
            return Err(fault_at(alloc, ConfigFault::Limit, ""));
        }
        self.add(a, b)?;
        Ok(())
    }
}

// One of the channels of a link, which is there.
fn read_end(
    alloc: Global,
    value: &Value,
    depths: &IndexMap<u32, usize>,
) -> Result<u32, DocumentError>
    ensures { Reads (end_fault depths.now.entries (view value.now)) (number_of (view value.now)) result }
{
    let number = match read_number(value, 0, u32::MAX) {
        Ok(number) => number,
        Err(cause) => return Err(fault_at(alloc, cause, "")),
    };
    if depth_in(depths, number).is_none() {
        return Err(fault_at(alloc, ConfigFault::NoSuch, ""));
    }
    Ok(number)
}

// Adds the edit that adds a link to its first channel.
fn push_link(alloc: Global, from: u32, to: u32, edits: &mut Vec<Edit>) -> Result<(), OutOfMemory>
    ensures { OnOk result (edits.new.items ≡ edits.old.items ++ join_edit from to ∷ []) }
{
    let mut links_add = Items::new(alloc);
    links_add.push(ChannelId(to))?;
    edits.push(Edit::EditChannel {
        id: ChannelId(from),
        actor: None,
        name: None,
        parent: None,
        description: None,
        position: None,
        max_users: None,
        links_add,
        links_remove: Items::new(alloc),
    })?;
    Ok(())
}

// The two values of a pair.
fn pair_in(value: &Value) -> Option<(&Value, &Value)>
    ensures { option_map (λ pair. (view pair.0.now, view pair.1.now)) result ≡ pair_of (view value.now) }
{
    let values = value.as_array()?.as_slice();
    if values.len() != 2 {
        return None;
    }
    Some((&values[0], &values[1]))
}

// Adds the edit of a link.
fn read_link(
    alloc: Global,
    value: &Value,
    depths: &IndexMap<u32, usize>,
    met: &mut Met,
    edits: &mut Vec<Edit>,
) -> Result<(), DocumentError>
    requires { AreCounted met.old.counts.entries met.old.ends.keys }
    ensures reads { Reads (link_fault depths.now.entries met.old.ends.keys (view value.now)) tt result }
    ensures met { OnOk result (met.new.ends.keys ≡ with_link_met met.old.ends.keys (view value.now)) }
    ensures counted { OnOk result (AreCounted met.new.counts.entries met.new.ends.keys) }
    ensures edits { OnOk result
        (edits.new.items ≡ edits.old.items ++ link_edit (view value.now) ∷ []) }
{
    let Some((first, second)) = pair_in(value) else {
        return Err(fault_at(alloc, ConfigFault::WrongKind, ""));
    };
    let from = at_place(alloc, 0, read_end(alloc, first, depths))?;
    let to = at_place(alloc, 1, read_end(alloc, second, depths))?;
    met.note(alloc, from, to)?;
    push_link(alloc, from, to, edits)?;
    Ok(())
}

// Adds the edits of links to those that were met before.
fn add_links(
    alloc: Global,
    values: &[Value],
    depths: &IndexMap<u32, usize>,
    met: &mut Met,
    edits: &mut Vec<Edit>,
) -> Result<(), DocumentError>
    requires { AreCounted met.old.counts.entries met.old.ends.keys }
    ensures reads { Reads (elements_fault (link_fault depths.now.entries) with_link_met met.old.ends.keys 0
        (map view values.now)) tt result }
    ensures edits { OnOk result
        (edits.new.items ≡ edits.old.items ++ map link_edit (map view values.now)) }
{
    for (place, value) in values.iter().enumerate() {
        at_place(alloc, place, read_link(alloc, value, depths, met, edits))?;
    }
    Ok(())
}

// Adds the edits of links between channels of which these are the depths.
pub(crate) fn read_links(
    alloc: Global,
    values: &[Value],
    depths: &IndexMap<u32, usize>,
    edits: &mut Vec<Edit>,
) -> Result<(), DocumentError>
    ensures reads { Reads (elements_fault (link_fault depths.now.entries) with_link_met [] 0
        (map view values.now)) tt result }
    ensures edits { OnOk result
        (edits.new.items ≡ edits.old.items ++ map link_edit (map view values.now)) }
{
    let mut met = Met {
        ends: IndexSet::new(alloc),
        counts: IndexMap::new(alloc),
    };
    add_links(alloc, values, depths, &mut met, edits)
}
