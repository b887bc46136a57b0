//! Channels.

ghost use Rattle.std.specs.Prelude.{◌≡◌, ◌<◌, ◌++◌, [], ◌∷◌, IfOk, None, OnOk, false, fold, map, true};
ghost use Rattle.mum_state.specs.declared.edit.Edit.TheVariants.{MakeChannel};
ghost use Rattle.std.specs.List.{flat_map, list_any};
ghost use Rattle.serde_json.specs.View.{view};
ghost use Rattle.mum_config.specs.Channel.{ReadsDepths, are_too_many, channel_edits, channel_fault, channel_name, channel_number, depth_above, depth_of, info_of, is_root_entry, made_fault, met_of, name_rows, number_rows, parent_number, parent_rows, rises, root_fault, root_met, seats_of, with_channel_met};
ghost use Rattle.mum_document.specs.Object.{elements_fault, rows_fault};
ghost use Rattle.mum_document.specs.Reading.{Lends, Reads};

use crate::given::{add_policy, info_of, push_root_edit};
use indexmap::{IndexMap, IndexSet};
use mum_base::{ChannelId, OutOfMemory, Text};
use mum_document::{ConfigFault, DocumentError, GivenInfo, Object, at_place};
use mum_state::Edit;
use mum_tree::{CHANNEL_LIMIT, PATH_LIMIT};
use serde_json::Value;
use std::alloc::Global;
use std::mem::drop;

const ROOT_KEYS: [&str; 7] = [
    "id",
    "position",
    "max_users",
    "description",
    "inherit_acls",
    "groups",
    "acls",
];

const KEYS: [&str; 9] = [
    "id",
    "parent",
    "name",
    "position",
    "max_users",
    "description",
    "inherit_acls",
    "groups",
    "acls",
];

// The channels of the entries so far, among them the root.
#[derive(Drop)]
pub(crate) struct Met<'a> {
    /// The number of the entry before.
    last: Option<u32>,
    /// For each channel, how many lead to it from the root, with both.
    depths: IndexMap<u32, usize>,
    /// For each channel but the root, its parent and its name.
    seats: IndexSet<(u32, &'a str)>,
}

impl<'a> Met<'a> {
    // The root is there before all entries.
    fn new(alloc: Global) -> Result<Met<'a>, OutOfMemory>
        ensures { IfOk result (λ met. met_of met ≡ root_met) }
    {
        let mut depths = IndexMap::new(alloc);
        depths.insert(ChannelId::ROOT.0, 1)?;
        Ok(Met {
            last: None,
            depths,
            seats: IndexSet::new(alloc),
        })
    }

    fn into_depths(self) -> IndexMap<u32, usize>
        ensures { result ≡ self.entry.depths }
    {
        self.depths
    }
}

// Whether the entry is the root's.
fn is_root_entry(value: &Value) -> bool
    ensures { result ≡ is_root_entry (view value.now) }
{
    match value.get("id").and_then(Value::as_u64) {
        Some(number) => number == u64::from(ChannelId::ROOT.0),
        None => false,
    }
}

// Whether the number is above that of the entry before.
fn rises(last: Option<u32>, number: u32) -> bool
    ensures { result ≡ rises last number }
{
    match last {
        Some(last) => last < number,
        None => true,
    }
}

// The number of an entry, above that of the entry before.
fn number_in(object: &Object<'_>, last: Option<u32>) -> Result<u32, DocumentError>
    ensures { let value = view object.now.value.now in
        Reads (rows_fault object.now.dot.now (number_rows last value)) (channel_number value) result }
{
    let number = object.needed_number("id", 0, u32::MAX)?;
    object.refuse_if(!rises(last, number), "id", ConfigFault::OutOfRange)?;
    Ok(number)
}

// A channel's parent, and how many channels lead to it from the root, with both.
#[derive(Clone, Copy)]
struct Parent {
    number: u32,
    depth: usize,
}

// How many channels lead from the root to the one of a number, if it is there.
pub(crate) fn depth_in(depths: &IndexMap<u32, usize>, number: u32) -> Option<usize>
    ensures { result ≡ depth_of depths.now.entries number }
{
    depths.get(&number).copied()
}

// The parent that an entry names.
fn parent_in(object: &Object<'_>, depths: &IndexMap<u32, usize>) -> Result<Parent, DocumentError>
    ensures reads { let value = view object.now.value.now in
        Reads (rows_fault object.now.dot.now (parent_rows depths.now.entries value))
        (record { number = parent_number value; depth = depth_above depths.now.entries value }) result }
    ensures within { IfOk result (λ parent. parent.depth < PATH_LIMIT) }
{
    let number = object.needed_number("parent", 0, u32::MAX)?;
    let depth = depth_in(depths, number);
    object.refuse_if(depth.is_none(), "parent", ConfigFault::NoSuch)?;
    let depth = depth.unwrap_or(0);
    let is_deep = depth >= PATH_LIMIT;
    object.refuse_if(is_deep, "parent", ConfigFault::Limit)?;
    Ok(Parent { number, depth })
}

// The name of an entry, which no channel so far has under the same parent.
fn name_in<'a>(
    object: &Object<'a>,
    parent: u32,
    seats: &mut IndexSet<(u32, &'a str)>,
) -> Result<&'a str, DocumentError>
    requires { parent ≡ parent_number (view object.now.value.now) }
    ensures reads { let value = view object.now.value.now in
        Lends (rows_fault object.now.dot.now (name_rows (seats_of seats.old.keys) value))
        (channel_name value) result }
    ensures seats { let value = view object.now.value.now in OnOk result
        (seats_of seats.new.keys
        ≡ seats_of seats.old.keys ++ (parent_number value, channel_name value) ∷ []) }
{
    let name = object.needed_name("name")?;
    let new_seat = seats.insert((parent, name))?;
    object.refuse_if(!new_seat, "name", ConfigFault::Twice)?;
    Ok(name)
}

// Adds the edits of the root's entry.
fn read_root<'a>(
    alloc: Global,
    value: &'a Value,
    met: &mut Met<'a>,
    edits: &mut Vec<Edit>,
) -> Result<(), DocumentError>
    requires { is_root_entry (view value.now) ≡ true }
    ensures reads { Reads (root_fault (met_of met.old) (view value.now)) tt result }
    ensures met { OnOk result (met_of met.new ≡ with_channel_met (met_of met.old) (view value.now)) }
    ensures edits { OnOk result
        (edits.new.items ≡ edits.old.items ++ channel_edits (view value.now)) }
{
    let object = Object {
        alloc,
        value,
        dot: ".",
    };
    object.open(&ROOT_KEYS)?;
    let number = number_in(&object, met.last)?;
    met.last = Some(number);
    let info = GivenInfo::read(&object)?;
    push_root_edit(alloc, info, edits)?;
    add_policy(&object, ChannelId(number), edits)?;
    Ok(())
}

// Adds the edit that makes a channel.
fn push_made(
    alloc: Global,
    number: u32,
    parent: u32,
    name: &str,
    info: GivenInfo,
    edits: &mut Vec<Edit>,
) -> Result<(), OutOfMemory>
    ensures { OnOk result (edits.new.items
        ≡ edits.old.items
        ++ MakeChannel (record { 0 = number }) (record { 0 = parent }) name.now false (info_of info) None ∷ []) }
{
    let info = info_of(alloc, info);
    match Text::of(alloc, name) {
        Ok(name) => {
            edits.push(Edit::MakeChannel {
                id: ChannelId(number),
                parent: ChannelId(parent),
                name,
                temporary: false,
                info,
                maker: None,
            })?;
            Ok(())
        }
        Err(error) => {
            drop(info);
            Err(error)
        }
    }
}

// Adds the edits of a channel that is made.
fn read_made<'a>(
    alloc: Global,
    value: &'a Value,
    met: &mut Met<'a>,
    edits: &mut Vec<Edit>,
) -> Result<(), DocumentError>
    requires { is_root_entry (view value.now) ≡ false }
    ensures reads { Reads (made_fault (met_of met.old) (view value.now)) tt result }
    ensures met { OnOk result (met_of met.new ≡ with_channel_met (met_of met.old) (view value.now)) }
    ensures edits { OnOk result
        (edits.new.items ≡ edits.old.items ++ channel_edits (view value.now)) }
{
    let object = Object {
        alloc,
        value,
        dot: ".",
    };
    object.open(&KEYS)?;
    let number = number_in(&object, met.last)?;
    let parent = parent_in(&object, &met.depths)?;
    met.last = Some(number);
    met.depths.insert(number, parent.depth + 1)?;
    let name = name_in(&object, parent.number, &mut met.seats)?;
    let info = GivenInfo::read(&object)?;
    push_made(alloc, number, parent.number, name, info, edits)?;
    add_policy(&object, ChannelId(number), edits)?;
    Ok(())
}

// Adds the edits of an entry.
fn read_channel<'a>(
    alloc: Global,
    value: &'a Value,
    met: &mut Met<'a>,
    edits: &mut Vec<Edit>,
) -> Result<(), DocumentError>
    ensures reads { Reads (channel_fault (met_of met.old) (view value.now)) tt result }
    ensures met { OnOk result (met_of met.new ≡ with_channel_met (met_of met.old) (view value.now)) }
    ensures edits { OnOk result
        (edits.new.items ≡ edits.old.items ++ channel_edits (view value.now)) }
{
    if is_root_entry(value) {
        read_root(alloc, value, met, edits)
    } else {
        read_made(alloc, value, met, edits)
    }
}

// Whether one of the entries is the root's.
fn names_root(values: &[Value]) -> bool
    ensures { result ≡ list_any (λ value. is_root_entry (view value)) values.now }
{
    values.iter().any(|value| is_root_entry(value))
}

// Whether there are more entries than there can be channels.
pub(crate) fn are_too_many(values: &[Value]) -> bool
    ensures { result ≡ are_too_many (map view values.now) }
{
    if names_root(values) {
        values.len() > CHANNEL_LIMIT
    } else {
        values.len() >= CHANNEL_LIMIT
    }
}

// Adds the edits of channels to those that were met before.
fn add_channels<'a>(
    alloc: Global,
    values: &'a [Value],
    met: &mut Met<'a>,
    edits: &mut Vec<Edit>,
) -> Result<(), DocumentError>
    ensures reads { Reads (elements_fault channel_fault with_channel_met (met_of met.old) 0
        (map view values.now)) tt result }
    ensures met { OnOk result
        (met_of met.new ≡ fold with_channel_met (met_of met.old) (map view values.now)) }
    ensures edits { OnOk result
        (edits.new.items ≡ edits.old.items ++ flat_map channel_edits (map view values.now)) }
{
    for (place, value) in values.iter().enumerate() {
        at_place(alloc, place, read_channel(alloc, value, met, edits))?;
    }
    Ok(())
}

// Adds the edits of channels, and gives for each channel how many lead to it from the root.
pub(crate) fn read_channels(
    alloc: Global,
    values: &[Value],
    edits: &mut Vec<Edit>,
) -> Result<IndexMap<u32, usize>, DocumentError>
    ensures reads { ReadsDepths (elements_fault channel_fault with_channel_met root_met 0
        (map view values.now)) (fold with_channel_met root_met (map view values.now)) result }
    ensures edits { OnOk result
        (edits.new.items ≡ edits.old.items ++ flat_map channel_edits (map view values.now)) }
{
    let mut met = Met::new(alloc)?;
    match add_channels(alloc, values, &mut met, edits) {
        Ok(()) => Ok(met.into_depths()),
        Err(error) => {
            drop(met);
            Err(error)
        }
    }
}
