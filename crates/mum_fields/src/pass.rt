//! A pass over a payload before it is decoded: it takes no memory, and reports the first fault of the
//! payload, or how long the message is as this server encodes it.

ghost use Rattle.std.specs.Prelude.{◌≡◌, ◌≢◌, ℕ, ◌+◌, ◌-◌, ◌^◌, ◌≤◌, ◌<◌, Bool, map, min, None, true, length, MatchOption};
ghost use Rattle.std.specs.List.{All, HoldsAt};
ghost use Rattle.mum_fields.specs.Field.{entry_of};
ghost use Rattle.mum_fields.specs.Payload.{fields};
ghost use Rattle.mum_fields.specs.Survey.{AreParts, Grows, Held, Slot, Takes, flat, form_of, has_room, is_sound, label_of, number_of, outlined, own_missing, part_of, slot_of, spelled_size, whole_part};
ghost use Rattle.mum_fields.specs.Survey.Slot.{Single};
ghost use Rattle.mum_fields.specs.Table.{Values, decoded_by, is_set, lesser, no_values};

use crate::fault::FieldFault;
use crate::field::{Placed, Value};
use crate::message::{MessageFault, lesser};
use crate::reader::Reader;
use crate::shape::{FieldShape, Label, Shape};
use crate::size::block_size;

/// How many fields a message may have.
pub const FIELD_LIMIT: usize = 24;

// How many fields most messages in blocks have at most. There may be very many of those.
const FEW_FIELDS: usize = 8;

/// What is kept of the value of a field, or of a message.
#[derive(Clone, Copy)]
pub struct Part {
    /// How many bytes it is written with; 2^64 - 1 where they are more.
    pub length: u64,
    /// The least required number that it misses.
    pub missing: Option<u32>,
}

const NOTHING: Part = Part {
    length: 0,
    missing: None,
};

/// A field of a message, as data.
pub trait Row {
    ghost slot: { Self → Slot };

    /// The number of the field.
    fn number(&self) -> u32
        ensures { result ≡ number_of (slot self.now) };

    /// What a message may have of it.
    fn label(&self) -> Label
        ensures { result ≡ label_of (slot self.now) };

    /// What is kept of its value after one more field of its number, or the first fault of that.
    fn after(&self, before: Part, placed: &Placed<'_>) -> Result<Part, FieldFault>
        requires sound { is_sound (slot self.now) ≡ true }
        requires own { placed.now.field.number ≡ number_of (slot self.now) }
        ensures { Grows (slot self.now) before (entry_of placed.now) result };
}

impl Row for FieldShape {
    ghost slot = { Single };

    fn number(&self) -> u32 {
        self.number
    }

    fn label(&self) -> Label {
        self.label
    }

    #[inline(always)]
    fn after(&self, before: Part, placed: &Placed<'_>) -> Result<Part, FieldFault> {
        match self.label {
            Label::Repeated => {
                let more = self.kind.all_size(self.number, placed)?;
                Ok(Part {
                    length: before.length.saturating_add(more),
                    missing: None,
                })
            }
            _ => {
                let size = self.kind.one_size(self.number, placed)?;
                Ok(Part {
                    length: size.unwrap_or(before.length),
                    missing: None,
                })
            }
        }
    }
}

impl<'a> Row for Shape<'a> {
    ghost slot = { slot_of };

    fn number(&self) -> u32 {
        match self {
            Shape::Field(field) => field.number,
            Shape::Blocks(blocks) => blocks.number,
        }
    }

    fn label(&self) -> Label {
        match self {
            Shape::Field(field) => field.label,
            Shape::Blocks(_) => Label::Repeated,
        }
    }

    #[inline(always)]
    fn after(&self, before: Part, placed: &Placed<'_>) -> Result<Part, FieldFault> {
        match self {
            Shape::Field(field) => field.after(before, placed),
            Shape::Blocks(blocks) => match placed.field.value {
                Value::Block(block) => {
                    let part = outline_block(blocks.inside, block, placed.at)?;
                    let more = block_size(blocks.number, part.length);
                    Ok(Part {
                        length: before.length.saturating_add(more),
                        missing: lesser(before.missing, part.missing),
                    })
                }
                _ => Ok(before),
            },
        }
    }
}

// The place of the field of a number.
fn place_of<S: Row>(rows: &[S], number: u32) -> Option<usize>
    ensures { MatchOption result (All (λ row. number_of (S.slot row) ≢ number) rows.now)
        (λ i. (i < length rows.now) × HoldsAt (λ row. number_of (S.slot row) ≡ number) rows.now i) }
{
    for (i, row) in rows.iter().enumerate() {
        if row.number() == number {
            return Some(i);
        }
    }
    None
}

// The field of its number takes one field of a payload.
fn take<S: Row>(rows: &[S], parts: &mut [Part], placed: &Placed<'_>) -> Result<(), FieldFault>
    requires room { has_room (map S.slot rows.now) ≡ true }
    requires parts { length rows.now ≤ length parts.old }
    ensures { (values : Values (form_of (map S.slot rows.now)))
        → AreParts (map S.slot rows.now) values parts.old
        → Takes (map S.slot rows.now) values (entry_of placed.now) result parts.new }
{
    let Some(place) = place_of(rows, placed.field.number) else {
        return Ok(());
    };
    let part = rows[place].after(parts[place], placed)?;
    parts[place] = part;
    Ok(())
}

// Whether the field of a number is set.
fn is_set<S: Row>(rows: &[S], parts: &[Part], number: u32) -> bool
    requires { length rows.now ≤ length parts.now }
    ensures { (values : Values (form_of (map S.slot rows.now)))
        → AreParts (map S.slot rows.now) values parts.now
        → result ≡ is_set (form_of (map S.slot rows.now)) values number }
{
    let Some((row, others)) = rows.split_first() else {
        return false;
    };
    let Some((part, behind)) = parts.split_first() else {
        return false;
    };
    if row.number() == number {
        return part.length > 0;
    }
    is_set(others, behind, number)
}

// What the value of a field misses, or the number of the field where it has to be set and is not.
fn missing_of<S: Row>(row: &S, part: &Part, others: &[S], behind: &[Part]) -> Option<u32>
    requires { length others.now ≤ length behind.now }
    ensures { (held : Held (S.slot row.now)) → part.now ≡ part_of (S.slot row.now) held
        → (values : Values (form_of (map S.slot others.now)))
        → AreParts (map S.slot others.now) values behind.now
        → result ≡ own_missing (S.slot row.now) held (is_set (form_of (map S.slot others.now)) values) }
{
    if part.length > 0 {
        return part.missing;
    }
    match row.label() {
        Label::Required => Some(row.number()),
        Label::RequiredOr(other) => {
            if is_set(others, behind, other) {
                None
            } else {
                Some(row.number())
            }
        }
        _ => part.missing,
    }
}

// Whether nothing comes of a field: it is not set, has not to be, and misses nothing.
fn adds_nothing<S: Row>(row: &S, part: &Part) -> bool
    ensures length { result ≡ true → part.now.length ≤ 0 }
    ensures missing { result ≡ true → (held : Held (S.slot row.now)) → part.now ≡ part_of (S.slot row.now) held
        → (is_later_set : ℕ → Bool) → None ≡ own_missing (S.slot row.now) held is_later_set }
{
    if part.length > 0 || part.missing.is_some() {
        return false;
    }
    match row.label() {
        Label::Required => false,
        Label::RequiredOr(_) => false,
        _ => true,
    }
}

// What comes of one more field.
fn joined(sum: Part, length: u64, missing: Option<u32>) -> Part
    ensures length { result.length ≡ min (sum.length + length) (2 ^ 64 - 1) }
    ensures missing { result.missing ≡ lesser sum.missing missing }
{
    Part {
        length: sum.length.saturating_add(length),
        missing: lesser(sum.missing, missing),
    }
}

// What the values of all fields come to.
fn sum_up<S: Row>(rows: &[S], parts: &[Part]) -> Part
    requires { length rows.now ≤ length parts.now }
    ensures { (values : Values (form_of (map S.slot rows.now)))
        → AreParts (map S.slot rows.now) values parts.now
        → result ≡ whole_part (form_of (map S.slot rows.now)) values }
{
    let mut sum = NOTHING;
    for (i, row) in rows.iter().enumerate() {
        let part = &parts[i];
        if adds_nothing(row, part) {
            continue;
        }
        let missing = missing_of(row, part, &rows[i + 1..], &parts[i + 1..]);
        sum = joined(sum, part.length, missing);
    }
    sum
}

// What the fields come to where none is set. The first that has to be is the one of the least number.
fn blank(rows: &[FieldShape]) -> Part
    requires { has_room (map Single rows.now) ≡ true }
    ensures { result ≡ whole_part (flat rows.now) (no_values (flat rows.now)) }
{
    for row in rows {
        let lacking = Part {
            length: 0,
            missing: Some(row.number),
        };
        match row.label {
            Label::Required => return lacking,
            Label::RequiredOr(_) => return lacking,
            _ => {}
        }
    }
    NOTHING
}

// What a block with these fields comes to, which begins at this place of the payload.
fn outline_block(rows: &[FieldShape], block: &[u8], place: usize) -> Result<Part, FieldFault>
    requires room { has_room (map Single rows.now) ≡ true }
    requires place { place + length block.now < 2 ^ 64 }
    ensures { result ≡ outlined (flat rows.now) (fields (record { place = place; rest = block.now })) }
{
    if block.is_empty() {
        return Ok(blank(rows));
    }
    outline(rows, Reader::within(block, place))
}

// What the fields that are left come to, in one pass and without memory.
fn outline<S: Row>(rows: &[S], reader: Reader<'_>) -> Result<Part, FieldFault>
    requires { has_room (map S.slot rows.now) ≡ true }
    ensures { result ≡ outlined (form_of (map S.slot rows.now)) (fields reader.entry) }
{
    if rows.len() <= FEW_FIELDS {
        return outline_in(rows, &mut [NOTHING; FEW_FIELDS], reader);
    }
    outline_in(rows, &mut [NOTHING; FIELD_LIMIT], reader)
}

// The same with these slots, in which nothing is kept yet.
fn outline_in<S: Row>(
    rows: &[S],
    parts: &mut [Part],
    mut reader: Reader<'_>,
) -> Result<Part, FieldFault>
    requires room { has_room (map S.slot rows.now) ≡ true }
    requires slots { length rows.now ≤ length parts.old }
    requires empty { AreParts (map S.slot rows.now) (no_values (form_of (map S.slot rows.now))) parts.old }
    ensures { result ≡ outlined (form_of (map S.slot rows.now)) (fields reader.entry) }
{
    while let Some(placed) = reader.next_placed()? {
        take(rows, parts, &placed)?;
    }
    Ok(sum_up(rows, parts))
}

/// How many bytes the message of a payload has as this server encodes it, or 2^64 - 1 where they are
/// more; or the first fault of the payload. A message with these fields reports it by this call.
pub fn survey<S: Row>(rows: &[S], payload: &[u8]) -> Result<u64, MessageFault>
    requires { has_room (map S.slot rows.now) ≡ true }
    ensures { result ≡ spelled_size (form_of (map S.slot rows.now))
        (decoded_by (form_of (map S.slot rows.now)) payload.now) }
{
    let whole = outline(rows, Reader::new(payload))?;
    match whole.missing {
        Some(number) => Err(MessageFault::MissingField { number }),
        None => Ok(whole.length),
    }
}
