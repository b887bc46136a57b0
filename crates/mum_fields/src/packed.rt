//! Numbers packed in a block (Protocol Buffers, "Encoding", "Packed Repeated Fields").

ghost use Rattle.std.specs.Prelude.{◌≡◌, ◌↔◌, ◌+◌, ◌^◌, ◌<◌, List, [], ◌++◌, length, map, IfOk, IfErr, IfSome, OnSome, OnOk, OnErr, Ok, Err, Some, None};
ghost use Rattle.mum_fields.specs.Field.{entry_of, varint_in_front};
ghost use Rattle.mum_fields.specs.Payload.{packed as packed_left, TakesFirst};
ghost use Rattle.mum_fields.specs.Message.{numbers_of, value_fault, packed_numbers, IsFaultOf, KeepsFront};

use crate::cursor::Cursor;
use crate::fault::FieldFault;
use crate::field::{Placed, Value};
use crate::message::MessageFault;
use crate::number::VarintType;
use mum_base::Items;
use std::marker::Model;

/// A cursor over the numbers of a packed block. It copies nothing and takes no memory.
#[derive(Drop)]
pub struct Packed<'a> {
    cursor: Cursor<'a>,
}

impl<'a> Model for Packed<'a> {
    ghost use Rattle.mum_fields.specs.Field.{Cursor};

    ghost Value = { Cursor };

    ghost use Rattle.mum_fields.specs.Cursor.{cursor_of};

    ghost view = { λ p. cursor_of p.cursor };
}

impl<'a> Packed<'a> {
    /// The numbers of a block that begins at this place of a payload.
    pub fn within(block: &'a [u8], place: usize) -> Packed<'a>
        requires { place + length block.now < 2 ^ 64 }
        ensures { result ≡ record { place = place; rest = block.now } }
    {
        Packed {
            cursor: Cursor { place, rest: block },
        }
    }

    /// The next number. Where the block ends inside one, that is the fault Truncated at its first
    /// byte, at this call and at each later one.
    pub fn next_number(&mut self) -> Result<Option<u64>, FieldFault>
        ensures end { (result ≡ Ok None) ↔ (self.old.rest ≡ []) }
        ensures number { IfOk result (λ found. IfSome found (λ n.
            varint_in_front self.old ≡ Ok (n, self.new))) }
        ensures fault { IfErr result (λ fault. varint_in_front self.old ≡ Err fault) }
        ensures takes { TakesFirst (λ n. n) (packed_left self.old) result (packed_left self.new) }
        ensures shorter { IfOk result (λ found. OnSome found (length self.new.rest < length self.old.rest)) }
        ensures kept { (result ≡ Ok None) → self.new ≡ self.old }
        ensures err { OnErr result (self.new ≡ self.old) }
    {
        if self.cursor.rest.is_empty() {
            return Ok(None);
        }
        let (number, after) = self.cursor.varint()?;
        self.cursor = after;
        Ok(Some(number))
    }
}

fn push_packed<N: VarintType>(
    numbers: &mut Items<N>,
    mut packed: Packed<'_>,
) -> Result<(), MessageFault>
    ensures ok { OnOk result (numbers.new ≡ numbers.old ++ map N.value_of (packed_left packed.entry).items) }
    ensures whole { OnOk result ((packed_left packed.entry).fault ≡ None) }
    ensures fault { IfErr result (λ e. IsFaultOf e (packed_left packed.entry).fault) }
    ensures err { IfErr result (λ e. KeepsFront e numbers.old
        (map N.value_of (packed_left packed.entry).items) numbers.new) }
{
    while let Some(number) = packed.next_number()? {
        numbers.push(N::from_varint(number))?;
    }
    Ok(())
}

/// Adds the numbers of one field of a repeated number: a varint by itself, or those packed in its
/// block. A field of another wire type has none. After a fault the numbers before it are there,
/// and where memory runs out a front of them.
pub fn push_numbers<N: VarintType>(
    numbers: &mut Items<N>,
    placed: &Placed<'_>,
) -> Result<(), MessageFault>
    ensures ok { OnOk result (numbers.new ≡ numbers.old ++ numbers_of N.value_of (entry_of placed.now)) }
    ensures whole { OnOk result (value_fault packed_numbers (entry_of placed.now) ≡ None) }
    ensures fault { IfErr result (λ e. IsFaultOf e (value_fault packed_numbers (entry_of placed.now))) }
    ensures err { IfErr result (λ e. KeepsFront e numbers.old
        (numbers_of N.value_of (entry_of placed.now)) numbers.new) }
{
    match placed.field.value {
        Value::Varint(number) => {
            numbers.push(N::from_varint(number))?;
            Ok(())
        }
        Value::Block(block) => push_packed(numbers, Packed::within(block, placed.at)),
        _ => Ok(()),
    }
}
