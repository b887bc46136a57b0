//! What is left of a payload, and the steps that read from it.

ghost use Rattle.std.specs.Prelude.{◌+◌, ◌^◌, ◌<◌, ◌≤◌, length};

use crate::fault::{FaultKind, FieldFault};
use crate::field::{Placed, Value};
use crate::varint::read_varint;

// The greatest number of a field (Protocol Buffers, "Assigning Field Numbers").
const LAST_NUMBER: u64 = 536_870_911;

/// The bytes that are left, and the place in the payload of the first of them.
#[derive(Clone, Copy)]
pub struct Cursor<'a> {
    pub place: usize,
    pub rest: &'a [u8],
    ghost fits: { place + length rest.now < 2 ^ 64 },
}

impl<'a> Cursor<'a> {
    ghost use Rattle.std.specs.Prelude.{◌≡◌, ℕ, IfOk, IfSome, Ok, Err};
    ghost use Rattle.mum_fields.specs.Cursor.{cursor_of, IsRead};
    ghost use Rattle.mum_fields.specs.Field.{entry_of, skip, varint_in_front, bytes_at, fixed8_at, fixed4_at, value_at, field_at};

    fn skip(self, count: usize) -> Cursor<'a>
        requires { count ≤ length self.rest.now }
        ensures { cursor_of result ≡ skip count (cursor_of self.entry) }
    {
        Cursor {
            place: self.place + count,
            rest: &self.rest[count..],
        }
    }

    /// The varint at the front.
    #[tactic(auto, unfolding(crate::specs::Field::varint_in_front))]
    pub fn varint(self) -> Result<(u64, Cursor<'a>), FieldFault>
        ensures { IsRead (λ x. (x.0, cursor_of x.1)) result (varint_in_front (cursor_of self.entry)) }
    {
        match read_varint(self.rest) {
            Ok((number, used)) => Ok((number, self.skip(used))),
            Err(kind) => Err(kind.at(self.place)),
        }
    }

    // This many bytes from the front. Where they are not left, that is this fault.
    #[tactic(auto, unfolding(crate::specs::Field::bytes_at))]
    fn bytes(self, missing: FaultKind, count: usize) -> Result<(&'a [u8], Cursor<'a>), FieldFault>
        ensures reads { IsRead (λ x. (x.0.now, cursor_of x.1)) result
            (bytes_at missing count (cursor_of self.entry)) }
        ensures count { IfOk result (λ x. length x.0.now ≡ count) }
        ensures fits { IfOk result (λ x. self.entry.place + length x.0.now < 2 ^ 64) }
    {
        if self.rest.len() < count {
            return Err(missing.at(self.place));
        }
        Ok((&self.rest[..count], self.skip(count)))
    }

    #[tactic(auto, unfolding(crate::specs::Field::fixed8_at))]
    fn fixed8(self) -> Result<(u64, Cursor<'a>), FieldFault>
        ensures { IsRead (λ x. (x.0, cursor_of x.1)) result (fixed8_at (cursor_of self.entry)) }
    {
        let (b, after) = self.bytes(FaultKind::Truncated, 8)?;
        let number = u64::from_le_bytes([b[0], b[1], b[2], b[3], b[4], b[5], b[6], b[7]]);
        Ok((number, after))
    }

    #[tactic(auto, unfolding(crate::specs::Field::fixed4_at))]
    fn fixed4(self) -> Result<(u32, Cursor<'a>), FieldFault>
        ensures { IsRead (λ x. (x.0, cursor_of x.1)) result (fixed4_at (cursor_of self.entry)) }
    {
        let (b, after) = self.bytes(FaultKind::Truncated, 4)?;
        let number = u32::from_le_bytes([b[0], b[1], b[2], b[3]]);
        Ok((number, after))
    }

    // The varint at the front, where it has one byte. Most have.
    fn short_varint(self) -> Option<(u64, Cursor<'a>)>
        ensures { IfSome result (λ x. varint_in_front (cursor_of self.entry) ≡ Ok (x.0, cursor_of x.1)) }
    {
        let byte = *self.rest.first()?;
        if byte >= 128 {
            return None;
        }
        Some((u64::from(byte), self.skip(1)))
    }

    // The value after a key of this number and wire type, where it is a number or a block and its varint has one byte.
    #[tactic(auto, unfolding(crate::specs::Field::value_at))]
    fn short_value(self, number: u32, wire_type: u64) -> Option<(Placed<'a>, Cursor<'a>)>
        ensures { (key : ℕ) → IfSome result (λ x.
            value_at key number wire_type (cursor_of self.entry) ≡ Ok (entry_of x.0, cursor_of x.1)) }
    {
        let (varint, behind) = self.short_varint()?;
        match wire_type {
            0 => Some((
                Placed::new(number, self.place, Value::Varint(varint)),
                behind,
            )),
            2 => match behind.bytes(FaultKind::BadLength, varint as usize) {
                Ok((block, after)) => Some((
                    Placed::new(number, behind.place, Value::Block(block)),
                    after,
                )),
                Err(_) => None,
            },
            _ => None,
        }
    }

    /// The field at the front, where its key has one byte, and its number or the length of its block. Most are such.
    #[tactic(auto, unfolding(crate::specs::Field::field_at))]
    pub fn short_field(self) -> Option<(Placed<'a>, Cursor<'a>)>
        ensures { IfSome result (λ x. field_at (cursor_of self.entry) ≡ Ok (entry_of x.0, cursor_of x.1)) }
    {
        let (key, after) = self.short_varint()?;
        let number = key / 8;
        if number == 0 || number > LAST_NUMBER {
            return None;
        }
        after.short_value(number as u32, key % 8)
    }

    // The value after a key that has this place, number and wire type.
    #[tactic(auto, unfolding(crate::specs::Field::value_at))]
    fn value(
        self,
        key: usize,
        number: u32,
        wire_type: u64,
    ) -> Result<(Placed<'a>, Cursor<'a>), FieldFault>
        ensures { IsRead (λ x. (entry_of x.0, cursor_of x.1)) result
            (value_at key number wire_type (cursor_of self.entry)) }
    {
        match wire_type {
            0 => {
                let (varint, after) = self.varint()?;
                Ok((
                    Placed::new(number, self.place, Value::Varint(varint)),
                    after,
                ))
            }
            1 => {
                let (fixed, after) = self.fixed8()?;
                Ok((Placed::new(number, self.place, Value::Fixed8(fixed)), after))
            }
            2 => {
                let (length, behind) = self.varint()?;
                let (block, after) = behind.bytes(FaultKind::BadLength, length as usize)?;
                Ok((
                    Placed::new(number, behind.place, Value::Block(block)),
                    after,
                ))
            }
            5 => {
                let (fixed, after) = self.fixed4()?;
                Ok((Placed::new(number, self.place, Value::Fixed4(fixed)), after))
            }
            _ => Err(FaultKind::BadWireType.at(key)),
        }
    }

    /// The field at the front.
    #[inline(never)]
    #[tactic(auto, unfolding(crate::specs::Field::field_at))]
    pub fn field(self) -> Result<(Placed<'a>, Cursor<'a>), FieldFault>
        ensures { IsRead (λ x. (entry_of x.0, cursor_of x.1)) result (field_at (cursor_of self.entry)) }
    {
        let (key, after) = self.varint()?;
        let number = key / 8;
        if number == 0 || number > LAST_NUMBER {
            return Err(FaultKind::BadWireType.at(self.place));
        }
        after.value(self.place, number as u32, key % 8)
    }
}
