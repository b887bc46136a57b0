//! How many bytes a field is written with, or 2^64 - 1 where it is more.

ghost use Rattle.std.specs.Prelude.{◌≡◌, ℕ, List, [], ◌∷◌, ◌≤◌, length, map};
ghost use Rattle.mum_fields.specs.Field.{entry_of, last_number};
ghost use Rattle.mum_fields.specs.Payload.{packed};
ghost use Rattle.mum_fields.specs.Survey.{all_size, answered, cut, one_size, size};
ghost use Rattle.mum_fields.specs.Table.{scalar_number, value_of};
ghost use Rattle.mum_fields.specs.Varint.{shortest};
ghost use Rattle.mum_fields.specs.Written.{block_item, each_number, varint_item};

use crate::fault::FieldFault;
use crate::field::{Placed, Value};
use crate::number::VarintType;
use crate::packed::Packed;
use crate::shape::{Kind, Scalar};
use crate::text::read_text;
use crate::writer::{BLOCK, VARINT};

// How many bytes the shortest varint of a number has.
fn varint_size(number: u64) -> u64
    ensures size { result ≡ length (shortest number) }
    ensures few { result ≤ 10 }
{
    let mut rest = number;
    let mut size = 1u64;
    while rest >= 128 {
        rest /= 128;
        size += 1;
    }
    size
}

/// The size of a number with its key.
pub fn number_size(number: u32, value: u64) -> u64
    requires { number ≤ last_number }
    ensures { result ≡ size (varint_item number value ∷ []) }
{
    varint_size(u64::from(number) * 8 + VARINT) + varint_size(value)
}

/// The size of a block of n bytes with its key and its length.
pub fn block_size(number: u32, bytes: u64) -> u64
    requires { number ≤ last_number }
    ensures { (block : List ℕ) → bytes ≡ cut (length block)
        → result ≡ size (block_item number block ∷ []) }
{
    let front = varint_size(u64::from(number) * 8 + BLOCK) + varint_size(bytes);
    bytes.saturating_add(front)
}

/// The size of a block with its key and its length.
pub fn bytes_size(number: u32, block: &[u8]) -> u64
    requires { number ≤ last_number }
    ensures { result ≡ size (block_item number block.now ∷ []) }
{
    block_size(number, block.len() as u64)
}

// The varint that is written for the value which a varint stands for.
fn respelled<N: VarintType>(varint: u64) -> u64
    ensures { result ≡ N.number_of (N.value_of varint) }
{
    N::from_varint(varint).to_varint()
}

impl Scalar {
    // The varint that is written for the value of a varint.
    fn number(self, varint: u64) -> u64
        ensures { result ≡ scalar_number self (value_of self varint) }
    {
        match self {
            Scalar::Unsigned32 => respelled::<u32>(varint),
            Scalar::Unsigned64 => varint,
            Scalar::Signed32 => respelled::<i32>(varint),
            Scalar::Truth => respelled::<bool>(varint),
        }
    }
}

// The size of the numbers of a packed block, each with a key of its own.
fn packed_size(number: u32, scalar: Scalar, mut numbers: Packed<'_>) -> Result<u64, FieldFault>
    requires { number ≤ last_number }
    ensures { result ≡ answered (packed numbers.entry).fault
        (size (each_number (scalar_number scalar) number (map (value_of scalar) (packed numbers.entry).items))) }
{
    let mut total = 0u64;
    while let Some(varint) = numbers.next_number()? {
        total = total.saturating_add(number_size(number, scalar.number(varint)));
    }
    Ok(total)
}

impl Kind {
    /// The size of the value that a field of this type and number gives. A field of another wire
    /// type gives none.
    #[inline(always)]
    pub fn one_size(self, number: u32, placed: &Placed<'_>) -> Result<Option<u64>, FieldFault>
        requires { number ≤ last_number }
        ensures { result ≡ one_size self number (entry_of placed.now) }
    {
        match self {
            Kind::Number(scalar) => match placed.field.value {
                Value::Varint(varint) => Ok(Some(number_size(number, scalar.number(varint)))),
                _ => Ok(None),
            },
            Kind::Utf8 => match placed.field.value {
                Value::Block(block) => {
                    read_text(block, placed.at)?;
                    Ok(Some(bytes_size(number, block)))
                }
                _ => Ok(None),
            },
            Kind::Raw => match placed.field.value {
                Value::Block(block) => Ok(Some(bytes_size(number, block))),
                _ => Ok(None),
            },
        }
    }

    /// The size of all values that a field of this type and number gives where it is repeated.
    pub fn all_size(self, number: u32, placed: &Placed<'_>) -> Result<u64, FieldFault>
        requires { number ≤ last_number }
        ensures { result ≡ all_size self number (entry_of placed.now) }
    {
        if let Kind::Number(scalar) = self {
            if let Value::Block(block) = placed.field.value {
                return packed_size(number, scalar, Packed::within(block, placed.at));
            }
        }
        let size = self.one_size(number, placed)?;
        Ok(size.unwrap_or(0))
    }
}
