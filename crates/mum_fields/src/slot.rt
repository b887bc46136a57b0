//! The fields of a message, one call for each: a decoder hands every field of the payload to every
//! slot of its message, and a slot takes those of its number. A singular number keeps its last
//! value, a repeated one all of them (Protocol Buffers, "Encoding", "Last One Wins" and "Packed
//! Repeated Fields"); a field of another number or wire type leaves the slot as it is.

ghost use Rattle.std.specs.Prelude.{◌≡◌, OnOk, OnErr, IfOk, IfErr, None};
ghost use Rattle.mum_fields.specs.Field.{entry_of};
ghost use Rattle.mum_fields.specs.Message.{newer, longer, varint_of, block_of, blocks_of, numbers_of, only, text, packed_numbers, entry_fault, IsFaultOf, KeepsFront};

use crate::field::{Placed, Value};
use crate::message::MessageFault;
use crate::number::VarintType;
use crate::packed::push_numbers;
use crate::text::read_text;
use mum_base::{Items, Octets, OutOfMemory, Text};
use std::alloc::Global;

/// A number that goes as a varint.
pub fn set_varint<N: VarintType>(slot: &mut Option<N>, number: u32, placed: &Placed<'_>)
    ensures { slot.new ≡ newer (varint_of N.value_of) number slot.old (entry_of placed.now) }
{
    if placed.field.number == number {
        if let Value::Varint(varint) = placed.field.value {
            *slot = Some(N::from_varint(varint));
        }
    }
}

/// Bytes.
pub fn set_block(
    alloc: Global,
    slot: &mut Option<Octets>,
    number: u32,
    placed: &Placed<'_>,
) -> Result<(), OutOfMemory>
    ensures ok { OnOk result (slot.new ≡ newer block_of number slot.old (entry_of placed.now)) }
    ensures err { OnErr result (slot.new ≡ slot.old) }
{
    if placed.field.number == number {
        if let Value::Block(block) = placed.field.value {
            *slot = Some(Octets::of(alloc, block)?);
        }
    }
    Ok(())
}

fn copy_text(alloc: Global, block: &[u8], at: usize) -> Result<Text, MessageFault>
    ensures ok { IfOk result (λ copy. copy ≡ block.now) }
    ensures clean { OnOk result (text at block.now ≡ None) }
    ensures fault { IfErr result (λ e. IsFaultOf e (text at block.now)) }
{
    match read_text(block, at) {
        Ok(read) => Ok(Text::of(alloc, read)?),
        Err(fault) => Err(MessageFault::Field(fault)),
    }
}

/// A text. Each text of this number has to be UTF-8, also one that does not count.
pub fn set_text(
    alloc: Global,
    slot: &mut Option<Text>,
    number: u32,
    placed: &Placed<'_>,
) -> Result<(), MessageFault>
    ensures ok { OnOk result (slot.new ≡ newer block_of number slot.old (entry_of placed.now)) }
    ensures clean { OnOk result (entry_fault (only number text) (entry_of placed.now) ≡ None) }
    ensures fault { IfErr result (λ e. IsFaultOf e
        (entry_fault (only number text) (entry_of placed.now))) }
    ensures err { OnErr result (slot.new ≡ slot.old) }
{
    if placed.field.number == number {
        if let Value::Block(block) = placed.field.value {
            *slot = Some(copy_text(alloc, block, placed.at)?);
        }
    }
    Ok(())
}

/// One more text of a list. Each has to be UTF-8.
pub fn add_text(
    alloc: Global,
    list: &mut Items<Text>,
    number: u32,
    placed: &Placed<'_>,
) -> Result<(), MessageFault>
    ensures ok { OnOk result (list.new ≡ longer blocks_of number list.old (entry_of placed.now)) }
    ensures clean { OnOk result (entry_fault (only number text) (entry_of placed.now) ≡ None) }
    ensures fault { IfErr result (λ e. IsFaultOf e
        (entry_fault (only number text) (entry_of placed.now))) }
    ensures err { OnErr result (list.new ≡ list.old) }
{
    if placed.field.number == number {
        if let Value::Block(block) = placed.field.value {
            list.push(copy_text(alloc, block, placed.at)?)?;
        }
    }
    Ok(())
}

/// More numbers of a list: a varint by itself, or those packed in a block. After a fault the
/// numbers before it are there, and where memory runs out a front of them.
pub fn add_numbers<N: VarintType>(
    list: &mut Items<N>,
    number: u32,
    placed: &Placed<'_>,
) -> Result<(), MessageFault>
    ensures ok { OnOk result (list.new
        ≡ longer (numbers_of N.value_of) number list.old (entry_of placed.now)) }
    ensures clean { OnOk result (entry_fault (only number packed_numbers) (entry_of placed.now) ≡ None) }
    ensures fault { IfErr result (λ e. IsFaultOf e
        (entry_fault (only number packed_numbers) (entry_of placed.now))) }
    ensures err { IfErr result (λ e. KeepsFront e list.old
        (numbers_of N.value_of (entry_of placed.now)) list.new) }
{
    if placed.field.number == number {
        return push_numbers(list, placed);
    }
    Ok(())
}
