//! The fields of a message, written one by one. Each call states the values that it has written
//! what their types say, so that a message is known to be read back.

ghost use Rattle.std.specs.Prelude.{◌≡◌, ℕ, ◌++◌, ◌<◌, ◌≤◌, ◌^◌, map, take, OnOk, OnErr, IfSome};
ghost use Rattle.std.specs.List.{All};
ghost use Rattle.mum_fields.specs.Field.{last_number};
ghost use Rattle.mum_fields.specs.Written.{number_items, block_items, each_number, each_block, written};
ghost use Rattle.mum_fields.specs.Typed.{IsScalar, IsText, IsBytes, AreTypedBlocks};
ghost use Rattle.mum_fields.specs.Table.{layout, parts, items, each_message};

use crate::message::Message;
use crate::number::VarintType;
use crate::writer::Writer;
use mum_base::{Items, Octets, OutOfMemory, Text};

/// Where memory runs out, a call for one value leaves what was written before, and a call for a list
/// leaves it with the fields of the first elements.
impl Writer {
    /// A number that is set.
    pub fn put_number<N: VarintType + Copy>(
        &mut self,
        number: u32,
        slot: &Option<N>,
    ) -> Result<(), OutOfMemory>
        requires some { 1 ≤ number }
        requires few { number ≤ last_number }
        ensures ok { OnOk result (self.new ≡ self.old ++ written (number_items N.number_of number slot.now)) }
        ensures typed { OnOk result (IfSome slot.now (IsScalar N.value_of N.number_of)) }
        ensures err { OnErr result (self.new ≡ self.old) }
    {
        if let Some(value) = slot {
            self.put_varint(number, value.to_varint())?;
        }
        Ok(())
    }

    /// A text that is set.
    pub fn put_text(&mut self, number: u32, slot: &Option<Text>) -> Result<(), OutOfMemory>
        requires some { 1 ≤ number }
        requires few { number ≤ last_number }
        ensures ok { OnOk result (self.new ≡ self.old ++ written (block_items number slot.now)) }
        ensures typed { OnOk result (IfSome slot.now IsText) }
        ensures err { OnErr result (self.new ≡ self.old) }
    {
        if let Some(text) = slot {
            self.put_block(number, text.as_str().as_bytes())?;
        }
        Ok(())
    }

    /// Bytes that are set.
    pub fn put_octets(&mut self, number: u32, slot: &Option<Octets>) -> Result<(), OutOfMemory>
        requires some { 1 ≤ number }
        requires few { number ≤ last_number }
        ensures ok { OnOk result (self.new ≡ self.old ++ written (block_items number slot.now)) }
        ensures typed { OnOk result (IfSome slot.now IsBytes) }
        ensures err { OnErr result (self.new ≡ self.old) }
    {
        if let Some(octets) = slot {
            self.put_block(number, octets.as_slice())?;
        }
        Ok(())
    }

    /// Each number of a list, as a field of its own.
    pub fn put_each_number<N: VarintType + Copy>(
        &mut self,
        number: u32,
        list: &Items<N>,
    ) -> Result<(), OutOfMemory>
        requires some { 1 ≤ number }
        requires few { number ≤ last_number }
        ensures ok { OnOk result (self.new ≡ self.old ++ written (each_number N.number_of number list.now)) }
        ensures typed { OnOk result (All (IsScalar N.value_of N.number_of) list.now) }
        ensures err { OnErr result ((count : ℕ)
            × (self.new ≡ self.old ++ written (each_number N.number_of number (take count list.now)))) }
    {
        for value in list.as_slice() {
            self.put_varint(number, value.to_varint())?;
        }
        Ok(())
    }

    /// Each text of a list, as a field of its own.
    pub fn put_each_text(&mut self, number: u32, list: &Items<Text>) -> Result<(), OutOfMemory>
        requires some { 1 ≤ number }
        requires few { number ≤ last_number }
        ensures ok { OnOk result (self.new ≡ self.old ++ written (each_block number list.now)) }
        ensures typed { OnOk result (All IsText list.now) }
        ensures err { OnErr result ((count : ℕ)
            × (self.new ≡ self.old ++ written (each_block number (take count list.now)))) }
    {
        for text in list.as_slice() {
            self.put_block(number, text.as_str().as_bytes())?;
        }
        Ok(())
    }

    /// Each message of a list, in a block of its own.
    pub fn put_each_message<M: Message>(
        &mut self,
        number: u32,
        list: &Items<M>,
    ) -> Result<(), OutOfMemory>
        requires some { 1 ≤ number }
        requires few { number ≤ last_number }
        ensures ok { OnOk result (self.new ≡ self.old
            ++ written (each_message (items (layout M.rows)) number (map (parts M.rows) list.now))) }
        ensures typed { OnOk result (AreTypedBlocks (layout M.rows) (map (parts M.rows) list.now)) }
        ensures err { OnErr result ((count : ℕ) × (self.new ≡ self.old
            ++ written (each_message (items (layout M.rows)) number
            (map (parts M.rows) (take count list.now))))) }
    {
        for message in list.as_slice() {
            let block = message.put(self.fresh())?;
            self.put_block(number, block.finish().as_slice())?;
        }
        Ok(())
    }
}
