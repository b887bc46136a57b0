//! A writer of a payload, field by field.

ghost use Rattle.std.specs.Prelude.{◌≡◌, ℕ, List, [], ◌++◌, ◌<◌, ◌≤◌, ◌^◌, OnOk, OnErr};
ghost use Rattle.mum_fields.specs.Field.{last_number};
ghost use Rattle.mum_fields.specs.Written.{varint_item, block_item, spelling};

use crate::varint::push_varint;
use mum_base::{Octets, OutOfMemory};
use std::alloc::Global;
use std::marker::Model;

/// The wire type of a varint.
pub const VARINT: u64 = 0;

/// The wire type of a block after its length.
pub const BLOCK: u64 = 2;

fn push_varint_field(out: &mut Vec<u8>, number: u32, value: u64) -> Result<(), OutOfMemory>
    requires { number ≤ last_number }
    ensures ok { OnOk result (out.new.items ≡ out.old.items ++ spelling (varint_item number value)) }
    ensures err { OnErr result ((part : List ℕ) × (out.new.items ≡ out.old.items ++ part)) }
{
    push_varint(out, u64::from(number) * 8 + VARINT)?;
    push_varint(out, value)
}

fn push_block_field(out: &mut Vec<u8>, number: u32, bytes: &[u8]) -> Result<(), OutOfMemory>
    requires { number ≤ last_number }
    ensures ok { OnOk result (out.new.items ≡ out.old.items ++ spelling (block_item number bytes.now)) }
    ensures err { OnErr result ((part : List ℕ) × (out.new.items ≡ out.old.items ++ part)) }
{
    push_varint(out, u64::from(number) * 8 + BLOCK)?;
    push_varint(out, bytes.len() as u64)?;
    out.extend_from_slice(bytes)
}

/// A payload that is being written. Its contracts see the bytes so far.
#[derive(Drop)]
pub struct Writer {
    alloc: Global,
    bytes: Vec<u8>,
}

impl Model for Writer {
    ghost use Rattle.std.specs.Prelude.{ℕ, List};

    ghost Value = { List ℕ };

    ghost view = { λ w. w.bytes.items };
}

impl Writer {
    /// An empty payload.
    pub fn new(alloc: Global) -> Writer
        ensures { result ≡ [] }
    {
        Writer {
            alloc,
            bytes: Vec::new(alloc),
        }
    }

    /// An empty payload beside this one.
    pub fn fresh(&self) -> Writer
        ensures { result ≡ [] }
    {
        Writer::new(self.alloc)
    }

    /// Writes a varint field. Where memory runs out, this leaves what was written before.
    pub fn put_varint(&mut self, number: u32, value: u64) -> Result<(), OutOfMemory>
        requires some { 1 ≤ number }
        requires few { number ≤ last_number }
        ensures ok { OnOk result (self.new ≡ self.old ++ spelling (varint_item number value)) }
        ensures err { OnErr result (self.new ≡ self.old) }
    {
        let length = self.bytes.len();
        let done = push_varint_field(&mut self.bytes, number, value);
        if done.is_err() {
            self.bytes.truncate(length);
        }
        done
    }

    /// Writes a block: bytes, a text, or the payload of a message in a message. Out of memory
    /// leaves what was written before.
    pub fn put_block(&mut self, number: u32, bytes: &[u8]) -> Result<(), OutOfMemory>
        requires some { 1 ≤ number }
        requires few { number ≤ last_number }
        ensures ok { OnOk result (self.new ≡ self.old ++ spelling (block_item number bytes.now)) }
        ensures err { OnErr result (self.new ≡ self.old) }
    {
        let length = self.bytes.len();
        let done = push_block_field(&mut self.bytes, number, bytes);
        if done.is_err() {
            self.bytes.truncate(length);
        }
        done
    }

    /// The payload that was written, without a copy.
    pub fn finish(self) -> Octets
        ensures { result ≡ self }
    {
        Octets::from_vec(self.bytes)
    }
}
