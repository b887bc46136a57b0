//! What all messages share: why a payload is none, what is missing, and how they are read and
//! written.

ghost use Rattle.std.specs.Prelude.{◌≡◌, ◌∷◌, [], ◌++◌, map, OnOk, OnErr, IsOk, IfOk, IfErr, Ok, None, true};
ghost use Rattle.mum_fields.specs.Field.{entry_of};
ghost use Rattle.mum_fields.specs.Payload.{fields};
ghost use Rattle.mum_fields.specs.Message.{Decodes, Gathers, longer, message, messages_of, only, entry_fault, IsFaultOf};
ghost use Rattle.mum_fields.specs.Written.{written};
ghost use Rattle.mum_fields.specs.Table.{Table, ReadsAs, layout, parts, items, rising, rules, no_values, values_after, gathered, lesser, missing, decoded, spelled};
ghost use Rattle.mum_fields.specs.Survey.{size, surveyed};
ghost use Rattle.mum_fields.specs.Typed.{AreTyped};
ghost use Rattle.mum_fields.specs.declared.message.MessageFault.TheVariants.{Field, OutOfMemory};

use crate::fault::FieldFault;
use crate::field::{Placed, Value};
use crate::reader::Reader;
use crate::writer::Writer;
use mum_base::{Items, Octets, OutOfMemory};
use std::alloc::{AllocError, AllocFailed, Global};
use thiserror::Error;

/// Why a payload is no message.
#[derive(Debug, PartialEq, Eq, Drop, Error)]
pub enum MessageFault {
    /// The first fault of its fields, in it or in a block of it.
    #[error("{0}")]
    Field(FieldFault),
    /// Each field is whole, and this is the least required number that is missing, in it or in a
    /// block of it.
    #[error("the field {number} is missing")]
    MissingField { number: u32 },
    #[error("out of memory")]
    OutOfMemory,
}

impl From<FieldFault> for MessageFault {
    ghost from_gives = { λ fault e. e ≡ Field fault };

    fn from(fault: FieldFault) -> MessageFault {
        MessageFault::Field(fault)
    }
}

impl From<AllocError> for MessageFault {
    ghost from_gives = { λ _ e. e ≡ OutOfMemory };

    fn from(_error: AllocError) -> MessageFault {
        MessageFault::OutOfMemory
    }
}

impl MessageFault {
    ghost use Rattle.mum_fields.specs.Message.{message_code};

    /// The number of the fault, 11 to 16. Out of memory has none.
    pub fn code(&self) -> Option<u8>
        ensures { result ≡ message_code self.now }
    {
        match self {
            MessageFault::Field(fault) => Some(fault.code),
            MessageFault::MissingField { .. } => Some(16),
            MessageFault::OutOfMemory => None,
        }
    }
}

/// A message of the protocol, described by the table of its fields. It is its own draft: a decoder begins
/// with one in which nothing is set and hands it each field of the payload.
pub trait Message: Drop {
    ghost rows: { Table Self };

    /// Nothing is set.
    fn new(alloc: Global) -> Self
        ensures { parts rows result ≡ no_values (layout rows) };

    /// Hands one field of a payload to each field of the message. After a refusal those before the
    /// one that refused may have taken it.
    fn take(&mut self, alloc: Global, placed: &Placed<'_>) -> Result<(), MessageFault>
        ensures ok { OnOk result (parts rows self.new
            ≡ values_after (layout rows) (parts rows self.old) (entry_of placed.now ∷ [])) }
        ensures clean { OnOk result (entry_fault (rules (layout rows)) (entry_of placed.now) ≡ None) }
        ensures fault { IfErr result (λ e. IsFaultOf e
            (entry_fault (rules (layout rows)) (entry_of placed.now))) };

    /// Adds each field that is set to a payload, in the order of the numbers.
    fn put(&self, writer: Writer) -> Result<Writer, OutOfMemory>
        ensures ok { IfOk result (λ more. more
            ≡ writer ++ written (items (layout rows) (parts rows self.now))) }
        ensures typed { OnOk result (AreTyped (layout rows) (parts rows self.now)) };

    /// How many bytes this message has as this server encodes it, or 2^64 - 1 where they are more.
    /// It takes no memory.
    fn length(&self) -> u64
        ensures { result ≡ size (items (layout rows) (parts rows self.now)) };

    /// How many bytes the message of a payload has as this server encodes it, or 2^64 - 1 where they
    /// are more; or why the payload is no message. It takes no memory, and copies nothing.
    fn survey(payload: &[u8]) -> Result<u64, MessageFault>
        ensures { result ≡ surveyed rows payload.now };

    ghost in_order: { rising 0 (layout rows) ≡ true };

    // The table misses no field.
    ghost told_by_parts: { (m n : Self) → parts rows m ≡ parts rows n → m ≡ n };

    /// The message that a payload is. A field of another number or wire type is passed over, in
    /// blocks too. A refusal is the first fault of a field with its place in the whole payload;
    /// where each field is whole, it is the least required number that is missing, in the message or
    /// in a block of it; and where nothing is missing, out of memory.
    final fn decode(alloc: Global, payload: &[u8]) -> Result<Self, MessageFault>
        ensures { Decodes (parts rows) result (decoded rows payload.now) }
    {
        Self::survey(payload)?;
        Ok(Self::decode_surveyed(alloc, payload)?)
    }

    /// The message of a payload in which `survey` found no fault. It is not surveyed again, and
    /// nothing is left to fail but memory.
    final fn decode_surveyed(alloc: Global, payload: &[u8]) -> Result<Self, OutOfMemory>
        requires { IsOk (surveyed rows payload.now) }
        ensures { IfOk result (λ message. decoded rows payload.now ≡ Ok (parts rows message)) }
    {
        match gather::<Self>(alloc, Reader::new(payload)) {
            Ok(message) => Ok(message),
            Err(MessageFault::Field(_)) => unreachable!(),
            Err(MessageFault::MissingField { .. }) => unreachable!(),
            Err(MessageFault::OutOfMemory) => Err(AllocError),
        }
    }

    /// The payload of this message: each field that is set, in the order of the numbers, each
    /// element of a list as a field of its own, and each message of a list in a block of its own. It
    /// is read back as this message where no required field is missing, in it or in a block of it.
    final fn encode(&self, alloc: Global) -> Result<Octets, OutOfMemory>
        ensures written { IfOk result (λ octets. octets ≡ spelled rows self.now) }
        ensures read_back { IfOk result (λ octets. missing (layout rows) (parts rows self.now) ≡ None
            → ReadsAs rows octets self.now) }
    {
        Ok(self.put(Writer::new(alloc))?.finish())
    }
}

// Gathers the fields that are left into a message, in one pass; each text is copied once.
fn gather<M: Message>(alloc: Global, mut reader: Reader<'_>) -> Result<M, MessageFault>
    ensures { Gathers (parts M.rows) result (gathered (layout M.rows) (fields reader.entry)) }
{
    let mut message = M::new(alloc);
    while let Some(placed) = reader.next_placed()? {
        message.take(alloc, &placed)?;
    }
    Ok(message)
}

/// One more message of a list: a block of this number. A fault inside the block is reported by its
/// place in the whole payload; what is missing in the block is no fault here.
pub fn add_message<M: Message>(
    alloc: Global,
    list: &mut Items<M>,
    number: u32,
    placed: &Placed<'_>,
) -> Result<(), MessageFault>
    ensures ok { OnOk result (map (parts M.rows) list.new
        ≡ longer (messages_of (values_after (layout M.rows) (no_values (layout M.rows)))) number
        (map (parts M.rows) list.old) (entry_of placed.now)) }
    ensures clean { OnOk result
        (entry_fault (only number (message (rules (layout M.rows)))) (entry_of placed.now) ≡ None) }
    ensures fault { IfErr result (λ e. IsFaultOf e
        (entry_fault (only number (message (rules (layout M.rows)))) (entry_of placed.now))) }
    ensures err { OnErr result (list.new ≡ list.old) }
{
    if placed.field.number == number {
        if let Value::Block(block) = placed.field.value {
            list.push(gather::<M>(alloc, Reader::within(block, placed.at))?)?;
        }
    }
    Ok(())
}

/// The lesser of two numbers, or the one that there is.
pub fn lesser(number: Option<u32>, other: Option<u32>) -> Option<u32>
    ensures { result ≡ lesser number other }
{
    match (number, other) {
        (Some(number), Some(other)) => Some(number.min(other)),
        (Some(number), None) => Some(number),
        (None, other) => other,
    }
}
