//! A ban, in a block of a BanList.

ghost use Rattle.std.specs.Prelude.{◌≡◌, [], length, unwrap_or};
ghost use Rattle.mum_bans.specs.Limits.{is_sound_entry, is_short};

use crate::limits::{ADDRESS_LENGTH, BAN_TEXT_LIMIT, MASK_LIMIT};
use mum_base::{Octets, OutOfMemory, Text};
use mum_fields::{
    FieldShape, Length, Message, MessageFault, Placed, Writer, field, set_block, set_text,
    set_varint, survey,
};
use std::alloc::Global;

/// Mumble.proto, message BanList.BanEntry. Its field `start`, a date as a text, is not read and not
/// written: a ban starts by the clock of the server.
#[derive(Debug, Drop)]
pub struct BanEntry {
    /// The address of 16 bytes.
    pub address: Option<Octets>,
    /// How many bits of the address are compared.
    pub mask: Option<u32>,
    /// The name of who was banned.
    pub name: Option<Text>,
    /// The hash of the certificate of who was banned.
    pub hash: Option<Text>,
    /// Why.
    pub reason: Option<Text>,
    /// For how many seconds; 0, also where it is not set, is without end.
    pub duration: Option<u32>,
}

/// The fields in the words of Mumble.proto.
pub const FIELDS: [FieldShape; 6] = [
    field!(required bytes = 1),
    field!(required uint32 = 2),
    field!(optional string = 3),
    field!(optional string = 4),
    field!(optional string = 5),
    field!(optional uint32 = 7),
];

impl Message for BanEntry {
    ghost use Rattle.mum_bans.specs.Messages.{ban_entry};
    ghost use Rattle.mum_bans.specs.Parts.{ban_entry_told};

    ghost rows = { ban_entry };

    fn new(_alloc: Global) -> BanEntry {
        BanEntry {
            address: None,
            mask: None,
            name: None,
            hash: None,
            reason: None,
            duration: None,
        }
    }

    fn take(&mut self, alloc: Global, placed: &Placed<'_>) -> Result<(), MessageFault> {
        set_block(alloc, &mut self.address, 1, placed)?;
        set_varint(&mut self.mask, 2, placed);
        set_text(alloc, &mut self.name, 3, placed)?;
        set_text(alloc, &mut self.hash, 4, placed)?;
        set_text(alloc, &mut self.reason, 5, placed)?;
        set_varint(&mut self.duration, 7, placed);
        Ok(())
    }

    fn put(&self, mut writer: Writer) -> Result<Writer, OutOfMemory> {
        writer.put_octets(1, &self.address)?;
        writer.put_number(2, &self.mask)?;
        writer.put_text(3, &self.name)?;
        writer.put_text(4, &self.hash)?;
        writer.put_text(5, &self.reason)?;
        writer.put_number(7, &self.duration)?;
        Ok(writer)
    }

    fn length(&self) -> u64 {
        Length::new()
            .octets(1, &self.address)
            .number(2, &self.mask)
            .text(3, &self.name)
            .text(4, &self.hash)
            .text(5, &self.reason)
            .number(7, &self.duration)
            .total()
    }

    fn survey(payload: &[u8]) -> Result<u64, MessageFault> {
        survey(&FIELDS, payload)
    }

    ghost use Rattle.std.specs.Prelude.{refl};

    ghost in_order = { refl };

    ghost told_by_parts = { ban_entry_told };
}

// Whether a text has no more bytes than one of a ban may have.
fn is_short(text: &Option<Text>) -> bool
    ensures { result ≡ is_short (unwrap_or text.now []) }
{
    Text::or_empty(text).len() <= BAN_TEXT_LIMIT
}

// How many bytes an address has.
fn octet_count(octets: &Option<Octets>) -> usize
    ensures { result ≡ length (unwrap_or octets.now []) }
{
    match octets {
        Some(octets) => octets.as_slice().len(),
        None => 0,
    }
}

impl BanEntry {
    // Whether a ban may be as this entry asks.
    pub(crate) fn is_sound(&self) -> bool
        ensures { result ≡ is_sound_entry self.now }
    {
        octet_count(&self.address) == ADDRESS_LENGTH
            && self.mask.unwrap_or(0) <= u32::from(MASK_LIMIT)
            && is_short(&self.name)
            && is_short(&self.hash)
            && is_short(&self.reason)
    }
}
