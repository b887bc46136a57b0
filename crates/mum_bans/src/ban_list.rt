//! BanList: the bans of the server as they are or are to be, or a query for them.

ghost use Rattle.std.specs.Prelude.{◌≡◌, IfOk, IsOk, is_ok};
ghost use Rattle.std.specs.List.{list_all};
ghost use Rattle.mum_bans.specs.Limits.{is_sound_entry, is_sound_list};
ghost use Rattle.mum_bans.specs.Parts.{list_in};

use crate::ban_entry::{self, BanEntry};
use crate::limits::BAN_LIMIT;
use mum_base::{Items, OutOfMemory};
use mum_fields::{
    BlocksShape, Length, Message, MessageFault, Placed, Shape, Writer, add_message, field,
    set_varint, survey,
};
use std::alloc::Global;

/// Mumble.proto, message BanList.
#[derive(Debug, Drop)]
pub struct BanList {
    /// The bans in their order.
    pub bans: Items<BanEntry>,
    /// Whether this asks for the bans, and sets none; false where it is not set.
    pub query: Option<bool>,
}

impl Message for BanList {
    ghost use Rattle.mum_bans.specs.Messages.{ban_list};
    ghost use Rattle.mum_bans.specs.Parts.{ban_list_told};

    ghost rows = { ban_list };

    fn new(alloc: Global) -> BanList {
        BanList {
            bans: Items::new(alloc),
            query: None,
        }
    }

    fn take(&mut self, alloc: Global, placed: &Placed<'_>) -> Result<(), MessageFault> {
        add_message(alloc, &mut self.bans, 1, placed)?;
        set_varint(&mut self.query, 2, placed);
        Ok(())
    }

    fn put(&self, mut writer: Writer) -> Result<Writer, OutOfMemory> {
        writer.put_each_message(1, &self.bans)?;
        writer.put_number(2, &self.query)?;
        Ok(writer)
    }

    fn length(&self) -> u64 {
        Length::new()
            .each_message(1, &self.bans)
            .number(2, &self.query)
            .total()
    }

    fn survey(payload: &[u8]) -> Result<u64, MessageFault> {
        survey(
            &[
                Shape::Blocks(BlocksShape {
                    number: 1,
                    inside: &ban_entry::FIELDS,
                }),
                Shape::Field(field!(optional bool = 2)),
            ],
            payload,
        )
    }

    ghost use Rattle.std.specs.Prelude.{refl};

    ghost in_order = { refl };

    ghost told_by_parts = { ban_list_told };
}

impl BanList {
    // Whether the payload is a list. It takes no memory.
    pub(crate) fn is_list(payload: &[u8]) -> bool
        ensures { result ≡ is_ok (list_in payload.now) }
    {
        BanList::survey(payload).is_ok()
    }

    // The list that the payload is.
    pub(crate) fn read(alloc: Global, payload: &[u8]) -> Result<BanList, OutOfMemory>
        requires { IsOk (list_in payload.now) }
        ensures { IfOk result (λ list. list_in payload.now ≡ Ok list) }
    {
        Ok(BanList::decode_surveyed(alloc, payload)?)
    }

    // Whether bans may be as this list asks: not too many, and each of them.
    pub(crate) fn is_sound(&self) -> bool
        ensures { result ≡ is_sound_list self.now }
    {
        let entries = self.bans.as_slice();
        entries.len() <= BAN_LIMIT && are_sound(entries)
    }
}

// Whether bans may be as these entries ask.
fn are_sound(entries: &[BanEntry]) -> bool
    ensures { result ≡ list_all is_sound_entry entries.now }
{
    entries.iter().all(|entry| entry.is_sound())
}
