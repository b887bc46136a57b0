//! Receivers of a voice target, in a block of a VoiceTarget message.

use mum_base::{Items, OutOfMemory, Text};
use mum_fields::{
    FieldShape, Length, Message, MessageFault, Placed, Writer, add_numbers, field, set_text,
    set_varint, survey,
};
use std::alloc::Global;

/// Mumble.proto, message VoiceTarget.Target.
#[derive(Debug, Drop)]
pub struct TargetBlock {
    /// The sessions of the users that are included.
    pub session: Items<u32>,
    /// The channel that is included.
    pub channel_id: Option<u32>,
    /// The group of which users in the channel have to be members, where it is set.
    pub group: Option<Text>,
    /// Whether the voice follows links from the channel; false where it is not set.
    pub links: Option<bool>,
    /// Whether the voice goes to sub channels too; false where it is not set.
    pub children: Option<bool>,
}

/// The fields in the words of Mumble.proto.
pub const FIELDS: [FieldShape; 5] = [
    field!(repeated uint32 = 1),
    field!(optional uint32 = 2),
    field!(optional string = 3),
    field!(optional bool = 4),
    field!(optional bool = 5),
];

impl Message for TargetBlock {
    ghost use Rattle.mum_msg_rule.specs.Messages.{target_block};
    ghost use Rattle.mum_msg_rule.specs.Parts.{target_block_told};

    ghost rows = { target_block };

    fn new(alloc: Global) -> TargetBlock {
        TargetBlock {
            session: Items::new(alloc),
            channel_id: None,
            group: None,
            links: None,
            children: None,
        }
    }

    fn take(&mut self, alloc: Global, placed: &Placed<'_>) -> Result<(), MessageFault> {
        add_numbers(&mut self.session, 1, placed)?;
        set_varint(&mut self.channel_id, 2, placed);
        set_text(alloc, &mut self.group, 3, placed)?;
        set_varint(&mut self.links, 4, placed);
        set_varint(&mut self.children, 5, placed);
        Ok(())
    }

    fn put(&self, mut writer: Writer) -> Result<Writer, OutOfMemory> {
        writer.put_each_number(1, &self.session)?;
        writer.put_number(2, &self.channel_id)?;
        writer.put_text(3, &self.group)?;
        writer.put_number(4, &self.links)?;
        writer.put_number(5, &self.children)?;
        Ok(writer)
    }

    fn length(&self) -> u64 {
        Length::new()
            .each_number(1, &self.session)
            .number(2, &self.channel_id)
            .text(3, &self.group)
            .number(4, &self.links)
            .number(5, &self.children)
            .total()
    }

    fn survey(payload: &[u8]) -> Result<u64, MessageFault> {
        survey(&FIELDS, payload)
    }

    ghost use Rattle.std.specs.Prelude.{refl};

    ghost in_order = { refl };

    ghost told_by_parts = { target_block_told };
}
