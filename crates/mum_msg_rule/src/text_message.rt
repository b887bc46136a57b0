//! TextMessage: a text goes to users, to channels, or to trees of channels.

use mum_base::{Items, OutOfMemory, Text};
use mum_fields::{
    FieldShape, Length, Message, MessageFault, Placed, Writer, add_numbers, field, set_text,
    set_varint, survey,
};
use std::alloc::Global;

/// Mumble.proto, message TextMessage.
#[derive(Debug, Drop)]
pub struct TextMessage {
    /// The session of the sender.
    pub actor: Option<u32>,
    /// The sessions of the users that it is for.
    pub session: Items<u32>,
    /// The channels that it is for.
    pub channel_id: Items<u32>,
    /// The root channels of the trees that it is for: each of them with all its sub channels.
    pub tree_id: Items<u32>,
    /// The text, which may be HTML.
    pub message: Option<Text>,
}

// The fields in the words of Mumble.proto.
const FIELDS: [FieldShape; 5] = [
    field!(optional uint32 = 1),
    field!(repeated uint32 = 2),
    field!(repeated uint32 = 3),
    field!(repeated uint32 = 4),
    field!(required string = 5),
];

impl Message for TextMessage {
    ghost use Rattle.mum_msg_rule.specs.Messages.{text_message};
    ghost use Rattle.mum_msg_rule.specs.Parts.{text_message_told};

    ghost rows = { text_message };

    fn new(alloc: Global) -> TextMessage {
        TextMessage {
            actor: None,
            session: Items::new(alloc),
            channel_id: Items::new(alloc),
            tree_id: Items::new(alloc),
            message: None,
        }
    }

    fn take(&mut self, alloc: Global, placed: &Placed<'_>) -> Result<(), MessageFault> {
        set_varint(&mut self.actor, 1, placed);
        add_numbers(&mut self.session, 2, placed)?;
        add_numbers(&mut self.channel_id, 3, placed)?;
        add_numbers(&mut self.tree_id, 4, placed)?;
        set_text(alloc, &mut self.message, 5, placed)?;
        Ok(())
    }

    fn put(&self, mut writer: Writer) -> Result<Writer, OutOfMemory> {
        writer.put_number(1, &self.actor)?;
        writer.put_each_number(2, &self.session)?;
        writer.put_each_number(3, &self.channel_id)?;
        writer.put_each_number(4, &self.tree_id)?;
        writer.put_text(5, &self.message)?;
        Ok(writer)
    }

    fn length(&self) -> u64 {
        Length::new()
            .number(1, &self.actor)
            .each_number(2, &self.session)
            .each_number(3, &self.channel_id)
            .each_number(4, &self.tree_id)
            .text(5, &self.message)
            .total()
    }

    fn survey(payload: &[u8]) -> Result<u64, MessageFault> {
        survey(&FIELDS, payload)
    }

    ghost use Rattle.std.specs.Prelude.{refl};

    ghost in_order = { refl };

    ghost told_by_parts = { text_message_told };
}
