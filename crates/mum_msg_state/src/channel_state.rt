//! ChannelState: a channel is new or changed, or is to be.

use mum_base::{Items, OutOfMemory, Text};
use mum_fields::{
    FieldShape, Length, Message, MessageFault, Placed, Writer, add_numbers, field, set_text,
    set_varint, survey,
};
use std::alloc::Global;

/// Mumble.proto, message ChannelState.
#[derive(Debug, Drop)]
pub struct ChannelState {
    /// The channel; a new one has none yet.
    pub channel_id: Option<u32>,
    /// The channel above it.
    pub parent: Option<u32>,
    /// Its name.
    pub name: Option<Text>,
    /// All channels that are linked to it.
    pub links: Items<u32>,
    /// Its description.
    pub description: Option<Text>,
    /// Channels that are linked to it from now on.
    pub links_add: Items<u32>,
    /// Channels that are linked to it no longer.
    pub links_remove: Items<u32>,
    /// Whether it goes with its last member.
    pub temporary: Option<bool>,
    /// Its place among the channels beside it.
    pub position: Option<i32>,
    /// How many users it takes at most; 0 is no limit.
    pub max_users: Option<u32>,
}

// The fields in the words of Mumble.proto.
const FIELDS: [FieldShape; 10] = [
    field!(optional uint32 = 1),
    field!(optional uint32 = 2),
    field!(optional string = 3),
    field!(repeated uint32 = 4),
    field!(optional string = 5),
    field!(repeated uint32 = 6),
    field!(repeated uint32 = 7),
    field!(optional bool = 8),
    field!(optional int32 = 9),
    field!(optional uint32 = 11),
];

impl Message for ChannelState {
    ghost use Rattle.mum_msg_state.specs.Messages.{channel_state};
    ghost use Rattle.mum_msg_state.specs.Parts.{channel_state_told};

    ghost rows = { channel_state };

    fn new(alloc: Global) -> ChannelState {
        ChannelState {
            channel_id: None,
            parent: None,
            name: None,
            links: Items::new(alloc),
            description: None,
            links_add: Items::new(alloc),
            links_remove: Items::new(alloc),
            temporary: None,
            position: None,
            max_users: None,
        }
    }

    fn take(&mut self, alloc: Global, placed: &Placed<'_>) -> Result<(), MessageFault> {
        set_varint(&mut self.channel_id, 1, placed);
        set_varint(&mut self.parent, 2, placed);
        set_text(alloc, &mut self.name, 3, placed)?;
        add_numbers(&mut self.links, 4, placed)?;
        set_text(alloc, &mut self.description, 5, placed)?;
        add_numbers(&mut self.links_add, 6, placed)?;
        add_numbers(&mut self.links_remove, 7, placed)?;
        set_varint(&mut self.temporary, 8, placed);
        set_varint(&mut self.position, 9, placed);
        set_varint(&mut self.max_users, 11, placed);
        Ok(())
    }

    fn put(&self, mut writer: Writer) -> Result<Writer, OutOfMemory> {
        writer.put_number(1, &self.channel_id)?;
        writer.put_number(2, &self.parent)?;
        writer.put_text(3, &self.name)?;
        writer.put_each_number(4, &self.links)?;
        writer.put_text(5, &self.description)?;
        writer.put_each_number(6, &self.links_add)?;
        writer.put_each_number(7, &self.links_remove)?;
        writer.put_number(8, &self.temporary)?;
        writer.put_number(9, &self.position)?;
        writer.put_number(11, &self.max_users)?;
        Ok(writer)
    }

    fn length(&self) -> u64 {
        Length::new()
            .number(1, &self.channel_id)
            .number(2, &self.parent)
            .text(3, &self.name)
            .each_number(4, &self.links)
            .text(5, &self.description)
            .each_number(6, &self.links_add)
            .each_number(7, &self.links_remove)
            .number(8, &self.temporary)
            .number(9, &self.position)
            .number(11, &self.max_users)
            .total()
    }

    fn survey(payload: &[u8]) -> Result<u64, MessageFault> {
        survey(&FIELDS, payload)
    }

    ghost use Rattle.std.specs.Prelude.{refl};

    ghost in_order = { refl };

    ghost told_by_parts = { channel_state_told };
}
