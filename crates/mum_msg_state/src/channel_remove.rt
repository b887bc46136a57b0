//! ChannelRemove: a channel is removed, or is to be.

use mum_base::OutOfMemory;
use mum_fields::{
    FieldShape, Length, Message, MessageFault, Placed, Writer, field, set_varint, survey,
};
use std::alloc::Global;

/// Mumble.proto, message ChannelRemove.
#[derive(Debug, Drop)]
pub struct ChannelRemove {
    /// The channel.
    pub channel_id: Option<u32>,
}

// The fields in the words of Mumble.proto.
const FIELDS: [FieldShape; 1] = [field!(required uint32 = 1)];

impl Message for ChannelRemove {
    ghost use Rattle.mum_msg_state.specs.Messages.{channel_remove};
    ghost use Rattle.mum_msg_state.specs.Parts.{channel_remove_told};

    ghost rows = { channel_remove };

    fn new(_alloc: Global) -> ChannelRemove {
        ChannelRemove { channel_id: None }
    }

    fn take(&mut self, _alloc: Global, placed: &Placed<'_>) -> Result<(), MessageFault> {
        set_varint(&mut self.channel_id, 1, placed);
        Ok(())
    }

    fn put(&self, mut writer: Writer) -> Result<Writer, OutOfMemory> {
        writer.put_number(1, &self.channel_id)?;
        Ok(writer)
    }

    fn length(&self) -> u64 {
        Length::new().number(1, &self.channel_id).total()
    }

    fn survey(payload: &[u8]) -> Result<u64, MessageFault> {
        survey(&FIELDS, payload)
    }

    ghost use Rattle.std.specs.Prelude.{refl};

    ghost in_order = { refl };

    ghost told_by_parts = { channel_remove_told };
}
