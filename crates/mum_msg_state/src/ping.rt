//! Ping: each side asks now and then whether the other still hears it.

use mum_base::OutOfMemory;
use mum_fields::{
    FieldShape, Length, Message, MessageFault, Placed, Writer, field, set_varint, survey,
};
use std::alloc::Global;

/// Mumble.proto, message Ping. Of its fields only the timestamp is read; a reply repeats it.
#[derive(Debug, Drop)]
pub struct Ping {
    /// The sender's clock, in a unit of its own.
    pub timestamp: Option<u64>,
}

// The fields in the words of Mumble.proto.
const FIELDS: [FieldShape; 1] = [field!(optional uint64 = 1)];

impl Message for Ping {
    ghost use Rattle.mum_msg_state.specs.Messages.{ping};
    ghost use Rattle.mum_msg_state.specs.Parts.{ping_told};

    ghost rows = { ping };

    fn new(_alloc: Global) -> Ping {
        Ping { timestamp: None }
    }

    fn take(&mut self, _alloc: Global, placed: &Placed<'_>) -> Result<(), MessageFault> {
        set_varint(&mut self.timestamp, 1, placed);
        Ok(())
    }

    fn put(&self, mut writer: Writer) -> Result<Writer, OutOfMemory> {
        writer.put_number(1, &self.timestamp)?;
        Ok(writer)
    }

    fn length(&self) -> u64 {
        Length::new().number(1, &self.timestamp).total()
    }

    fn survey(payload: &[u8]) -> Result<u64, MessageFault> {
        survey(&FIELDS, payload)
    }

    ghost use Rattle.std.specs.Prelude.{refl};

    ghost in_order = { refl };

    ghost told_by_parts = { ping_told };
}
