//! Reject: the server lets a client not in.

use mum_base::{OutOfMemory, Text};
use mum_fields::{
    FieldShape, Length, Message, MessageFault, Placed, Writer, field, set_text, set_varint, survey,
};
use std::alloc::Global;

/// Mumble.proto, message Reject.
#[derive(Debug, Drop)]
pub struct Reject {
    /// Why, as a number of RejectType; the field `type` of Mumble.proto.
    pub kind: Option<u32>,
    /// Why, for people.
    pub reason: Option<Text>,
}

// The fields in the words of Mumble.proto.
const FIELDS: [FieldShape; 2] = [field!(optional uint32 = 1), field!(optional string = 2)];

impl Message for Reject {
    ghost use Rattle.mum_msg_state.specs.Messages.{reject};
    ghost use Rattle.mum_msg_state.specs.Parts.{reject_told};

    ghost rows = { reject };

    fn new(_alloc: Global) -> Reject {
        Reject {
            kind: None,
            reason: None,
        }
    }

    fn take(&mut self, alloc: Global, placed: &Placed<'_>) -> Result<(), MessageFault> {
        set_varint(&mut self.kind, 1, placed);
        set_text(alloc, &mut self.reason, 2, placed)?;
        Ok(())
    }

    fn put(&self, mut writer: Writer) -> Result<Writer, OutOfMemory> {
        writer.put_number(1, &self.kind)?;
        writer.put_text(2, &self.reason)?;
        Ok(writer)
    }

    fn length(&self) -> u64 {
        Length::new()
            .number(1, &self.kind)
            .text(2, &self.reason)
            .total()
    }

    fn survey(payload: &[u8]) -> Result<u64, MessageFault> {
        survey(&FIELDS, payload)
    }

    ghost use Rattle.std.specs.Prelude.{refl};

    ghost in_order = { refl };

    ghost told_by_parts = { reject_told };
}
