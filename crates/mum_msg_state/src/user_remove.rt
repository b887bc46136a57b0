//! UserRemove: a user leaves, or is to be kicked or banned.

use mum_base::{OutOfMemory, Text};
use mum_fields::{
    FieldShape, Length, Message, MessageFault, Placed, Writer, field, set_text, set_varint, survey,
};
use std::alloc::Global;

/// Mumble.proto, message UserRemove.
#[derive(Debug, Drop)]
pub struct UserRemove {
    /// The session that leaves.
    pub session: Option<u32>,
    /// The session that removes it.
    pub actor: Option<u32>,
    /// Why, for people.
    pub reason: Option<Text>,
    /// Whether the user is banned.
    pub ban: Option<bool>,
}

// The fields in the words of Mumble.proto.
const FIELDS: [FieldShape; 4] = [
    field!(required uint32 = 1),
    field!(optional uint32 = 2),
    field!(optional string = 3),
    field!(optional bool = 4),
];

impl Message for UserRemove {
    ghost use Rattle.mum_msg_state.specs.Messages.{user_remove};
    ghost use Rattle.mum_msg_state.specs.Parts.{user_remove_told};

    ghost rows = { user_remove };

    fn new(_alloc: Global) -> UserRemove {
        UserRemove {
            session: None,
            actor: None,
            reason: None,
            ban: None,
        }
    }

    fn take(&mut self, alloc: Global, placed: &Placed<'_>) -> Result<(), MessageFault> {
        set_varint(&mut self.session, 1, placed);
        set_varint(&mut self.actor, 2, placed);
        set_text(alloc, &mut self.reason, 3, placed)?;
        set_varint(&mut self.ban, 4, placed);
        Ok(())
    }

    fn put(&self, mut writer: Writer) -> Result<Writer, OutOfMemory> {
        writer.put_number(1, &self.session)?;
        writer.put_number(2, &self.actor)?;
        writer.put_text(3, &self.reason)?;
        writer.put_number(4, &self.ban)?;
        Ok(writer)
    }

    fn length(&self) -> u64 {
        Length::new()
            .number(1, &self.session)
            .number(2, &self.actor)
            .text(3, &self.reason)
            .number(4, &self.ban)
            .total()
    }

    fn survey(payload: &[u8]) -> Result<u64, MessageFault> {
        survey(&FIELDS, payload)
    }

    ghost use Rattle.std.specs.Prelude.{refl};

    ghost in_order = { refl };

    ghost told_by_parts = { user_remove_told };
}
