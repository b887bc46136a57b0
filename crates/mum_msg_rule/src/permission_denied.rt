//! PermissionDenied: what a user asked for is denied.

use mum_base::{OutOfMemory, Text};
use mum_fields::{
    FieldShape, Length, Message, MessageFault, Placed, Writer, field, set_text, set_varint, survey,
};
use std::alloc::Global;

/// Mumble.proto, message PermissionDenied.
#[derive(Debug, Drop)]
pub struct PermissionDenied {
    /// The permission that is denied, where `kind` is 1.
    pub permission: Option<u32>,
    /// The channel on which it is denied, where `kind` is 1.
    pub channel_id: Option<u32>,
    /// The session of the user who is denied.
    pub session: Option<u32>,
    /// The reason as a text, for people.
    pub reason: Option<Text>,
    /// The type of the denial, which Mumble.proto calls `type`: 1 is a permission, and 0 is another
    /// reason, given by `reason`.
    pub kind: Option<u32>,
    /// The name that is invalid.
    pub name: Option<Text>,
}

// The fields in the words of Mumble.proto.
const FIELDS: [FieldShape; 6] = [
    field!(optional uint32 = 1),
    field!(optional uint32 = 2),
    field!(optional uint32 = 3),
    field!(optional string = 4),
    field!(optional uint32 = 5),
    field!(optional string = 6),
];

impl Message for PermissionDenied {
    ghost use Rattle.mum_msg_rule.specs.Messages.{permission_denied};
    ghost use Rattle.mum_msg_rule.specs.Parts.{permission_denied_told};

    ghost rows = { permission_denied };

    fn new(_alloc: Global) -> PermissionDenied {
        PermissionDenied {
            permission: None,
            channel_id: None,
            session: None,
            reason: None,
            kind: None,
            name: None,
        }
    }

    fn take(&mut self, alloc: Global, placed: &Placed<'_>) -> Result<(), MessageFault> {
        set_varint(&mut self.permission, 1, placed);
        set_varint(&mut self.channel_id, 2, placed);
        set_varint(&mut self.session, 3, placed);
        set_text(alloc, &mut self.reason, 4, placed)?;
        set_varint(&mut self.kind, 5, placed);
        set_text(alloc, &mut self.name, 6, placed)?;
        Ok(())
    }

    fn put(&self, mut writer: Writer) -> Result<Writer, OutOfMemory> {
        writer.put_number(1, &self.permission)?;
        writer.put_number(2, &self.channel_id)?;
        writer.put_number(3, &self.session)?;
        writer.put_text(4, &self.reason)?;
        writer.put_number(5, &self.kind)?;
        writer.put_text(6, &self.name)?;
        Ok(writer)
    }

    fn length(&self) -> u64 {
        Length::new()
            .number(1, &self.permission)
            .number(2, &self.channel_id)
            .number(3, &self.session)
            .text(4, &self.reason)
            .number(5, &self.kind)
            .text(6, &self.name)
            .total()
    }

    fn survey(payload: &[u8]) -> Result<u64, MessageFault> {
        survey(&FIELDS, payload)
    }

    ghost use Rattle.std.specs.Prelude.{refl};

    ghost in_order = { refl };

    ghost told_by_parts = { permission_denied_told };
}
