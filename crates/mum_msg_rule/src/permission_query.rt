//! PermissionQuery: a client asks for its permissions on a channel, and the server sends them.

use mum_base::OutOfMemory;
use mum_fields::{
    FieldShape, Length, Message, MessageFault, Placed, Writer, field, set_varint, survey,
};
use std::alloc::Global;

/// Mumble.proto, message PermissionQuery.
#[derive(Debug, Drop)]
pub struct PermissionQuery {
    /// The channel that is asked about.
    pub channel_id: Option<u32>,
    /// The permissions of the client there, as a set of bits.
    pub permissions: Option<u32>,
    /// Whether the client should drop what it knows of its permissions, on all channels.
    pub flush: Option<bool>,
}

// The fields in the words of Mumble.proto.
const FIELDS: [FieldShape; 3] = [
    field!(optional uint32 = 1),
    field!(optional uint32 = 2),
    field!(optional bool = 3),
];

impl Message for PermissionQuery {
    ghost use Rattle.mum_msg_rule.specs.Messages.{permission_query};
    ghost use Rattle.mum_msg_rule.specs.Parts.{permission_query_told};

    ghost rows = { permission_query };

    fn new(_alloc: Global) -> PermissionQuery {
        PermissionQuery {
            channel_id: None,
            permissions: None,
            flush: None,
        }
    }

    fn take(&mut self, _alloc: Global, placed: &Placed<'_>) -> Result<(), MessageFault> {
        set_varint(&mut self.channel_id, 1, placed);
        set_varint(&mut self.permissions, 2, placed);
        set_varint(&mut self.flush, 3, placed);
        Ok(())
    }

    fn put(&self, mut writer: Writer) -> Result<Writer, OutOfMemory> {
        writer.put_number(1, &self.channel_id)?;
        writer.put_number(2, &self.permissions)?;
        writer.put_number(3, &self.flush)?;
        Ok(writer)
    }

    fn length(&self) -> u64 {
        Length::new()
            .number(1, &self.channel_id)
            .number(2, &self.permissions)
            .number(3, &self.flush)
            .total()
    }

    fn survey(payload: &[u8]) -> Result<u64, MessageFault> {
        survey(&FIELDS, payload)
    }

    ghost use Rattle.std.specs.Prelude.{refl};

    ghost in_order = { refl };

    ghost told_by_parts = { permission_query_told };
}
