//! ServerSync: the server has sent a new client all channels and users.

use mum_base::{OutOfMemory, Text};
use mum_fields::{
    FieldShape, Length, Message, MessageFault, Placed, Writer, field, set_text, set_varint, survey,
};
use std::alloc::Global;

/// Mumble.proto, message ServerSync.
#[derive(Debug, Drop)]
pub struct ServerSync {
    /// The session of the new user.
    pub session: Option<u32>,
    /// The greatest bandwidth that the user may take, in bits a second.
    pub max_bandwidth: Option<u32>,
    /// The text that greets the user.
    pub welcome_text: Option<Text>,
    /// The bits of the user's permissions on the root channel.
    pub permissions: Option<u64>,
}

// The fields in the words of Mumble.proto.
const FIELDS: [FieldShape; 4] = [
    field!(optional uint32 = 1),
    field!(optional uint32 = 2),
    field!(optional string = 3),
    field!(optional uint64 = 4),
];

impl Message for ServerSync {
    ghost use Rattle.mum_msg_state.specs.Messages.{server_sync};
    ghost use Rattle.mum_msg_state.specs.Parts.{server_sync_told};

    ghost rows = { server_sync };

    fn new(_alloc: Global) -> ServerSync {
        ServerSync {
            session: None,
            max_bandwidth: None,
            welcome_text: None,
            permissions: None,
        }
    }

    fn take(&mut self, alloc: Global, placed: &Placed<'_>) -> Result<(), MessageFault> {
        set_varint(&mut self.session, 1, placed);
        set_varint(&mut self.max_bandwidth, 2, placed);
        set_text(alloc, &mut self.welcome_text, 3, placed)?;
        set_varint(&mut self.permissions, 4, placed);
        Ok(())
    }

    fn put(&self, mut writer: Writer) -> Result<Writer, OutOfMemory> {
        writer.put_number(1, &self.session)?;
        writer.put_number(2, &self.max_bandwidth)?;
        writer.put_text(3, &self.welcome_text)?;
        writer.put_number(4, &self.permissions)?;
        Ok(writer)
    }

    fn length(&self) -> u64 {
        Length::new()
            .number(1, &self.session)
            .number(2, &self.max_bandwidth)
            .text(3, &self.welcome_text)
            .number(4, &self.permissions)
            .total()
    }

    fn survey(payload: &[u8]) -> Result<u64, MessageFault> {
        survey(&FIELDS, payload)
    }

    ghost use Rattle.std.specs.Prelude.{refl};

    ghost in_order = { refl };

    ghost told_by_parts = { server_sync_told };
}
