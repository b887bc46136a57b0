//! Authenticate: a client asks to be let in under a name.

use mum_base::{Items, OutOfMemory, Text};
use mum_fields::{
    FieldShape, Length, Message, MessageFault, Placed, Writer, add_numbers, add_text, field,
    set_text, set_varint, survey,
};
use std::alloc::Global;

/// Mumble.proto, message Authenticate.
#[derive(Debug, Drop)]
pub struct Authenticate {
    /// The name that the user wants.
    pub username: Option<Text>,
    /// The password of the account or of the server.
    pub password: Option<Text>,
    /// The access tokens of the user.
    pub tokens: Items<Text>,
    /// The versions of CELT that the client can decode.
    pub celt_versions: Items<i32>,
    /// Whether the client can decode Opus.
    pub opus: Option<bool>,
}

// The fields in the words of Mumble.proto.
const FIELDS: [FieldShape; 5] = [
    field!(optional string = 1),
    field!(optional string = 2),
    field!(repeated string = 3),
    field!(repeated int32 = 4),
    field!(optional bool = 5),
];

impl Message for Authenticate {
    ghost use Rattle.mum_msg_state.specs.Messages.{authenticate};
    ghost use Rattle.mum_msg_state.specs.Parts.{authenticate_told};

    ghost rows = { authenticate };

    fn new(alloc: Global) -> Authenticate {
        Authenticate {
            username: None,
            password: None,
            tokens: Items::new(alloc),
            celt_versions: Items::new(alloc),
            opus: None,
        }
    }

    fn take(&mut self, alloc: Global, placed: &Placed<'_>) -> Result<(), MessageFault> {
        set_text(alloc, &mut self.username, 1, placed)?;
        set_text(alloc, &mut self.password, 2, placed)?;
        add_text(alloc, &mut self.tokens, 3, placed)?;
        add_numbers(&mut self.celt_versions, 4, placed)?;
        set_varint(&mut self.opus, 5, placed);
        Ok(())
    }

    fn put(&self, mut writer: Writer) -> Result<Writer, OutOfMemory> {
        writer.put_text(1, &self.username)?;
        writer.put_text(2, &self.password)?;
        writer.put_each_text(3, &self.tokens)?;
        writer.put_each_number(4, &self.celt_versions)?;
        writer.put_number(5, &self.opus)?;
        Ok(writer)
    }

    fn length(&self) -> u64 {
        Length::new()
            .text(1, &self.username)
            .text(2, &self.password)
            .each_text(3, &self.tokens)
            .each_number(4, &self.celt_versions)
            .number(5, &self.opus)
            .total()
    }

    fn survey(payload: &[u8]) -> Result<u64, MessageFault> {
        survey(&FIELDS, payload)
    }

    ghost use Rattle.std.specs.Prelude.{refl};

    ghost in_order = { refl };

    ghost told_by_parts = { authenticate_told };
}
