//! Version: what each side sends first of itself.

use mum_base::{OutOfMemory, Text};
use mum_fields::{
    FieldShape, Length, Message, MessageFault, Placed, Writer, field, set_text, set_varint, survey,
};
use std::alloc::Global;

/// Mumble.proto, message Version.
#[derive(Debug, Drop)]
pub struct Version {
    /// The version of the protocol: two bytes of the major number, one of the minor, one of the
    /// patch.
    pub version: Option<u32>,
    /// The name of the release.
    pub release: Option<Text>,
    /// The operating system.
    pub os: Option<Text>,
    /// The version of the operating system.
    pub os_version: Option<Text>,
}

// The fields in the words of Mumble.proto.
const FIELDS: [FieldShape; 4] = [
    field!(optional uint32 = 1),
    field!(optional string = 2),
    field!(optional string = 3),
    field!(optional string = 4),
];

impl Message for Version {
    ghost use Rattle.mum_msg_state.specs.Messages.{version};
    ghost use Rattle.mum_msg_state.specs.Parts.{version_told};

    ghost rows = { version };

    fn new(_alloc: Global) -> Version {
        Version {
            version: None,
            release: None,
            os: None,
            os_version: None,
        }
    }

    fn take(&mut self, alloc: Global, placed: &Placed<'_>) -> Result<(), MessageFault> {
        set_varint(&mut self.version, 1, placed);
        set_text(alloc, &mut self.release, 2, placed)?;
        set_text(alloc, &mut self.os, 3, placed)?;
        set_text(alloc, &mut self.os_version, 4, placed)?;
        Ok(())
    }

    fn put(&self, mut writer: Writer) -> Result<Writer, OutOfMemory> {
        writer.put_number(1, &self.version)?;
        writer.put_text(2, &self.release)?;
        writer.put_text(3, &self.os)?;
        writer.put_text(4, &self.os_version)?;
        Ok(writer)
    }

    fn length(&self) -> u64 {
        Length::new()
            .number(1, &self.version)
            .text(2, &self.release)
            .text(3, &self.os)
            .text(4, &self.os_version)
            .total()
    }

    fn survey(payload: &[u8]) -> Result<u64, MessageFault> {
        survey(&FIELDS, payload)
    }

    ghost use Rattle.std.specs.Prelude.{refl};

    ghost in_order = { refl };

    ghost told_by_parts = { version_told };
}
