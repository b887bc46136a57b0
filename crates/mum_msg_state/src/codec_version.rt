//! CodecVersion: which codecs the users of the server are to speak.

use mum_base::OutOfMemory;
use mum_fields::{
    FieldShape, Length, Message, MessageFault, Placed, Writer, field, set_varint, survey,
};
use std::alloc::Global;

/// Mumble.proto, message CodecVersion.
#[derive(Debug, Drop)]
pub struct CodecVersion {
    /// The first version of CELT.
    pub alpha: Option<i32>,
    /// The second version of CELT.
    pub beta: Option<i32>,
    /// Whether the first one is to be used.
    pub prefer_alpha: Option<bool>,
    /// Whether Opus is to be used.
    pub opus: Option<bool>,
}

// The fields in the words of Mumble.proto.
const FIELDS: [FieldShape; 4] = [
    field!(required int32 = 1),
    field!(required int32 = 2),
    field!(required bool = 3),
    field!(optional bool = 4),
];

impl Message for CodecVersion {
    ghost use Rattle.mum_msg_state.specs.Messages.{codec_version};
    ghost use Rattle.mum_msg_state.specs.Parts.{codec_version_told};

    ghost rows = { codec_version };

    fn new(_alloc: Global) -> CodecVersion {
        CodecVersion {
            alpha: None,
            beta: None,
            prefer_alpha: None,
            opus: None,
        }
    }

    fn take(&mut self, _alloc: Global, placed: &Placed<'_>) -> Result<(), MessageFault> {
        set_varint(&mut self.alpha, 1, placed);
        set_varint(&mut self.beta, 2, placed);
        set_varint(&mut self.prefer_alpha, 3, placed);
        set_varint(&mut self.opus, 4, placed);
        Ok(())
    }

    fn put(&self, mut writer: Writer) -> Result<Writer, OutOfMemory> {
        writer.put_number(1, &self.alpha)?;
        writer.put_number(2, &self.beta)?;
        writer.put_number(3, &self.prefer_alpha)?;
        writer.put_number(4, &self.opus)?;
        Ok(writer)
    }

    fn length(&self) -> u64 {
        Length::new()
            .number(1, &self.alpha)
            .number(2, &self.beta)
            .number(3, &self.prefer_alpha)
            .number(4, &self.opus)
            .total()
    }

    fn survey(payload: &[u8]) -> Result<u64, MessageFault> {
        survey(&FIELDS, payload)
    }

    ghost use Rattle.std.specs.Prelude.{refl};

    ghost in_order = { refl };

    ghost told_by_parts = { codec_version_told };
}
