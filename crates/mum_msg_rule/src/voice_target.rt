//! VoiceTarget: a client registers or clears a voice target.

use crate::target_block::{self, TargetBlock};
use mum_base::{Items, OutOfMemory};
use mum_fields::{
    BlocksShape, Length, Message, MessageFault, Placed, Shape, Writer, add_message, field,
    set_varint, survey,
};
use std::alloc::Global;

/// Mumble.proto, message VoiceTarget.
#[derive(Debug, Drop)]
pub struct VoiceTarget {
    /// The number of the voice target, 1 to 30; 0 is normal talking.
    pub id: Option<u32>,
    /// The receivers that it includes.
    pub targets: Items<TargetBlock>,
}

impl Message for VoiceTarget {
    ghost use Rattle.mum_msg_rule.specs.Messages.{voice_target};
    ghost use Rattle.mum_msg_rule.specs.Parts.{voice_target_told};

    ghost rows = { voice_target };

    fn new(alloc: Global) -> VoiceTarget {
        VoiceTarget {
            id: None,
            targets: Items::new(alloc),
        }
    }

    fn take(&mut self, alloc: Global, placed: &Placed<'_>) -> Result<(), MessageFault> {
        set_varint(&mut self.id, 1, placed);
        add_message(alloc, &mut self.targets, 2, placed)?;
        Ok(())
    }

    fn put(&self, mut writer: Writer) -> Result<Writer, OutOfMemory> {
        writer.put_number(1, &self.id)?;
        writer.put_each_message(2, &self.targets)?;
        Ok(writer)
    }

    fn length(&self) -> u64 {
        Length::new()
            .number(1, &self.id)
            .each_message(2, &self.targets)
            .total()
    }

    fn survey(payload: &[u8]) -> Result<u64, MessageFault> {
        survey(
            &[
                Shape::Field(field!(optional uint32 = 1)),
                Shape::Blocks(BlocksShape {
                    number: 2,
                    inside: &target_block::FIELDS,
                }),
            ],
            payload,
        )
    }

    ghost use Rattle.std.specs.Prelude.{refl};

    ghost in_order = { refl };

    ghost told_by_parts = { voice_target_told };
}
