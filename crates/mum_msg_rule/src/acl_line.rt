//! An entry of an access control list, in a block of an ACL message.

use mum_base::{OutOfMemory, Text};
use mum_fields::{
    FieldShape, Length, Message, MessageFault, Placed, Writer, field, set_text, set_varint, survey,
};
use std::alloc::Global;

/// Mumble.proto, message ACL.ChanACL.
#[derive(Debug, Drop)]
pub struct AclLine {
    /// Whether the entry applies to the channel itself; true where it is not set.
    pub apply_here: Option<bool>,
    /// Whether the entry applies to sub channels; true where it is not set.
    pub apply_subs: Option<bool>,
    /// Whether the entry is inherited from the parent channel. Not set is kept apart from true and
    /// from false.
    pub inherited: Option<bool>,
    /// The account that is affected.
    pub user_id: Option<u32>,
    /// The group that is affected, where no account is.
    pub group: Option<Text>,
    /// The permissions that are granted, as a set of bits.
    pub grant: Option<u32>,
    /// The permissions that are denied, as a set of bits.
    pub deny: Option<u32>,
}

/// The fields in the words of Mumble.proto.
pub const FIELDS: [FieldShape; 7] = [
    field!(optional bool = 1),
    field!(optional bool = 2),
    field!(optional bool = 3),
    field!(required_or 5 uint32 = 4),
    field!(optional string = 5),
    field!(optional uint32 = 6),
    field!(optional uint32 = 7),
];

impl Message for AclLine {
    ghost use Rattle.mum_msg_rule.specs.Messages.{acl_line};
    ghost use Rattle.mum_msg_rule.specs.Parts.{acl_line_told};

    ghost rows = { acl_line };

    fn new(_alloc: Global) -> AclLine {
        AclLine {
            apply_here: None,
            apply_subs: None,
            inherited: None,
            user_id: None,
            group: None,
            grant: None,
            deny: None,
        }
    }

    fn take(&mut self, alloc: Global, placed: &Placed<'_>) -> Result<(), MessageFault> {
        set_varint(&mut self.apply_here, 1, placed);
        set_varint(&mut self.apply_subs, 2, placed);
        set_varint(&mut self.inherited, 3, placed);
        set_varint(&mut self.user_id, 4, placed);
        set_text(alloc, &mut self.group, 5, placed)?;
        set_varint(&mut self.grant, 6, placed);
        set_varint(&mut self.deny, 7, placed);
        Ok(())
    }

    fn put(&self, mut writer: Writer) -> Result<Writer, OutOfMemory> {
        writer.put_number(1, &self.apply_here)?;
        writer.put_number(2, &self.apply_subs)?;
        writer.put_number(3, &self.inherited)?;
        writer.put_number(4, &self.user_id)?;
        writer.put_text(5, &self.group)?;
        writer.put_number(6, &self.grant)?;
        writer.put_number(7, &self.deny)?;
        Ok(writer)
    }

    fn length(&self) -> u64 {
        Length::new()
            .number(1, &self.apply_here)
            .number(2, &self.apply_subs)
            .number(3, &self.inherited)
            .number(4, &self.user_id)
            .text(5, &self.group)
            .number(6, &self.grant)
            .number(7, &self.deny)
            .total()
    }

    fn survey(payload: &[u8]) -> Result<u64, MessageFault> {
        survey(&FIELDS, payload)
    }

    ghost use Rattle.std.specs.Prelude.{refl};

    ghost in_order = { refl };

    ghost told_by_parts = { acl_line_told };
}
