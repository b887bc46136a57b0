//! A group of a channel, in a block of an ACL message.

use mum_base::{Items, OutOfMemory, Text};
use mum_fields::{
    FieldShape, Length, Message, MessageFault, Placed, Writer, add_numbers, field, set_text,
    set_varint, survey,
};
use std::alloc::Global;

/// Mumble.proto, message ACL.ChanGroup.
#[derive(Debug, Drop)]
pub struct AclGroup {
    /// The name of the group.
    pub name: Option<Text>,
    /// Whether the group is inherited from the parent channel. Not set is kept apart from true and
    /// from false.
    pub inherited: Option<bool>,
    /// Whether its members are inherited from the group of this name in the parent channel; true
    /// where it is not set.
    pub inherit: Option<bool>,
    /// Whether sub channels can inherit it; true where it is not set.
    pub inheritable: Option<bool>,
    /// The accounts that are included on this channel.
    pub add: Items<u32>,
    /// The accounts that are removed on this channel from those that are inherited.
    pub remove: Items<u32>,
    /// The accounts that are inherited.
    pub inherited_members: Items<u32>,
}

/// The fields in the words of Mumble.proto.
pub const FIELDS: [FieldShape; 7] = [
    field!(required string = 1),
    field!(optional bool = 2),
    field!(optional bool = 3),
    field!(optional bool = 4),
    field!(repeated uint32 = 5),
    field!(repeated uint32 = 6),
    field!(repeated uint32 = 7),
];

impl Message for AclGroup {
    ghost use Rattle.mum_msg_rule.specs.Messages.{acl_group};
    ghost use Rattle.mum_msg_rule.specs.Parts.{acl_group_told};

    ghost rows = { acl_group };

    fn new(alloc: Global) -> AclGroup {
        AclGroup {
            name: None,
            inherited: None,
            inherit: None,
            inheritable: None,
            add: Items::new(alloc),
            remove: Items::new(alloc),
            inherited_members: Items::new(alloc),
        }
    }

    fn take(&mut self, alloc: Global, placed: &Placed<'_>) -> Result<(), MessageFault> {
        set_text(alloc, &mut self.name, 1, placed)?;
        set_varint(&mut self.inherited, 2, placed);
        set_varint(&mut self.inherit, 3, placed);
        set_varint(&mut self.inheritable, 4, placed);
        add_numbers(&mut self.add, 5, placed)?;
        add_numbers(&mut self.remove, 6, placed)?;
        add_numbers(&mut self.inherited_members, 7, placed)?;
        Ok(())
    }

    fn put(&self, mut writer: Writer) -> Result<Writer, OutOfMemory> {
        writer.put_text(1, &self.name)?;
        writer.put_number(2, &self.inherited)?;
        writer.put_number(3, &self.inherit)?;
        writer.put_number(4, &self.inheritable)?;
        writer.put_each_number(5, &self.add)?;
        writer.put_each_number(6, &self.remove)?;
        writer.put_each_number(7, &self.inherited_members)?;
        Ok(writer)
    }

    fn length(&self) -> u64 {
        Length::new()
            .text(1, &self.name)
            .number(2, &self.inherited)
            .number(3, &self.inherit)
            .number(4, &self.inheritable)
            .each_number(5, &self.add)
            .each_number(6, &self.remove)
            .each_number(7, &self.inherited_members)
            .total()
    }

    fn survey(payload: &[u8]) -> Result<u64, MessageFault> {
        survey(&FIELDS, payload)
    }

    ghost use Rattle.std.specs.Prelude.{refl};

    ghost in_order = { refl };

    ghost told_by_parts = { acl_group_told };
}
