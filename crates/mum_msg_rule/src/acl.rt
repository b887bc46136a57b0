//! ACL: the groups and the access control list of a channel, as they are or are to be, or a query
//! for them.

use crate::acl_group::{self, AclGroup};
use crate::acl_line::{self, AclLine};
use mum_base::{Items, OutOfMemory};
use mum_fields::{
    BlocksShape, Length, Message, MessageFault, Placed, Shape, Writer, add_message, field,
    set_varint, survey,
};
use std::alloc::Global;

/// Mumble.proto, message ACL.
#[derive(Debug, Drop)]
pub struct Acl {
    /// The channel that the message is about.
    pub channel_id: Option<u32>,
    /// Whether the channel inherits the entries of its parent channel; true where it is not set.
    pub inherit_acls: Option<bool>,
    /// The groups of the channel.
    pub groups: Items<AclGroup>,
    /// The entries of the access control list, in the order in which they are applied.
    pub acls: Items<AclLine>,
    /// Whether this is a query for the list, and sets nothing; false where it is not set.
    pub query: Option<bool>,
}

impl Message for Acl {
    ghost use Rattle.mum_msg_rule.specs.Messages.{acl};
    ghost use Rattle.mum_msg_rule.specs.Parts.{acl_told};

    ghost rows = { acl };

    fn new(alloc: Global) -> Acl {
        Acl {
            channel_id: None,
            inherit_acls: None,
            groups: Items::new(alloc),
            acls: Items::new(alloc),
            query: None,
        }
    }

    fn take(&mut self, alloc: Global, placed: &Placed<'_>) -> Result<(), MessageFault> {
        set_varint(&mut self.channel_id, 1, placed);
        set_varint(&mut self.inherit_acls, 2, placed);
        add_message(alloc, &mut self.groups, 3, placed)?;
        add_message(alloc, &mut self.acls, 4, placed)?;
        set_varint(&mut self.query, 5, placed);
        Ok(())
    }

    fn put(&self, mut writer: Writer) -> Result<Writer, OutOfMemory> {
        writer.put_number(1, &self.channel_id)?;
        writer.put_number(2, &self.inherit_acls)?;
        writer.put_each_message(3, &self.groups)?;
        writer.put_each_message(4, &self.acls)?;
        writer.put_number(5, &self.query)?;
        Ok(writer)
    }

    fn length(&self) -> u64 {
        Length::new()
            .number(1, &self.channel_id)
            .number(2, &self.inherit_acls)
            .each_message(3, &self.groups)
            .each_message(4, &self.acls)
            .number(5, &self.query)
            .total()
    }

    fn survey(payload: &[u8]) -> Result<u64, MessageFault> {
        survey(
            &[
                Shape::Field(field!(required uint32 = 1)),
                Shape::Field(field!(optional bool = 2)),
                Shape::Blocks(BlocksShape {
                    number: 3,
                    inside: &acl_group::FIELDS,
                }),
                Shape::Blocks(BlocksShape {
                    number: 4,
                    inside: &acl_line::FIELDS,
                }),
                Shape::Field(field!(optional bool = 5)),
            ],
            payload,
        )
    }

    ghost use Rattle.std.specs.Prelude.{refl};

    ghost in_order = { refl };

    ghost told_by_parts = { acl_told };
}
