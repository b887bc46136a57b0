//! UserState: a user is new or changed, or is to be.

use mum_base::{Items, Octets, OutOfMemory, Text};
use mum_fields::{
    FieldShape, Length, Message, MessageFault, Placed, Writer, add_numbers, add_text, field,
    set_block, set_text, set_varint, survey,
};
use std::alloc::Global;

/// Mumble.proto, message UserState.
#[derive(Debug, Drop)]
pub struct UserState {
    /// The session of the user.
    pub session: Option<u32>,
    /// The session that makes the change.
    pub actor: Option<u32>,
    /// The user's name.
    pub name: Option<Text>,
    /// The user's account.
    pub user_id: Option<u32>,
    /// The channel that the user is in.
    pub channel_id: Option<u32>,
    /// Whether others have muted the user.
    pub mute: Option<bool>,
    /// Whether others have deafened the user.
    pub deaf: Option<bool>,
    /// Whether the channel lets the user not speak.
    pub suppress: Option<bool>,
    /// Whether the user is muted by the user's own wish.
    pub self_mute: Option<bool>,
    /// Whether the user is deaf by the user's own wish.
    pub self_deaf: Option<bool>,
    /// Where the user is in a game; users of one context hear each other's positions.
    pub plugin_context: Option<Octets>,
    /// Who the user is in a game.
    pub plugin_identity: Option<Text>,
    /// The user's comment.
    pub comment: Option<Text>,
    /// Whether others are softer while the user speaks.
    pub priority_speaker: Option<bool>,
    /// Whether the user records.
    pub recording: Option<bool>,
    /// Access tokens for this change alone.
    pub temporary_access_tokens: Items<Text>,
    /// Channels that the user listens to from now on.
    pub listening_channel_add: Items<u32>,
    /// Channels that the user listens to no longer.
    pub listening_channel_remove: Items<u32>,
}

// The fields in the words of Mumble.proto.
const FIELDS: [FieldShape; 18] = [
    field!(optional uint32 = 1),
    field!(optional uint32 = 2),
    field!(optional string = 3),
    field!(optional uint32 = 4),
    field!(optional uint32 = 5),
    field!(optional bool = 6),
    field!(optional bool = 7),
    field!(optional bool = 8),
    field!(optional bool = 9),
    field!(optional bool = 10),
    field!(optional bytes = 12),
    field!(optional string = 13),
    field!(optional string = 14),
    field!(optional bool = 18),
    field!(optional bool = 19),
    field!(repeated string = 20),
    field!(repeated uint32 = 21),
    field!(repeated uint32 = 22),
];

impl Message for UserState {
    ghost use Rattle.mum_msg_state.specs.Messages.{user_state};
    ghost use Rattle.mum_msg_state.specs.Parts.{user_state_told};

    ghost rows = { user_state };

    fn new(alloc: Global) -> UserState {
        UserState {
            session: None,
            actor: None,
            name: None,
            user_id: None,
            channel_id: None,
            mute: None,
            deaf: None,
            suppress: None,
            self_mute: None,
            self_deaf: None,
            plugin_context: None,
            plugin_identity: None,
            comment: None,
            priority_speaker: None,
            recording: None,
            temporary_access_tokens: Items::new(alloc),
            listening_channel_add: Items::new(alloc),
            listening_channel_remove: Items::new(alloc),
        }
    }

    fn take(&mut self, alloc: Global, placed: &Placed<'_>) -> Result<(), MessageFault> {
        set_varint(&mut self.session, 1, placed);
        set_varint(&mut self.actor, 2, placed);
        set_text(alloc, &mut self.name, 3, placed)?;
        set_varint(&mut self.user_id, 4, placed);
        set_varint(&mut self.channel_id, 5, placed);
        set_varint(&mut self.mute, 6, placed);
        set_varint(&mut self.deaf, 7, placed);
        set_varint(&mut self.suppress, 8, placed);
        set_varint(&mut self.self_mute, 9, placed);
        set_varint(&mut self.self_deaf, 10, placed);
        set_block(alloc, &mut self.plugin_context, 12, placed)?;
        set_text(alloc, &mut self.plugin_identity, 13, placed)?;
        set_text(alloc, &mut self.comment, 14, placed)?;
        set_varint(&mut self.priority_speaker, 18, placed);
        set_varint(&mut self.recording, 19, placed);
        add_text(alloc, &mut self.temporary_access_tokens, 20, placed)?;
        add_numbers(&mut self.listening_channel_add, 21, placed)?;
        add_numbers(&mut self.listening_channel_remove, 22, placed)?;
        Ok(())
    }

    fn put(&self, mut writer: Writer) -> Result<Writer, OutOfMemory> {
        writer.put_number(1, &self.session)?;
        writer.put_number(2, &self.actor)?;
        writer.put_text(3, &self.name)?;
        writer.put_number(4, &self.user_id)?;
        writer.put_number(5, &self.channel_id)?;
        writer.put_number(6, &self.mute)?;
        writer.put_number(7, &self.deaf)?;
        writer.put_number(8, &self.suppress)?;
        writer.put_number(9, &self.self_mute)?;
        writer.put_number(10, &self.self_deaf)?;
        writer.put_octets(12, &self.plugin_context)?;
        writer.put_text(13, &self.plugin_identity)?;
        writer.put_text(14, &self.comment)?;
        writer.put_number(18, &self.priority_speaker)?;
        writer.put_number(19, &self.recording)?;
        writer.put_each_text(20, &self.temporary_access_tokens)?;
        writer.put_each_number(21, &self.listening_channel_add)?;
        writer.put_each_number(22, &self.listening_channel_remove)?;
        Ok(writer)
    }

    fn length(&self) -> u64 {
        Length::new()
            .number(1, &self.session)
            .number(2, &self.actor)
            .text(3, &self.name)
            .number(4, &self.user_id)
            .number(5, &self.channel_id)
            .number(6, &self.mute)
            .number(7, &self.deaf)
            .number(8, &self.suppress)
            .number(9, &self.self_mute)
            .number(10, &self.self_deaf)
            .octets(12, &self.plugin_context)
            .text(13, &self.plugin_identity)
            .text(14, &self.comment)
            .number(18, &self.priority_speaker)
            .number(19, &self.recording)
            .each_text(20, &self.temporary_access_tokens)
            .each_number(21, &self.listening_channel_add)
            .each_number(22, &self.listening_channel_remove)
            .total()
    }

    fn survey(payload: &[u8]) -> Result<u64, MessageFault> {
        survey(&FIELDS, payload)
    }

    ghost use Rattle.std.specs.Prelude.{refl};

    ghost in_order = { refl };

    ghost told_by_parts = { user_state_told };
}
