//! What each message of a connection that is logged in asks for.

ghost use Rattle.std.specs.Prelude.{◌≡◌, refl};
ghost use Rattle.mum_fields.specs.Table.{Table, Values, layout, parts};
ghost use Rattle.mum_msg_rule.specs.Messages.{acl, permission_query, text_message, voice_target};
ghost use Rattle.mum_msg_rule.specs.Parts.{acl_of, permission_query_of, text_message_of, voice_target_of};
ghost use Rattle.mum_msg_state.specs.Messages.{channel_remove, channel_state, user_remove, user_state};
ghost use Rattle.mum_msg_state.specs.Parts.{channel_remove_of, channel_state_of, user_remove_of, user_state_of};
ghost use Rattle.mum_rules_tree.specs.declared.message.TreeMessage.TheVariants as channels;
ghost use Rattle.mum_rules_user.specs.declared.message.UserMessage.TheVariants as users;
ghost use Rattle.mum_session.specs.declared.command.Asked.{Asked};
ghost use Rattle.mum_session.specs.declared.command.Asked.TheVariants.{Tree, User};

use crate::command::Asked;
use mum_msg_rule::{Acl, PermissionQuery, TextMessage, VoiceTarget};
use mum_msg_state::{ChannelRemove, ChannelState, Message, UserRemove, UserState};
use mum_rules_tree::TreeMessage;
use mum_rules_user::UserMessage;

/// A message that is a command of a connection which is logged in.
pub trait Asks: Message {
    ghost table: { Table Self };

    ghost asked_by: { Values (layout table) → Asked };

    /// What the message asks for.
    fn asked(self) -> Asked
        ensures { result ≡ asked_by (parts table self) };

    ghost own_table: { table ≡ Self.Message.rows };
}

// A channel is to go.
impl Asks for ChannelRemove {
    ghost table = { channel_remove };

    ghost asked_by = { λ values. Tree (channels.Remove (channel_remove_of values)) };

    #[tactic(auto, using(mum_msg_state::specs::Parts::channel_remove_back))]
    fn asked(self) -> Asked {
        Asked::Tree(TreeMessage::Remove(self))
    }

    ghost own_table = { refl };
}

// A channel is to be made or changed.
impl Asks for ChannelState {
    ghost table = { channel_state };

    ghost asked_by = { λ values. Tree (channels.State (channel_state_of values)) };

    #[tactic(auto, using(mum_msg_state::specs::Parts::channel_state_back))]
    fn asked(self) -> Asked {
        Asked::Tree(TreeMessage::State(self))
    }

    ghost own_table = { refl };
}

// The groups and entries of a channel are to be set, or reported.
impl Asks for Acl {
    ghost table = { acl };

    ghost asked_by = { λ values. Tree (channels.Acl (acl_of values)) };

    #[tactic(auto, using(mum_msg_rule::specs::Parts::acl_back))]
    fn asked(self) -> Asked {
        Asked::Tree(TreeMessage::Acl(self))
    }

    ghost own_table = { refl };
}

// A user is to be kicked.
impl Asks for UserRemove {
    ghost table = { user_remove };

    ghost asked_by = { λ values. User (users.Kick (user_remove_of values)) };

    #[tactic(auto, using(mum_msg_state::specs::Parts::user_remove_back))]
    fn asked(self) -> Asked {
        Asked::User(UserMessage::Kick(self))
    }

    ghost own_table = { refl };
}

// A user is to be changed.
impl Asks for UserState {
    ghost table = { user_state };

    ghost asked_by = { λ values. User (users.User (user_state_of values)) };

    fn asked(self) -> Asked {
        Asked::User(UserMessage::User(self))
    }

    ghost own_table = { refl };
}

// A text is to be passed on.
impl Asks for TextMessage {
    ghost table = { text_message };

    ghost asked_by = { λ values. User (users.Text (text_message_of values)) };

    #[tactic(auto, using(mum_msg_rule::specs::Parts::text_message_back))]
    fn asked(self) -> Asked {
        Asked::User(UserMessage::Text(self))
    }

    ghost own_table = { refl };
}

// A voice target is to be set.
impl Asks for VoiceTarget {
    ghost table = { voice_target };

    ghost asked_by = { λ values. User (users.Target (voice_target_of values)) };

    #[tactic(auto, using(mum_msg_rule::specs::Parts::voice_target_back))]
    fn asked(self) -> Asked {
        Asked::User(UserMessage::Target(self))
    }

    ghost own_table = { refl };
}

// The permissions in a channel are to be reported.
impl Asks for PermissionQuery {
    ghost table = { permission_query };

    ghost asked_by = { λ values. User (users.Query (permission_query_of values)) };

    #[tactic(auto, using(mum_msg_rule::specs::Parts::permission_query_back))]
    fn asked(self) -> Asked {
        Asked::User(UserMessage::Query(self))
    }

    ghost own_table = { refl };
}
