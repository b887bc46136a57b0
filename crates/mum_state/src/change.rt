//! Edits of several parts, as the tree and the roster take them.

ghost use Rattle.std.specs.Prelude.{◌≡◌};
ghost use Rattle.std.specs.Option.{option_copied, option_map};
ghost use Rattle.mum_tree.specs.Change.{change_of};
ghost use Rattle.mum_users.specs.Edit.{user_edit_of};
ghost use Rattle.mum_state.specs.Parts.{channel_change, user_change};

use crate::edit::Edit;
use mum_base::{Octets, Text};
use mum_tree::ChannelChange;
use mum_users::{FlagChange, UserChange};

fn str_of(text: &Option<Text>) -> Option<&str>
    ensures { option_copied result ≡ text.now }
{
    match text {
        Some(text) => Some(text.as_str()),
        None => None,
    }
}

fn bytes_of(octets: &Option<Octets>) -> Option<&[u8]>
    ensures { option_copied result ≡ octets.now }
{
    match octets {
        Some(octets) => Some(octets.as_slice()),
        None => None,
    }
}

// What becomes another of the channel that an edit changes, without a copy.
pub(crate) fn channel_change(edit: &Edit) -> Option<ChannelChange<'_>>
    ensures { option_map change_of result ≡ channel_change edit.now }
{
    match *edit {
        Edit::EditChannel {
            ref name,
            parent,
            ref description,
            position,
            max_users,
            ref links_add,
            ref links_remove,
            ..
        } => Some(ChannelChange {
            name: str_of(name),
            parent,
            description: description.as_ref(),
            position,
            max_users,
            links_add: links_add.as_slice(),
            links_remove: links_remove.as_slice(),
        }),
        _ => None,
    }
}

// What becomes another of the session that an edit changes, without a copy.
pub(crate) fn user_change(edit: &Edit) -> Option<UserChange<'_>>
    ensures { option_map user_edit_of result ≡ user_change edit.now }
{
    match *edit {
        Edit::SetUser {
            channel,
            mute,
            deaf,
            priority,
            self_mute,
            self_deaf,
            recording,
            ref comment,
            ref context,
            ref listen,
            ref unlisten,
            ..
        } => Some(UserChange {
            channel,
            flags: FlagChange {
                mute,
                deaf,
                suppress: None,
                self_mute,
                self_deaf,
                priority,
                recording,
            },
            comment: comment.as_ref(),
            context: bytes_of(context),
            listen: listen.as_slice(),
            unlisten,
        }),
        _ => None,
    }
}
