//! Kinds of edits.

ghost use Rattle.std.specs.Prelude.{◌≡◌};
ghost use Rattle.mum_state.specs.Followed.{may_renew};
ghost use Rattle.mum_state.specs.Kinds.{changes_channels, changes_paths, changes_routes, is_of_configuration, sets_policy};

use crate::edit::Edit;

// Whether it is an edit of channels or of their policies.
pub(crate) fn changes_channels(edit: &Edit) -> bool
    ensures { result ≡ changes_channels edit.now }
{
    match edit {
        Edit::MakeChannel { .. }
        | Edit::EditChannel { .. }
        | Edit::RemoveChannel { .. }
        | Edit::SetAcl { .. } => true,
        _ => false,
    }
}

// Whether it may be that a session joins, enters another channel, or has its tokens set.
pub(crate) fn may_renew(edit: &Edit) -> bool
    ensures { result ≡ may_renew edit.now }
{
    match edit {
        Edit::Join { .. }
        | Edit::SetTokens { .. }
        | Edit::SetUser { .. }
        | Edit::MakeChannel { .. }
        | Edit::RemoveChannel { .. } => true,
        _ => false,
    }
}

// Whether it is a configuration's, and no session's.
pub(crate) fn is_of_configuration(edit: &Edit) -> bool
    ensures { result ≡ is_of_configuration edit.now }
{
    match *edit {
        Edit::SetServer { .. }
        | Edit::SetLimits { .. }
        | Edit::AddAccount { .. }
        | Edit::MakeChannel { maker: None, .. }
        | Edit::EditChannel { actor: None, .. }
        | Edit::SetAcl { actor: None, .. } => true,
        _ => false,
    }
}

// Whether it sets a policy.
pub(crate) fn sets_policy(edit: &Edit) -> bool
    ensures { result ≡ sets_policy edit.now }
{
    match edit {
        Edit::SetAcl { .. } => true,
        _ => false,
    }
}

// Whether it makes, moves or removes channels, or sets a policy.
pub(crate) fn changes_paths(edit: &Edit) -> bool
    ensures { result ≡ changes_paths edit.now }
{
    match *edit {
        Edit::MakeChannel { .. }
        | Edit::EditChannel {
            parent: Some(_),
            ..
        }
        | Edit::RemoveChannel { .. }
        | Edit::SetAcl { .. } => true,
        _ => false,
    }
}

// Whether it changes what a route reads.
pub(crate) fn changes_routes(edit: &Edit) -> bool
    ensures { result ≡ changes_routes edit.now }
{
    match *edit {
        Edit::SetServer { .. } | Edit::AddAccount { .. } | Edit::Text { .. } => false,
        Edit::EditChannel {
            parent: None,
            ref links_add,
            ref links_remove,
            ..
        } => !(links_add.as_slice().is_empty() && links_remove.as_slice().is_empty()),
        Edit::SetUser {
            channel: None,
            mute: None,
            deaf: None,
            clear_suppress: false,
            self_mute: None,
            self_deaf: None,
            ref listen,
            ref unlisten,
            ..
        } => !(listen.as_slice().is_empty() && unlisten.as_slice().is_empty()),
        _ => true,
    }
}
