//! A change of a channel in several parts.

ghost use Rattle.std.specs.Prelude.{◌≡◌};
ghost use Rattle.mum_tree.specs.Change.{given_or};

use mum_base::{ChannelId, Text};

/// The new values of a channel, as far as they are given, and the links that come and go
/// (Mumble.proto, `ChannelState`). A channel in both lists is linked first, and then unlinked; the
/// channel's own number in them means nothing.
#[derive(Clone, Copy)]
pub struct ChannelChange<'a> {
    pub name: Option<&'a str>,
    pub parent: Option<ChannelId>,
    pub description: Option<&'a Text>,
    pub position: Option<i32>,
    pub max_users: Option<u32>,
    pub links_add: &'a [ChannelId],
    pub links_remove: &'a [ChannelId],
}

// Sets what is given.
pub(crate) fn give<T: Drop>(place: &mut T, given: Option<T>)
    ensures { place.new ≡ given_or given place.old }
{
    if let Some(value) = given {
        *place = value;
    }
}
