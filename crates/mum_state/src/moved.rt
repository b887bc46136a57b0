//! Channels that are gone, and sessions that are moved up from them.

ghost use Rattle.std.specs.Prelude.{◌≡◌};
ghost use Rattle.mum_tree.specs.Refusals.{parent_of};

use mum_base::ChannelId;
use mum_tree::Tree;
use mum_users::{ChannelSet, Placement, Placements, User};

// The channels that are not in a tree.
#[derive(Drop)]
pub(crate) struct Gone<'a> {
    pub(crate) tree: &'a Tree,
}

impl<'a> ChannelSet for Gone<'a> {
    ghost use Rattle.std.specs.Prelude.{not};
    ghost use Rattle.mum_tree.specs.Rows.{is_there};

    ghost has_channel = { λ gone id. not (is_there gone.tree.now.channels id) };

    fn has(&self, id: ChannelId) -> bool {
        !self.tree.is_there(id)
    }
}

// Who is in a channel or below it is moved to another.
#[derive(Drop)]
pub(crate) struct MovedUp<'a> {
    pub(crate) tree: &'a Tree,
    pub(crate) id: ChannelId,
    pub(crate) parent: ChannelId,
}

impl<'a> Placements for MovedUp<'a> {
    ghost use Rattle.std.specs.Prelude.{if◌then◌else◌};
    ghost use Rattle.mum_tree.specs.Rows.{is_below};

    ghost placement_of = { λ moved user. record {
      channel = (if is_below moved.tree.now.channels moved.id user.channel then moved.parent else user.channel);
      suppress = user.suppress;
    } };

    fn placement(&self, user: &User) -> Placement {
        let channel = if self.tree.is_below(self.id, user.channel) {
            self.parent
        } else {
            user.channel
        };
        Placement {
            channel,
            suppress: user.suppress,
        }
    }
}

// The channel above a channel; the channel itself where it is not there.
pub(crate) fn parent_of(tree: &Tree, id: ChannelId) -> ChannelId
    ensures { result ≡ parent_of tree.now id }
{
    match tree.channel(id) {
        Some(channel) => channel.parent,
        None => id,
    }
}
