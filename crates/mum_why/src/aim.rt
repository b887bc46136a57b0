//! What a packet is aimed at.

ghost use Rattle.std.specs.Prelude.{◌≡◌};
ghost use Rattle.mum_route.specs.Route.{items_of};
ghost use Rattle.mum_why.specs.Aims.{aimed, IsMarked};
ghost use Rattle.mum_why.specs.Reason.{item_aim, talk_aim};

use mum_base::{ChannelId, Perm, SessionId};
use mum_state::State;
use mum_tree::{Scratch, Tree};
use mum_users::{TargetItem, User};

// One thing that a packet is aimed at: talk, or an item of a voice target.
#[derive(Clone, Copy)]
pub(crate) struct Aim<'a> {
    pub(crate) speaker: SessionId,
    /// What the speaker needs in a channel where it is to be heard.
    pub(crate) permission: Perm,
    /// From where it spreads, if that is there.
    pub(crate) top: Option<ChannelId>,
    /// Whether it spreads over links.
    pub(crate) links: bool,
    /// Whether it spreads to the channels below.
    pub(crate) children: bool,
    /// In which those who hear are, if it has a name.
    pub(crate) group: &'a str,
}

// The items of a voice target; one that is not set has none.
pub(crate) fn items_of(state: &State, session: SessionId, target: u8) -> &[TargetItem]
    ensures { result.now ≡ items_of state.now session target }
{
    match state.roster().target(session, target) {
        Some(set) => set.items.as_slice(),
        None => &[],
    }
}

impl<'a> Aim<'a> {
    // Talk, which spreads over links.
    pub(crate) fn talk(own: &User) -> Aim<'static>
        ensures { aimed result ≡ talk_aim own.now }
    {
        Aim {
            speaker: own.session,
            permission: Perm::SPEAK,
            top: Some(own.channel),
            links: true,
            children: false,
            group: "",
        }
    }

    // An item of a voice target.
    pub(crate) fn item(speaker: SessionId, item: &'a TargetItem) -> Aim<'a>
        ensures { aimed result ≡ item_aim speaker item.now }
    {
        Aim {
            speaker,
            permission: Perm::WHISPER,
            top: item.channel,
            links: item.links,
            children: item.children,
            group: item.group.as_str(),
        }
    }

    // Marks the channels that links lead to from where it spreads, if it spreads over links.
    pub(crate) fn mark_links(&self, tree: &Tree, scratch: &mut Scratch)
        ensures { IsMarked tree.now (aimed self.now) scratch.new }
    {
        let Some(top) = self.top else {
            return;
        };
        if self.links && tree.is_there(top) {
            tree.linked(top, scratch);
        }
    }
}
