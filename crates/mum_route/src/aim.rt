//! What a packet is aimed at.

ghost use Rattle.std.specs.Prelude.{◌≡◌, Some};
ghost use Rattle.mum_route.specs.Aims.{aimed, ground_of, item_aim, talk_aim};

use crate::context::Context;
use mum_base::{ChannelId, Perm, SessionId};
use mum_state::State;
use mum_tree::Tree;
use mum_users::{TargetItem, User};

// From where a packet spreads: a channel, all that links lead to from it, all below it.
#[derive(Clone, Copy, Debug)]
pub(crate) struct Ground {
    pub(crate) top: ChannelId,
    pub(crate) links: bool,
    pub(crate) children: bool,
}

// One thing that a packet is aimed at: talk, or an item of a voice target.
#[derive(Clone, Copy, Debug)]
pub(crate) struct Aim<'a> {
    pub(crate) speaker: SessionId,
    /// What the speaker needs in a channel that is to be covered.
    pub(crate) perm: Perm,
    /// The context for those who are in a channel that is covered.
    pub(crate) inside: Context,
    pub(crate) ground: Option<Ground>,
    pub(crate) group: &'a str,
    pub(crate) named: &'a [SessionId],
}

// From where an item of a voice target spreads.
fn ground_of(tree: &Tree, item: &TargetItem) -> Option<Ground>
    ensures { result ≡ ground_of tree.now item.now }
{
    let top = item.channel?;
    if !tree.is_there(top) {
        return None;
    }
    Some(Ground {
        top,
        links: item.links,
        children: item.children,
    })
}

impl<'a> Aim<'a> {
    // Talk, which spreads over links.
    pub(crate) fn talk(speaker: &User) -> Aim<'static>
        ensures { aimed result ≡ talk_aim speaker.now }
    {
        Aim {
            speaker: speaker.session,
            perm: Perm::SPEAK,
            inside: Context::Talk,
            ground: Some(Ground {
                top: speaker.channel,
                links: true,
                children: false,
            }),
            group: "",
            named: &[],
        }
    }

    // An item of a voice target.
    pub(crate) fn item(state: &State, speaker: SessionId, item: &'a TargetItem) -> Aim<'a>
        ensures { aimed result ≡ item_aim state.now speaker item.now }
    {
        Aim {
            speaker,
            perm: Perm::WHISPER,
            inside: Context::ChannelWhisper,
            ground: ground_of(state.tree(), item),
            group: item.group.as_str(),
            named: item.sessions.as_slice(),
        }
    }
}
