//! What commands need.

ghost use Rattle.std.specs.Prelude.{◌≡◌, ◌∷◌, [], map};
ghost use Rattle.mum_policy.specs.Member.{actor_of};
ghost use Rattle.mum_rules_tree.specs.Decision.{all_met, is_open, need, way};

use mum_base::{ChannelId, Perm};
use mum_policy::Who;
use mum_state::{State, Verdict};

/// A permission that is missing, and the channel where it is.
#[derive(Clone, Copy)]
pub struct Lack {
    pub perm: Perm,
    pub channel: ChannelId,
}

impl Lack {
    /// The verdict that names it.
    pub fn verdict(self) -> Verdict
        ensures { result ≡ Verdict.Lacks self.perm self.channel }
    {
        Verdict::Lacks {
            perm: self.perm,
            channel: self.channel,
        }
    }
}

/// Whether the actor has a permission in a channel. The list on the channel's path is read once.
pub fn may(state: &State, who: &Who<'_>, perm: Perm, channel: ChannelId) -> bool
    ensures { result ≡ is_open state.now (way (actor_of who.now) perm channel) }
{
    match state.granted_to(who, channel) {
        Some(held) => held.has(perm),
        None => false,
    }
}

/// A permission in a channel, or what is missing.
pub fn need(state: &State, who: &Who<'_>, perm: Perm, channel: ChannelId) -> Result<(), Lack>
    ensures { result ≡ all_met state.now (need (actor_of who.now) perm channel ∷ []) }
{
    if may(state, who, perm, channel) {
        Ok(())
    } else {
        Err(Lack { perm, channel })
    }
}
