//! Permissions that were found already, while one message is decided.

ghost use Rattle.std.specs.Prelude.{◌≡◌, ◌∷◌, ℕ, false, [], slice_index_or};
ghost use Rattle.mum_policy.specs.Member.{actor_of};
ghost use Rattle.mum_rules_tree.specs.Decision.{all_met, need, AreMet};

use crate::needs::{Lack, need};
use mum_base::{ChannelId, PLACES, Perm};
use mum_policy::Who;
use mum_state::State;

/// The channels in which the actor was found to have one permission, by their places.
#[derive(Drop)]
pub struct MetPlaces {
    marks: [bool; PLACES],
}

impl MetPlaces {
    /// No channel yet.
    pub fn none() -> MetPlaces
        ensures { (place : ℕ) → slice_index_or result.marks place false ≡ false }
    {
        MetPlaces {
            marks: [false; PLACES],
        }
    }
}

/// A permission in a channel, or what is missing. Where it was found before it is not looked for again:
/// a message can name one channel more than 30,000 times. That it is looked for once is not proved; `bench/run`
/// measures such a message.
pub fn need_once(
    state: &State,
    who: &Who<'_>,
    perm: Perm,
    channel: ChannelId,
    met: &mut MetPlaces,
) -> Result<(), Lack>
    requires { AreMet state.now (actor_of who.now) perm met.old.marks }
    ensures value { result ≡ all_met state.now (need (actor_of who.now) perm channel ∷ []) }
    ensures kept { AreMet state.now (actor_of who.now) perm met.new.marks }
{
    let Some(place) = state.tree().place(channel) else {
        return need(state, who, perm, channel);
    };
    let place = place as usize;
    if met.marks[place] {
        return Ok(());
    }
    need(state, who, perm, channel)?;
    met.marks[place] = true;
    Ok(())
}
