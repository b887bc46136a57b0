//! Who is heard: flags that others set.

ghost use Rattle.std.specs.Prelude.{◌≡◌};
ghost use Rattle.mum_policy.specs.Member.{actor_of};
ghost use Rattle.mum_rules_tree.specs.Decision.{all_met};
ghost use Rattle.mum_rules_user.specs.Asked.{clears_suppression, rules_speech};
ghost use Rattle.mum_rules_user.specs.Needs.{needs_to_rule_speech};

use crate::session::channel_of;
use mum_base::{Perm, SessionId};
use mum_msg_state::UserState;
use mum_policy::Who;
use mum_rules_tree::{Lack, need};
use mum_state::State;

// Whether it lets the session speak where it is.
pub(crate) fn clears_suppression(message: &UserState) -> bool
    ensures { result ≡ clears_suppression message.now }
{
    !message.suppress.unwrap_or(true)
}

// Whether it mutes, deafens, lets speak, or gives priority.
pub(crate) fn rules_speech(message: &UserState) -> bool
    ensures { result ≡ rules_speech message.now }
{
    message.mute.is_some()
        || message.deaf.is_some()
        || clears_suppression(message)
        || message.priority_speaker.is_some()
}

// MuteDeafen in the channel in which the session is.
pub(crate) fn need_to_rule_speech(
    state: &State,
    who: &Who<'_>,
    session: SessionId,
    message: &UserState,
) -> Result<(), Lack>
    ensures { result ≡ all_met state.now
        (needs_to_rule_speech state.now (actor_of who.now) session message.now) }
{
    if rules_speech(message) {
        let here = channel_of(state.roster(), session);
        need(state, who, Perm::MUTE_DEAFEN, here)
    } else {
        Ok(())
    }
}
