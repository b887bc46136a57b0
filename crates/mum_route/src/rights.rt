//! Who says what a session may do in a channel.

ghost use Rattle.std.specs.Prelude.{◌≡◌, ◌+◌, Some};
ghost use Rattle.std.specs.Option.{option_map};
ghost use Rattle.mum_policy.specs.Member.{actor_of};
ghost use Rattle.mum_users.specs.Sessions.{session_of};
ghost use Rattle.mum_state.specs.Permissions.{actor_from, granted_where_there, perm_of};
ghost use Rattle.mum_route.specs.Hearing.{visits_where_there};

use mum_base::{ChannelId, Perm, SessionId, Steps};
use mum_policy::{Who, permissions};
use mum_state::State;
use mum_users::User;
use std::sync::ledger::Ledger;

/// Who says what a session may do in a channel: as the state says, by a walk over entries or by what an
/// earlier walk found.
pub trait Rights {
    ghost use Rattle.std.specs.Prelude.{ℕ, Option};
    ghost use Rattle.mum_base.specs.declared.number.ChannelId.{ChannelId};
    ghost use Rattle.mum_base.specs.declared.number.SessionId.{SessionId};
    ghost use Rattle.mum_base.specs.declared.perm.Perm.{Perm};
    ghost use Rattle.mum_state.specs.State.{StateValue};

    /// It may be asked at this state.
    ghost sound: { Self → StateValue → Type 0 };

    /// What an answer leaves: what was there before, what was asked, the answer, and what is there now.
    ghost kept: { Self → StateValue → SessionId → ChannelId → Option Perm → Self → Type 0 };

    /// How many entries of access control lists are read for an answer.
    ghost cost: { Self → StateValue → SessionId → ChannelId → ℕ };

    /// What a session may do in a channel; `None` where one of the two is not there.
    fn held<L: Ledger>(
        &mut self,
        state: &State,
        session: SessionId,
        channel: ChannelId,
        steps: &mut Steps<L>,
    ) -> Option<Perm>
        requires { sound self.old state.now }
        ensures value { option_map (λ perm. perm.0) result ≡ perm_of state.now session channel }
        ensures steps { steps.new ≡ steps.old + cost self.old state.now session channel }
        ensures kept { kept self.old state.now session channel result self.new }
        ensures sound { sound self.new state.now };

    /// The same of a session that is there, which entries and groups see like this.
    fn held_as<L: Ledger>(
        &mut self,
        state: &State,
        user: &User,
        who: &Who<'_>,
        channel: ChannelId,
        steps: &mut Steps<L>,
    ) -> Option<Perm>
        requires sound { sound self.old state.now }
        requires own { session_of state.now.roster user.now.session ≡ Some user.now }
        requires who { actor_of who.now ≡ actor_from state.now.tree user.now }
        ensures value { option_map (λ perm. perm.0) result ≡ perm_of state.now user.now.session channel }
        ensures steps { steps.new ≡ steps.old + cost self.old state.now user.now.session channel }
        ensures kept { kept self.old state.now user.now.session channel result self.new }
        ensures sound { sound self.new state.now };
}

// What who is seen like this may do in a channel.
fn granted_as<L: Ledger>(
    state: &State,
    who: &Who<'_>,
    channel: ChannelId,
    steps: &mut Steps<L>,
) -> Option<Perm>
    ensures value { option_map (λ perm. perm.0) result ≡ granted_where_there state.now (actor_of who.now) channel }
    ensures steps { steps.new ≡ steps.old + visits_where_there state.now (actor_of who.now) channel }
{
    match state.tree().path(channel) {
        Some(path) => Some(permissions(state, path.as_slice(), who, steps)),
        None => None,
    }
}

/// Who reads the entries each time. It may be asked at every state.
#[derive(Clone, Copy, Debug)]
pub struct Walk;

impl Rights for Walk {
    ghost use Rattle.std.specs.Prelude.{⊤};
    ghost use Rattle.mum_state.specs.Permissions.{visits_of};

    ghost sound = { λ walk state. ⊤ };

    ghost kept = { λ before state session channel answer later. ⊤ };

    ghost cost = { λ walk state session channel. visits_of state session channel };

    fn held<L: Ledger>(
        &mut self,
        state: &State,
        session: SessionId,
        channel: ChannelId,
        steps: &mut Steps<L>,
    ) -> Option<Perm> {
        state.permissions_of(session, channel, steps)
    }

    fn held_as<L: Ledger>(
        &mut self,
        state: &State,
        user: &User,
        who: &Who<'_>,
        channel: ChannelId,
        steps: &mut Steps<L>,
    ) -> Option<Perm> {
        granted_as(state, who, channel, steps)
    }
}
