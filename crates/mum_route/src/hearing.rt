//! Who is heard, who hears, and what a session may do.

ghost use Rattle.std.specs.Prelude.{◌≡◌, ◌==◌, false, length, IsTrue, Some};
ghost use Rattle.mum_policy.specs.Member.{actor_of};
ghost use Rattle.mum_tree.specs.Rows.{is_there};
ghost use Rattle.mum_users.specs.Sessions.{session_of};
ghost use Rattle.mum_state.specs.Permissions.{actor_from};
ghost use Rattle.mum_route.specs.Hearing.{can_hear, is_in_group, is_silent, may};

use crate::rights::Rights;
use mum_base::{ChannelId, Perm, SessionId, Steps};
use mum_policy::{Who, is_member};
use mum_state::{State, home_of, who_is};
use mum_users::User;
use std::sync::ledger::Ledger;

// Whether nobody hears a session.
pub(crate) fn is_silent(user: &User) -> bool
    ensures { result ≡ is_silent user.now }
{
    user.mute || user.self_mute || user.suppress
}

// Whether a speaker's packet may reach a session.
pub(crate) fn can_hear(speaker: SessionId, user: &User) -> bool
    ensures { result ≡ can_hear speaker user.now }
{
    user.session.0 != speaker.0 && !(user.deaf || user.self_deaf)
}

// Whether a session has a permission in a channel.
pub(crate) fn may<T: Rights, L: Ledger>(
    rights: &mut T,
    state: &State,
    session: SessionId,
    perm: Perm,
    channel: ChannelId,
    steps: &mut Steps<L>,
) -> bool
    requires { T.sound rights.old state.now }
    ensures value { result ≡ may state.now session perm channel }
    ensures sound { T.sound rights.new state.now }
{
    match rights.held(state, session, channel, steps) {
        Some(held) => held.has(perm),
        None => false,
    }
}

// Whether a session that is there, which entries and groups see like this, has a permission in a channel.
pub(crate) fn may_as<T: Rights, L: Ledger>(
    rights: &mut T,
    state: &State,
    user: &User,
    who: &Who<'_>,
    perm: Perm,
    channel: ChannelId,
    steps: &mut Steps<L>,
) -> bool
    requires sound { T.sound rights.old state.now }
    requires own { session_of state.now.roster user.now.session ≡ Some user.now }
    requires who { actor_of who.now ≡ actor_from state.now.tree user.now }
    ensures value { result ≡ may state.now user.now.session perm channel }
    ensures sound { T.sound rights.new state.now }
{
    match rights.held_as(state, user, who, channel, steps) {
        Some(held) => held.has(perm),
        None => false,
    }
}

// Whether a session is in a group that has a name.
#[inline(never)]
fn is_in_named(state: &State, group: &str, channel: ChannelId, user: &User) -> bool
    requires there { IsTrue (is_there state.now.tree.channels channel) }
    requires named { (length group.now == 0) ≡ false }
    ensures { result ≡ is_in_group state.now group.now channel user.now }
{
    match state.tree().path(channel) {
        Some(way) => {
            let place = way.len() - 1;
            let home = home_of(state.tree(), user);
            is_member(
                state,
                way.as_slice(),
                place,
                group,
                &who_is(user, home.as_slice()),
            )
        }
        None => false,
    }
}

// Whether a session is in a group, asked in a channel that is there for an entry of that channel.
pub(crate) fn is_in_group(state: &State, group: &str, channel: ChannelId, user: &User) -> bool
    requires { IsTrue (is_there state.now.tree.channels channel) }
    ensures { result ≡ is_in_group state.now group.now channel user.now }
{
    group.is_empty() || is_in_named(state, group, channel, user)
}
