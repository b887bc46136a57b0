//! Moves from channel to channel.

ghost use Rattle.std.specs.Prelude.{◌≡◌, ◌∷◌, [], count_by, false};
ghost use Rattle.std.specs.Option.{option_map_or};
ghost use Rattle.mum_base.specs.declared.number.TheConstants.{ChannelId.ROOT};
ghost use Rattle.mum_policy.specs.Member.{actor_of};
ghost use Rattle.mum_users.specs.State.{is_in};
ghost use Rattle.mum_rules_tree.specs.Decision.{all_met, is_met};
ghost use Rattle.mum_rules_tree.specs.Verdict.{actor_named, nobody};
ghost use Rattle.mum_rules_user.specs.Asked.{channel_of, new_channel};
ghost use Rattle.mum_rules_user.specs.Limits.{room_of, takes_nobody};
ghost use Rattle.mum_rules_user.specs.Needs.{either_way, needs_to_bring, needs_to_enter, needs_to_move};

use crate::session::{channel_of, is_oneself};
use mum_base::{ChannelId, Perm, SessionId};
use mum_msg_state::UserState;
use mum_policy::Who;
use mum_rules_tree::{Lack, may, need};
use mum_state::{State, home_of, who_is};
use mum_users::{Roster, User};

// The channel that is given, where the session is in another.
pub(crate) fn new_channel(
    roster: &Roster,
    session: SessionId,
    message: &UserState,
) -> Option<ChannelId>
    ensures { result ≡ new_channel roster.now session message.now }
{
    let channel = message.channel_id?;
    if channel == channel_of(roster, session).0 {
        None
    } else {
        Some(ChannelId(channel))
    }
}

// Whether the actor has one of two permissions in a channel. The lists on its path are read once.
pub(crate) fn may_either(
    state: &State,
    who: &Who<'_>,
    first: Perm,
    second: Perm,
    channel: ChannelId,
) -> bool
    ensures { result
        ≡ is_met state.now (either_way first (actor_of who.now) second (actor_of who.now) channel) }
{
    match state.granted_to(who, channel) {
        Some(held) => held.has(first) || held.has(second),
        None => false,
    }
}

// Enter or Move there. A denial names Enter.
fn need_to_enter(state: &State, who: &Who<'_>, there: ChannelId) -> Result<(), Lack>
    ensures { result ≡ all_met state.now (needs_to_enter (actor_of who.now) there) }
{
    if may_either(state, who, Perm::ENTER, Perm::MOVE, there) {
        Ok(())
    } else {
        Err(Lack {
            perm: Perm::ENTER,
            channel: there,
        })
    }
}

// Move where the other is, and then Move there, or Enter of the other. A denial names Move.
fn need_to_bring(
    state: &State,
    who: &Who<'_>,
    moved: &Who<'_>,
    there: ChannelId,
) -> Result<(), Lack>
    ensures { result ≡ all_met state.now
        (needs_to_bring (actor_of who.now) (actor_of moved.now) moved.now.channel there) }
{
    need(state, who, Perm::MOVE, moved.channel)?;
    if may(state, who, Perm::MOVE, there) || may(state, moved, Perm::ENTER, there) {
        Ok(())
    } else {
        Err(Lack {
            perm: Perm::MOVE,
            channel: there,
        })
    }
}

// Whoever is gone is in the root and has nothing.
fn nobody<'a>(session: SessionId) -> Who<'a>
    ensures actor { actor_of result ≡ nobody }
    ensures channel { result.channel ≡ ROOT }
{
    Who {
        session,
        account: None,
        channel: ChannelId::ROOT,
        tokens: &[],
        home: &[],
    }
}

// What bringing a session to another channel needs.
fn need_to_bring_named(
    state: &State,
    who: &Who<'_>,
    session: SessionId,
    there: ChannelId,
) -> Result<(), Lack>
    ensures { result ≡ all_met state.now (needs_to_bring (actor_of who.now) (actor_named state.now session)
        (channel_of state.now.roster session) there) }
{
    match state.roster().session(session) {
        Some(user) => {
            let home = home_of(state.tree(), user);
            need_to_bring(state, who, &who_is(user, home.as_slice()), there)
        }
        None => need_to_bring(state, who, &nobody(session), there),
    }
}

// What another channel needs.
pub(crate) fn need_to_move(
    state: &State,
    who: &Who<'_>,
    session: SessionId,
    message: &UserState,
) -> Result<(), Lack>
    ensures { result ≡ all_met state.now
        (needs_to_move state.now (actor_of who.now) who.now.session session message.now) }
{
    let roster = state.roster();
    let Some(there) = new_channel(roster, session, message) else {
        return Ok(());
    };
    if is_oneself(who.session, session) {
        return need_to_enter(state, who, there);
    }
    need_to_bring_named(state, who, session, there)
}

fn room_of(state: &State, id: ChannelId) -> u32
    ensures { result ≡ room_of state.now id }
{
    match state.tree().channel(id) {
        Some(channel) => channel.info.max_users,
        None => 0,
    }
}

fn member_count(users: &[User], id: ChannelId) -> usize
    ensures { result ≡ count_by (is_in id) users.now }
{
    users.iter().filter(|user| user.channel.0 == id.0).count()
}

// Whether a channel takes at most n users, and n are in it.
fn takes_nobody(state: &State, id: ChannelId) -> bool
    ensures { result ≡ takes_nobody state.now id }
{
    let room = room_of(state, id);
    room != 0 && room as usize <= member_count(state.roster().users(), id)
}

// Whether the channel that is entered, if one is, takes nobody more.
pub(crate) fn is_full_for(state: &State, there: Option<ChannelId>) -> bool
    ensures { result ≡ option_map_or (takes_nobody state.now) there false }
{
    match there {
        Some(id) => takes_nobody(state, id),
        None => false,
    }
}
