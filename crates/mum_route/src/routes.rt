//! Who hears a packet.

ghost use Rattle.std.specs.Prelude.{◌≡◌, ◌++◌, ◌∷◌, ◌<◌, ◌≤◌, [], IsTrue, None, Some, length, map, if◌then◌else◌};
ghost use Rattle.std.specs.List.{All};
ghost use Rattle.mum_tree.specs.Rows.{is_there};
ghost use Rattle.mum_users.specs.Sessions.{session_of};
ghost use Rattle.mum_state.specs.Proper.{IsProper};
ghost use Rattle.mum_route.specs.Aims.{heard_as, heard_of, members_by, AreHeard};
ghost use Rattle.mum_route.specs.Hearers.{hearers_at, hearers_of, member_of};
ghost use Rattle.mum_route.specs.Hearing.{can_hear};
ghost use Rattle.mum_route.specs.Route.{by_items, by_talk, heard_from, items_of, route};

use crate::aim::Aim;
use crate::audience::Audience;
use crate::context::Context;
use crate::cover::{mark_links, nothing_known};
use crate::hearer::hearer_by;
use crate::hearing::is_silent;
use crate::reach::{nobody_reached, pass_aim};
use crate::rights::{Rights, Walk};
use mum_base::{SLOTS, SessionId, Steps};
use mum_state::State;
use mum_tree::Scratch;
use mum_users::{TargetItem, User};
use std::sync::ledger::Ledger;

/// The target of talk.
pub const TALK: u8 = 0;

/// The target of a packet that comes back to its speaker. Those from 1 to 30 are voice targets.
pub const LOOPBACK: u8 = 31;

// How each session hears talk, by its place among the sessions.
fn reached_by_talk<T: Rights, L: Ledger>(
    rights: &mut T,
    state: &State,
    speaker: &User,
    scratch: &mut Scratch,
    steps: &mut Steps<L>,
) -> [Option<Context>; SLOTS]
    requires sound { T.sound rights.old state.now }
    requires there { IsTrue (is_there state.now.tree.channels speaker.now.channel) }
    ensures value { AreHeard
        (λ user. if can_hear speaker.now.session user then by_talk state.now speaker.now user else None)
        state.now.roster.sessions result }
    ensures sound { T.sound rights.new state.now }
{
    let mut reached = nobody_reached();
    let mut known = nothing_known();
    let aim = Aim::talk(speaker);
    mark_links(state.tree(), aim.ground, scratch);
    pass_aim(
        rights,
        state,
        &aim,
        &mut known,
        &mut reached,
        scratch,
        steps,
    );
    reached
}

// How each session hears what is said to these items of a voice target.
fn reached_by_items<T: Rights, L: Ledger>(
    rights: &mut T,
    state: &State,
    speaker: &User,
    items: &[TargetItem],
    scratch: &mut Scratch,
    steps: &mut Steps<L>,
) -> [Option<Context>; SLOTS]
    requires sound { T.sound rights.old state.now }
    ensures value { AreHeard
        (λ user. if can_hear speaker.now.session user then by_items state.now speaker.now items.now user else None)
        state.now.roster.sessions result }
    ensures sound { T.sound rights.new state.now }
{
    let mut reached = nobody_reached();
    let mut known = nothing_known();
    for item in items {
        let aim = Aim::item(state, speaker.session, item);
        mark_links(state.tree(), aim.ground, scratch);
        pass_aim(
            rights,
            state,
            &aim,
            &mut known,
            &mut reached,
            scratch,
            steps,
        );
    }
    reached
}

// The items of a voice target; one that is not set has none.
fn items_of(state: &State, session: SessionId, target: u8) -> &[TargetItem]
    ensures { result.now ≡ items_of state.now session target }
{
    match state.roster().target(session, target) {
        Some(set) => set.items.as_slice(),
        None => &[],
    }
}

// How each session hears what is said to a target.
fn reached_by<T: Rights, L: Ledger>(
    rights: &mut T,
    state: &State,
    speaker: &User,
    target: u8,
    scratch: &mut Scratch,
    steps: &mut Steps<L>,
) -> [Option<Context>; SLOTS]
    requires sound { T.sound rights.old state.now }
    requires there { IsTrue (is_there state.now.tree.channels speaker.now.channel) }
    ensures value { AreHeard (heard_as state.now speaker.now target) state.now.roster.sessions result }
    ensures sound { T.sound rights.new state.now }
{
    if target == TALK {
        return reached_by_talk(rights, state, speaker, scratch, steps);
    }
    let items = items_of(state, speaker.session, target);
    reached_by_items(rights, state, speaker, items, scratch, steps)
}

// Appends a session, if the speaker's packet reaches it.
#[inline(always)]
fn push_reached(audience: &mut Audience, speaker: &User, user: &User, reached: Option<Context>)
    requires room { length audience.old < SLOTS }
    requires slot { user.now.slot.0 < SLOTS }
    ensures { audience.new ≡ audience.old ++ heard_of speaker.now (user.now ∷ []) (reached ∷ []) }
{
    if let Some(context) = reached {
        audience.push(hearer_by(speaker, user, context));
    }
}

// Appends those of these sessions that are reached to nobody.
fn gather(
    audience: &mut Audience,
    speaker: &User,
    users: &[User],
    reached: &[Option<Context>; SLOTS],
)
    requires nobody { audience.old ≡ [] }
    requires few { length users.now ≤ SLOTS }
    requires slots { All (λ user. user.slot.0 < SLOTS) users.now }
    ensures { audience.new ≡ heard_of speaker.now users.now reached.now }
{
    for (i, user) in users.iter().enumerate() {
        push_reached(audience, speaker, user, reached[i]);
    }
}

// Appends those who hear a session that is there to nobody.
fn hear_from<T: Rights, L: Ledger>(
    rights: &mut T,
    state: &State,
    speaker: &User,
    target: u8,
    scratch: &mut Scratch,
    steps: &mut Steps<L>,
    audience: &mut Audience,
)
    requires sound { T.sound rights.old state.now }
    requires there { IsTrue (is_there state.now.tree.channels speaker.now.channel) }
    requires own { session_of state.now.roster speaker.now.session ≡ Some speaker.now }
    requires slot { speaker.now.slot.0 < SLOTS }
    requires nobody { audience.old ≡ [] }
    ensures members { map member_of audience.new ≡ heard_from state.now speaker.now target }
    ensures hearers { audience.new
        ≡ hearers_of state.now speaker.now.session (heard_from state.now speaker.now target) }
    ensures sound { T.sound rights.new state.now }
{
    if is_silent(speaker) {
        return;
    }
    if target == LOOPBACK {
        push_reached(audience, speaker, speaker, Some(Context::Talk));
        return;
    }
    let reached = reached_by(rights, state, speaker, target, scratch, steps);
    gather(audience, speaker, state.roster().users(), &reached);
}

/// How what a session that is there says to a target, other than loopback, reaches each session, by its place
/// among the sessions. What sessions may do in channels is asked of `rights`.
pub fn reached<T: Rights, L: Ledger>(
    rights: &mut T,
    state: &State,
    speaker: &User,
    target: u8,
    scratch: &mut Scratch,
    steps: &mut Steps<L>,
) -> [Option<Context>; SLOTS]
    requires target { target < LOOPBACK }
    requires proper { IsProper state.now }
    requires there { IsTrue (is_there state.now.tree.channels speaker.now.channel) }
    requires sound { T.sound rights.old state.now }
    ensures members { members_by state.now.roster.sessions result ≡ heard_from state.now speaker.now target }
    ensures sound { T.sound rights.new state.now }
{
    if is_silent(speaker) {
        return nobody_reached();
    }
    reached_by(rights, state, speaker, target, scratch, steps)
}

/// Those of the sessions who are reached, in place of who was in the audience, in slot order, each with what
/// its copy needs beside this speaker. It takes no memory, and reads no entry.
pub fn hear_reached(
    state: &State,
    speaker: &User,
    reached: &[Option<Context>; SLOTS],
    audience: &mut Audience,
)
    requires { session_of state.now.roster speaker.now.session ≡ Some speaker.now }
    ensures members { map member_of audience.new ≡ members_by state.now.roster.sessions reached.now }
    ensures hearers { audience.new
        ≡ hearers_of state.now speaker.now.session (members_by state.now.roster.sessions reached.now) }
{
    audience.clear();
    gather(audience, speaker, state.roster().users(), reached);
}

/// Who hears what a session says to a target, in place of who was in the audience, as `route_into` reports it.
/// What sessions may do in channels is asked of `rights`.
pub fn route_with<T: Rights, L: Ledger>(
    rights: &mut T,
    state: &State,
    speaker: SessionId,
    target: u8,
    scratch: &mut Scratch,
    steps: &mut Steps<L>,
    audience: &mut Audience,
)
    requires target { target ≤ LOOPBACK }
    requires sound { T.sound rights.old state.now }
    ensures members { map member_of audience.new ≡ route state.now speaker target }
    ensures hearers { audience.new ≡ hearers_at state.now speaker target }
    ensures sound { T.sound rights.new state.now }
{
    audience.clear();
    if let Some(user) = state.roster().session(speaker) {
        hear_from(rights, state, user, target, scratch, steps, audience);
    }
}

/// Who hears what a session says to a target, in place of who was in the audience: 0 is talk, 1 to 30 a
/// voice target, 31 loopback. They are in slot order, each with what its copy needs. Nobody hears a session
/// that is not there.
///
/// A step is counted for each entry of an access control list that is read; how many is not said. The
/// permission of the speaker is evaluated at most once in a channel. That is not proved. It takes no memory.
pub fn route_into<L: Ledger>(
    state: &State,
    speaker: SessionId,
    target: u8,
    scratch: &mut Scratch,
    steps: &mut Steps<L>,
    audience: &mut Audience,
)
    requires { target ≤ LOOPBACK }
    ensures members { map member_of audience.new ≡ route state.now speaker target }
    ensures hearers { audience.new ≡ hearers_at state.now speaker target }
{
    route_with(&mut Walk, state, speaker, target, scratch, steps, audience);
}

/// Who hears what a session says to a target, as `route_into` reports it.
pub fn route<L: Ledger>(
    state: &State,
    speaker: SessionId,
    target: u8,
    scratch: &mut Scratch,
    steps: &mut Steps<L>,
) -> Audience
    requires { target ≤ LOOPBACK }
    ensures members { map member_of result ≡ route state.now speaker target }
    ensures hearers { result ≡ hearers_at state.now speaker target }
{
    let mut audience = Audience::new();
    route_into(state, speaker, target, scratch, steps, &mut audience);
    audience
}
