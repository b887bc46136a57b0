//! How an aim reaches a session.

ghost use Rattle.std.specs.Prelude.{◌≡◌, ◌&&◌, ◌<◌, ◌≤◌, ℕ, None, Some, IsTrue, length, slice_index_or};
ghost use Rattle.mum_base.specs.Channels.{is_among};
ghost use Rattle.mum_tree.specs.Rows.{is_there};
ghost use Rattle.mum_policy.specs.Member.{actor_of};
ghost use Rattle.mum_users.specs.declared.user.User.{User};
ghost use Rattle.mum_users.specs.Listeners.{pairs_of};
ghost use Rattle.mum_users.specs.Sessions.{session_of};
ghost use Rattle.mum_state.specs.Permissions.{actor_from};
ghost use Rattle.mum_route.specs.Aims.{aimed, covered, heard_by, AreKnown, AreMarked, IsAnswered};
ghost use Rattle.mum_route.specs.Context.{code, first_of};
ghost use Rattle.mum_route.specs.Hearing.{is_in_group, may};
ghost use Rattle.mum_route.specs.Route.{is_named, is_within, listens_within};

use crate::aim::Aim;
use crate::context::Context;
use crate::cover::{Answer, covers, covers_again, has_right};
use crate::hearing::{can_hear, is_in_group, may_as};
use crate::rights::Rights;
use mum_base::{ChannelId, PLACES, Perm, SLOTS, SessionId, Steps};
use mum_policy::Who;
use mum_state::{State, home_of, who_is};
use mum_tree::Scratch;
use mum_users::{ListenerPair, User};
use std::sync::ledger::Ledger;

// Whether a session is in a channel that an aim covers, and in its group there.
fn is_within<T: Rights, L: Ledger>(
    rights: &mut T,
    state: &State,
    aim: &Aim<'_>,
    known: &mut [Option<bool>],
    last: &mut Option<Answer>,
    user: &User,
    scratch: &Scratch,
    steps: &mut Steps<L>,
) -> bool
    requires sound { T.sound rights.old state.now }
    requires there { IsTrue (is_there state.now.tree.channels user.now.channel) }
    requires room { length known.old ≡ PLACES }
    requires right { AreKnown state.now aim.now.speaker aim.now.perm known.old }
    requires last { IsAnswered state.now (aimed aim.now) last.old }
    requires marked { AreMarked state.now.tree aim.now.ground scratch.now }
    ensures value { result
        ≡ is_within state.now (covered state.now (aimed aim.now)) aim.now.group.now user.now }
    ensures kept { AreKnown state.now aim.now.speaker aim.now.perm known.new }
    ensures last { IsAnswered state.now (aimed aim.now) last.new }
    ensures sound { T.sound rights.new state.now }
{
    covers_again(
        rights,
        state,
        aim,
        known,
        last,
        user.channel,
        scratch,
        steps,
    ) && is_in_group(state, aim.group, user.channel, user)
}

// Whether an aim names a session.
fn is_named(sessions: &[SessionId], user: &User) -> bool
    ensures { result ≡ is_named sessions.now user.now }
{
    sessions.iter().any(|one| one.0 == user.session.0)
}

// Whether an aim names a session, and the speaker has the permission where that is.
fn is_named_there<T: Rights, L: Ledger>(
    rights: &mut T,
    state: &State,
    aim: &Aim<'_>,
    known: &mut [Option<bool>],
    user: &User,
    steps: &mut Steps<L>,
) -> bool
    requires sound { T.sound rights.old state.now }
    requires room { length known.old ≡ PLACES }
    requires right { AreKnown state.now aim.now.speaker aim.now.perm known.old }
    ensures value { result ≡ (is_named aim.now.named.now user.now
        && may state.now aim.now.speaker aim.now.perm user.now.channel) }
    ensures kept { AreKnown state.now aim.now.speaker aim.now.perm known.new }
    ensures sound { T.sound rights.new state.now }
{
    if !is_named(aim.named, user) {
        return false;
    }
    has_right(
        rights,
        state,
        aim.speaker,
        aim.perm,
        known,
        user.channel,
        steps,
    )
}

// Whether a session hears an aim by listening to a channel.
fn hears_in<T: Rights, L: Ledger>(
    rights: &mut T,
    state: &State,
    aim: &Aim<'_>,
    known: &mut [Option<bool>],
    user: &User,
    who: &Who<'_>,
    channel: ChannelId,
    scratch: &Scratch,
    steps: &mut Steps<L>,
) -> bool
    requires sound { T.sound rights.old state.now }
    requires there { IsTrue (is_there state.now.tree.channels channel) }
    requires own { session_of state.now.roster user.now.session ≡ Some user.now }
    requires who { actor_of who.now ≡ actor_from state.now.tree user.now }
    requires room { length known.old ≡ PLACES }
    requires right { AreKnown state.now aim.now.speaker aim.now.perm known.old }
    requires marked { AreMarked state.now.tree aim.now.ground scratch.now }
    ensures value { result ≡ (is_among (covered state.now (aimed aim.now)) channel
        && is_in_group state.now aim.now.group.now channel user.now
        && may state.now user.now.session Perm.LISTEN channel) }
    ensures kept { AreKnown state.now aim.now.speaker aim.now.perm known.new }
    ensures sound { T.sound rights.new state.now }
{
    if !covers(rights, state, aim, known, channel, scratch, steps) {
        return false;
    }
    if !is_in_group(state, aim.group, channel, user) {
        return false;
    }
    may_as(rights, state, user, who, Perm::LISTEN, channel, steps)
}

// Whether a session hears an aim by listening to one of these channels.
fn hears_in_one<T: Rights, L: Ledger>(
    rights: &mut T,
    state: &State,
    aim: &Aim<'_>,
    known: &mut [Option<bool>],
    user: &User,
    pairs: &[ListenerPair],
    scratch: &Scratch,
    steps: &mut Steps<L>,
) -> bool
    requires sound { T.sound rights.old state.now }
    requires pairs { pairs.now ≡ pairs_of state.now.roster user.now.session }
    requires own { session_of state.now.roster user.now.session ≡ Some user.now }
    requires room { length known.old ≡ PLACES }
    requires right { AreKnown state.now aim.now.speaker aim.now.perm known.old }
    requires marked { AreMarked state.now.tree aim.now.ground scratch.now }
    ensures value { result
        ≡ listens_within state.now (covered state.now (aimed aim.now)) aim.now.group.now user.now }
    ensures kept { AreKnown state.now aim.now.speaker aim.now.perm known.new }
    ensures sound { T.sound rights.new state.now }
{
    let home = home_of(state.tree(), user);
    let who = who_is(user, home.as_slice());
    for pair in pairs {
        if hears_in(
            rights,
            state,
            aim,
            known,
            user,
            &who,
            pair.channel,
            scratch,
            steps,
        ) {
            return true;
        }
    }
    false
}

// Whether a session listens to a channel that an aim covers, is in its group there, and may listen.
fn listens_within<T: Rights, L: Ledger>(
    rights: &mut T,
    state: &State,
    aim: &Aim<'_>,
    known: &mut [Option<bool>],
    user: &User,
    scratch: &Scratch,
    steps: &mut Steps<L>,
) -> bool
    requires sound { T.sound rights.old state.now }
    requires own { session_of state.now.roster user.now.session ≡ Some user.now }
    requires room { length known.old ≡ PLACES }
    requires right { AreKnown state.now aim.now.speaker aim.now.perm known.old }
    requires marked { AreMarked state.now.tree aim.now.ground scratch.now }
    ensures value { result
        ≡ listens_within state.now (covered state.now (aimed aim.now)) aim.now.group.now user.now }
    ensures kept { AreKnown state.now aim.now.speaker aim.now.perm known.new }
    ensures sound { T.sound rights.new state.now }
{
    let pairs = state.roster().pairs_of(user.session);
    if pairs.is_empty() {
        return false;
    }
    hears_in_one(rights, state, aim, known, user, pairs, scratch, steps)
}

// The first way in which a session is reached: by this aim, or as it was before. Only what would come
// before that is looked for.
fn reached_with<T: Rights, L: Ledger>(
    rights: &mut T,
    state: &State,
    aim: &Aim<'_>,
    known: &mut [Option<bool>],
    last: &mut Option<Answer>,
    user: &User,
    before: Option<Context>,
    scratch: &Scratch,
    steps: &mut Steps<L>,
) -> Option<Context>
    requires sound { T.sound rights.old state.now }
    requires own { session_of state.now.roster user.now.session ≡ Some user.now }
    requires there { IsTrue (is_there state.now.tree.channels user.now.channel) }
    requires room { length known.old ≡ PLACES }
    requires right { AreKnown state.now aim.now.speaker aim.now.perm known.old }
    requires last { IsAnswered state.now (aimed aim.now) last.old }
    requires marked { AreMarked state.now.tree aim.now.ground scratch.now }
    requires first { code aim.now.inside < code Context.DirectWhisper }
    ensures value { result ≡ first_of before (heard_by state.now (aimed aim.now) user.now) }
    ensures kept { AreKnown state.now aim.now.speaker aim.now.perm known.new }
    ensures last { IsAnswered state.now (aimed aim.now) last.new }
    ensures sound { T.sound rights.new state.now }
{
    if !can_hear(aim.speaker, user) {
        return before;
    }
    if !aim.inside.comes_before(before) {
        return before;
    }
    if is_within(rights, state, aim, known, last, user, scratch, steps) {
        return Some(aim.inside);
    }
    if !Context::DirectWhisper.comes_before(before) {
        return before;
    }
    if is_named_there(rights, state, aim, known, user, steps) {
        return Some(Context::DirectWhisper);
    }
    if !Context::Listener.comes_before(before) {
        return before;
    }
    if listens_within(rights, state, aim, known, user, scratch, steps) {
        return Some(Context::Listener);
    }
    before
}

// Nobody is reached yet.
pub(crate) fn nobody_reached() -> [Option<Context>; SLOTS]
    ensures length { length result ≡ SLOTS }
    ensures nobody { (place : ℕ) → slice_index_or result place None ≡ None }
{
    [None; SLOTS]
}

// Looks at each session for how an aim reaches it.
pub(crate) fn pass_aim<T: Rights, L: Ledger>(
    rights: &mut T,
    state: &State,
    aim: &Aim<'_>,
    known: &mut [Option<bool>],
    reached: &mut [Option<Context>],
    scratch: &Scratch,
    steps: &mut Steps<L>,
)
    requires sound { T.sound rights.old state.now }
    requires room { length known.old ≡ PLACES }
    requires right { AreKnown state.now aim.now.speaker aim.now.perm known.old }
    requires marked { AreMarked state.now.tree aim.now.ground scratch.now }
    requires first { code aim.now.inside < code Context.DirectWhisper }
    requires whole { length reached.old ≡ SLOTS }
    ensures each { (k : ℕ) (d : User) → k < length state.now.roster.sessions →
        slice_index_or reached.new k None ≡ first_of (slice_index_or reached.old k None)
        (heard_by state.now (aimed aim.now) (slice_index_or state.now.roster.sessions k d)) }
    ensures kept { AreKnown state.now aim.now.speaker aim.now.perm known.new }
    ensures sound { T.sound rights.new state.now }
{
    let mut last = None;
    for (i, user) in state.roster().users().iter().enumerate() {
        let one = &mut reached[i];
        *one = reached_with(
            rights, state, aim, known, &mut last, user, *one, scratch, steps,
        );
    }
}
