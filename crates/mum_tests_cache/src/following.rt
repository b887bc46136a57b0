//! `mum_cache`: what is kept follows each edit.

ghost use Rattle.std.specs.Prelude.{◌≡◌, ◌<◌, IsTrue};
ghost use Rattle.mum_cache.specs.Perms.{ArePermsSound, IsThere};
ghost use Rattle.mum_state.specs.Fits.{fits};
ghost use Rattle.mum_state.specs.Proper.{IsProper};

use crate::edits::{edit_channel, enter, entry, join, make, set_policy, take};
use mum_base::{ChannelId, Items, OutOfMemory, Perm, SessionId, Slot, Steps};
use mum_cache::PermCache;
use mum_cache::laws::nothing_is_sound;
use mum_policy::AclEntry;
use mum_state::{Edit, State};
use std::alloc::Global;
use std::marker::Brand;
use std::process::Abort;
use std::sync::ledger::{Blank, Ledger};

// The session that is asked for.
const OWN: SessionId = SessionId(1);

const A: ChannelId = ChannelId(1);

const B: ChannelId = ChannelId(2);

const C: ChannelId = ChannelId(3);

const D: ChannelId = ChannelId(4);

fn ask_counted<L: Ledger>(
    blank: Blank,
    state: &State,
    perms: &mut PermCache,
    channel: ChannelId,
) -> Perm
    requires name { blank.name ≡ L.name }
    requires parts { blank.parts ≡ L.parts }
    requires some { 0 < blank.parts }
    requires there { IsThere state.now OWN channel }
    requires sound { ArePermsSound state.now perms.old }
    ensures { ArePermsSound state.now perms.new }
{
    let mut steps = Steps::<L>::new(blank);
    perms.permissions_at(state, OWN, channel, &mut steps)
}

// What the session may do in a channel, through what is kept.
fn ask(rt: &impl Abort, state: &State, perms: &mut PermCache, channel: ChannelId) -> Perm
    requires { ArePermsSound state.now perms.old }
    ensures { ArePermsSound state.now perms.new }
{
    assert!(rt;
        state.roster().session(OWN).is_some(),
        "the session is there"
    );
    assert!(rt; state.tree().is_there(channel), "the channel is there");
    ask_counted::<Brand>(Blank::new(1), state, perms, channel)
}

// Makes an edit. What is kept stays sound beside it.
fn apply_beside(state: &mut State, perms: &PermCache, edit: &Edit) -> Result<(), OutOfMemory>
    requires proper { IsProper state.old }
    requires fits { IsTrue (fits state.old edit.now) }
    requires sound { ArePermsSound state.old perms.now }
    ensures proper { IsProper state.new }
    ensures sound { ArePermsSound state.new perms.now }
{
    let _kept = perms;
    state.apply(edit)
}

// The same of an edit that fits.
fn follow(rt: &impl Abort, state: &mut State, perms: &PermCache, edit: Edit)
    requires proper { IsProper state.old }
    requires sound { ArePermsSound state.old perms.now }
    ensures proper { IsProper state.new }
    ensures sound { ArePermsSound state.new perms.now }
{
    assert!(rt; state.fits(&edit), "the edit fits");
    apply_beside(state, perms, &edit).expect(rt, "memory");
    drop(edit);
}

// What the session may do in a channel, through one cache: twice before an edit, and after it.
fn asked_beside(
    rt: &impl Abort,
    alloc: Global,
    state: &mut State,
    channel: ChannelId,
    edit: Edit,
) -> (u32, u32, u32)
    requires { IsProper state.old }
{
    let mut perms = PermCache::new(alloc).expect(rt, "memory");
    nothing_is_sound();
    let first = ask(rt, state, &mut perms, channel);
    let kept = ask(rt, state, &mut perms, channel);
    follow(rt, state, &perms, edit);
    let after = ask(rt, state, &mut perms, channel);
    drop(perms);
    (first.0, kept.0, after.0)
}

// Denies a group to speak in a channel, there alone.
fn deny(rt: &impl Abort, alloc: Global, channel: ChannelId, group: &str) -> Edit {
    let one = entry(rt, alloc, group, false, Perm::NONE, Perm::SPEAK);
    let mut acls = Items::new(alloc);
    acls.push(one).expect(rt, "memory");
    set_policy(channel, Items::new(alloc), acls)
}

// Session 1 in channel A, 2 in B and 3 in C, which are below the root, A linked to B and B to C. Nobody may
// speak in B.
fn fill_linked(rt: &impl Abort, alloc: Global, state: &mut State)
    ensures { IsProper state.new }
{
    for (id, name) in [(A, "A"), (B, "B"), (C, "C")] {
        take(rt, state, make(rt, alloc, id, ChannelId::ROOT, name));
    }
    take(rt, state, edit_channel(rt, alloc, A, None, &[B]));
    take(rt, state, edit_channel(rt, alloc, B, None, &[C]));
    take(rt, state, join(rt, alloc, OWN, Slot(0), "ann", None));
    take(
        rt,
        state,
        join(rt, alloc, SessionId(2), Slot(1), "bob", None),
    );
    take(
        rt,
        state,
        join(rt, alloc, SessionId(3), Slot(2), "cat", None),
    );
    take(rt, state, enter(rt, alloc, OWN, A));
    take(rt, state, enter(rt, alloc, SessionId(2), B));
    take(rt, state, enter(rt, alloc, SessionId(3), C));
    take(rt, state, deny(rt, alloc, B, "all"));
}

#[test]
fn a_policy_that_is_set_is_asked(rt: HostRuntime) {
    let alloc = rt.alloc();
    let mut state = State::empty(alloc).expect(&rt, "memory");
    fill_linked(&rt, alloc, &mut state);
    let plain = set_policy(B, Items::new(alloc), Items::new(alloc));
    let seen = asked_beside(&rt, alloc, &mut state, B, plain);
    drop(state);
    assert_eq!(rt; seen, (0xB06, 0xB06, 0xB0E));
}

// The session in the root. Who is in A may not speak there.
fn fill_guarded(rt: &impl Abort, alloc: Global, state: &mut State)
    ensures { IsProper state.new }
{
    take(rt, state, make(rt, alloc, A, ChannelId::ROOT, "A"));
    take(rt, state, join(rt, alloc, OWN, Slot(0), "ann", None));
    take(rt, state, deny(rt, alloc, A, "in"));
}

#[test]
fn who_enters_is_asked_anew(rt: HostRuntime) {
    let alloc = rt.alloc();
    let mut state = State::empty(alloc).expect(&rt, "memory");
    fill_guarded(&rt, alloc, &mut state);
    let before = state.stamps().policy;
    let seen = asked_beside(&rt, alloc, &mut state, A, enter(&rt, alloc, OWN, A));
    let after = state.stamps().policy;
    drop(state);
    assert_eq!(rt; seen, (0xB0E, 0xB0E, 0xB06));
    assert_eq!(rt; after, before);
}

// The session in D, beside A, B below it and C below that. Whose channel is below A may not speak in B.
fn fill_nested(rt: &impl Abort, alloc: Global, state: &mut State)
    ensures { IsProper state.new }
{
    take(rt, state, make(rt, alloc, A, ChannelId::ROOT, "A"));
    take(rt, state, make(rt, alloc, B, A, "B"));
    take(rt, state, make(rt, alloc, C, B, "C"));
    take(rt, state, make(rt, alloc, D, ChannelId::ROOT, "D"));
    take(rt, state, join(rt, alloc, OWN, Slot(0), "ann", None));
    take(rt, state, enter(rt, alloc, OWN, D));
    take(rt, state, deny(rt, alloc, B, "sub,-1"));
}

#[test]
fn whose_channel_is_moved_is_asked_anew(rt: HostRuntime) {
    let alloc = rt.alloc();
    let mut state = State::empty(alloc).expect(&rt, "memory");
    fill_nested(&rt, alloc, &mut state);
    let moved = edit_channel(&rt, alloc, D, Some(A), &[]);
    let seen = asked_beside(&rt, alloc, &mut state, B, moved);
    drop(state);
    assert_eq!(rt; seen, (0xB0E, 0xB0E, 0xB06));
}
