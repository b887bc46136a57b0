//! `mum_cache`: an entry that is valid is not walked again by the calls that a router makes. A body that walks at each
//! call does not end in the time that a test has.

ghost use Rattle.std.specs.Prelude.{◌≡◌, ◌<◌};
ghost use Rattle.mum_cache.specs.Caches.{AreSound};

use crate::edits::{enter, entry, join, make, set_policy, take};
use mum_base::{AccountId, ChannelId, Items, Perm, SessionId, Slot, Steps, Text};
use mum_cache::Caches;
use mum_cache::laws::nothing_is_sound;
use mum_policy::{AclEntry, Group};
use mum_route::{Audience, Rights, TALK};
use mum_state::{Edit, State};
use mum_tree::Scratch;
use std::alloc::Global;
use std::marker::Brand;
use std::process::Abort;
use std::sync::ledger::{Blank, Ledger};

// The session that is asked for.
const OWN: SessionId = SessionId(1);

// The channel in which it is, 32 under the root.
const DEEPEST: ChannelId = ChannelId(32);

// How often each is asked.
const TIMES: u32 = 1_000_000;

// 128 entries that let the group `g` enter, here and below.
fn entries(rt: &impl Abort, alloc: Global) -> Items<AclEntry> {
    let mut acls = Items::new(alloc);
    for _ in 0..128u32 {
        let one = entry(rt, alloc, "g", true, Perm::ENTER, Perm::NONE);
        acls.push(one).expect(rt, "memory");
    }
    acls
}

// The group `g`, which adds account 5.
fn group(rt: &impl Abort, alloc: Global) -> Group {
    let add = Vec::from_slice(alloc, &[AccountId(5)]).expect(rt, "memory");
    Group {
        name: Text::of(alloc, "g").expect(rt, "memory"),
        inherit: true,
        inheritable: true,
        add: Items::from_vec(add),
        remove: Items::new(alloc),
    }
}

// The root has the group and the entries.
fn root_policy(rt: &impl Abort, alloc: Global) -> Edit {
    let mut groups = Items::new(alloc);
    groups.push(group(rt, alloc)).expect(rt, "memory");
    set_policy(ChannelId::ROOT, groups, entries(rt, alloc))
}

// One channel more under the last, with entries.
fn add_channel(rt: &impl Abort, alloc: Global, state: &mut State, last: u32) {
    let id = ChannelId(last.saturating_add(1));
    take(rt, state, make(rt, alloc, id, ChannelId(last), "below"));
    take(
        rt,
        state,
        set_policy(id, Items::new(alloc), entries(rt, alloc)),
    );
}

fn account(rt: &impl Abort, alloc: Global) -> Edit {
    Edit::AddAccount {
        account: AccountId(6),
        name: Text::of(alloc, "ann").expect(rt, "memory"),
        digest: [0; 32],
    }
}

// A path of 33 channels with entries for a group, and a session that is not in it in the deepest.
fn fill(rt: &impl Abort, alloc: Global, state: &mut State) {
    take(rt, state, root_policy(rt, alloc));
    for last in 0..32u32 {
        add_channel(rt, alloc, state, last);
    }
    take(rt, state, account(rt, alloc));
    let own = join(rt, alloc, OWN, Slot(0), "ann", Some(AccountId(6)));
    take(rt, state, own);
    take(rt, state, enter(rt, alloc, OWN, DEEPEST));
}

// Asks for the permission and the route, n times, over the same caches.
fn ask<L: Ledger>(
    rt: &impl Abort,
    blank: Blank,
    state: &State,
    caches: &mut Caches,
    scratch: &mut Scratch,
)
    requires name { blank.name ≡ L.name }
    requires parts { blank.parts ≡ L.parts }
    requires some { 0 < blank.parts }
    requires sound { AreSound state.now caches.old }
{
    let mut steps = Steps::<L>::new(blank);
    let mut audience = Audience::new();
    for _ in 0..TIMES {
        let held = caches.perms.held(state, OWN, DEEPEST, &mut steps);
        assert_eq!(rt; held, Some(Perm(0xB0E)));
        caches.route_at(state, OWN, TALK, scratch, &mut steps, &mut audience);
        assert!(rt; audience.is_empty(), "nobody else is there");
    }
}

// Asks over new caches.
fn ask_over_new_caches(rt: &impl Abort, alloc: Global, state: &State) {
    let mut caches = Caches::new(alloc).expect(rt, "memory");
    let mut scratch = Scratch::new(alloc).expect(rt, "memory");
    nothing_is_sound();
    ask::<Brand>(rt, Blank::new(1), state, &mut caches, &mut scratch);
    drop(scratch);
    drop(caches);
}

#[test]
fn standing_entry_is_not_walked(rt: HostRuntime) {
    let alloc = rt.alloc();
    let mut state = State::empty(alloc).expect(&rt, "memory");
    fill(&rt, alloc, &mut state);
    ask_over_new_caches(&rt, alloc, &state);
    drop(state);
}
