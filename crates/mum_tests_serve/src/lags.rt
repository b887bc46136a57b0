//! Clients that read nothing.

use crate::client::{Act, PING, SERVER_SYNC};
use crate::frames::{ASK, MUTE, UNMUTE};
use crate::lobby::Lobby;
use crate::run::{Outcome, ran_by_turns, turns};
use std::alloc::Global;
use std::process::Abort;

// How many clients read nothing, and log in later.
const CLIENTS: u8 = 7;

// The most parcels that a post box holds.
const CAPACITY: u32 = 8192;

// Changes itself as often as a post box has places, once those who read nothing are there.
fn changer(rt: &impl Abort, alloc: Global) -> Vec<Act> {
    let mut acts = Vec::new(alloc);
    let first = [Act::LogIn(CLIENTS), Act::Meet(7)];
    acts.extend_from_slice(&first).expect(rt, "memory");
    for _ in 0..CAPACITY / 2 {
        let change = [Act::Say(MUTE), Act::Say(UNMUTE)];
        acts.extend_from_slice(&change).expect(rt, "memory");
    }
    let last = [Act::Outlive(7), Act::Meet(14)];
    acts.extend_from_slice(&last).expect(rt, "memory");
    acts
}

// Takes nothing that is written, and stays.
fn deaf(user: u8) -> [Act; 4] {
    [
        Act::BeDeaf(u64::MAX),
        Act::LogIn(user),
        Act::Come,
        Act::Stay,
    ]
}

// Logs in once those who read nothing are gone, and asks whether it is heard.
fn newcomer(user: u8) -> [Act; 8] {
    [
        Act::Outlive(7),
        Act::Pause(100),
        Act::LogIn(user),
        Act::Hear(SERVER_SYNC),
        Act::Say(ASK),
        Act::Hear(PING),
        Act::Come,
        Act::Pause(100),
    ]
}

fn clients(rt: &impl Abort, alloc: Global) -> Lobby {
    let mut lobby = Lobby::new(rt, alloc);
    for user in 0..CLIENTS {
        lobby.invite_with(rt, &deaf(user));
    }
    lobby.invite(rt, changer(rt, alloc));
    for user in 0..CLIENTS {
        lobby.invite_with(rt, &newcomer(10 + user));
    }
    lobby
}

// Compares what was served: the one who changes and all who came later were heard to their end.
fn compare(rt: &impl Abort, outcome: Outcome<Lobby>) {
    let line = "served connections 15 accepted 8222 looks 0 copies 0 full 0 stale ";
    assert!(rt;
        outcome.output().starts_with(line),
        "it wrote {}",
        outcome.output()
    );
    assert_eq!(rt; outcome.status, 0);
    let door = outcome.door(rt);
    assert_eq!(rt; (door.are_through(), door.frames(PING)), (8, 7));
    drop(outcome);
}

#[test]
fn who_reads_nothing_leaves_a_slot_as_it_was(rt: HostRuntime) {
    let alloc: Global = rt.alloc();
    // what the list of turns repeats, and how often. A change takes two turns of a worker, and makes eight notices.
    // Rounds; one worker starved for a while
    let cases: [(&[u8], usize); 2] = [
        (&[0, 0, 0, 0, 1, 2, 3, 4], 17_000),
        (&[0, 0, 0, 0, 1, 2, 4, 0, 0, 0, 0, 1, 2, 3, 4], 9000),
    ];
    for (pattern, times) in cases {
        let list = turns(&rt, alloc, pattern, times);
        let outcome = ran_by_turns(rt, alloc, "15", "", clients(&rt, alloc), list);
        compare(&rt, outcome);
    }
}
