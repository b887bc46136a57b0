//! A login waits for its slot, and its connection ends before.

use crate::client::{Act, SERVER_SYNC, USER_REMOVE, USER_STATE};
use crate::frames::ASK;
use crate::kicks::CONFIGURATION;
use crate::lobby::Lobby;
use crate::run::{Outcome, add_turns, ran_by_turns, turns};
use std::alloc::Global;
use std::process::Abort;

// Kicks the next one, and stays until all others are gone.
const KICKER: [Act; 9] = [
    Act::LogIn(100),
    Act::Hear(SERVER_SYNC),
    Act::Come,
    Act::Meet(2),
    Act::Kick(2),
    Act::Pause(200),
    Act::Come,
    Act::Outlive(2),
    Act::Pause(60),
];

// Is kicked, and takes nothing from then on.
const KICKED: [Act; 6] = [
    Act::Meet(1),
    Act::LogIn(1),
    Act::Hear(SERVER_SYNC),
    Act::BeDeaf(u64::MAX),
    Act::Come,
    Act::Stay,
];

// Logs in where the slot is not free yet, and then its link fails.
const STRAY: [Act; 5] = [
    Act::Meet(3),
    Act::Break(6),
    Act::Say(ASK),
    Act::LogIn(2),
    Act::Stay,
];

fn clients(rt: &impl Abort, alloc: Global) -> Lobby {
    let mut lobby = Lobby::new(rt, alloc);
    lobby.invite_with(rt, &KICKER);
    lobby.invite_with(rt, &KICKED);
    lobby.invite_with(rt, &STRAY);
    lobby
}

// Rounds until the one is there and kicked; then its worker is starved for a while.
fn list(rt: &impl Abort, alloc: Global) -> Vec<u8> {
    let mut list = turns(rt, alloc, &[0, 1, 2, 3], 60);
    add_turns(rt, &mut list, &[0, 1, 3], 600);
    list
}

// Compares what was served, and what the kicker was told: of no third user.
fn compare(rt: &impl Abort, outcome: Outcome<Lobby>) {
    let line = "served connections 3 accepted 4 ";
    assert!(rt;
        outcome.output().starts_with(line),
        "it wrote {}",
        outcome.output()
    );
    let kicker = outcome.door(rt).heard(0).expect(rt, "the kicker stayed");
    assert_eq!(rt;
        (kicker.frames(USER_STATE), kicker.frames(USER_REMOVE)),
        (2, 1)
    );
    drop(outcome);
}

#[test]
fn a_login_whose_connection_ended_is_dropped(rt: HostRuntime) {
    let alloc: Global = rt.alloc();
    let lobby = clients(&rt, alloc);
    let outcome = ran_by_turns(rt, alloc, "3", CONFIGURATION, lobby, list(&rt, alloc));
    compare(&rt, outcome);
}
