//! A user is kicked, and another one logs in, sooner or later.

ghost use Rattle.std.specs.Prelude.{◌≤◌};

use crate::client::{
    Act, CHANNEL_STATE, CODEC_VERSION, SERVER_SYNC, USER_REMOVE, USER_STATE, VERSION,
};
use crate::ear::Heard;
use crate::lobby::Lobby;
use crate::run::{Outcome, ran_by_turns, turns};
use std::alloc::Global;
use std::process::Abort;

/// Whoever is there may kick. Of three workers each next connection has the next one.
pub const CONFIGURATION: &str =
    "{\"workers\":3,\"channels\":[{\"id\":0,\"acls\":[{\"group\":\"all\",\"grant\":65536}]}]}";

// How many users are kicked, one after another. With each of them somebody logs in one read later than with the one
// before.
const KICKS: u8 = 40;

// How often clients have come to a meeting when the pair of this number begins.
fn begins(pair: u8) -> u64
    ensures { result ≤ 766 }
{
    1 + 3 * u64::from(pair)
}

// Kicks the first user of each pair, and waits until the second one has left too.
fn kicker(rt: &impl Abort, alloc: Global) -> Vec<Act> {
    let mut acts = Vec::new(alloc);
    let first = [Act::LogIn(100), Act::Hear(SERVER_SYNC), Act::Come];
    acts.extend_from_slice(&first).expect(rt, "memory");
    for pair in 0..KICKS {
        let kick = [
            Act::Meet(begins(pair) + 1),
            Act::Kick(2 + 2 * pair),
            Act::Meet(begins(pair) + 2),
            Act::Outlive(2 + 2 * u64::from(pair)),
            Act::Pause(60),
            Act::Come,
        ];
        acts.extend_from_slice(&kick).expect(rt, "memory");
    }
    acts
}

// Logs in, and is kicked. One who is deaf takes nothing from then on until the other one of the pair is there.
fn kicked(pair: u8, is_deaf: bool) -> [Act; 6] {
    let until = if is_deaf { begins(pair) + 2 } else { 0 };
    [
        Act::Meet(begins(pair)),
        Act::LogIn(pair.saturating_mul(2)),
        Act::Hear(SERVER_SYNC),
        Act::BeDeaf(until),
        Act::Come,
        Act::Stay,
    ]
}

// Logs in this many reads after the first one of the pair, and stays for a while.
fn newcomer(pair: u8, reads: u32) -> [Act; 6] {
    [
        Act::Meet(begins(pair) + 1),
        Act::Pause(reads),
        Act::LogIn(pair.saturating_mul(2).saturating_add(1)),
        Act::Hear(SERVER_SYNC),
        Act::Come,
        Act::Pause(20),
    ]
}

fn clients(rt: &impl Abort, alloc: Global, are_deaf: bool) -> Lobby {
    let mut lobby = Lobby::new(rt, alloc);
    lobby.invite(rt, kicker(rt, alloc));
    for pair in 0..KICKS {
        lobby.invite_with(rt, &kicked(pair, are_deaf));
        lobby.invite_with(rt, &newcomer(pair, u32::from(pair)));
    }
    lobby
}

// Whether it was told all that there was when it came: the two users who were there, or also the one who was still
// to be kicked.
fn is_whole(newcomer: Option<Heard>) -> bool {
    let Some(heard) = newcomer else {
        return false;
    };
    let removed = heard.frames(USER_REMOVE);
    let first = heard.frames(VERSION) == 1 && heard.frames(CODEC_VERSION) == 1;
    let last = heard.frames(CHANNEL_STATE) == 1 && heard.frames(SERVER_SYNC) == 1;
    let users = heard.frames(USER_STATE);
    heard.is_through && first && last && removed < 2 && users.checked_sub(removed) == Some(2)
}

// Whether it was there until it was closed, and was not told twice that it was removed.
fn is_kicked(user: Option<Heard>) -> bool {
    let Some(heard) = user else {
        return false;
    };
    heard.frames(SERVER_SYNC) == 1 && heard.frames(USER_REMOVE) < 2 && !heard.is_through
}

// The first pair of which one was not told what it should have been.
fn first_wrong(lobby: &Lobby) -> Option<u8> {
    for pair in 0..KICKS {
        let place = 1 + 2 * usize::from(pair);
        let kicked = is_kicked(lobby.heard(place));
        let whole = is_whole(lobby.heard(place + 1));
        if !kicked || !whole {
            return Some(pair);
        }
    }
    None
}

// Whether the one who was kicked long before somebody else logged in was told so.
fn is_last_told(lobby: &Lobby) -> bool {
    match lobby.heard(2 * usize::from(KICKS) - 1) {
        Some(heard) => heard.frames(USER_REMOVE) == 1,
        None => false,
    }
}

// Compares what was served, and what each client was told.
fn compare(rt: &impl Abort, outcome: Outcome<Lobby>, are_deaf: bool) {
    let line = "served connections 81 accepted 162 looks 0 copies 0 full 0 stale ";
    assert!(rt; outcome.output().starts_with(line));
    assert_eq!(rt; outcome.status, 0);
    let door = outcome.door(rt);
    assert_eq!(rt; first_wrong(door), None, "deaf {are_deaf}");
    assert_eq!(rt; is_last_told(door), !are_deaf);
    let kicker = door.heard(0).expect(rt, "the kicker stayed");
    assert_eq!(rt;
        (kicker.frames(USER_STATE), kicker.frames(USER_REMOVE)),
        (81, 80)
    );
    drop(outcome);
}

#[test]
fn a_slot_has_one_user_at_a_time(rt: HostRuntime) {
    let alloc: Global = rt.alloc();
    // what the list of turns repeats, and how often; whether those who are kicked take nothing.
    // Rounds; the owner first; one worker starved for a while
    let cases: [(&[u8], usize, bool); 6] = [
        (&[], 0, false),
        (&[], 0, true),
        (&[0, 0, 0, 1, 2, 3], 2000, false),
        (&[0, 0, 0, 1, 2, 3], 2000, true),
        (&[0, 1, 3, 0, 1, 3, 0, 1, 3, 0, 1, 2, 3], 2000, false),
        (&[0, 1, 3, 0, 1, 3, 0, 1, 3, 0, 1, 2, 3], 2000, true),
    ];
    for (pattern, times, are_deaf) in cases {
        let list = turns(&rt, alloc, pattern, times);
        let lobby = clients(&rt, alloc, are_deaf);
        let outcome = ran_by_turns(rt, alloc, "81", CONFIGURATION, lobby, list);
        compare(&rt, outcome, are_deaf);
    }
}
