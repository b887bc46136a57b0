//! Users who mute themselves, and no longer, as fast as they are answered.

use crate::client::{Act, SERVER_SYNC};
use crate::frames::{MUTE, UNMUTE};
use crate::lobby::Lobby;
use crate::run::{Outcome, ran_by_turns, turns};
use std::alloc::Global;
use std::process::Abort;

// How many users there are. Each change of one is told to all of them.
const USERS: u8 = 128;

// More notices than these never wait to be posted when a command is taken.
const PENDING: u64 = 16_384;

// Logs in, waits until all have been told of all, and changes itself twice.
fn changer(user: u8) -> [Act; 12] {
    let all = u64::from(USERS);
    [
        Act::LogIn(user),
        Act::Hear(SERVER_SYNC),
        Act::Come,
        Act::Meet(all),
        Act::Settle(100),
        Act::Begin,
        Act::Come,
        Act::Meet(2 * all),
        Act::Change(MUTE, all),
        Act::Change(UNMUTE, all),
        Act::Come,
        Act::Meet(3 * all),
    ]
}

fn changers(rt: &impl Abort, alloc: Global) -> Lobby {
    let mut lobby = Lobby::new(rt, alloc);
    for user in 0..USERS {
        lobby.invite_with(rt, &changer(user));
    }
    lobby
}

// Many turns of the owner, and one of each worker, again and again.
fn owner_first(rt: &impl Abort, alloc: Global) -> Vec<u8> {
    let mut pattern = [0; 68];
    pattern[64..].copy_from_slice(&[1, 2, 3, 4]);
    turns(rt, alloc, &pattern, 4000)
}

// Compares what was served, and how many messages were owed.
fn compare(rt: &impl Abort, outcome: Outcome<Lobby>) {
    let line = "served connections 128 accepted 512 looks 0 copies 0 full 0 stale 0\n";
    assert_eq!(rt; outcome.output(), line);
    assert_eq!(rt; outcome.status, 0);
    let door = outcome.door(rt);
    assert_eq!(rt; (door.are_through(), door.room().answered()), (128, 256));
    // those of the command that was taken last, and what is on its way
    let most = door.room().most_owed();
    assert!(rt;
        PENDING < most && most <= PENDING + 3 * 128,
        "{most} were owed"
    );
    drop(outcome);
}

#[test]
fn pending_notices_are_bounded(rt: HostRuntime) {
    let alloc: Global = rt.alloc();
    let lobby = changers(&rt, alloc);
    let outcome = ran_by_turns(rt, alloc, "128", "", lobby, owner_first(&rt, alloc));
    compare(&rt, outcome);
}
