//! Clients that talk all at once.

use crate::client::{Act, SERVER_SYNC, VOICE};
use crate::frames::TALK;
use crate::lobby::Lobby;
use crate::run::{Outcome, ran_by_turns, turns};
use std::alloc::Global;
use std::process::Abort;

const CLIENTS: u8 = 20;

// Logs in, speaks this many packets once all are there, and stays until it heard what the others spoke.
fn talker(rt: &impl Abort, alloc: Global, user: u8, packets: u64) -> Vec<Act> {
    let all = u64::from(CLIENTS);
    let first = [
        Act::LogIn(user),
        Act::Hear(SERVER_SYNC),
        Act::Come,
        Act::Meet(all),
    ];
    let last = [Act::Come, Act::Meet(2 * all), Act::Settle(200)];
    let mut acts = Vec::new(alloc);
    acts.extend_from_slice(&first).expect(rt, "memory");
    for _ in 0..packets {
        acts.push(Act::Say(TALK)).expect(rt, "memory");
    }
    acts.extend_from_slice(&last).expect(rt, "memory");
    acts
}

fn talkers(rt: &impl Abort, alloc: Global, packets: u64) -> Lobby {
    let mut lobby = Lobby::new(rt, alloc);
    for user in 0..CLIENTS {
        lobby.invite(rt, talker(rt, alloc, user, packets));
    }
    lobby
}

// The line of a run in which each client spoke this many packets, and this many copies were heard.
fn line(rt: &impl Abort, alloc: Global, packets: u64, heard: u64) -> String {
    let all = u64::from(CLIENTS);
    let looks = all.saturating_mul(packets);
    let full = looks.saturating_mul(all - 1).saturating_sub(heard);
    let line = format!(in alloc;
        "served connections {all} accepted 40 looks {looks} copies {heard} full {full} stale 0\n"
    );
    line.expect(rt, "memory")
}

// Compares what was copied with what was heard, and whether boxes were full.
fn compare(rt: &impl Abort, alloc: Global, outcome: Outcome<Lobby>, packets: u64, is_full: bool) {
    let heard = outcome.door(rt).frames(VOICE);
    let line = line(rt, alloc, packets, heard);
    assert_eq!(rt; outcome.status, 0);
    assert_eq!(rt; outcome.output(), line.as_str());
    assert_eq!(rt;
        heard < packets.saturating_mul(380),
        is_full,
        "of {packets} packets"
    );
    assert_eq!(rt; outcome.door(rt).are_through(), 20);
    drop(outcome);
}

#[test]
fn what_is_copied_is_heard(rt: HostRuntime) {
    let alloc: Global = rt.alloc();
    // what the list of turns repeats, and how often; the packets of each client; whether boxes were full.
    // Rounds; the owner first; two workers starved for a while
    let cases: [(&[u8], usize, u64, bool); 6] = [
        (&[], 0, 6, false),
        (&[0, 0, 0, 1, 2, 3, 4], 100, 6, false),
        (&[0, 1, 3, 0, 1, 3, 0, 1, 2, 3, 4], 100, 6, false),
        (&[], 0, 40, true),
        (&[0, 0, 0, 1, 2, 3, 4], 100, 40, true),
        (&[0, 1, 3, 0, 1, 3, 0, 1, 2, 3, 4], 100, 40, true),
    ];
    for (pattern, times, packets, is_full) in cases {
        let list = turns(&rt, alloc, pattern, times);
        let lobby = talkers(&rt, alloc, packets);
        let outcome = ran_by_turns(rt, alloc, "20", "", lobby, list);
        compare(&rt, alloc, outcome, packets, is_full);
    }
}
