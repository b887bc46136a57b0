//! Connections without talk, with a packet, and one after another; a door, a configuration and a crew that fail.

use crate::client::{Act, SERVER_SYNC, VOICE};
use crate::frames::{ANN, BOB, LOOPBACK};
use crate::lobby::Lobby;
use crate::run::{NoThreads, Outcome, door_of, link, ran, ran_by_turns};
use mum_io::{DoorEvent, LinkEvent, MemDoor};
use std::alloc::Global;
use std::process::Abort;

// A client that sends these pieces, and then ends.
fn client(rt: &impl Abort, alloc: Global, pieces: &[&[u8]]) -> DoorEvent {
    DoorEvent::Conn(link(rt, alloc, pieces, LinkEvent::End, &[]))
}

// Compares the status, what was written and what was said. The door is back.
fn compare(rt: &impl Abort, outcome: Outcome<MemDoor>, status: u8, output: &str, errors: &str) {
    assert_eq!(rt; outcome.output(), output);
    assert_eq!(rt; outcome.errors(), errors);
    assert_eq!(rt; outcome.status, status);
    let _door = outcome.door(rt);
    drop(outcome);
}

#[test]
fn a_fault_has_its_status_and_its_line(rt: HostRuntime) {
    let alloc: Global = rt.alloc();
    // the configuration, whether the door opens, the status, the line
    let cases = [
        (
            "{\"workers\":9}",
            true,
            6,
            "murmur: 6 BadConfig 64 workers\n",
        ),
        ("", false, 8, "murmur: 8 DoorFault\n"),
    ];
    for (configuration, opens, status, line) in cases {
        let door = MemDoor::new(alloc, Vec::new(alloc), opens).expect(&rt, "memory");
        let outcome = ran_by_turns(rt, alloc, "1", configuration, door, Vec::new(alloc));
        compare(&rt, outcome, status, "", line);
    }
}

// A door that gives a client, fails, and has one more.
fn failing_door(rt: &impl Abort, alloc: Global) -> MemDoor {
    let mut events = Vec::new(alloc);
    events
        .push(client(rt, alloc, &[ANN, LOOPBACK]))
        .expect(rt, "memory");
    events.push(DoorEvent::NotYet).expect(rt, "memory");
    events.push(DoorEvent::Fail).expect(rt, "memory");
    events.push(client(rt, alloc, &[BOB])).expect(rt, "memory");
    MemDoor::new(alloc, events, true).expect(rt, "memory")
}

#[test]
fn a_door_that_fails_on_the_way(rt: HostRuntime) {
    let alloc: Global = rt.alloc();
    let door = failing_door(&rt, alloc);
    let outcome = ran_by_turns(rt, alloc, "3", "", door, Vec::new(alloc));
    // who came before is served to the end, and nobody is taken in afterwards
    let line = "served connections 1 accepted 2 looks 1 copies 1 full 0 stale 0\n";
    compare(&rt, outcome, 8, line, "murmur: 8 DoorFault\n");
}

#[test]
fn a_crew_that_does_not_start(rt: HostRuntime) {
    let alloc: Global = rt.alloc();
    let mut crew = NoThreads::new(rt);
    let door = door_of(&rt, alloc, client(&rt, alloc, &[ANN]));
    let outcome = ran(&rt, alloc, "1", "", door, &mut crew);
    compare(&rt, outcome, 9, "", "murmur: 9 CrewFault\n");
}

#[test]
fn one_connection(rt: HostRuntime) {
    let alloc: Global = rt.alloc();
    let silent = "served connections 1 accepted 0 looks 0 copies 0 full 0 stale 0\n";
    let heard = "served connections 1 accepted 2 looks 1 copies 1 full 0 stale 0\n";
    // the list of turns, what the client sends, what is written. Rounds; the owner first; a worker starved for a while
    let cases: [(&[u8], &[&[u8]], &str); 6] = [
        (&[], &[], silent),
        (&[], &[ANN, LOOPBACK], heard),
        (&[0, 0, 0, 0, 0, 0, 0, 0], &[], silent),
        (&[0, 0, 0, 0, 0, 0, 0, 0], &[ANN, LOOPBACK], heard),
        (&[1, 0, 0, 2, 3, 4, 0, 2, 3, 4, 0, 0], &[], silent),
        (
            &[1, 0, 0, 2, 3, 4, 0, 2, 3, 4, 0, 0],
            &[ANN, LOOPBACK],
            heard,
        ),
    ];
    for (list, pieces, line) in cases {
        let list = Vec::from_slice(alloc, list).expect(&rt, "memory");
        let door = door_of(&rt, alloc, client(&rt, alloc, pieces));
        let outcome = ran_by_turns(rt, alloc, "1", "", door, list);
        compare(&rt, outcome, 0, line, "");
    }
}

// How many clients log in, one after another.
const LOGINS: u8 = 130;

// Logs in once those before it have left, and hears itself.
fn visitor(user: u8) -> [Act; 5] {
    [
        Act::Outlive(u64::from(user)),
        Act::LogIn(user),
        Act::Hear(SERVER_SYNC),
        Act::Say(LOOPBACK),
        Act::Hear(VOICE),
    ]
}

fn visitors(rt: &impl Abort, alloc: Global) -> Lobby {
    let mut lobby = Lobby::new(rt, alloc);
    for user in 0..LOGINS {
        lobby.invite_with(rt, &visitor(user));
    }
    lobby
}

#[test]
fn a_slot_is_taken_by_one_login_after_another(rt: HostRuntime) {
    let alloc: Global = rt.alloc();
    let lobby = visitors(&rt, alloc);
    let outcome = ran_by_turns(rt, alloc, "130", "", lobby, Vec::new(alloc));
    let line = "served connections 130 accepted 260 looks 130 copies 130 full 0 stale 0\n";
    assert_eq!(rt; outcome.output(), line);
    assert_eq!(rt; outcome.status, 0);
    drop(outcome);
}
