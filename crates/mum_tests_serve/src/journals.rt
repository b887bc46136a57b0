//! Servers that keep a journal: what they write, and that its audit finds it legal.

use crate::client::{Act, SERVER_SYNC, VOICE};
use crate::frames::{ANN, LOOPBACK, TALK};
use crate::lobby::Lobby;
use crate::run::{Outcome, door_of, link, ran_with, turns};
use mum_crew::TurnCrew;
use mum_io::{DoorEvent, LinkEvent, MemDoor};
use std::alloc::Global;
use std::process::Abort;
use std::sync::Wait;
use std::thread::Threads;
use std::time::Clock;

// The words of a run that keeps a journal of one connection.
const WORDS: [&str; 4] = ["serve", "x", "1", "journal"];

// A run that keeps a journal, over a door with this first event. The writes of these numbers to the output fail.
fn journal_of<X>(rt: X, alloc: Global, event: DoorEvent, failing: &[u64]) -> Outcome<MemDoor>
where
    X: Abort + Clock + Copy + Send + Sync + Threads + Wait,
{
    let door = door_of(&rt, alloc, event);
    let mut crew = TurnCrew::new(rt, Vec::new(alloc));
    ran_with(&rt, alloc, &WORDS, "", failing, door, &mut crew)
}

// Where the line of the totals begins, which is the last.
fn totals_at(output: &str) -> usize {
    let bytes = output.as_bytes();
    let mut at = 0;
    for place in 0..bytes.len().saturating_sub(1) {
        if bytes.get(place) == Some(&b'\n') {
            at = place + 1;
        }
    }
    at
}

// What an audit finds of the output of a run without the line of the totals.
fn audit<X>(rt: X, alloc: Global, output: &str) -> Outcome<MemDoor>
where
    X: Abort + Clock + Copy + Send + Sync + Threads + Wait,
{
    let journal = output.get(..totals_at(output)).expect(&rt, "no journal");
    let door = MemDoor::new(alloc, Vec::new(alloc), true).expect(&rt, "memory");
    let mut crew = TurnCrew::new(rt, Vec::new(alloc));
    ran_with(&rt, alloc, &["audit"], journal, &[], door, &mut crew)
}

// Compares what an audit finds of the output of a run.
fn compare_audit<X>(rt: X, alloc: Global, output: &str, line: &str)
where
    X: Abort + Clock + Copy + Send + Sync + Threads + Wait,
{
    let audit = audit(rt, alloc, output);
    assert_eq!(rt; audit.output(), line);
    assert_eq!(rt; audit.status, 0);
    drop(audit);
}

// What is written of a connection: its control entries, the cause of its end, the accepted edits.
fn journal(rt: &impl Abort, alloc: Global, controls: &str, cause: &str, accepted: u64) -> String {
    let journal = format!(in alloc;
        "journal 2\nworkers 4\nlimits 512 2048\nconfig -\n{controls}worker 0\nx 1 {cause}\nworker 1\nworker 2\nworker 3\nend\nserved connections 1 accepted {accepted} looks 0 copies 0 full 0 stale 0\n"
    );
    journal.expect(rt, "memory")
}

// The line of an audit of this many control entries.
fn legal(rt: &impl Abort, alloc: Global, controls: u64) -> String {
    let line = format!(in alloc; "legal controls {controls} voices 0 copies 0 full 0\n");
    line.expect(rt, "memory")
}

#[test]
fn a_link_closes_for_its_cause(rt: HostRuntime) {
    let alloc: Global = rt.alloc();
    // the pieces of a link and its last event, the writes to it that fail; the control entries, the cause, the accepted
    // edits; and how many control entries the audit counts
    let cases: [(&[&[u8]], LinkEvent, &[u64], &str, &str, u64, u64); 6] = [
        (
            &[b"\x00\x00\x00\x80\x00\x00"],
            LinkEvent::End,
            &[],
            "c 1 - leave ignored 8\n",
            "toolong",
            0,
            1,
        ),
        (
            &[b"\x00\x02\x00"],
            LinkEvent::End,
            &[],
            "c 1 - leave ignored 8\n",
            "end",
            0,
            1,
        ),
        (
            &[],
            LinkEvent::Fail,
            &[],
            "c 1 - leave ignored 8\n",
            "fault",
            0,
            1,
        ),
        (
            &[ANN],
            LinkEvent::Fail,
            &[],
            "c 1 - 0002000000050a03616e6e accepted 1\nc 1 - leave accepted 2\n",
            "fault",
            2,
            2,
        ),
        (
            &[b"\x00\x02\x00\x00\x00\x02\x0a\x00"],
            LinkEvent::End,
            &[],
            "c 1 - 0002000000020a00 rejected 2\nc 1 - leave ignored 8\n",
            "rejected",
            0,
            2,
        ),
        // a write that fails
        (
            &[ANN],
            LinkEvent::NotYet,
            &[1],
            "c 1 - 0002000000050a03616e6e accepted 1\nc 1 - leave accepted 2\n",
            "fault",
            2,
            2,
        ),
    ];
    for (pieces, last, failing, controls, cause, accepted, count) in cases {
        let event = DoorEvent::Conn(link(&rt, alloc, pieces, last, failing));
        let outcome = journal_of(rt, alloc, event, &[]);
        let written = journal(&rt, alloc, controls, cause, accepted);
        assert_eq!(rt; outcome.output(), written.as_str());
        assert_eq!(rt; outcome.status, 0);
        drop(outcome);
        compare_audit(
            rt,
            alloc,
            written.as_str(),
            legal(&rt, alloc, count).as_str(),
        );
        drop(written);
    }
}

// The journal of a login and of a packet that its speaker hears.
const HEARD: &str =
    "journal 2\nworkers 4\nlimits 512 2048\nconfig -\nc 1 - 0002000000050a03616e6e accepted 1\nc 1 - leave accepted 2\nworker 0\nv 1 1 9f0103aabbcc 1 1/0/s\nx 1 end\nworker 1\nworker 2\nworker 3\nend\n";

const HEARD_TOTALS: &str = "served connections 1 accepted 2 looks 1 copies 1 full 0 stale 0\n";

// Compares what is written of a login and a packet, where the writes of these numbers to the output fail, the status
// and what is said.
fn compare_heard<X>(rt: X, alloc: Global, failing: &[u64], output: &str, status: u8, said: &str)
where
    X: Abort + Clock + Copy + Send + Sync + Threads + Wait,
{
    let event = DoorEvent::Conn(link(&rt, alloc, &[ANN, LOOPBACK], LinkEvent::End, &[]));
    let outcome = journal_of(rt, alloc, event, failing);
    assert_eq!(rt; outcome.output(), output);
    assert_eq!(rt; outcome.errors(), said);
    assert_eq!(rt; outcome.status, status);
    let _door = outcome.door(&rt);
    drop(outcome);
}

#[test]
fn a_packet_is_in_the_journal(rt: HostRuntime) {
    let alloc: Global = rt.alloc();
    let whole = format!(in alloc; "{HEARD}{HEARD_TOTALS}").expect(&rt, "memory");
    compare_heard(rt, alloc, &[], whole.as_str(), 0, "");
    compare_heard(rt, alloc, &[1], "", 4, "murmur: 4 WriteFault\n");
    compare_heard(rt, alloc, &[2], HEARD, 4, "murmur: 4 WriteFault\n");
    let line = "legal controls 2 voices 1 copies 1 full 0\n";
    compare_audit(rt, alloc, whole.as_str(), line);
}

#[test]
fn a_door_that_fails_at_once(rt: HostRuntime) {
    let outcome = journal_of(rt, rt.alloc(), DoorEvent::Fail, &[]);
    let output =
        "journal 2\nworkers 4\nlimits 512 2048\nconfig -\nworker 0\nworker 1\nworker 2\nworker 3\nend\nserved connections 0 accepted 0 looks 0 copies 0 full 0 stale 0\n";
    assert_eq!(rt; outcome.output(), output);
    assert_eq!(rt; outcome.errors(), "murmur: 8 DoorFault\n");
    assert_eq!(rt; outcome.status, 8);
    drop(outcome);
}

// The first of three clients ends before it takes what the second says, and the third gets its slot.
fn successors(rt: &impl Abort, alloc: Global) -> Lobby {
    let mut lobby = Lobby::new(rt, alloc);
    lobby.invite_with(rt, &[Act::LogIn(0), Act::Hear(SERVER_SYNC), Act::Meet(1)]);
    lobby.invite_with(
        rt,
        &[
            Act::LogIn(1),
            Act::Hear(SERVER_SYNC),
            Act::Settle(40),
            Act::Come,
            Act::Say(TALK),
            Act::Outlive(1),
        ],
    );
    lobby.invite_with(
        rt,
        &[
            Act::Outlive(1),
            Act::LogIn(2),
            Act::Hear(SERVER_SYNC),
            Act::Settle(40),
        ],
    );
    lobby
}

// A run that keeps a journal of the three, whose roles have their turns in the order of this list.
fn succeeded<X>(rt: X, alloc: Global, list: Vec<u8>) -> Outcome<Lobby>
where
    X: Abort + Clock + Copy + Send + Sync + Threads + Wait,
{
    let words = ["serve", "x", "3", "journal"];
    let lobby = successors(&rt, alloc);
    let mut crew = TurnCrew::new(rt, list);
    ran_with(&rt, alloc, &words, "", &[], lobby, &mut crew)
}

// Compares the totals, and that nobody was written the packet.
fn compare_stale(rt: &impl Abort, outcome: &Outcome<Lobby>) {
    let line = "served connections 3 accepted 6 looks 1 copies 1 full 0 stale 1\n";
    let output = outcome.output();
    let totals = output.get(totals_at(output)..).expect(rt, "no totals");
    assert_eq!(rt; totals, line);
    assert_eq!(rt; outcome.status, 0);
    assert_eq!(rt; outcome.door(rt).frames(VOICE), 0);
}

#[test]
fn a_parcel_for_an_earlier_session_is_stale(rt: HostRuntime) {
    let alloc: Global = rt.alloc();
    // rounds; the owner twice in each
    let lists: [&[u8]; 2] = [&[], &[0, 0, 1, 2, 3, 4]];
    let line = "legal controls 6 voices 1 copies 1 full 0\n";
    for pattern in lists {
        let outcome = succeeded(rt, alloc, turns(&rt, alloc, pattern, 200));
        compare_stale(&rt, &outcome);
        compare_audit(rt, alloc, outcome.output(), line);
        drop(outcome);
    }
}
