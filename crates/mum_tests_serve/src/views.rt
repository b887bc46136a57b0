//! Runs with a second door, for views.

use crate::frames::ANN;
use crate::run::{Outcome, TestDoor, door_of, link, ran_over, ran_with};
use mum_crew::TurnCrew;
use mum_io::{DoorEvent, LinkEvent, MemDoor};
use std::alloc::Global;
use std::process::Abort;
use std::sync::Wait;
use std::thread::Threads;
use std::time::Clock;

// The line of the totals of one connection that did nothing.
const SERVED: &str = "served connections 1 accepted 0 looks 0 copies 0 full 0 stale 0\n";

// The view of a server of which nothing is known yet.
const NOBODY: &str =
    "{\"channels\":[{\"id\":0,\"links\":[],\"name\":\"Root\",\"parent\":null,\"temporary\":false}],\"revision\":0,\"users\":[]}\n";

// A door that gives one link, which ends after these pieces and whose writes of these numbers fail.
fn one_link(rt: &impl Abort, alloc: Global, pieces: &[&[u8]], failing: &[u64]) -> MemDoor {
    door_of(
        rt,
        alloc,
        DoorEvent::Conn(link(rt, alloc, pieces, LinkEvent::End, failing)),
    )
}

// Runs these words over two doors on the calling thread.
fn ran_over_turns<X>(
    rt: X,
    alloc: Global,
    words: &[&str],
    doors: (MemDoor, MemDoor),
) -> Outcome<MemDoor>
where
    X: Abort + Clock + Copy + Send + Sync + Threads + Wait,
{
    let mut crew = TurnCrew::new(rt, Vec::new(alloc));
    ran_over(&rt, alloc, words, "", &[], doors, &mut crew)
}

// What was written to the only link of the door of the views.
fn written<'a>(rt: &impl Abort, outcome: &'a Outcome<MemDoor>) -> &'a [u8] {
    match outcome.view(rt).written(0) {
        Some(bytes) => bytes.as_slice(),
        None => &[],
    }
}

// What is written behind the totals.
fn last_line<'a>(rt: &impl Abort, outcome: &'a Outcome<MemDoor>) -> &'a str {
    outcome
        .output()
        .strip_prefix(SERVED)
        .expect(rt, "other totals")
}

#[test]
fn a_view_is_written_whole_and_counted(rt: HostRuntime) {
    let alloc: Global = rt.alloc();
    let doors = (
        one_link(&rt, alloc, &[], &[]),
        one_link(&rt, alloc, &[], &[]),
    );
    let words = ["serve", "x", "1", "view", "y", "1"];
    let outcome = ran_over_turns(rt, alloc, &words, doors);
    assert_eq!(&rt; outcome.status, 0);
    assert_eq!(&rt; last_line(&rt, &outcome), "viewed 1\n");
    assert_eq!(&rt; written(&rt, &outcome), NOBODY.as_bytes());
    drop(outcome);
}

#[test]
fn a_view_whose_link_fails_is_not_counted(rt: HostRuntime) {
    let alloc: Global = rt.alloc();
    let doors = (
        one_link(&rt, alloc, &[], &[]),
        one_link(&rt, alloc, &[], &[1]),
    );
    let words = ["serve", "x", "1", "view", "y", "1"];
    let outcome = ran_over_turns(rt, alloc, &words, doors);
    assert_eq!(&rt; outcome.status, 0);
    assert_eq!(&rt; last_line(&rt, &outcome), "viewed 0\n");
    assert!(&rt; written(&rt, &outcome).is_empty());
    drop(outcome);
}

#[test]
fn without_views_their_door_is_not_opened(rt: HostRuntime) {
    let alloc: Global = rt.alloc();
    let door = one_link(&rt, alloc, &[], &[]);
    let mut crew = TurnCrew::new(rt, Vec::new(alloc));
    let shut = MemDoor::new(alloc, Vec::new(alloc), false).expect(&rt, "memory");
    let outcome = ran_over(
        &rt,
        alloc,
        &["serve", "x", "1"],
        "",
        &[],
        (door, shut),
        &mut crew,
    );
    assert_eq!(&rt; outcome.status, 0);
    assert_eq!(&rt; outcome.output(), SERVED);
    drop(outcome);
}

#[test]
fn a_door_for_views_that_does_not_open_is_a_fault(rt: HostRuntime) {
    let alloc: Global = rt.alloc();
    let shut = MemDoor::new(alloc, Vec::new(alloc), false).expect(&rt, "memory");
    let doors = (one_link(&rt, alloc, &[ANN], &[]), shut);
    let words = ["serve", "x", "1", "view", "y", "1"];
    let outcome = ran_over_turns(rt, alloc, &words, doors);
    assert_eq!(&rt; outcome.status, 8);
    assert_eq!(&rt; outcome.output(), "");
    assert_eq!(&rt; outcome.errors(), "murmur: 8 DoorFault\n");
    drop(outcome);
}

#[test]
fn other_words_behind_serve_are_no_command(rt: HostRuntime) {
    let alloc: Global = rt.alloc();
    let lists: [&[&str]; 8] = [
        &["serve", "x", "1", "view", "y"],
        &["serve", "x", "1", "view", "", "1"],
        &["serve", "x", "1", "view", "y", "0"],
        &["serve", "x", "1", "view", "y", "1000001"],
        &["serve", "x", "1", "view", "y", "1", "journal"],
        &["serve", "x", "1", "keep", ""],
        &["serve", "x", "1", "journal", "keep", "p"],
        &["serve", "x", "1", "keep", "p", "view", "y", "1"],
    ];
    for words in lists {
        let mut crew = TurnCrew::new(rt, Vec::new(alloc));
        let door = MemDoor::empty(&rt, alloc);
        let outcome = ran_with(&rt, alloc, words, "", &[], door, &mut crew);
        assert_eq!(&rt; outcome.status, 1);
        assert_eq!(&rt; outcome.output(), "");
        drop(outcome);
    }
}
