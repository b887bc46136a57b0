//! Runs that keep channels.

use crate::frames::{ANN, LOOPBACK};
use crate::run::{Outcome, door_of, link, ran_keeping};
use mum_base::{ChannelId, Octets, Text};
use mum_crew::TurnCrew;
use mum_io::{DoorEvent, LinkEvent, MemDoor};
use mum_keeper::{Change, KeepEnd, Keeper, KeptChannel, MapKeeper};
use mum_tree::ChannelInfo;
use std::alloc::Global;
use std::process::Abort;
use std::sync::Wait;
use std::thread::Threads;
use std::time::Clock;

// The line of the totals of somebody who logs in and is heard once.
const HEARD: &str = "served connections 1 accepted 2 looks 1 copies 1 full 0 stale 0\n";

// Somebody who logs in and speaks to itself.
fn somebody(rt: &impl Abort, alloc: Global) -> MemDoor {
    let link = link(rt, alloc, &[ANN, LOOPBACK], LinkEvent::End, &[]);
    door_of(rt, alloc, DoorEvent::Conn(link))
}

// A keeper without rows whose calls of these numbers fail.
fn keeper(rt: &impl Abort, alloc: Global, failing: &[u64]) -> MapKeeper {
    MapKeeper::new(alloc, Vec::from_slice(alloc, failing).expect(rt, "memory"))
}

// The row of a channel of this number below the root, without a policy.
fn row(rt: &impl Abort, alloc: Global, id: u32) -> KeptChannel {
    KeptChannel {
        id: ChannelId(id),
        parent: ChannelId(0),
        name: Text::of(alloc, "a").expect(rt, "memory"),
        info: ChannelInfo {
            description: Text::empty(alloc),
            position: 0,
            max_users: 0,
        },
        policy: Octets::from_vec(Vec::new(alloc)),
    }
}

fn ran_with_keeper<X>(rt: X, alloc: Global, keeper: MapKeeper) -> Outcome<MemDoor>
where
    X: Abort + Clock + Copy + Send + Sync + Threads + Wait,
{
    let mut crew = TurnCrew::new(rt, Vec::new(alloc));
    let words = ["serve", "x", "1", "keep", "p"];
    ran_keeping(&rt, alloc, &words, somebody(&rt, alloc), keeper, &mut crew)
}

#[test]
fn a_keeper_that_does_not_open_is_a_fault(rt: HostRuntime) {
    let alloc: Global = rt.alloc();
    let outcome = ran_with_keeper(rt, alloc, keeper(&rt, alloc, &[1]));
    assert_eq!(&rt; outcome.errors(), "murmur: 12 KeeperFault\n");
    assert_eq!(&rt; (outcome.status, outcome.output()), (12, ""));
    drop(outcome);
}

#[test]
fn rows_without_the_root_are_a_bad_store(rt: HostRuntime) {
    let alloc: Global = rt.alloc();
    let mut keeper = keeper(&rt, alloc, &[]);
    let mut changes = Vec::new(alloc);
    changes
        .push(Change::Put(row(&rt, alloc, 1)))
        .expect(&rt, "memory");
    assert_eq!(&rt; keeper.keep(&changes), KeepEnd::Kept);
    drop(changes);
    let outcome = ran_with_keeper(rt, alloc, keeper);
    assert_eq!(&rt; outcome.errors(), "murmur: 13 BadStore\n");
    assert_eq!(&rt; (outcome.status, outcome.output()), (13, ""));
    drop(outcome);
}

#[test]
fn a_keeper_has_the_root_in_the_end(rt: HostRuntime) {
    let alloc: Global = rt.alloc();
    let outcome = ran_with_keeper(rt, alloc, keeper(&rt, alloc, &[]));
    assert_eq!(&rt; (outcome.status, outcome.output()), (0, HEARD));
    let kept = outcome.keeper(&rt);
    let [root] = kept.channels() else {
        panic!(&rt; "there are {} channels", kept.channels().len())
    };
    assert_eq!(&rt;
        (root.id.0, root.parent.0, root.name.as_str()),
        (0, 0, "Root")
    );
    assert!(&rt; kept.links().is_empty());
    let path = kept.path().expect(&rt, "no path");
    assert_eq!(&rt; path.as_slice(), b"p".as_slice());
    drop(outcome);
}

#[test]
fn a_call_that_failed_is_said_in_the_end(rt: HostRuntime) {
    let alloc: Global = rt.alloc();
    let outcome = ran_with_keeper(rt, alloc, keeper(&rt, alloc, &[3]));
    assert_eq!(&rt; outcome.errors(), "murmur: 12 KeeperFault\n");
    assert_eq!(&rt; (outcome.status, outcome.output()), (12, HEARD));
    assert_eq!(&rt; outcome.keeper(&rt).channels().len(), 1);
    drop(outcome);
}

#[test]
fn without_the_word_the_keeper_is_not_called(rt: HostRuntime) {
    let alloc: Global = rt.alloc();
    let mut crew = TurnCrew::new(rt, Vec::new(alloc));
    let keeper = keeper(&rt, alloc, &[1]);
    let words = ["serve", "x", "1"];
    let door = somebody(&rt, alloc);
    let outcome = ran_keeping(&rt, alloc, &words, door, keeper, &mut crew);
    assert_eq!(&rt; (outcome.status, outcome.output()), (0, HEARD));
    let kept = outcome.keeper(&rt);
    assert!(&rt; kept.path().is_none());
    assert!(&rt; kept.channels().is_empty());
    drop(outcome);
}
