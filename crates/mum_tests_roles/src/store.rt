//! `mum_owner`: what it offers a store while a client logs in, mutes itself, is denied a channel and leaves.

ghost use Rattle.std.specs.Prelude.{◌≡◌, []};
ghost use Rattle.mum_published.specs.Calls.{appended, latest};

use crate::ends::queues;
use crate::opening::{begin, boxes};
use crate::owner::{Peer, door, talk};
use mum_control::Control;
use mum_crew::Turn;
use mum_io::{Clock, Door, MemClock};
use mum_keeper::StoreItem;
use mum_outbox::{Bell, BoxPass};
use mum_owner::{Owner, Serving};
use mum_published::{Naming, Publisher};
use mum_state::State;
use std::alloc::Global;
use std::marker::{Brand, Model};
use std::mem::drop;
use std::process::Abort;
use std::sync::Wait;

// The bell of a store, at the store.
#[derive(Drop)]
struct Ear<N: Naming> {
    bell: Bell<StoreItem<N>>,
    pass: BoxPass<StoreItem<N>>,
}

impl<N: Naming> Model for Ear<N> {
    ghost use Rattle.std.specs.Prelude.{◌≡◌};
    ghost use Rattle.mum_keeper.specs.declared.item.StoreItem.{StoreItem};
    ghost use Rattle.mum_outbox.specs.Facts.{PassFacts};

    ghost Value = { PassFacts (StoreItem N) };

    ghost view = { λ e. e.pass };

    ghost invariant = { λ e. e.pass.queue ≡ e.bell.queue };
}

impl<N: Naming> Ear<N> {
    fn new(bell: Bell<StoreItem<N>>) -> Ear<N> {
        let mut bell = bell;
        let pass = bell.pass();
        Ear { bell, pass }
    }

    // Puts an item of its own.
    fn put<R: Wait>(&mut self, rt: &R) {
        let _offered = self.bell.offer_as(rt, &mut self.pass, StoreItem::Last);
    }

    // What is next, if anything is: the revision of a note, or 0 where none comes any more.
    fn next<R: Wait>(&mut self, rt: &R) -> Option<u64> {
        match self.bell.take_as(rt, &mut self.pass) {
            Some(StoreItem::Note(item)) => Some(item.note.revision()),
            Some(StoreItem::Last) => Some(0),
            None => None,
        }
    }

    // All that lies there, at most this many items.
    fn all<R: Abort + Wait>(&mut self, rt: &R, alloc: Global, most: u32) -> Vec<u64> {
        let mut heard = Vec::new(alloc);
        for _item in 0..most {
            let Some(one) = self.next(rt) else {
                return heard;
            };
            heard.push(one).expect(rt, "memory");
        }
        heard
    }

    // Puts this many items of its own.
    fn fill<R: Wait>(&mut self, rt: &R, items: u32) {
        for _item in 0..items {
            self.put(rt);
        }
    }
}

// What the store finds once the client has left, where this many other items lay in its bell before. The owner has
// ended only when the bell took that no note comes any more.
fn heard<D: Door, K: Clock, N: Serving, R: Abort + Copy + Wait>(
    rt: &R,
    alloc: Global,
    owner: Owner<'_, D, K, N, R>,
    peer: Peer<D::Conn, N>,
    ear: Ear<N>,
    others: u32,
) -> Vec<u64> {
    let mut owner = owner;
    let mut peer = peer;
    let mut ear = ear;
    ear.fill(rt, others);
    talk(rt, alloc, &mut owner, &mut peer);
    drop(peer);
    if others > 0 {
        assert!(rt; owner.turn() == Turn::Idle, "the bell of the store is full");
    }
    drop(ear.all(rt, alloc, others));
    assert!(rt; owner.turn() == Turn::Done, "the owner has ended");
    drop(owner);
    ear.all(rt, alloc, 8)
}

// The same of an owner over this door, which gives one connection.
fn heard_named<D: Door, N: Serving, R: Abort + Copy + Wait>(
    rt: &R,
    alloc: Global,
    publisher: &mut Publisher,
    state: State,
    door: D,
    others: u32,
) -> Vec<u64>
    requires opening { publisher.old.opening ≡ N.opening }
    requires state { state ≡ latest publisher.old }
    requires fresh { appended publisher.old ≡ [] }
    requires pending { publisher.old.pending ≡ [] }
    requires door { record { counts = (D.facts door).counts; given = (D.facts door).given; opened_at = (D.facts door).opened_at } ≡ N.door }
{
    let boxes = boxes(rt, alloc);
    let control = Control::<N>::open(alloc, state, publisher, boxes).expect(rt, "memory");
    let (desk, bells, ends) = queues::<D::Conn, N>(rt, alloc);
    let mut bell = Bell::new(alloc).expect(rt, "memory");
    let ear = Ear::new(bell.share().expect(rt, "memory"));
    let clock = MemClock::new(Vec::new(alloc));
    match Owner::open(
        *rt,
        alloc,
        control,
        desk,
        bells,
        door,
        clock,
        1,
        false,
        Some(bell),
    ) {
        Ok(owner) => heard(rt, alloc, owner, Peer::new(ends), ear, others),
        Err(_both) => panic!(rt; "memory"),
    }
}

// The same, with the opening of this publisher and what the door has counted.
fn heard_at<D: Door, R: Abort + Copy + Wait>(
    rt: &R,
    alloc: Global,
    publisher: &mut Publisher,
    state: State,
    door: D,
    others: u32,
) -> Vec<u64>
    requires state { state ≡ latest publisher.old }
    requires fresh { appended publisher.old ≡ [] }
    requires pending { publisher.old.pending ≡ [] }
{
    heard_named::<D, Brand, R>(rt, alloc, publisher, state, door, others)
}

// What a store hears in whose bell this many other items lay.
fn heard_behind<R: Abort + Copy + Wait>(rt: &R, alloc: Global, others: u32) -> Vec<u64> {
    let door = door(rt, alloc);
    let (mut publisher, state) = begin(rt, alloc);
    let items = heard_at(rt, alloc, &mut publisher, state, door, others);
    publisher.finish(rt);
    items
}

#[test]
fn a_store_hears_of_each_edit_and_of_the_end(rt: HostRuntime) {
    let items = heard_behind(&rt, rt.alloc(), 0);
    assert_eq!(rt; items.as_slice(), [1, 2, 3, 0].as_slice());
}

#[test]
fn notes_are_left_out_where_the_bell_is_full(rt: HostRuntime) {
    let items = heard_behind(&rt, rt.alloc(), 1024);
    assert_eq!(rt; items.as_slice(), [0].as_slice());
}
