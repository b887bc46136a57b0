//! `mum_outbox`: threads that offer and take at once, and queues that are full.

ghost use Rattle.std.specs.Prelude.{◌≡◌};

use mum_base::{POST_CAPACITY, VOICE_CAPACITY};
use mum_outbox::{Bell, BoxPass, Desk, Offered, Queue};
use mum_parcel::{PostBox, VoiceBox, capacities};
use std::marker::Brand;
use std::process::Abort;
use std::sync::Wait;
use std::thread;
use std::thread::Threads;

// The items that each of two threads offers.
const PARCELS: u32 = 500;

// The items that a third takes meanwhile. The others fit into the outbox.
const TAKEN: u32 = 900;

// An item with its number, and the turn in which it is offered.
#[derive(Clone, Copy, Debug, Drop)]
struct Item {
    number: u32,
    turn: u32,
}

// A queue of the capacity of a voice outbox, and one of that of a post outbox.
type SmallQueue = Queue<Item, VOICE_CAPACITY>;

type LargeQueue = Queue<Item, POST_CAPACITY>;

// How many items came of each of two passes, and whether each came in its turn.
#[derive(Clone, Copy, Debug, Drop, PartialEq)]
struct Came {
    first: u32,
    second: u32,
    in_turn: bool,
}

impl Came {
    fn with(self, item: Item) -> Came {
        match item.number {
            1 => Came {
                first: self.first.wrapping_add(1),
                second: self.second,
                in_turn: self.in_turn && item.turn == self.first,
            },
            _ => Came {
                first: self.first,
                second: self.second.wrapping_add(1),
                in_turn: self.in_turn && item.turn == self.second,
            },
        }
    }
}

// Offers each item until it is sent.
fn offer_all<R: Wait>(rt: &R, outbox: &SmallQueue, mut pass: BoxPass<Item>, number: u32)
    requires { pass.queue ≡ outbox.now.queue }
{
    let mut turn = 0;
    for _ in rt.forever() {
        if turn >= PARCELS {
            break;
        }
        match outbox.offer_as(rt, &mut pass, Item { number, turn }) {
            Offered::Sent => turn += 1,
            Offered::Full(_) => thread::yield_now(),
        }
    }
}

// Takes n items, waiting for each.
fn take_some<R: Wait>(
    rt: &R,
    outbox: &SmallQueue,
    mut pass: BoxPass<Item>,
    mut came: Came,
    count: u32,
) -> Came
    requires { pass.queue ≡ outbox.now.queue }
{
    let mut taken = 0;
    for _ in rt.forever() {
        if taken >= count {
            break;
        }
        match outbox.take_as(rt, &mut pass) {
            Some(item) => {
                came = came.with(item);
                taken += 1;
            }
            None => thread::yield_now(),
        }
    }
    came
}

// Two threads offer while a third takes. What the third took.
fn taken_meanwhile<R>(rt: R, outbox: &mut SmallQueue) -> Came
where
    R: Abort + Copy + Send + Threads + Wait + 'static,
{
    let one = outbox.share().expect(&rt, "memory");
    let two = outbox.share().expect(&rt, "memory");
    let three = outbox.share().expect(&rt, "memory");
    let (first, second, third) = (outbox.pass(), outbox.pass(), outbox.pass());
    let none = Came {
        first: 0,
        second: 0,
        in_turn: true,
    };
    let offers = thread::spawn(&rt, move || offer_all(&rt, &one, first, 1)).expect(&rt, "a thread");
    let others = thread::spawn(&rt, move || offer_all(&rt, &two, second, 2)).expect(
        &rt, "a thread",
    );
    let takes = thread::spawn(&rt, move || take_some(&rt, &three, third, none, TAKEN)).expect(
        &rt, "a thread",
    );
    offers.join(&rt);
    others.join(&rt);
    takes.join(&rt)
}

#[test]
fn each_item_is_taken_or_left_once_in_its_turn(rt: HostRuntime) {
    let mut outbox = SmallQueue::new(rt.alloc()).expect(&rt, "memory");
    let taken = taken_meanwhile(rt, &mut outbox);
    let last = outbox.pass();
    let all = take_some(&rt, &outbox, last, taken, 2 * PARCELS - TAKEN);
    assert_eq!(rt;
        (all.first, all.second, all.in_turn),
        (PARCELS, PARCELS, true)
    );
    let mut after = outbox.pass();
    assert!(rt; outbox.take_as(&rt, &mut after).is_none());
}

// Offers items with numbers from 0 until the queue is full, and gives the number that came back.
fn fill<const CAPACITY: usize, R: Wait>(
    rt: &R,
    queue: &Queue<Item, CAPACITY>,
    pass: &mut BoxPass<Item>,
) -> Option<u32>
    requires { pass.old.queue ≡ queue.now.queue }
    ensures { pass.new.queue ≡ pass.old.queue }
{
    for number in 0..u32::MAX {
        let item = Item { number, turn: 0 };
        if let Offered::Full(back) = queue.offer_as(rt, pass, item) {
            return Some(back.number);
        }
    }
    None
}

// A new queue is filled, left by one and filled again by one: the number that came back each time,
// the number that was taken, and how often the pass found it full.
fn left_by_one<const CAPACITY: usize, R: Abort + Wait>(
    rt: &R,
    queue: &mut Queue<Item, CAPACITY>,
) -> (Option<u32>, Option<u32>, Option<u32>, u64) {
    let mut pass = queue.pass();
    let mut taker = queue.pass();
    let share = queue.share().expect(rt, "memory");
    let first = fill(rt, queue, &mut pass);
    let taken = share.take_as(rt, &mut taker).map(|item| item.number);
    let second = fill(rt, &share, &mut pass);
    queue.rule_as(&mut taker);
    (first, taken, second, pass.full())
}

#[test]
fn a_queue_holds_its_capacity_and_is_left_by_one(rt: HostRuntime) {
    let voice = VoiceBox::<Brand>::new(rt.alloc()).expect(&rt, "memory");
    let post = PostBox::<Brand>::new(rt.alloc()).expect(&rt, "memory");
    let mut small = SmallQueue::new(rt.alloc()).expect(&rt, "memory");
    let mut large = LargeQueue::new(rt.alloc()).expect(&rt, "memory");
    let mut desk = Desk::<Item>::new(rt.alloc()).expect(&rt, "memory");
    let mut bell = Bell::<Item>::new(rt.alloc()).expect(&rt, "memory");
    assert_eq!(rt;
        capacities(&voice, &post, &desk, &bell),
        (128, 8192, 1024, 1024)
    );
    let left = left_by_one(&rt, &mut small);
    assert_eq!(rt; left, (Some(128), Some(0), Some(1), 2));
    let left = left_by_one(&rt, &mut large);
    assert_eq!(rt; left, (Some(8192), Some(0), Some(1), 2));
    let left = left_by_one(&rt, &mut desk);
    assert_eq!(rt; left, (Some(1024), Some(0), Some(1), 2));
    let left = left_by_one(&rt, &mut bell);
    assert_eq!(rt; left, (Some(1024), Some(0), Some(1), 2));
}

#[test]
fn a_pass_counts_what_it_found_full_or_empty(rt: HostRuntime) {
    let mut outbox = SmallQueue::new(rt.alloc()).expect(&rt, "memory");
    let mut offers = outbox.pass();
    let mut takes = outbox.pass();
    assert!(rt; outbox.take_as(&rt, &mut takes).is_none());
    assert_eq!(rt; fill(&rt, &outbox, &mut offers), Some(128));
    assert!(rt; outbox.take_as(&rt, &mut takes).is_some());
    assert_eq!(rt; (offers.full(), offers.empty()), (1, 0));
    assert_eq!(rt; (takes.full(), takes.empty()), (0, 1));
}

#[test]
fn a_share_is_the_same_queue(rt: HostRuntime) {
    let mut desk = Desk::<u32>::new(rt.alloc()).expect(&rt, "memory");
    let mut other = desk.share().expect(&rt, "memory");
    let (mut here, mut there) = (desk.pass(), other.pass());
    assert!(rt; matches!(desk.offer_as(&rt, &mut here, 5), Offered::Sent));
    assert!(rt; matches!(other.offer_as(&rt, &mut here, 6), Offered::Sent));
    assert!(rt; matches!(other.offer_as(&rt, &mut there, 7), Offered::Sent));
    assert_eq!(rt; other.take_as(&rt, &mut there), Some(5));
    assert_eq!(rt; desk.take_as(&rt, &mut there), Some(6));
    assert_eq!(rt; other.take_as(&rt, &mut here), Some(7));
    assert_eq!(rt; desk.take_as(&rt, &mut there), None);
}
