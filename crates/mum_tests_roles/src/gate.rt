//! `mum_worker`: a worker is held at its gate while another worker and the owner go on. What it offers then is of a look
//! after the gate, and counted.

ghost use Rattle.std.specs.Prelude.{◌≡◌, []};
ghost use Rattle.std.specs.List.{All};
ghost use Rattle.mum_published.specs.Calls.{IsFresh, appended, latest};
ghost use Rattle.mum_state.specs.Proper.{IsProper};

use crate::guests::{Entry, GATE, WHOLE, note};
use crate::opening::{begin_with, boxes};
use mum_base::SLOTS;
use mum_control::Control;
use mum_crew::{Gate, Role, Turn};
use mum_io::{Door, Link, MemClock};
use mum_outbox::{Bell, Desk};
use mum_owner::{Owner, Serving};
use mum_parcel::{PostBox, VoiceBox};
use mum_port::DeskItem;
use mum_published::{BellItem, Naming, Pass, Publisher};
use mum_state::State;
use mum_worker::{Shared, Worker, share_each};
use std::alloc::Global;
use std::marker::Brand;
use std::mem::drop;
use std::process::Abort;
use std::sync::atomic::{AtomicU64, Ordering};
use std::sync::{Arc, Wait};
use std::thread;
use std::thread::Threads;

// How often a gate asks whether something happened, and how many turns a role has, before the test fails.
const TRIES: u32 = 2_000_000;

// A gate that holds a worker until something happens after its coming.
#[derive(Drop)]
struct Watched {
    events: Arc<AtomicU64>,
}

impl Gate for Watched {
    fn pass(&self, _worker: u8) {
        let came = note(&self.events, GATE);
        for _ in 0..TRIES {
            if self.events.load(Ordering::SeqCst) > came {
                return;
            }
            thread::yield_now();
        }
    }
}

// The state at which the roles begin, and a pass of it for each worker.
#[derive(Drop)]
struct Beginning {
    state: State,
    passes: Vec<Pass>,
}

// The queues of an owner and of two workers.
#[derive(Drop)]
struct Queues<L: Drop, N: Naming> {
    posts: Vec<PostBox<N>>,
    desk: Desk<DeskItem>,
    bells: Vec<Bell<BellItem<L, N>>>,
    first: Shared<L, N>,
    second: Shared<L, N>,
}

// What a worker shares of these, with a bell that is added.
fn shared<L: Drop, N: Naming>(
    rt: &impl Abort,
    alloc: Global,
    voice: Vec<VoiceBox<N>>,
    posts: Vec<PostBox<N>>,
    desk: &mut Desk<DeskItem>,
    bells: &mut Vec<Bell<BellItem<L, N>>>,
) -> Shared<L, N> {
    let mut bell = Bell::new(alloc).expect(rt, "memory");
    let end = bell.share().expect(rt, "memory");
    bells.push(bell).expect(rt, "memory");
    Shared {
        voice,
        posts,
        desk: desk.share().expect(rt, "memory"),
        bell: end,
    }
}

fn make_queues<L: Drop, N: Naming>(rt: &impl Abort, alloc: Global) -> Queues<L, N> {
    let (voice, voices) = share_each(alloc, boxes(rt, alloc)).expect(rt, "memory");
    let (posts, post) = share_each(alloc, boxes(rt, alloc)).expect(rt, "memory");
    let (posts, own) = share_each(alloc, posts).expect(rt, "memory");
    let mut desk = Desk::new(alloc).expect(rt, "memory");
    let mut bells = Vec::new(alloc);
    let first = shared(rt, alloc, voice, post, &mut desk, &mut bells);
    let second = shared(rt, alloc, voices, own, &mut desk, &mut bells);
    Queues {
        posts,
        desk,
        bells,
        first,
        second,
    }
}

// A worker of two, with the last of these passes.
fn worker<L: Link, N: Naming, R: Abort + Copy + Wait>(
    rt: &R,
    alloc: Global,
    number: u8,
    passes: &mut Vec<Pass>,
    shared: Shared<L, N>,
    events: &Arc<AtomicU64>,
) -> Worker<L, Watched, N, R>
    requires proper { IsProper N.opening.state }
    requires passes { All (IsFresh N.opening) passes.old.items }
    ensures { All (IsFresh N.opening) passes.new.items }
{
    assert_eq!(rt; shared.voice.len(), SLOTS);
    assert_eq!(rt; shared.posts.len(), SLOTS);
    let pass = passes.pop().expect(rt, "a pass");
    let gate = Watched {
        events: events.clone().expect(rt, "memory"),
    };
    Worker::open(*rt, alloc, number, 2, pass, shared, gate, None).expect(rt, "memory")
}

// Gives a role its turns, until it has ended.
fn run<T: Role>(role: &mut T) {
    for _ in 0..TRIES {
        match role.turn() {
            Turn::Worked => {}
            Turn::Idle => thread::yield_now(),
            Turn::Done => return,
        }
    }
}

// Gives each of these its turns, in a thread of its own.
fn run_beside<A, B, R>(rt: &R, owner: &mut A, first: &mut B, second: &mut B)
where
    A: Role + Send,
    B: Role + Send,
    R: Sync + Threads,
{
    thread::join(
        rt,
        || run(owner),
        || thread::join(rt, || run(first), || run(second)),
    );
}

// How many packets a worker routed, and how many copies it sent, and found no room for.
fn counts<L: Link, N: Naming, R: Copy + Wait>(worker: Worker<L, Watched, N, R>) -> (u64, u64, u64) {
    let end = worker.finish();
    (end.looks, end.copies, end.full)
}

// Runs the owner and the workers, each in a thread of its own: what the workers counted.
fn run_all<D, N, R>(
    rt: &R,
    owner: Owner<'_, D, MemClock, N, R>,
    first: Worker<D::Conn, Watched, N, R>,
    second: Worker<D::Conn, Watched, N, R>,
) -> ((u64, u64, u64), (u64, u64, u64))
where
    D: Door + Send,
    N: Serving + Send,
    R: Copy + Send + Sync + Threads + Wait,
{
    let mut owner = owner;
    let mut first = first;
    let mut second = second;
    run_beside(rt, &mut owner, &mut first, &mut second);
    drop(owner);
    (counts(first), counts(second))
}

// Opens the roles over this door and runs them.
fn held_named<D, N, R>(
    rt: &R,
    alloc: Global,
    publisher: &mut Publisher,
    beginning: Beginning,
    door: D,
    events: &Arc<AtomicU64>,
) -> ((u64, u64, u64), (u64, u64, u64))
where
    D: Door + Send,
    N: Serving + Send,
    R: Abort + Copy + Send + Sync + Threads + Wait,
    requires opening { publisher.old.opening ≡ N.opening }
    requires proper { IsProper N.opening.state }
    requires state { beginning.state ≡ latest publisher.old }
    requires fresh { appended publisher.old ≡ [] }
    requires pending { publisher.old.pending ≡ [] }
    requires passes { All (IsFresh N.opening) beginning.passes.items }
    requires door { record { counts = (D.facts door).counts; given = (D.facts door).given; opened_at = (D.facts door).opened_at } ≡ N.door }
{
    let Queues {
        posts,
        desk,
        bells,
        first,
        second,
    } = make_queues::<D::Conn, N>(rt, alloc);
    assert_eq!(rt; posts.len(), SLOTS);
    assert_eq!(rt; bells.len(), 2);
    let Beginning { state, mut passes } = beginning;
    let first = worker::<D::Conn, N, R>(rt, alloc, 0, &mut passes, first, events);
    let second = worker::<D::Conn, N, R>(rt, alloc, 1, &mut passes, second, events);
    drop(passes);
    let control = Control::<N>::open(alloc, state, publisher, posts).expect(rt, "memory");
    let clock = MemClock::new(Vec::new(alloc));
    match Owner::open(
        *rt, alloc, control, desk, bells, door, clock, 2, false, None,
    ) {
        Ok(owner) => run_all(rt, owner, first, second),
        Err(_both) => panic!(rt; "memory"),
    }
}

// The same, with the opening of this publisher and what the door has counted.
fn held_at<D, R>(
    rt: &R,
    alloc: Global,
    publisher: &mut Publisher,
    beginning: Beginning,
    door: D,
    events: &Arc<AtomicU64>,
) -> ((u64, u64, u64), (u64, u64, u64))
where
    D: Door + Send,
    R: Abort + Copy + Send + Sync + Threads + Wait,
    requires proper { IsProper publisher.old.opening.state }
    requires state { beginning.state ≡ latest publisher.old }
    requires fresh { appended publisher.old ≡ [] }
    requires pending { publisher.old.pending ≡ [] }
    requires passes { All (IsFresh publisher.old.opening) beginning.passes.items }
{
    held_named::<D, Brand, R>(rt, alloc, publisher, beginning, door, events)
}

#[test]
fn what_is_offered_is_of_a_look_behind_the_gate(rt: HostRuntime) {
    let alloc: Global = rt.alloc();
    let events = Arc::new(alloc, AtomicU64::new(0)).expect(&rt, "memory");
    let door = Entry::new(&rt, alloc, &events);
    let state = State::empty(alloc).expect(&rt, "memory");
    let (mut publisher, passes, state) = begin_with(&rt, alloc, state, 2);
    let beginning = Beginning { state, passes };
    let counts = held_at(&rt, alloc, &mut publisher, beginning, door, &events);
    publisher.finish(&rt);
    assert_eq!(rt; events.load(Ordering::SeqCst), WHOLE);
    // two looks, of which the second found one hearer
    assert_eq!(rt; counts, ((2, 1, 0), (0, 0, 0)));
}
