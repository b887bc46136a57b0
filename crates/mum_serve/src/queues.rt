//! The queues between the roles of a server.

ghost use Rattle.std.specs.Prelude.{◌≡◌, ◌+◌, ◌<◌, ◌≤◌, [], ◌∷◌, ◌++◌, IfOk, OnErr, OnOk, length, map};
ghost use Rattle.std.specs.List.{All};
ghost use Rattle.mum_base.specs.declared.number.TheConstants.{SLOTS};
ghost use Rattle.mum_outbox.specs.Calls.{HasNumbers, lower_half, upper_half};
ghost use Rattle.mum_outbox.specs.declared.rule.TheConstants.{LAST};
ghost use Rattle.mum_serve.specs.Queues.{AreFor, AreNamedFrom, HaveShared, SharesHalf};
ghost use Rattle.mum_worker.specs.Boxes.{queues as queues_of};

use mum_base::{OutOfMemory, SLOTS};
use mum_outbox::{Bell, Desk, Queue};
use mum_parcel::{PostBox, VoiceBox};
use mum_published::{BellItem, Naming};
use mum_worker::{DeskItem, Shared, share_each};
use std::alloc::{AllocError, Global};
use std::mem::drop;

/// Owners of all queues: what the owner of the connections and the control owner hold, and what each worker does.
#[derive(Drop)]
pub struct Queues<L, N: Naming> {
    /// The post box of each slot.
    pub posts: Vec<PostBox<N>>,
    pub desk: Desk<DeskItem>,
    /// The bell of each worker.
    pub bells: Vec<Bell<BellItem<L, N>>>,
    /// What each worker shares.
    pub shared: Vec<Shared<L, N>>,
}

// Adds a box for each slot, whose name is the number of the slot.
fn add_boxes<I: Drop, const CAPACITY: usize>(
    alloc: Global,
    boxes: &mut Vec<Queue<I, CAPACITY>>,
) -> Result<(), OutOfMemory>
    requires capacity { 0 < CAPACITY }
    requires none { boxes.old.items ≡ [] }
    ensures many { OnOk result (length boxes.new.items ≡ SLOTS) }
    ensures names { OnOk result (AreNamedFrom 0 (queues_of boxes.new.items)) }
    ensures numbers { OnOk result (All (HasNumbers LAST) boxes.new.items) }
{
    'boxes: for slot in 0..SLOTS {
        let queue = Queue::named(alloc, slot as u32)?;
        boxes.push(queue)?;
    }
    Ok(())
}

// A box for each slot.
fn boxes<I: Drop, const CAPACITY: usize>(
    alloc: Global,
) -> Result<Vec<Queue<I, CAPACITY>>, OutOfMemory>
    requires { 0 < CAPACITY }
    ensures many { IfOk result (λ boxes. length boxes.items ≡ SLOTS) }
    ensures names { IfOk result (λ boxes. AreNamedFrom 0 (queues_of boxes.items)) }
    ensures numbers { IfOk result (λ boxes. All (HasNumbers LAST) boxes.items) }
{
    let mut boxes = Vec::new(alloc);
    match add_boxes(alloc, &mut boxes) {
        Ok(()) => Ok(boxes),
        Err(error) => {
            drop(boxes);
            Err(error)
        }
    }
}

// The ends of the queues while workers get theirs: a box of each kind for each slot, and the desk.
#[derive(Drop)]
struct Ends<N: Naming> {
    voices: Vec<VoiceBox<N>>,
    posts: Vec<PostBox<N>>,
    desk: Desk<DeskItem>,
}

// Boxes, and those that one worker shares with them.
#[derive(Drop)]
struct SharedBoxes<N: Naming> {
    voices: Vec<VoiceBox<N>>,
    posts: Vec<PostBox<N>>,
    voice: Vec<VoiceBox<N>>,
    post: Vec<PostBox<N>>,
}

fn share_boxes<N: Naming>(
    alloc: Global,
    voices: Vec<VoiceBox<N>>,
    posts: Vec<PostBox<N>>,
) -> Result<SharedBoxes<N>, OutOfMemory>
    ensures voices { IfOk result (λ boxes. boxes.voices.items ≡ map lower_half voices.items) }
    ensures posts { IfOk result (λ boxes. boxes.posts.items ≡ map lower_half posts.items) }
    ensures voice { IfOk result (λ boxes. boxes.voice.items ≡ map upper_half voices.items) }
    ensures post { IfOk result (λ boxes. boxes.post.items ≡ map upper_half posts.items) }
{
    let (voices, voice) = match share_each(alloc, voices) {
        Ok(both) => both,
        Err(error) => {
            drop(posts);
            return Err(error);
        }
    };
    match share_each(alloc, posts) {
        Ok((posts, post)) => Ok(SharedBoxes {
            voices,
            posts,
            voice,
            post,
        }),
        Err(error) => {
            drop(voices);
            drop(voice);
            Err(error)
        }
    }
}

// What one worker shares: these queues, and this bell.
fn share<L: Drop, N: Naming>(
    alloc: Global,
    ends: Ends<N>,
    bell: Bell<BellItem<L, N>>,
) -> Result<(Ends<N>, Shared<L, N>), OutOfMemory>
    ensures { IfOk result (λ both. SharesHalf ends both.0 bell both.1) }
{
    let Ends {
        voices,
        posts,
        mut desk,
    } = ends;
    let end = match desk.share() {
        Ok(end) => end,
        Err(error) => {
            drop(voices);
            drop(posts);
            drop(desk);
            drop(bell);
            return Err(error);
        }
    };
    match share_boxes(alloc, voices, posts) {
        Ok(
            SharedBoxes {
                voices,
                posts,
                voice,
                post,
            },
        ) => Ok((
            Ends {
                voices,
                posts,
                desk,
            },
            Shared {
                voice,
                posts: post,
                desk: end,
                bell,
            },
        )),
        Err(error) => {
            drop(desk);
            drop(end);
            drop(bell);
            Err(error)
        }
    }
}

// A bell of this name, twice.
pub(crate) fn new_bell<I: Drop>(alloc: Global, name: u32) -> Result<(Bell<I>, Bell<I>), OutOfMemory>
    ensures same { IfOk result (λ both. both.1.queue ≡ both.0.queue) }
    ensures name { IfOk result (λ both. both.0.queue.name ≡ name) }
{
    let mut bell = Bell::named(alloc, name)?;
    match bell.share() {
        Ok(end) => Ok((bell, end)),
        Err(error) => {
            drop(bell);
            Err(error)
        }
    }
}

// Pushes one to each of these.
fn push_both<A: Drop, B: Drop>(
    some: &mut Vec<A>,
    a: A,
    others: &mut Vec<B>,
    b: B,
) -> Result<(), OutOfMemory>
    ensures some { OnOk result (some.new.items ≡ some.old.items ++ a ∷ []) }
    ensures others { OnOk result (others.new.items ≡ others.old.items ++ b ∷ []) }
    ensures left { OnErr result (others.new.items ≡ others.old.items) }
{
    if some.push(a).is_err() {
        drop(b);
        return Err(AllocError);
    }
    match others.push(b) {
        Ok(()) => Ok(()),
        Err(_) => Err(AllocError),
    }
}

// One bell more, and what its worker shares. The bell has the number of the worker for its name.
fn add_worker<L: Drop, N: Naming>(
    alloc: Global,
    worker: u8,
    ends: Ends<N>,
    bells: &mut Vec<Bell<BellItem<L, N>>>,
    shared: &mut Vec<Shared<L, N>>,
) -> Result<Ends<N>, OutOfMemory>
    requires few { worker < 8 }
    requires shared { HaveShared worker ends bells.old.items shared.old.items }
    ensures { IfOk result (λ ends. HaveShared (worker + 1) ends bells.new.items shared.new.items) }
{
    let (bell, end) = match new_bell(alloc, u32::from(worker)) {
        Ok(both) => both,
        Err(error) => {
            drop(ends);
            return Err(error);
        }
    };
    let (ends, one) = match share(alloc, ends, end) {
        Ok(both) => both,
        Err(error) => {
            drop(bell);
            return Err(error);
        }
    };
    match push_both(bells, bell, shared, one) {
        Ok(()) => Ok(ends),
        Err(error) => {
            drop(ends);
            Err(error)
        }
    }
}

impl<L: Drop, N: Naming> Queues<L, N> {
    // Empty queues for this many workers: two boxes for each slot, a desk, and a bell for each worker. All workers
    // share the boxes and the desk, and each has the bell at its place.
    pub(crate) fn new(alloc: Global, workers: u8) -> Result<Queues<L, N>, OutOfMemory>
        requires { workers ≤ 8 }
        ensures { IfOk result (AreFor workers) }
    {
        let voices = boxes(alloc)?;
        let posts = boxes(alloc)?;
        let desk = Desk::new(alloc)?;
        let mut ends = Ends {
            voices,
            posts,
            desk,
        };
        let mut bells = Vec::new(alloc);
        let mut shared = Vec::new(alloc);
        'workers: for worker in 0..workers {
            ends = add_worker(alloc, worker, ends, &mut bells, &mut shared)?;
        }
        let Ends { posts, desk, .. } = ends;
        Ok(Queues {
            posts,
            desk,
            bells,
            shared,
        })
    }
}
