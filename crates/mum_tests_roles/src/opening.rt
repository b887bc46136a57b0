//! What the parts of a server are opened over.

ghost use Rattle.std.specs.Prelude.{◌≡◌, ◌<◌, ◌≤◌, [], length};
ghost use Rattle.std.specs.List.{All};
ghost use Rattle.mum_base.specs.declared.number.TheConstants.{SLOTS as slots};
ghost use Rattle.mum_published.specs.Calls.{IsFresh, appended, latest};
ghost use Rattle.mum_state.specs.Proper.{IsProper};

use mum_base::SLOTS;
use mum_outbox::Queue;
use mum_published::{Pass, Publisher, open};
use mum_state::State;
use std::alloc::Global;
use std::process::Abort;
use std::sync::Wait;

// Adds a box for each slot.
fn add_boxes<I: Drop, const CAPACITY: usize>(
    rt: &impl Abort,
    alloc: Global,
    boxes: &mut Vec<Queue<I, CAPACITY>>,
)
    requires capacity { 0 < CAPACITY }
    requires none { boxes.old.items ≡ [] }
    ensures { length boxes.new.items ≡ slots }
{
    for _slot in 0..SLOTS {
        let next = Queue::new(alloc).expect(rt, "memory");
        boxes.push(next).expect(rt, "memory");
    }
}

// A box for each slot.
pub(crate) fn boxes<I: Drop, const CAPACITY: usize>(
    rt: &impl Abort,
    alloc: Global,
) -> Vec<Queue<I, CAPACITY>>
    requires { 0 < CAPACITY }
    ensures { length result.items ≡ slots }
{
    let mut boxes = Vec::new(alloc);
    add_boxes(rt, alloc, &mut boxes);
    boxes
}

// A box for each slot, and another owner of the first one.
pub(crate) fn boxes_and_first<I: Drop, const CAPACITY: usize>(
    rt: &impl Abort,
    alloc: Global,
) -> (Vec<Queue<I, CAPACITY>>, Queue<I, CAPACITY>)
    requires { 0 < CAPACITY }
    ensures { length result.0.items ≡ slots }
{
    let mut boxes = boxes(rt, alloc);
    let own = match boxes.first_mut() {
        Some(first) => first.share().expect(rt, "memory"),
        None => panic!(rt; "a slot"),
    };
    (boxes, own)
}

// A publisher of an empty state, and that state.
pub(crate) fn begin<R: Abort + Wait>(rt: &R, alloc: Global) -> (Publisher, State)
    ensures state { result.1 ≡ latest result.0 }
    ensures fresh { appended result.0 ≡ [] }
    ensures pending { result.0.pending ≡ [] }
{
    let twin = State::empty(alloc).expect(rt, "memory");
    begin_at(rt, alloc, twin)
}

// A publisher of a state, and that state.
pub(crate) fn begin_at<R: Abort + Wait>(rt: &R, alloc: Global, twin: State) -> (Publisher, State)
    ensures state { result.1 ≡ latest result.0 }
    ensures fresh { appended result.0 ≡ [] }
    ensures pending { result.0.pending ≡ [] }
{
    let (publisher, passes, twin) = begin_with(rt, alloc, twin, 1);
    drop(passes);
    (publisher, twin)
}

// A publisher of a state, n passes, and that state.
pub(crate) fn begin_with<R: Abort + Wait>(
    rt: &R,
    alloc: Global,
    twin: State,
    passes: u8,
) -> (Publisher, Vec<Pass>, State)
    requires { (0 < passes) × (passes ≤ 10) }
    ensures state { result.2 ≡ latest result.0 }
    ensures fresh { appended result.0 ≡ [] }
    ensures pending { result.0.pending ≡ [] }
    ensures proper { IsProper result.0.opening.state }
    ensures passes { All (IsFresh result.0.opening) result.1.items }
{
    let state = twin.copy(alloc).expect(rt, "memory");
    let (publisher, passes) = open(rt, alloc, state, passes).expect(rt, "memory");
    (publisher, passes, twin)
}
