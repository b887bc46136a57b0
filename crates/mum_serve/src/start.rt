//! The roles of a server before their first turn.

ghost use Rattle.std.specs.Prelude.{◌≡◌, ◌<◌, ◌≤◌, [], IfErr, IfOk, length};
ghost use Rattle.std.specs.List.{All, AllZip};
ghost use Rattle.mum_keeper.specs.Archive.{queue_of};
ghost use Rattle.mum_outbox.specs.Calls.{HasNumbers};
ghost use Rattle.mum_published.specs.Calls.{IsFresh, appended, latest};
ghost use Rattle.mum_serve.specs.Clocks.{clock_at};
ghost use Rattle.mum_serve.specs.Joined.{post_queues};
ghost use Rattle.mum_serve.specs.Numbers.{HasOwnNumber};
ghost use Rattle.mum_serve.specs.Opened.{AreOpened, ControlBegins};
ghost use Rattle.mum_serve.specs.Queues.{AreShared, HasBoxes};
ghost use Rattle.mum_serve.specs.Running.{HaveBegun};
ghost use Rattle.mum_serve.specs.Serving.{opening_at};
ghost use Rattle.mum_serve.specs.Stores.{archive_queue};
ghost use Rattle.mum_state.specs.Proper.{IsProper};
ghost use Rattle.mum_worker.specs.Boxes.{queues as queues_of};
ghost use Rattle.mum_worker.specs.Opening.{JoinsShared};

use crate::asked::Asked;
use crate::entries::closing_room;
use crate::queues::Queues;
use mum_base::OutOfMemory;
use mum_control::Control;
use mum_crew::FreeGate;
use mum_io::{Clock, Door};
use mum_keeper::{Keeping, StoreItem};
use mum_outbox::{Bell, Desk};
use mum_owner::{Owner, Serving};
use mum_published::{BellItem, Naming, Pass, Publisher};
use mum_state::State;
use mum_viewer::Viewing;
use mum_worker::{DeskItem, Shared, Worker};
use std::alloc::{AllocError, Global};
use std::mem::drop;
use std::sync::Wait;

// Where a server begins.
#[derive(Drop)]
pub(crate) struct Beginning {
    /// The state that is published.
    pub(crate) state: State,
    pub(crate) workers: u8,
    /// One for each worker, and one for the viewer and for the store, where these are asked for.
    pub(crate) passes: Vec<Pass>,
}

// The owner and the workers.
#[derive(Drop)]
pub(crate) struct Started<
    'a,
    D: Door + Send,
    K: Clock + Send,
    N: Serving + Viewing + Keeping,
    R: Wait + Copy + Send,
> {
    pub(crate) owner: Owner<'a, D, K, N, R>,
    pub(crate) workers: Vec<Worker<D::Conn, FreeGate, N, R>>,
}

// The control owner, and the queues of the other roles.
#[derive(Drop)]
struct Parts<'a, L: Drop, N: Naming> {
    control: Control<'a, N>,
    desk: Desk<DeskItem>,
    bells: Vec<Bell<BellItem<L, N>>>,
    shared: Vec<Shared<L, N>>,
}

fn make_parts<'a, L: Drop, N: Naming>(
    alloc: Global,
    publisher: &'a mut Publisher,
    state: State,
    workers: u8,
) -> Result<Parts<'a, L, N>, OutOfMemory>
    requires opening { publisher.old.opening ≡ N.opening }
    requires state { state ≡ latest publisher.old }
    requires fresh { appended publisher.old ≡ [] }
    requires pending { publisher.old.pending ≡ [] }
    requires no_login { publisher.old.roll ≡ [] }
    requires few { workers ≤ 8 }
    ensures control { IfOk result (λ parts. ControlBegins N.opening parts.control) }
    ensures bells { IfOk result (λ parts. length parts.bells.items ≡ workers) }
    ensures shared { IfOk result (λ parts. length parts.shared.items ≡ workers) }
    ensures boxes { IfOk result (λ parts. All HasBoxes parts.shared.items) }
    ensures joined { IfOk result (λ parts.
        AreShared (post_queues parts.control.posts) parts.desk.queue (queues_of parts.bells.items) parts.shared.items) }
    ensures posts { IfOk result (λ parts. All HasOwnNumber parts.control.posts) }
    ensures desk { IfOk result (λ parts. HasNumbers 1 parts.desk) }
{
    let Ok(queues) = Queues::new(alloc, workers) else {
        drop(state);
        return Err(AllocError);
    };
    let Queues {
        posts,
        desk,
        bells,
        shared,
    } = queues;
    match Control::open(alloc, state, publisher, posts) {
        Ok(control) => Ok(Parts {
            control,
            desk,
            bells,
            shared,
        }),
        Err(error) => {
            drop(desk);
            drop(bells);
            drop(shared);
            Err(error)
        }
    }
}

// A worker for each pass, in the order of their numbers. Where a journal is asked for, each takes the room of n
// closing entries.
fn open_workers<D: Door + Send, N: Serving + Viewing + Keeping, R: Wait + Copy + Send>(
    rt: &R,
    alloc: Global,
    count: u8,
    passes: Vec<Pass>,
    shared: Vec<Shared<D::Conn, N>>,
    closings: Option<u32>,
) -> Result<Vec<Worker<D::Conn, FreeGate, N, R>>, OutOfMemory>
    requires proper { IsProper N.opening.state }
    requires passes { All (IsFresh N.opening) passes.items }
    requires one_each { length passes.items ≡ count }
    requires boxes { All HasBoxes shared.items }
    requires shared { length shared.items ≡ count }
    ensures over { IfOk result (λ workers. AllZip JoinsShared shared.items workers.items) }
    ensures opened { IfOk result (λ workers. AreOpened N.opening closings count workers.items) }
{
    let Ok(mut workers) = Vec::with_capacity(alloc, usize::from(count)) else {
        drop(passes);
        drop(shared);
        return Err(AllocError);
    };
    let mut passes = passes.into_iter();
    let mut shared = shared.into_iter();
    'workers: for number in 0..count {
        let (Some(pass), Some(ends)) = (passes.next(), shared.next()) else {
            unreachable!()
        };
        match Worker::open(*rt, alloc, number, count, pass, ends, FreeGate, closings) {
            Ok(worker) => workers.push_reserved(worker),
            Err(error) => {
                drop(passes);
                drop(shared);
                drop(workers);
                return Err(error);
            }
        }
    }
    Ok(workers)
}

// The roles of a server over a publisher and the passes of its workers: the owner, and the workers in the order of
// their numbers, joined by the same queues; the owner has the bell of a store, if there is one. Where a journal is asked for, each worker has room for one closing entry of
// each connection that it may get. Where memory runs out, the door and the clock come back as they were.
pub(crate) fn start<
    'a,
    D: Door + Send,
    K: Clock + Send,
    N: Serving + Viewing + Keeping,
    R: Wait + Copy + Send,
>(
    rt: &R,
    alloc: Global,
    asked: &Asked<'_>,
    publisher: &'a mut Publisher,
    beginning: Beginning,
    store: Option<Bell<StoreItem<N>>>,
    door: D,
    clock: K,
) -> Result<Started<'a, D, K, N, R>, (D, K)>
    requires opening { publisher.old.opening ≡ N.opening }
    requires state { beginning.state ≡ latest publisher.old }
    requires fresh { appended publisher.old ≡ [] }
    requires pending { publisher.old.pending ≡ [] }
    requires no_login { publisher.old.roll ≡ [] }
    requires proper { IsProper N.opening.state }
    requires passes { All (IsFresh N.opening) beginning.passes.items }
    requires one_each { length beginning.passes.items ≡ beginning.workers }
    requires some { 0 < beginning.workers }
    requires few { beginning.workers ≤ 8 }
    requires door { opening_at D.facts door ≡ N.door }
    requires connections { 0 < asked.now.connections }
    ensures begun { IfOk result (λ started. HaveBegun N.opening door (clock_at K.last K.calls clock) asked.now.journal
        asked.now.connections beginning.workers started.owner started.workers.items) }
    ensures archive { IfOk result (λ started. archive_queue started.owner ≡ queue_of store) }
    ensures back { IfErr result (λ back. (back.0 ≡ door) × (back.1 ≡ clock)) }
{
    let Beginning {
        state,
        workers: count,
        passes,
    } = beginning;
    let Ok(parts) = make_parts::<D::Conn, N>(alloc, publisher, state, count) else {
        drop(passes);
        drop(store);
        return Err((door, clock));
    };
    let Parts {
        control,
        desk,
        bells,
        shared,
    } = parts;
    let closings = closing_room(asked.journal, asked.connections, count);
    let workers = match open_workers::<D, N, R>(rt, alloc, count, passes, shared, closings) {
        Ok(workers) => workers,
        Err(_) => {
            drop(control);
            drop(desk);
            drop(bells);
            drop(store);
            return Err((door, clock));
        }
    };
    match Owner::open(
        *rt,
        alloc,
        control,
        desk,
        bells,
        door,
        clock,
        asked.connections,
        asked.journal,
        store,
    ) {
        Ok(owner) => Ok(Started { owner, workers }),
        Err(back) => {
            drop(workers);
            Err(back)
        }
    }
}
