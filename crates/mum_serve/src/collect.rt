//! From the roles that have ended back to what they were given, and to what they came to.

ghost use Rattle.std.specs.Prelude.{◌≡◌, ◌||◌, Bool, false, is_some, length, map, true};
ghost use Rattle.mum_control.specs.Commanded.{current};
ghost use Rattle.mum_record.specs.Journal.{Each, IsWritableEntry};
ghost use Rattle.mum_serve.specs.Clocks.{clock_at, clock_of};
ghost use Rattle.mum_serve.specs.Journals.{entries_of};
ghost use Rattle.mum_serve.specs.OneList.{AreWithin};
ghost use Rattle.mum_serve.specs.Opened.{HasRoom};
ghost use Rattle.mum_serve.specs.Roles.{CameTo, ran_out, with_workers};
ghost use Rattle.mum_serve.specs.Stores.{EndsStore, KeepsWithin};
ghost use Rattle.mum_serve.specs.Totals.{nothing};
ghost use Rattle.mum_serve.specs.Views.{CameToViews, SeesWithin, viewer_failed, viewer_memory};

use crate::asked::Objects;
use crate::entries::Entries;
use crate::later::Unused;
use crate::roles::Parted;
use crate::stores::end_store;
use crate::summary::Summary;
use crate::totals::{Totals, WorkerTotals};
use crate::views::{Viewed, end_viewer};
use mum_base::Items;
use mum_crew::{CrewEnd, Gate};
use mum_io::{Clock, Door, Link};
use mum_keeper::{Keeper, Keeping, Store};
use mum_owner::{Entrance, Owner, OwnerEnd, Serving};
use mum_published::Naming;
use mum_record::WorkerEntry;
use mum_viewer::{Viewer, Viewing};
use mum_worker::Worker;
use std::mem::drop;
use std::sync::Wait;

// What the roles of a server came to, and what they were given.
#[derive(Drop)]
pub(crate) struct Collected<D: Drop, K: Drop, P: Drop> {
    pub(crate) summary: Summary,
    pub(crate) entries: Entries,
    pub(crate) objects: Objects<D, K, P>,
}

// Compares what each of these workers saw and learnt with what the owner published, which begins with it.
fn compare<D: Entrance, K: Clock, G: Gate, N: Serving, R: Wait + Copy>(
    owner: &Owner<'_, D, K, N, R>,
    workers: &[Worker<D::Peer, G, N, R>],
)
    ensures { AreWithin owner.now.control.publisher workers.now }
{
    for worker in workers {
        owner.has_shown(worker.pass());
    }
}

// The same of the viewer, where there is one.
fn compare_views<D: Entrance, K: Clock, N: Serving + Viewing, R: Wait + Copy>(
    owner: &Owner<'_, D, K, N, R>,
    viewer: &Option<Viewer<D, N, R>>,
)
    ensures { SeesWithin owner.now.control.publisher viewer.now }
{
    if let Some(viewer) = viewer {
        owner.has_shown(viewer.pass());
    }
}

// And of the store.
fn compare_store<D: Entrance, K: Clock, P: Keeper, N: Serving + Keeping, R: Wait + Copy>(
    owner: &Owner<'_, D, K, N, R>,
    store: &Option<Store<P, N, R>>,
)
    ensures { KeepsWithin owner.now.control.publisher store.now }
{
    if let Some(store) = store {
        owner.has_shown(store.pass());
    }
}

// Ends these workers. What they wrote down goes into the room for it.
fn end_workers<L: Link, G: Gate, N: Naming, R: Wait + Copy>(
    workers: Vec<Worker<L, G, N, R>>,
    room: Vec<Items<WorkerEntry>>,
) -> (WorkerTotals, Items<Items<WorkerEntry>>)
    requires { HasRoom (length workers.items) room }
    ensures totals { result.0 ≡ with_workers workers.items nothing }
    ensures entries { result.1 ≡ map entries_of workers.items }
    ensures writable { Each (Each IsWritableEntry) result.1 }
{
    let mut totals = WorkerTotals::nothing();
    let mut by_worker = room;
    for worker in workers {
        by_worker.push_reserved(totals.add(worker));
    }
    (totals, Items::from_vec(by_worker))
}

fn either(one: bool, other: bool) -> bool
    ensures { result ≡ (one || other) }
{
    one || other
}

// Compares what the workers, the viewer and the store saw with what the owner published, and ends all. There is room for
// what each worker wrote down. Without a viewer its door was not used, and without a store the keeper was not. The store
// is settled where the roles have run.
pub(crate) fn collect<
    D: Door + Send,
    K: Clock + Send,
    P: Keeper + Send,
    G: Gate,
    N: Serving + Viewing + Keeping,
    R: Wait + Copy + Send,
>(
    roles: Parted<'_, D, K, P, G, N, R>,
    unused: Unused<D, P>,
    room: Vec<Items<WorkerEntry>>,
    end: CrewEnd,
) -> Collected<D, K, P>
    requires room { HasRoom (length roles.workers.items) room }
    requires view { is_some roles.viewer ≡ false → is_some unused.view ≡ true }
    requires keeper { is_some roles.store ≡ false → is_some unused.keeper ≡ true }
    ensures came { CameTo D.facts N.opening.state N.door roles.entry.owner roles.entry.workers.items
        result.summary.totals result.entries result.objects.door }
    ensures views_came { CameToViews D.facts N.view unused.view roles.entry.viewer result.summary.viewed
        result.objects.view }
    ensures store_came { (starved : Bool)
        × EndsStore P.facts end N.keeper (current roles.entry.owner.control) unused.keeper
        roles.entry.store result.summary.keeper_failed starved result.objects.keeper
        × (result.summary.no_memory ≡ ((ran_out roles.entry.owner roles.entry.workers.items || viewer_memory
        roles.entry.viewer) || starved)) }
    ensures failed { result.summary.door_failed ≡ (roles.entry.owner.doorway.failed || viewer_failed
        roles.entry.viewer) }
    ensures one_list { AreWithin roles.entry.owner.control.publisher roles.entry.workers.items }
    ensures clock { clock_at K.last K.calls result.objects.clock ≡ clock_of roles.entry.owner }
    ensures views_of_it { SeesWithin roles.entry.owner.control.publisher roles.entry.viewer }
    ensures kept_of_it { KeepsWithin roles.entry.owner.control.publisher roles.entry.store }
{
    let Parted {
        owner,
        workers,
        viewer,
        store,
    } = roles;
    let Unused { view, keeper } = unused;
    compare(&owner, &workers);
    compare_views(&owner, &viewer);
    compare_store(&owner, &store);
    let OwnerEnd {
        door,
        clock,
        connections,
        accepted,
        state,
        entries,
        no_memory,
        door_failed,
    } = owner.finish();
    let kept = end_store(store, keeper, &state, end);
    drop(state);
    let (workers, by_worker) = end_workers(workers, room);
    let views = end_viewer(viewer, view);
    Collected {
        summary: Summary {
            totals: Totals::of(connections, accepted, workers),
            viewed: views.viewed,
            no_memory: either(
                either(either(no_memory, workers.no_memory), views.no_memory),
                kept.no_memory,
            ),
            door_failed: either(door_failed, views.door_failed),
            keeper_failed: kept.keeper_failed,
        },
        entries: Entries {
            controls: Items::from_vec(entries),
            by_worker,
        },
        objects: Objects {
            door,
            view: views.door,
            clock,
            keeper: kept.keeper,
        },
    }
}
