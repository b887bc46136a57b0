//! All roles of a server as one list: what a crew is given, and what comes of what it gives back.

ghost use Rattle.std.specs.Prelude.{◌≡◌, ◌<◌, ◌≤◌, ◌+◌, ℕ, [], IfErr, IfOk, length};
ghost use Rattle.std.specs.List.{All};
ghost use Rattle.mum_keeper.specs.Mirror.{opening_of};
ghost use Rattle.mum_published.specs.Calls.{IsFresh, appended, latest};
ghost use Rattle.mum_serve.specs.Asked.{service};
ghost use Rattle.mum_serve.specs.Beginning.{Begins};
ghost use Rattle.mum_serve.specs.Opened.{HasRoom};
ghost use Rattle.mum_serve.specs.Ready.{AreBack, AreNew, AreReady, ComeTo};
ghost use Rattle.mum_serve.specs.Roles.{roles_of};
ghost use Rattle.mum_serve.specs.Serving.{opening_at};
ghost use Rattle.mum_serve.specs.Stores.{AreRowsFor};
ghost use Rattle.mum_state.specs.Proper.{IsProper};

use crate::asked::{Asked, Objects};
use crate::collect::{Collected, collect};
use crate::later::{Later, Unused, open_later};
use crate::roles::{Parted, Roles, apart, together};
use crate::start::{Beginning, Started, start};
use crate::stores::keeper_of;
use crate::views::{Viewed, end_viewer};
use mum_base::{Items, OutOfMemory};
use mum_crew::{CrewEnd, FreeGate};
use mum_io::{Clock, Door};
use mum_keeper::{Keeper, Keeping, KeptRows};
use mum_owner::Serving;
use mum_published::Publisher;
use mum_record::WorkerEntry;
use mum_viewer::Viewing;
use mum_worker::Worker;
use std::alloc::Global;
use std::mem::drop;
use std::sync::Wait;

// What is kept until a crew has run: the door of the views and the keeper where they are not used, and room for the workers and for what
// each of them will have written down.
#[derive(Drop)]
pub(crate) struct Reserved<
    D: Door + Send,
    P: Keeper + Send,
    N: Serving + Viewing + Keeping,
    R: Wait + Copy + Send,
> {
    pub(crate) unused: Unused<D, P>,
    pub(crate) workers: Vec<Worker<D::Conn, FreeGate, N, R>>,
    pub(crate) entries: Vec<Items<WorkerEntry>>,
}

// What a crew is given to run, and what is kept until it has.
#[derive(Drop)]
pub(crate) struct Ready<
    'a,
    D: Door + Send,
    K: Clock + Send,
    P: Keeper + Send,
    N: Serving + Viewing + Keeping,
    R: Wait + Copy + Send,
> {
    pub(crate) roles: Vec<Roles<'a, D, K, P, FreeGate, N, R>>,
    pub(crate) reserved: Reserved<D, P, N, R>,
}

// Room for the roles as one list, for the workers once they have run, and for what each worker will have written down.
#[derive(Drop)]
struct Room<
    'a,
    D: Door + Send,
    K: Clock + Send,
    P: Keeper + Send,
    N: Serving + Viewing + Keeping,
    R: Wait + Copy + Send,
> {
    roles: Vec<Roles<'a, D, K, P, FreeGate, N, R>>,
    workers: Vec<Worker<D::Conn, FreeGate, N, R>>,
    entries: Vec<Items<WorkerEntry>>,
}

fn room_for<
    'a,
    D: Door + Send,
    K: Clock + Send,
    P: Keeper + Send,
    N: Serving + Viewing + Keeping,
    R: Wait + Copy + Send,
>(alloc: Global, workers: usize) -> Result<Room<'a, D, K, P, N, R>, OutOfMemory>
    requires { workers ≤ 255 }
    ensures roles { IfOk result (λ room. HasRoom (workers + 3) room.roles) }
    ensures workers { IfOk result (λ room. HasRoom (workers + 2) room.workers) }
    ensures entries { IfOk result (λ room. HasRoom workers room.entries) }
{
    Ok(Room {
        roles: Vec::with_capacity(alloc, workers + 3)?,
        workers: Vec::with_capacity(alloc, workers + 2)?,
        entries: Vec::with_capacity(alloc, workers)?,
    })
}

// Roles before their first turn, and what is not used.
#[derive(Drop)]
struct Fresh<
    'a,
    D: Door + Send,
    K: Clock + Send,
    P: Keeper + Send,
    N: Serving + Viewing + Keeping,
    R: Wait + Copy + Send,
> {
    roles: Parted<'a, D, K, P, FreeGate, N, R>,
    unused: Unused<D, P>,
}

// Opens all roles. Where memory runs out, the doors, the clock and the keeper come back as they were.
fn open_each<
    'a,
    D: Door + Send,
    K: Clock + Send,
    P: Keeper + Send,
    N: Serving + Viewing + Keeping,
    R: Wait + Copy + Send,
>(
    rt: &R,
    alloc: Global,
    asked: &Asked<'_>,
    publisher: &'a mut Publisher,
    beginning: Beginning,
    rows: Option<KeptRows>,
    objects: Objects<D, K, P>,
) -> Result<Fresh<'a, D, K, P, N, R>, Objects<D, K, P>>
    requires opening { publisher.old.opening ≡ N.opening }
    requires begins { Begins publisher.old asked.now rows beginning }
    requires door { opening_at D.facts objects.door ≡ N.door }
    requires view { opening_at D.facts objects.view ≡ N.view }
    requires keeper { opening_of (P.facts objects.keeper) ≡ N.keeper }
    requires rows { AreRowsFor P.facts objects.keeper rows }
    requires connections { 0 < asked.now.connections }
    ensures fresh { IfOk result (λ fresh. AreNew K.last K.calls N.opening (service asked.now) beginning.workers rows
        objects fresh.roles.owner fresh.roles.workers.items fresh.roles.viewer fresh.roles.store fresh.unused) }
    ensures back { IfErr result (λ back. back ≡ objects) }
{
    let Objects {
        door,
        view,
        clock,
        keeper,
    } = objects;
    let Beginning {
        state,
        workers,
        mut passes,
    } = beginning;
    let Later {
        viewer,
        store,
        bell,
        unused,
    } = match open_later::<D, P, N, R>(rt, alloc, asked, rows, &mut passes, view, keeper) {
        Ok(later) => later,
        Err((view, keeper)) => {
            drop(state);
            drop(passes);
            return Err(Objects {
                door,
                view,
                clock,
                keeper,
            });
        }
    };
    let beginning = Beginning {
        state,
        workers,
        passes,
    };
    match start::<D, K, N, R>(rt, alloc, asked, publisher, beginning, bell, door, clock) {
        Ok(Started { owner, workers }) => Ok(Fresh {
            roles: Parted {
                owner,
                workers,
                viewer,
                store,
            },
            unused,
        }),
        Err((door, clock)) => {
            let Viewed { door: view, .. } = end_viewer(viewer, unused.view);
            let keeper = keeper_of(store, unused.keeper);
            Err(Objects {
                door,
                view,
                clock,
                keeper,
            })
        }
    }
}

// These roles as one list. There is room for what will come of them.
fn listed<
    'a,
    D: Door + Send,
    K: Clock + Send,
    P: Keeper + Send,
    N: Serving + Viewing + Keeping,
    R: Wait + Copy + Send,
>(fresh: Fresh<'a, D, K, P, N, R>, room: Room<'a, D, K, P, N, R>) -> Ready<'a, D, K, P, N, R>
    requires { HasRoom (length fresh.roles.workers.items + 3) room.roles }
    ensures roles { result.roles.items ≡ roles_of fresh.entry.roles.owner fresh.entry.roles.workers.items
        fresh.entry.roles.viewer fresh.entry.roles.store }
    ensures unused { result.reserved.unused ≡ fresh.entry.unused }
    ensures workers { result.reserved.workers ≡ room.entry.workers }
    ensures entries { result.reserved.entries ≡ room.entry.entries }
{
    let Fresh { roles, unused } = fresh;
    let Room {
        roles: list,
        workers,
        entries,
    } = room;
    Ready {
        roles: together(roles, list),
        reserved: Reserved {
            unused,
            workers,
            entries,
        },
    }
}

// The roles of a server before their first turn, with room for what will come of them. Where memory runs out, the doors,
// the clock and the keeper come back as they were.
pub(crate) fn open_roles<
    'a,
    D: Door + Send,
    K: Clock + Send,
    P: Keeper + Send,
    N: Serving + Viewing + Keeping,
    R: Wait + Copy + Send,
>(
    rt: &R,
    alloc: Global,
    asked: &Asked<'_>,
    publisher: &'a mut Publisher,
    beginning: Beginning,
    rows: Option<KeptRows>,
    objects: Objects<D, K, P>,
) -> Result<Ready<'a, D, K, P, N, R>, Objects<D, K, P>>
    requires opening { publisher.old.opening ≡ N.opening }
    requires begins { Begins publisher.old asked.now rows beginning }
    requires door { opening_at D.facts objects.door ≡ N.door }
    requires view { opening_at D.facts objects.view ≡ N.view }
    requires keeper { opening_of (P.facts objects.keeper) ≡ N.keeper }
    requires rows { AreRowsFor P.facts objects.keeper rows }
    requires connections { 0 < asked.now.connections }
    ensures ready { IfOk result (λ ready. AreReady K.last K.calls N.opening (service asked.now) beginning.workers rows
        objects ready.reserved.unused ready.roles.items) }
    ensures workers { IfOk result (λ ready. HasRoom (beginning.workers + 2) ready.reserved.workers) }
    ensures entries { IfOk result (λ ready. HasRoom beginning.workers ready.reserved.entries) }
    ensures back { IfErr result (λ back. back ≡ objects) }
{
    let Ok(room) = room_for::<D, K, P, N, R>(alloc, usize::from(beginning.workers)) else {
        drop(beginning);
        drop(rows);
        return Err(objects);
    };
    match open_each::<D, K, P, N, R>(rt, alloc, asked, publisher, beginning, rows, objects) {
        Ok(fresh) => Ok(listed(fresh, room)),
        Err(objects) => {
            drop(room);
            Err(objects)
        }
    }
}

// What the roles came to that a crew gave back: as many workers as it was given, and a viewer and a store where there was
// one. The store is settled where the roles have run.
pub(crate) fn end_roles<
    D: Door + Send,
    K: Clock + Send,
    P: Keeper + Send,
    N: Serving + Viewing + Keeping,
    R: Wait + Copy + Send,
>(
    roles: Vec<Roles<'_, D, K, P, FreeGate, N, R>>,
    reserved: Reserved<D, P, N, R>,
    end: CrewEnd,
) -> Collected<D, K, P>
    requires { (workers : ℕ) × AreBack workers reserved.unused roles.items × HasRoom (workers + 2) reserved.workers
        × HasRoom workers reserved.entries }
    ensures { ComeTo D.facts K.last K.calls P.facts end N.opening.state N.door N.view N.keeper reserved.unused
        roles.entry.items result.summary result.entries result.objects }
{
    let Reserved {
        unused,
        workers,
        entries,
    } = reserved;
    collect(apart(roles, workers), unused, entries, end)
}
