//! A server from its configuration to what it came to.

ghost use Rattle.std.specs.Prelude.{◌≡◌, ◌+◌, ◌<◌, ◌≤◌, IfOk, IfSome, IsTrue, false, is_some, true};
ghost use Rattle.mum_config.specs.Limits.{FitAfterLimits, settings_and_accounts};
ghost use Rattle.mum_keeper.specs.Mirror.{opening_of};
ghost use Rattle.mum_kept.specs.Good.{IsGood};
ghost use Rattle.mum_serve.specs.Asked.{service};
ghost use Rattle.mum_serve.specs.Beginning.{Begins};
ghost use Rattle.mum_serve.specs.Loading.{state_over};
ghost use Rattle.mum_serve.specs.Ready.{ending_of};
ghost use Rattle.mum_serve.specs.Serving.{opening_at, LeavesClock, OneStaysShut, Opens, Runs, RunsCounted, Serves};
ghost use Rattle.mum_serve.specs.Serving.{ServesAt, ServesOver, unloaded};
ghost use Rattle.mum_serve.specs.Stores.{AreRowsFor, store_passes};
ghost use Rattle.mum_serve.specs.Views.{passes_for};
ghost use Rattle.mum_state.specs.After.{all_fit};
ghost use Rattle.mum_state.specs.State.{empty_state};

use crate::asked::{Asked, Objects};
use crate::collect::Collected;
use crate::entries::Entries;
use crate::load::{LoadFault, load_rows};
use crate::ready::{Ready, end_roles, open_roles};
use crate::start::Beginning;
use crate::states::first_state;
use crate::summary::Summary;
use mum_base::OutOfMemory;
use mum_config::Config;
use mum_crew::{Crew, CrewEnd};
use mum_io::{Clock, Door, DoorOpen};
use mum_keeper::{Keeper, Keeping, KeptRows};
use mum_owner::Serving;
use mum_published::{Publisher, open};
use mum_state::{Edit, State};
use mum_viewer::Viewing;
use std::alloc::Global;
use std::marker::Brand;
use std::mem::drop;
use std::sync::Wait;

/// How a server ended.
#[derive(Drop)]
pub enum Served {
    /// All connections were served to their ends, and so were the views.
    Whole { summary: Summary, entries: Entries },
    /// A call of the keeper failed before anything was opened.
    KeeperFault,
    /// The rows of the keeper are not those of channels that a server may have.
    BadStore,
    /// A door did not open.
    DoorFault,
    /// The crew did not start.
    CrewFault,
    /// There was no memory to start.
    OutOfMemory,
}

// How a server ends whose roles a crew was given.
fn ending_of(end: CrewEnd, summary: Summary, entries: Entries) -> Served
    ensures { result ≡ ending_of end summary entries }
{
    match end {
        CrewEnd::Ran => Served::Whole { summary, entries },
        CrewEnd::Refused => {
            drop(entries);
            Served::CrewFault
        }
        CrewEnd::NoMemory => {
            drop(entries);
            Served::OutOfMemory
        }
    }
}

// Runs all roles, over doors that are open, and takes back what they were given.
fn run<
    N: Serving + Viewing + Keeping + Send,
    R: Wait + Copy + Send,
    D: Door + Send,
    C: Crew,
    K: Clock + Send,
    P: Keeper + Send,
>(
    rt: &R,
    alloc: Global,
    asked: &Asked<'_>,
    publisher: &mut Publisher,
    beginning: Beginning,
    rows: Option<KeptRows>,
    objects: Objects<D, K, P>,
    crew: &mut C,
) -> (Served, Objects<D, K, P>)
    requires opening { publisher.old.opening ≡ N.opening }
    requires begins { Begins publisher.old asked.now rows beginning }
    requires rows { AreRowsFor P.facts objects.keeper rows }
    requires door { opening_at D.facts objects.door ≡ N.door }
    requires view { opening_at D.facts objects.view ≡ N.view }
    requires keeper { opening_of (P.facts objects.keeper) ≡ N.keeper }
    requires connections { 0 < asked.now.connections }
    ensures counts { RunsCounted result.0 (C.counts crew.old) (C.counts crew.new) }
    ensures runs { Runs D.Conn.facts D.facts K.last K.calls P.facts N.opening.state (service asked.now)
        beginning.workers rows objects result.0 result.1 }
    ensures clock { LeavesClock K.last K.calls result.0 objects.clock result.1.clock }
{
    let Ready { roles, reserved } = match open_roles::<D, K, P, N, R>(
        rt, alloc, asked, publisher, beginning, rows, objects,
    ) {
        Ok(ready) => ready,
        Err(objects) => return (Served::OutOfMemory, objects),
    };
    let run = crew.run(alloc, roles);
    let Collected {
        summary,
        entries,
        objects,
    } = end_roles(run.roles, reserved, run.end);
    (ending_of(run.end, summary, entries), objects)
}

// The state at which a server begins, twice.
fn two_states(
    alloc: Global,
    edits: &[Edit],
    rows: &Option<KeptRows>,
) -> Result<(State, State), OutOfMemory>
    requires fit { IsTrue (all_fit empty_state edits.now) }
    requires limited { FitAfterLimits edits.now }
    requires alone { FitAfterLimits (settings_and_accounts edits.now) }
    requires rows { IfSome rows.now IsGood }
    ensures { IfOk result (λ states. (states.0 ≡ state_over edits.now rows.now)
        × (states.1 ≡ state_over edits.now rows.now)) }
{
    let state = first_state(alloc, edits, rows)?;
    match state.copy(alloc) {
        Ok(copy) => Ok((state, copy)),
        Err(error) => {
            drop(state);
            Err(error)
        }
    }
}

// Serves over what was opened at a state, and over doors that are open.
fn run_opened<R: Wait + Copy + Send, D: Door + Send, C: Crew, K: Clock + Send, P: Keeper + Send>(
    rt: &R,
    alloc: Global,
    asked: &Asked<'_>,
    publisher: &mut Publisher,
    beginning: Beginning,
    rows: Option<KeptRows>,
    objects: Objects<D, K, P>,
    crew: &mut C,
) -> (Served, Objects<D, K, P>)
    requires begins { Begins publisher.old asked.now rows beginning }
    requires rows { AreRowsFor P.facts objects.keeper rows }
    requires connections { 0 < asked.now.connections }
    ensures counts { RunsCounted result.0 (C.counts crew.old) (C.counts crew.new) }
    ensures runs { Runs D.Conn.facts D.facts K.last K.calls P.facts publisher.old.opening.state (service asked.now)
        beginning.workers rows objects result.0 result.1 }
    ensures clock { LeavesClock K.last K.calls result.0 objects.clock result.1.clock }
{
    run::<Brand, R, D, C, K, P>(rt, alloc, asked, publisher, beginning, rows, objects, crew)
}

// Opens the doors that are asked for. Answers whether they are open.
fn open_doors<D: Door + Send, K: Clock, P: Keeper>(
    asked: &Asked<'_>,
    objects: &mut Objects<D, K, P>,
) -> bool
    ensures opened { result ≡ true → Opens D.facts (service asked.now) objects.old objects.new }
    ensures shut { result ≡ false → OneStaysShut D.facts (service asked.now) objects.old objects.new }
    ensures clock { objects.new.clock ≡ objects.old.clock }
    ensures keeper { objects.new.keeper ≡ objects.old.keeper }
{
    if objects.door.open(asked.address) == DoorOpen::Failed {
        return false;
    }
    match asked.view {
        Some(view) => objects.view.open(view.address) != DoorOpen::Failed,
        None => true,
    }
}

// Serves over what was opened at a state, and over doors that are not open yet.
fn serve_at<R: Wait + Copy + Send, D: Door + Send, C: Crew, K: Clock + Send, P: Keeper + Send>(
    rt: &R,
    alloc: Global,
    asked: &Asked<'_>,
    publisher: &mut Publisher,
    beginning: Beginning,
    rows: Option<KeptRows>,
    objects: Objects<D, K, P>,
    crew: &mut C,
) -> (Served, Objects<D, K, P>)
    requires begins { Begins publisher.old asked.now rows beginning }
    requires rows { AreRowsFor P.facts objects.keeper rows }
    requires connections { 0 < asked.now.connections }
    ensures counts { RunsCounted result.0 (C.counts crew.old) (C.counts crew.new) }
    ensures serves { ServesAt D.Conn.facts D.facts K.last K.calls P.facts publisher.old.opening.state
        (service asked.now) beginning.workers rows objects result.0 result.1 }
    ensures clock { LeavesClock K.last K.calls result.0 objects.clock result.1.clock }
{
    let mut objects = objects;
    if !open_doors(asked, &mut objects) {
        drop(beginning);
        drop(rows);
        return (Served::DoorFault, objects);
    }
    run_opened(rt, alloc, asked, publisher, beginning, rows, objects, crew)
}

// How many passes a server needs: one for each worker, one for the viewer, and one for the store.
fn passes_of(workers: u8, asked: &Asked<'_>, rows: &Option<KeptRows>) -> u8
    requires { workers ≤ 8 }
    ensures value { result ≡ workers + passes_for (service asked.now).view + store_passes rows.now }
    ensures few { result ≤ 10 }
{
    workers + u8::from(asked.view.is_some()) + u8::from(rows.is_some())
}

// Serves over a keeper that gave these rows, where channels are kept, and over doors that are not open yet.
fn serve_loaded<R: Wait + Copy + Send, D: Door + Send, C: Crew, K: Clock + Send, P: Keeper + Send>(
    rt: &R,
    alloc: Global,
    config: &Config,
    asked: &Asked<'_>,
    rows: Option<KeptRows>,
    objects: Objects<D, K, P>,
    crew: &mut C,
) -> (Served, Objects<D, K, P>)
    requires fit { IsTrue (all_fit empty_state config.now.edits) }
    requires limited { FitAfterLimits config.now.edits }
    requires alone { FitAfterLimits (settings_and_accounts config.now.edits) }
    requires workers { (0 < config.now.workers) × (config.now.workers ≤ 8) }
    requires connections { 0 < asked.now.connections }
    requires good { IfSome rows IsGood }
    requires rows { AreRowsFor P.facts objects.keeper rows }
    ensures counts { RunsCounted result.0 (C.counts crew.old) (C.counts crew.new) }
    ensures serves { ServesAt D.Conn.facts D.facts K.last K.calls P.facts (state_over config.now.edits rows)
        (service asked.now) config.now.workers rows objects result.0 result.1 }
    ensures clock { LeavesClock K.last K.calls result.0 objects.clock result.1.clock }
{
    let Ok((state, copy)) = two_states(alloc, config.edits.as_slice(), &rows) else {
        drop(rows);
        return (Served::OutOfMemory, objects);
    };
    let passes = passes_of(config.workers, asked, &rows);
    let (mut publisher, passes) = match open(rt, alloc, copy, passes) {
        Ok(begun) => begun,
        Err(_) => {
            drop(state);
            drop(rows);
            return (Served::OutOfMemory, objects);
        }
    };
    let beginning = Beginning {
        state,
        workers: config.workers,
        passes,
    };
    let served = serve_at(
        rt,
        alloc,
        asked,
        &mut publisher,
        beginning,
        rows,
        objects,
        crew,
    );
    publisher.finish(rt);
    served
}

// How a server ends whose keeper gave no rows.
fn unloaded(fault: LoadFault) -> Served
    ensures { result ≡ unloaded fault }
{
    match fault {
        LoadFault::Failed => Served::KeeperFault,
        LoadFault::NotGood => Served::BadStore,
        LoadFault::OutOfMemory => Served::OutOfMemory,
    }
}

// Serves over doors that are not open yet, and a keeper that is not open either.
fn serve_over<R: Wait + Copy + Send, D: Door + Send, C: Crew, K: Clock + Send, P: Keeper + Send>(
    rt: &R,
    alloc: Global,
    config: &Config,
    asked: &Asked<'_>,
    objects: Objects<D, K, P>,
    crew: &mut C,
) -> (Served, Objects<D, K, P>)
    requires fit { IsTrue (all_fit empty_state config.now.edits) }
    requires limited { FitAfterLimits config.now.edits }
    requires alone { FitAfterLimits (settings_and_accounts config.now.edits) }
    requires workers { (0 < config.now.workers) × (config.now.workers ≤ 8) }
    requires connections { 0 < asked.now.connections }
    ensures counts { RunsCounted result.0 (C.counts crew.old) (C.counts crew.new) }
    ensures serves { Serves D.Conn.facts D.facts K.last K.calls P.facts config.now.edits (service asked.now)
        config.now.workers objects result.0 result.1 }
    ensures clock { LeavesClock K.last K.calls result.0 objects.clock result.1.clock }
{
    let mut objects = objects;
    match load_rows(alloc, asked.keep, &mut objects.keeper) {
        Ok(rows) => serve_loaded(rt, alloc, config, asked, rows, objects, crew),
        Err(fault) => (unloaded(fault), objects),
    }
}

/// Serves the connections that come to a door: as many as are asked for, or fewer where the door ends or fails. It
/// returns when all are closed. Where views are asked for, a viewer gives them over a second door, until as many were
/// given as are asked for, or that door ends or fails. Where channels are kept, the keeper is opened first and asked for
/// its rows: with rows of channels the server begins with these, in place of those of the configuration. A store brings
/// the keeper to the rows of what is accepted, as it comes, and once more at the end. The doors, the clock and the keeper
/// are back at every return. A server has room for 512 sessions and 2,048 channels; these limits are set before what
/// the configuration describes. Where a journal is asked for, the roles write down what they do, and keep it in memory.
pub fn serve<R: Wait + Copy + Send, D: Door + Send, C: Crew, K: Clock + Send, P: Keeper + Send>(
    rt: &R,
    alloc: Global,
    config: &Config,
    asked: &Asked<'_>,
    door: &mut Option<D>,
    view: &mut Option<D>,
    crew: &mut C,
    clock: &mut Option<K>,
    keeper: &mut Option<P>,
) -> Served
    requires fit { IsTrue (all_fit empty_state config.now.edits) }
    requires limited { FitAfterLimits config.now.edits }
    requires alone { FitAfterLimits (settings_and_accounts config.now.edits) }
    requires workers { (0 < config.now.workers) × (config.now.workers ≤ 8) }
    requires door { is_some door.old ≡ true }
    requires view { is_some view.old ≡ true }
    requires clock { is_some clock.old ≡ true }
    requires keeper { is_some keeper.old ≡ true }
    requires connections { 0 < asked.now.connections }
    ensures counts { RunsCounted result (C.counts crew.old) (C.counts crew.new) }
    ensures serves { ServesOver D.Conn.facts D.facts K.last K.calls P.facts config.now.edits (service asked.now)
        config.now.workers (record { door = door.old; view = view.old; clock = clock.old; keeper = keeper.old }) result
        (record { door = door.new; view = view.new; clock = clock.new; keeper = keeper.new }) }
{
    let (Some(lent_door), Some(lent_view), Some(lent_clock), Some(lent_keeper)) = (
        door.take(),
        view.take(),
        clock.take(),
        keeper.take(),
    ) else {
        unreachable!()
    };
    let objects = Objects {
        door: lent_door,
        view: lent_view,
        clock: lent_clock,
        keeper: lent_keeper,
    };
    let (served, objects) = serve_over(rt, alloc, config, asked, objects, crew);
    *door = Some(objects.door);
    *view = Some(objects.view);
    *clock = Some(objects.clock);
    *keeper = Some(objects.keeper);
    served
}
