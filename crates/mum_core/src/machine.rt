//! The machine: connections, workers, outboxes and the list of accepted edits. Each step has a file of
//! its own. What a worker keeps of earlier looks is no part of it: a look is handed the caches.

ghost use Rattle.std.specs.Prelude.{◌≡◌, ◌∷◌, [], IfOk, length, replicate};
ghost use Rattle.mum_record.specs.Grammar.{IsRecordable};
ghost use Rattle.mum_core.specs.declared.machine.StepFault.TheVariants.{Illegal};
ghost use Rattle.mum_base.specs.declared.number.TheConstants.{SLOTS as slots};
ghost use Rattle.mum_core.specs.Worker.{idle};

use crate::connection::Connection;
use crate::outbox::Outbox;
use crate::post::empty_posts;
use crate::reply::know_proper;
use crate::worker::Worker;
use mum_base::{Items, OutOfMemory, SLOTS, Text};
use mum_cache::Caches;
use mum_history::{History, View, readers};
use mum_notify::NoticeQueue;
use mum_record::{Step, Version};
use mum_state::State;
use mum_tree::Scratch;
use std::alloc::{AllocError, Global};
use std::marker::Model;
use thiserror::Error;

mod close;
mod collect;
mod delivery;
mod drain;
mod edit;
mod end;
mod frame;
mod look;
mod offer;
mod open;
mod post;
mod publish;
mod reading;
mod tell;

/// The lines that a step adds to the transcript, without their line feeds.
pub type Effects = Items<Text>;

/// Why a step was not taken.
#[derive(Debug, Drop, Error)]
pub enum StepFault {
    /// The step is not allowed now: what it gave, against what is expected.
    #[error("given {given} against {against}")]
    Illegal { given: u64, against: u64 },
    #[error("out of memory")]
    OutOfMemory,
}

impl From<AllocError> for StepFault {
    ghost use Rattle.std.specs.Prelude.{◌≡◌};
    ghost use Rattle.mum_core.specs.declared.machine.StepFault.TheVariants.{OutOfMemory};

    ghost from_gives = { λ _ e. e ≡ OutOfMemory };

    fn from(_e: AllocError) -> StepFault {
        StepFault::OutOfMemory
    }
}

// The fault of a step that is not allowed.
fn illegal(given: u64, against: u64) -> StepFault
    ensures { result ≡ Illegal given against }
{
    StepFault::Illegal { given, against }
}

/// How much was looked for, sent, and not sent. Each count stays at the end of its type.
#[derive(Clone, Copy)]
pub struct Totals {
    pub looks: u64,
    pub copies: u64,
    pub full: u64,
    pub stale: u64,
}

/// The core of the server, but for the caches of its workers.
#[derive(Drop)]
pub struct Machine {
    alloc: Global,
    history: History,
    connections: Vec<Connection>,
    workers: Vec<Worker>,
    /// Where each worker reads the history.
    views: Vec<View>,
    /// The marks of the channels that talk covers.
    scratch: Scratch,
    outboxes: Vec<Outbox>,
    /// The notices of accepted edits that were not posted yet.
    pending: NoticeQueue,
    posts: Vec<NoticeQueue>,
    /// How many notices were posted, or found the posts of their slot full.
    posted: u64,
    totals: Totals,
    /// The number of the last line that was taken.
    line: u64,
}

impl Model for Machine {
    ghost use Rattle.mum_core.specs.Core.{CoreState};

    ghost Value = { CoreState };

    ghost use Rattle.mum_core.specs.Kept.{IsKept};

    ghost view = { λ c. record {
      opening = c.history.opening;
      accepted = c.history.accepted;
      published = c.history.published;
      connections = c.connections.items;
      workers = c.workers.items;
      outboxes = c.outboxes.items;
      pending = c.pending;
      posts = c.posts.items;
      posted = c.posted;
      totals = c.totals;
      line = c.line;
    } };

    ghost invariant = { λ c. IsKept c.history c.views.items c.workers.items c.outboxes.items c.posts.items };
}

// Workers that have done nothing.
fn idle_workers(alloc: Global, count: u8) -> Result<Vec<Worker>, OutOfMemory>
    ensures idle { IfOk result (λ workers. workers.items ≡ replicate count idle) }
    ensures count { IfOk result (λ workers. length workers.items ≡ count) }
{
    let mut workers = Vec::new(alloc);
    for _number in 0..count {
        workers.push(Worker::new(alloc))?;
    }
    Ok(workers)
}

// An outbox for each slot.
fn empty_outboxes(alloc: Global) -> Result<Vec<Outbox>, OutOfMemory>
    ensures empty { IfOk result (λ outboxes. outboxes.items ≡ replicate slots []) }
    ensures count { IfOk result (λ outboxes. length outboxes.items ≡ slots) }
{
    let mut outboxes = Vec::new(alloc);
    for _slot in 0..SLOTS {
        outboxes.push(Outbox::new(alloc)?)?;
    }
    Ok(outboxes)
}

// Workers that have done nothing, and an outbox for each slot.
fn idle_hands(alloc: Global, count: u8) -> Result<(Vec<Worker>, Vec<Outbox>), OutOfMemory>
    ensures idle { IfOk result (λ hands. hands.0.items ≡ replicate count idle) }
    ensures count { IfOk result (λ hands. length hands.0.items ≡ count) }
    ensures empty { IfOk result (λ hands. hands.1.items ≡ replicate slots []) }
    ensures slots { IfOk result (λ hands. length hands.1.items ≡ slots) }
{
    let workers = idle_workers(alloc, count)?;
    let outboxes = empty_outboxes(alloc)?;
    Ok((workers, outboxes))
}

impl Machine {
    ghost use Rattle.std.specs.Prelude.{◌≡◌, ◌++◌, [], ◌-◌, ◌<◌, ◌≤◌, None, IfOk, IfSome, OnOk, IsTrue, is_some, false, length, map, nat_lt, string_bytes, ◌⊎◌};
    ghost use Rattle.mum_base.specs.Refusal.{Gives, Settles};
    ghost use Rattle.mum_state.specs.After.{all_fit};
    ghost use Rattle.mum_state.specs.Proper.{IsProper};
    ghost use Rattle.mum_record.specs.Head.{first_step_line};
    ghost use Rattle.mum_record.specs.Words.{line_of_words};
    ghost use Rattle.mum_record.specs.declared.step.Step.TheVariants.{Look, Tell};
    ghost use Rattle.mum_cache.specs.Caches.{AreSound};
    ghost use Rattle.mum_core.specs.Caches.{KeepsFor, is_look};
    ghost use Rattle.mum_core.specs.Case.{IsStarved, named_cause};
    ghost use Rattle.mum_core.specs.Core.{start, state_at, is_opened, connection_at, up, worker_at};
    ghost use Rattle.mum_core.specs.Kept.{IsKept};
    ghost use Rattle.mum_core.specs.Line.{joined};
    ghost use Rattle.mum_core.specs.Step.{changes, does, illegal, lines};
    ghost use Rattle.mum_core.specs.Worker.{in_hand};
    ghost use Rattle.mum_core.specs.declared.machine.StepFault.TheVariants as faults;

    // A machine to which nothing was counted, of parts that fit one another; its steps are in a recording
    // of this version.
    fn of(
        alloc: Global,
        version: Version,
        history: History,
        views: Vec<View>,
        workers: Vec<Worker>,
        outboxes: Vec<Outbox>,
        posts: Vec<NoticeQueue>,
        scratch: Scratch,
    ) -> Machine
        requires { IsKept history views.items workers.items outboxes.items posts.items }
        ensures { result ≡ record {
          opening = history.opening;
          accepted = history.accepted;
          published = history.published;
          connections = [];
          workers = workers.items;
          outboxes = outboxes.items;
          pending = [];
          posts = posts.items;
          posted = 0;
          totals = record { looks = 0; copies = 0; full = 0; stale = 0 };
          line = first_step_line version - 1;
        } }
    {
        Machine {
            alloc,
            history,
            connections: Vec::new(alloc),
            workers,
            views,
            scratch,
            outboxes,
            pending: NoticeQueue::new(alloc),
            posts,
            posted: 0,
            totals: Totals {
                looks: 0,
                copies: 0,
                full: 0,
                stale: 0,
            },
            line: version.first_step_line().saturating_sub(1),
        }
    }

    /// A machine of n workers that nothing happened to, at this state; its steps are in a recording of
    /// this version. The edits that lead to the state are no part of its accepted ones: revisions count from
    /// here on.
    pub fn begin(
        alloc: Global,
        version: Version,
        workers: u8,
        opening: State,
    ) -> Result<Machine, OutOfMemory>
        ensures { IfOk result (λ machine. machine ≡ start version opening workers) }
    {
        let (hands, outboxes) = idle_hands(alloc, workers)?;
        let posts = empty_posts(alloc)?;
        let scratch = Scratch::new(alloc)?;
        let (history, views) = readers(alloc, workers, opening)?;
        Ok(Machine::of(
            alloc, version, history, views, hands, outboxes, posts, scratch,
        ))
    }

    /// What it keeps true of its edits: the opening is that of a server, and each accepted edit fits.
    pub fn know_edits(&self)
        ensures proper { IsProper self.now.opening }
        ensures fit { IsTrue (all_fit self.now.opening self.now.accepted) }
    {
        let _accepted = self.history.accepted();
        know_proper(self.history.opening());
    }

    /// Takes a step that is not a look, and appends the lines that the transcript gains, separated by line
    /// feeds. A refusal leaves the machine as it was: `Illegal` has the two numbers of the first case that
    /// forbids the step. After a refusal the text may have been added to.
    pub fn take(&mut self, step: &Step, text: &mut String) -> Result<(), StepFault>
        requires recordable { IsRecordable step.now }
        requires other { is_look step.now ≡ false }
        ensures settled { Settles named_cause (illegal self.old step.now) (does self.old step.now) self.old result self.new }
        ensures told { OnOk result (string_bytes text.new ≡ string_bytes text.old ++ joined (lines self.old step.now)) }
    {
        self.change(step, text)?;
        self.count_line();
        Ok(())
    }

    // One line more was taken.
    fn count_line(&mut self)
        ensures { self.new ≡ record self.old { line = up self.old.line } }
    {
        self.line = self.line.saturating_add(1);
    }

    /// Takes a look that is allowed, by the caches of its worker, and appends the line that it reports. Where
    /// memory runs out the caches may be ahead of what the worker saw.
    pub fn look(
        &mut self,
        caches: &mut Caches,
        worker: u32,
        revision: u64,
        text: &mut String,
    ) -> Result<(), StepFault>
        requires allowed { illegal self.old (Look worker revision) ≡ None }
        requires there { worker < length self.old.workers }
        requires accepted { revision ≤ length self.old.accepted }
        requires sound { AreSound (state_at self.old revision) caches.old }
        ensures settled { Settles named_cause (illegal self.old (Look worker revision)) (does self.old (Look worker revision)) self.old result self.new }
        ensures told { OnOk result
            (string_bytes text.new ≡ string_bytes text.old ++ joined (lines self.old (Look worker revision))) }
        ensures asked { OnOk result (KeepsFor (state_at self.old revision) (worker_at self.old worker).held caches.old.routes caches.new.routes) }
        ensures sound { OnOk result (AreSound (state_at self.old revision) caches.new) }
    {
        self.take_look(caches, worker, revision, text)?;
        self.count_line();
        Ok(())
    }

    // Makes the change of a step that is not a look, but for the line that it takes.
    fn change(&mut self, step: &Step, text: &mut String) -> Result<(), StepFault>
        requires recordable { IsRecordable step.now }
        requires other { is_look step.now ≡ false }
        ensures settled { Settles named_cause (illegal self.old step.now) (changes self.old step.now) self.old result self.new }
        ensures told { OnOk result (string_bytes text.new ≡ string_bytes text.old ++ joined (lines self.old step.now)) }
    {
        match step {
            Step::Open { connection, worker } => self.take_open(*connection, *worker, text),
            Step::Frame { connection, bytes } => {
                self.take_frame(*connection, bytes.as_slice(), text)
            }
            Step::Edit { connection } => self.take_edit(*connection, text),
            Step::Publish => self.take_publish(text),
            Step::Tell {
                connection,
                revision,
            } => self.take_tell(*connection, *revision, text),
            Step::Look { .. } => unreachable!(),
            Step::Offer { worker } => self.take_offer(*worker, text),
            Step::Post => self.take_post(text),
            Step::Drain { connection } => self.take_drain(*connection, text),
            Step::Collect { connection } => self.take_collect(*connection, text),
            Step::Close { connection, cause } => self.take_close(*connection, *cause, text),
            Step::End => self.take_end(text),
        }
    }

    /// Takes a `Tell`, and answers the lines that the transcript gains. A refusal changes nothing.
    pub fn step_tell(&mut self, connection: u32, note: Option<u64>) -> Result<Effects, StepFault>
        ensures { IsStarved self.old result self.new ⊎
            Gives named_cause (illegal self.old (Tell connection note)) (map line_of_words (lines self.old (Tell connection note))) (does self.old (Tell connection note)) self.old result self.new }
    {
        let reported = self.tell_lines(connection, note)?;
        self.tell(connection, note);
        self.count_line();
        Ok(reported)
    }

    // A connection that was opened.
    fn connection(&self, connection: u32) -> Option<&Connection>
        ensures found { IfSome result (λ found. found.now ≡ connection_at self.now connection) }
        ensures opened { is_some result ≡ is_opened self.now connection }
    {
        let place = (connection as usize).checked_sub(1)?;
        self.connections.get(place)
    }

    // Why a step that names this connection is refused before any other test.
    fn unopened(&self, connection: u32) -> StepFault
        ensures { result ≡ faults.Illegal connection (length self.now.connections) }
    {
        illegal(u64::from(connection), self.connections.len() as u64)
    }

    // A worker that there is.
    fn worker(&self, worker: u32) -> Option<&Worker>
        ensures found { IfSome result (λ found. found.now ≡ worker_at self.now worker) }
        ensures there { is_some result ≡ nat_lt worker (length self.now.workers) }
    {
        self.workers.get(worker as usize)
    }

    // Why a step that names this worker is refused before any other test.
    fn no_worker(&self, worker: u32) -> StepFault
        ensures { result ≡ faults.Illegal worker (length self.now.workers) }
    {
        illegal(u64::from(worker), self.workers.len() as u64)
    }

    // How much a worker has in hand: nothing where there is none of that number.
    fn in_hand(&self, worker: u32) -> u64
        ensures { result ≡ in_hand (worker_at self.now worker) }
    {
        match self.worker(worker) {
            Some(worker) => worker.in_hand(),
            None => 0,
        }
    }
}
