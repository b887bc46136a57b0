//! The step `look`: a worker enters the published state for the packet that it holds.

ghost use Rattle.std.specs.Prelude.{◌≡◌, ◌++◌, OnOk, string_bytes};
ghost use Rattle.mum_base.specs.Refusal.{Settles};
ghost use Rattle.mum_core.specs.Case.{Passes, first_that_stands, named_cause};
ghost use Rattle.mum_core.specs.Line.{joined};
ghost use Rattle.std.specs.Prelude.{◌<◌, ◌≤◌, ◌∷◌, [], None, IfOk, IfSome, length, map, slice_get};
ghost use Rattle.std.specs.List.{All, flat_map};
ghost use Rattle.std.specs.Option.{option_copied};
ghost use Rattle.mum_history.specs.History.{state_at};
ghost use Rattle.mum_history.specs.View.{IsViewOf};
ghost use Rattle.mum_cache.specs.Caches.{AreSound};
ghost use Rattle.mum_core.specs.Caches.{KeepsFor};
ghost use Rattle.mum_core.specs.Core.{state_at as core_state_at, worker_at};
ghost use Rattle.mum_core.specs.steps.Look.{audience, copies, forbids, does, lines, hearer_word, route_words};

use super::{Machine, StepFault, illegal};
use crate::route::heard;
use crate::worker::{Held, Outgoing, look_at};
use mum_base::OutOfMemory;
use mum_cache::Caches;
use mum_history::{History, View};
use mum_record::{Word, push_line, push_word};
use mum_route::{Audience, Hearer};
use mum_state::State;
use mum_tree::Scratch;
use std::alloc::Global;
use std::collections::VecDeque;

// Appends a session and how the packet reaches it, after a space.
fn push_hearer(alloc: Global, text: &mut String, hearer: &Hearer) -> Result<(), OutOfMemory>
    ensures { IfOk result (λ _. string_bytes text.new ≡ string_bytes text.old ++ 32 ∷ hearer_word hearer.now) }
{
    text.push_str(" ")?;
    push_word(alloc, text, &Word::Number(u64::from(hearer.session.0)))?;
    text.push_str("/")?;
    push_word(alloc, text, &Word::Number(u64::from(hearer.context)))
}

// Appends these sessions, each after a space.
fn push_hearers(alloc: Global, text: &mut String, hearers: &[Hearer]) -> Result<(), OutOfMemory>
    ensures { IfOk result
        (λ _. string_bytes text.new
        ≡ string_bytes text.old ++ flat_map (λ hearer. 32 ∷ hearer_word hearer) hearers.now) }
{
    for hearer in hearers {
        push_hearer(alloc, text, hearer)?;
    }
    Ok(())
}

// Appends the line that a look reports.
fn push_route(
    alloc: Global,
    text: &mut String,
    worker: u32,
    revision: u64,
    hearers: &[Hearer],
) -> Result<(), OutOfMemory>
    ensures { IfOk result
        (λ _. string_bytes text.new ≡ string_bytes text.old ++ joined (route_words worker revision hearers.now ∷ [])) }
{
    let words = [
        Word::Number(u64::from(worker)),
        Word::Number(revision),
        Word::Number(hearers.len() as u64),
    ];
    push_line(alloc, text, "route", &words)?;
    push_hearers(alloc, text, hearers)
}

// The view of the worker at a place goes to a revision.
fn go_to_at(
    views: &mut Vec<View>,
    place: usize,
    alloc: Global,
    history: &History,
    revision: u64,
) -> Result<(), OutOfMemory>
    requires there { place < length views.old.items }
    requires views { All (IsViewOf history.now.opening history.now.accepted) views.old.items }
    requires accepted { revision ≤ length history.now.accepted }
    ensures views { All (IsViewOf history.now.opening history.now.accepted) views.new.items }
    ensures as_many { length views.new.items ≡ length views.old.items }
    ensures state { OnOk result
        (IfSome (slice_get views.new.items place) (λ view. view.state ≡ state_at history.now revision)) }
{
    match views.get_mut(place) {
        Some(view) => view.go_to(alloc, history, revision),
        None => unreachable!(),
    }
}

// The copies of a packet in a state, for those who hear it, who take the place of those in the audience; nobody where there
// is none.
fn heard_in(
    alloc: Global,
    state: &State,
    held: Option<&Held>,
    caches: &mut Caches,
    scratch: &mut Scratch,
    hearers: &mut Audience,
) -> Result<VecDeque<Outgoing>, OutOfMemory>
    requires { AreSound state.now caches.old }
    ensures hearers { OnOk result (hearers.new ≡ audience state.now (option_copied held.entry)) }
    ensures copies { IfOk result (λ left. left.items ≡ copies state.now (option_copied held.entry)) }
    ensures asked { OnOk result (KeepsFor state.now (option_copied held.entry) caches.old.routes caches.new.routes) }
    ensures sound { OnOk result (AreSound state.now caches.new) }
{
    match held {
        Some(held) => heard(alloc, state, held, caches, scratch, hearers),
        None => {
            *hearers = Audience::new();
            Ok(VecDeque::new(alloc))
        }
    }
}

impl Machine {
    // The copies of the packet that a worker holds, for those who hear it at a revision, who take the place of those in
    // the audience; nobody where it holds none. A look at all accepted edits needs no view of its own.
    #[tactic(auto, using(mum_history::proofs::Fronts::at_all))]
    fn heard_at(
        &mut self,
        caches: &mut Caches,
        worker: u32,
        revision: u64,
        hearers: &mut Audience,
    ) -> Result<VecDeque<Outgoing>, OutOfMemory>
        requires there { worker < length self.old.workers }
        requires accepted { revision ≤ length self.old.accepted }
        requires sound { AreSound (core_state_at self.old revision) caches.old }
        ensures hearers { OnOk result
            (hearers.new ≡ audience (core_state_at self.old revision) (worker_at self.old worker).held) }
        ensures copies { IfOk result
            (λ left. left.items ≡ copies (core_state_at self.old revision) (worker_at self.old worker).held) }
        ensures asked { OnOk result (KeepsFor (core_state_at self.old revision) (worker_at self.old worker).held caches.old.routes caches.new.routes) }
        ensures sound { OnOk result (AreSound (core_state_at self.old revision) caches.new) }
        ensures same { self.new ≡ self.old }
    {
        let place = worker as usize;
        let held = self.workers[place].held();
        if revision == self.history.revision() {
            return heard_in(
                self.alloc,
                self.history.current(),
                held,
                caches,
                &mut self.scratch,
                hearers,
            );
        }
        go_to_at(&mut self.views, place, self.alloc, &self.history, revision)?;
        heard_in(
            self.alloc,
            self.views[place].state(),
            held,
            caches,
            &mut self.scratch,
            hearers,
        )
    }

    /// Refuses a look that is not allowed.
    pub fn check_look(&self, worker: u32, revision: u64) -> Result<(), StepFault>
        ensures passes { Passes (first_that_stands (forbids self.now worker revision)) result }
        ensures there { OnOk result (worker < length self.now.workers) }
        ensures accepted { OnOk result (revision ≤ length self.now.accepted) }
    {
        let Some(looking) = self.worker(worker) else {
            return Err(self.no_worker(worker));
        };
        if looking.held().is_none() {
            return Err(illegal(u64::from(worker), 0));
        }
        let least = looking.least_look();
        if revision < least {
            return Err(illegal(revision, least));
        }
        if revision > self.history.published() {
            return Err(illegal(revision, self.history.published()));
        }
        Ok(())
    }

    // Takes a look that is allowed.
    pub(super) fn take_look(
        &mut self,
        caches: &mut Caches,
        worker: u32,
        revision: u64,
        text: &mut String,
    ) -> Result<(), StepFault>
        requires allowed { first_that_stands (forbids self.old worker revision) ≡ None }
        requires there { worker < length self.old.workers }
        requires accepted { revision ≤ length self.old.accepted }
        requires sound { AreSound (core_state_at self.old revision) caches.old }
        ensures settled { Settles named_cause (first_that_stands (forbids self.old worker revision)) (does self.old worker revision) self.old result self.new }
        ensures told { OnOk result
            (string_bytes text.new ≡ string_bytes text.old ++ joined (lines self.old worker revision)) }
        ensures asked { OnOk result (KeepsFor (core_state_at self.old revision) (worker_at self.old worker).held caches.old.routes caches.new.routes) }
        ensures sound { OnOk result (AreSound (core_state_at self.old revision) caches.new) }
    {
        let mut hearers = Audience::new();
        let left = self.heard_at(caches, worker, revision, &mut hearers)?;
        push_route(self.alloc, text, worker, revision, hearers.as_slice())?;
        look_at(&mut self.workers, worker as usize, revision, left);
        self.totals.looks = self.totals.looks.saturating_add(1);
        Ok(())
    }
}
