//! The core: the machine, and the caches through which its workers route.

ghost use Rattle.std.specs.Prelude.{◌≡◌};
ghost use Rattle.mum_core.specs.Core.{version_of};

use crate::caches::{places, put_at, take_own_at};
use crate::machine::{Effects, Machine, StepFault};
use mum_base::{Items, OutOfMemory, Text};
use mum_cache::Caches;
use mum_history::state_after;
use mum_record::{Step, Version};
use mum_state::{Edit, State};
use std::alloc::Global;
use std::marker::Model;
use std::mem::drop;

/// The core of the server.
#[derive(Drop)]
pub struct Core {
    alloc: Global,
    machine: Machine,
    /// The caches of each worker, from its first look on.
    caches: Vec<Option<Caches>>,
}

impl Model for Core {
    ghost use Rattle.mum_core.specs.Caches.{CachedCore, EachIsSound};

    ghost Value = { CachedCore };

    ghost view = { λ c. record { state = c.machine; caches = c.caches.items } };

    ghost invariant = { λ c. EachIsSound c.machine c.caches.items };
}

// The version of a recording whose steps begin after these edits.
fn version_of(edits: &[Edit]) -> Version
    ensures { result ≡ version_of edits.now }
{
    match edits.first() {
        Some(Edit::SetLimits { .. }) => Version::Two,
        _ => Version::One,
    }
}

impl Core {
    ghost use Rattle.std.specs.Prelude.{◌≡◌, ◌++◌, ◌∷◌, [], ◌<◌, ◌⊎◌, IfOk, IsTrue, None, OnOk, false, length, map, replicate, string_bytes, vec_capacity, vec_len};
    ghost use Rattle.mum_base.specs.Refusal.{Gives, Settles};
    ghost use Rattle.mum_state.specs.After.{after, all_fit};
    ghost use Rattle.mum_state.specs.State.{empty_state};
    ghost use Rattle.mum_record.specs.Grammar.{IsRecordable};
    ghost use Rattle.mum_record.specs.Words.{line_of_words};
    ghost use Rattle.mum_record.specs.declared.step.Step.TheVariants.{Look};
    ghost use Rattle.mum_core.specs.Caches.{Caching, is_look};
    ghost use Rattle.mum_core.specs.Case.{IsStarved, named_cause};
    ghost use Rattle.mum_core.specs.Core.{start};
    ghost use Rattle.mum_core.specs.Line.{joined};
    ghost use Rattle.mum_core.specs.Step.{does, illegal, is_tell, lines};

    /// A core of n workers that nothing happened to, at this state; its steps are in a recording of
    /// this version. The edits that lead to the state are no part of its accepted ones: revisions count from
    /// here on.
    pub fn begin(
        alloc: Global,
        version: Version,
        workers: u8,
        opening: State,
    ) -> Result<Core, OutOfMemory>
        ensures state { IfOk result (λ core. core.state ≡ start version opening workers) }
        ensures caches { IfOk result (λ core. core.caches ≡ replicate workers None) }
    {
        let caches = match places(alloc, workers) {
            Ok(caches) => caches,
            Err(error) => {
                drop(opening);
                return Err(error);
            }
        };
        match Machine::begin(alloc, version, workers, opening) {
            Ok(machine) => Ok(Core {
                alloc,
                machine,
                caches,
            }),
            Err(error) => {
                drop(caches);
                Err(error)
            }
        }
    }

    /// The same at the state after edits of which each fits in its place. Its first step is at line 5
    /// where the first of the edits sets the limits, and else at line 4.
    pub fn open(alloc: Global, workers: u8, edits: &[Edit]) -> Result<Core, OutOfMemory>
        requires { IsTrue (all_fit empty_state edits.now) }
        ensures state { IfOk result (λ core. core.state ≡ start (version_of edits.now) (after edits.now) workers) }
        ensures caches { IfOk result (λ core. core.caches ≡ replicate workers None) }
    {
        Core::begin(
            alloc,
            version_of(edits),
            workers,
            state_after(alloc, edits)?,
        )
    }

    /// Takes a step, and appends the lines that the transcript gains, separated by line feeds. A refusal
    /// leaves the state as it was: `Illegal` has the two numbers of the first case that forbids the step.
    /// After a refusal the text may have been added to.
    ///
    /// A look leaves the entry that it asked for in the caches of its worker. Where that was there before, no
    /// access control list is read.
    pub fn take(&mut self, step: &Step, text: &mut String) -> Result<(), StepFault>
        requires recordable { IsRecordable step.now }
        ensures settled { Settles named_cause (illegal self.old.state step.now) (does self.old.state step.now) self.old.state result self.new.state }
        ensures told { OnOk result
            (string_bytes text.new ≡ string_bytes text.old ++ joined (lines self.old.state step.now)) }
        ensures caches { Caching self.old step.now result self.new.caches }
    {
        let Step::Look { worker, revision } = *step else {
            return self.take_other(step, text);
        };
        self.take_look(worker, revision, text)
    }

    // Takes a step that is not a look.
    fn take_other(&mut self, step: &Step, text: &mut String) -> Result<(), StepFault>
        requires recordable { IsRecordable step.now }
        requires other { is_look step.now ≡ false }
        ensures settled { Settles named_cause (illegal self.old.state step.now) (does self.old.state step.now) self.old.state result self.new.state }
        ensures told { OnOk result
            (string_bytes text.new ≡ string_bytes text.old ++ joined (lines self.old.state step.now)) }
        ensures caches { self.new.caches ≡ self.old.caches }
    {
        self.machine.know_edits();
        self.machine.take(step, text)
    }

    // Takes a look. Its worker is without caches while it looks, so that none are left that are ahead of what
    // it saw.
    fn take_look(&mut self, worker: u32, revision: u64, text: &mut String) -> Result<(), StepFault>
        ensures settled { Settles named_cause (illegal self.old.state (Look worker revision)) (does self.old.state (Look worker revision)) self.old.state result self.new.state }
        ensures told { OnOk result
            (string_bytes text.new ≡ string_bytes text.old ++ joined (lines self.old.state (Look worker revision))) }
        ensures caches { Caching self.old (Look worker revision) result self.new.caches }
    {
        self.machine.know_edits();
        self.machine.check_look(worker, revision)?;
        let place = worker as usize;
        let mut own = take_own_at(self.alloc, &mut self.caches, place)?;
        match self.machine.look(&mut own, worker, revision, text) {
            Ok(()) => {
                put_at(&mut self.caches, place, own);
                Ok(())
            }
            Err(fault) => {
                drop(own);
                Err(fault)
            }
        }
    }

    /// Takes a step, and answers the lines that the transcript gains. A refusal leaves the state as it was:
    /// `Illegal` has the two numbers of the first case that forbids the step.
    ///
    /// A look leaves the entry that it asked for in the caches of its worker. Where that was there before, no
    /// access control list is read.
    pub fn step(&mut self, step: &Step) -> Result<Effects, StepFault>
        requires recordable { IsRecordable step.now }
        ensures state { IsStarved self.old.state result self.new.state ⊎
            Gives named_cause (illegal self.old.state step.now) (map line_of_words (lines self.old.state step.now)) (does self.old.state step.now) self.old.state result self.new.state }
        ensures caches { Caching self.old step.now result self.new.caches }
    {
        let Step::Tell {
            connection,
            revision,
        } = *step
        else {
            return self.step_alone(step);
        };
        self.machine.know_edits();
        self.machine.step_tell(connection, revision)
    }

    // The same of a step that reports one line.
    fn step_alone(&mut self, step: &Step) -> Result<Effects, StepFault>
        requires recordable { IsRecordable step.now }
        requires alone { is_tell step.now ≡ false }
        ensures state { IsStarved self.old.state result self.new.state ⊎
            Gives named_cause (illegal self.old.state step.now) (map line_of_words (lines self.old.state step.now)) (does self.old.state step.now) self.old.state result self.new.state }
        ensures caches { Caching self.old step.now result self.new.caches }
    {
        match Vec::with_capacity(self.alloc, 1) {
            Ok(room) => self.step_into(step, room),
            Err(_) => Err(StepFault::OutOfMemory),
        }
    }

    // The same with room for what it reports, as one text.
    fn step_into(&mut self, step: &Step, mut room: Vec<Text>) -> Result<Effects, StepFault>
        requires recordable { IsRecordable step.now }
        requires nothing { room.items ≡ [] }
        requires room { vec_len room < vec_capacity room }
        ensures state { Gives named_cause (illegal self.old.state step.now)
            (joined (lines self.old.state step.now) ∷ [])
            (does self.old.state step.now) self.old.state result self.new.state }
        ensures caches { Caching self.old step.now result self.new.caches }
    {
        let mut text = String::new(self.alloc);
        self.take(step, &mut text)?;
        room.push_reserved(Text::from_string(text));
        Ok(Items::from_vec(room))
    }

    // The machine, without what its workers keep.
    pub(crate) fn machine(&self) -> &Machine
        ensures { result.now ≡ self.now.state }
    {
        &self.machine
    }
}
