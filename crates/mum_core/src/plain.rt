//! The core as a run over a recording has it. What a run says is a function of its lines, and what the caches hold
//! is not one of the steps alone: so the value of a `PlainCore` is the state, where that of a `Core` has the caches.

ghost use Rattle.std.specs.Prelude.{◌≡◌};

use crate::cached::Core;
use crate::machine::{StepFault, Totals};
use mum_base::{Mark, OutOfMemory, SessionId};
use mum_record::{Step, Version};
use mum_state::State;
use std::alloc::Global;
use std::marker::Model;

/// A core whose value is its state: what its workers keep is hidden.
#[derive(Drop)]
pub struct PlainCore {
    core: Core,
}

impl Model for PlainCore {
    ghost use Rattle.mum_core.specs.Core.{CoreState};

    ghost Value = { CoreState };

    ghost view = { λ p. p.core.state };
}

impl PlainCore {
    ghost use Rattle.std.specs.Prelude.{◌≡◌, ◌++◌, IfOk, OnOk, map, string_bytes};
    ghost use Rattle.std.specs.Option.{option_map};
    ghost use Rattle.mum_base.specs.Refusal.{Settles};
    ghost use Rattle.mum_record.specs.Grammar.{IsRecordable};
    ghost use Rattle.mum_core.specs.Case.{named_cause};
    ghost use Rattle.mum_core.specs.Core.{connection_at, start, worker_at};
    ghost use Rattle.mum_core.specs.Line.{joined};
    ghost use Rattle.mum_core.specs.Step.{does, illegal, lines};

    /// A core of n workers that nothing happened to, as `Core::begin` makes it.
    pub fn begin(
        alloc: Global,
        version: Version,
        workers: u8,
        opening: State,
    ) -> Result<PlainCore, OutOfMemory>
        ensures { IfOk result (λ core. core ≡ start version opening workers) }
    {
        Ok(PlainCore {
            core: Core::begin(alloc, version, workers, opening)?,
        })
    }

    /// Takes a step, as `Core::take` does.
    pub fn take(&mut self, step: &Step, text: &mut String) -> Result<(), StepFault>
        requires recordable { IsRecordable step.now }
        ensures settled { Settles named_cause (illegal self.old step.now) (does self.old step.now) self.old result self.new }
        ensures told { OnOk result (string_bytes text.new ≡ string_bytes text.old ++ joined (lines self.old step.now)) }
    {
        self.core.take(step, text)
    }

    /// How many accepted edits are published.
    pub fn published(&self) -> u64
        ensures { result ≡ self.now.published }
    {
        self.core.machine().published()
    }

    /// What was decided of the command of a connection, until it is sent: none where nothing waits to be
    /// sent, or where no connection of that number was opened.
    pub fn decided(&self, connection: u32) -> Option<Mark>
        ensures { result ≡ option_map (λ reply. reply.mark) (connection_at self.now connection).decided }
    {
        self.core.machine().decided(connection)
    }

    /// The sessions of the copies that a worker has still to offer, in their order: none where there is no
    /// worker of that number.
    pub fn recipients(&self, worker: u32) -> Result<Vec<SessionId>, OutOfMemory>
        ensures { IfOk result (λ sessions. sessions.items ≡ map (λ copy. copy.to) (worker_at self.now worker).copies) }
    {
        self.core.machine().recipients(worker)
    }

    /// The sessions of the notices that were not posted yet, in their order.
    pub fn pending(&self) -> Result<Vec<SessionId>, OutOfMemory>
        ensures { IfOk result (λ sessions. sessions.items ≡ map (λ notice. notice.to) self.now.pending) }
    {
        self.core.machine().pending()
    }

    pub fn totals(&self) -> Totals
        ensures { result ≡ self.now.totals }
    {
        self.core.machine().totals()
    }
}
