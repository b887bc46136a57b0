//! What a recording or a journal says, in one form.

use crate::spoken::Spoken;
use crate::states::States;
use mum_base::{Items, OutOfMemory};
use mum_record::{ControlEntry, Limits};
use mum_state::State;
use std::alloc::Global;

// The commands that were decided and the packets that workers looked for, each with its line.
#[derive(Drop)]
pub(crate) struct Story {
    pub limits: Option<Limits>,
    /// The commands, in the order in which they were decided.
    pub controls: Items<ControlEntry>,
    /// The line of each command.
    pub lines: Vec<u64>,
    pub packets: Vec<Spoken>,
    /// After all commands.
    pub states: States,
}

impl Story {
    // Before all commands and packets, from an opening on.
    pub(crate) fn begin(
        alloc: Global,
        limits: Option<Limits>,
        opening: State,
    ) -> Result<Story, OutOfMemory> {
        Ok(Story {
            states: States::begin(alloc, opening)?,
            limits,
            controls: Items::new(alloc),
            lines: Vec::new(alloc),
            packets: Vec::new(alloc),
        })
    }
    // Decides a command in a line.
    pub(crate) fn decide(
        &mut self,
        alloc: Global,
        line: u64,
        entry: ControlEntry,
    ) -> Result<(), OutOfMemory> {
        let verdict = self.states.decide(alloc, &entry)?;
        self.controls.push(ControlEntry { verdict, ..entry })?;
        self.lines.push(line)?;
        Ok(())
    }
}
