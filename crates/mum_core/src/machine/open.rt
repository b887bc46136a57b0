//! The step `open`: a connection begins at a worker.

ghost use Rattle.std.specs.Prelude.{◌≡◌, ◌++◌, OnOk, string_bytes};
ghost use Rattle.mum_base.specs.Refusal.{Settles};
ghost use Rattle.mum_core.specs.Case.{first_that_stands, named_cause};
ghost use Rattle.mum_core.specs.Line.{joined};
ghost use Rattle.mum_core.specs.steps.Open.{forbids, does, lines};

use super::{Machine, StepFault, illegal};
use crate::connection::Connection;
use mum_record::{Word, push_line};
use std::alloc::AllocError;

impl Machine {
    pub(super) fn take_open(
        &mut self,
        connection: u32,
        worker: u32,
        text: &mut String,
    ) -> Result<(), StepFault>
        ensures settled { Settles named_cause (first_that_stands (forbids self.old connection worker)) (does self.old worker) self.old result self.new }
        ensures told { OnOk result (string_bytes text.new ≡ string_bytes text.old ++ joined (lines connection worker)) }
    {
        let next = self.connections.len() as u64 + 1;
        if u64::from(connection) != next {
            return Err(illegal(u64::from(connection), next));
        }
        if worker as usize >= self.workers.len() {
            return Err(self.no_worker(worker));
        }
        let words = [
            Word::Number(u64::from(connection)),
            Word::Number(u64::from(worker)),
        ];
        push_line(self.alloc, text, "opened", &words)?;
        self.connections
            .push(Connection::at(worker as u8))
            .map_err(AllocError::from)?;
        Ok(())
    }
}
