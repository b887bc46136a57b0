//! How far the entries of the workers are gone through.

ghost use Rattle.std.specs.Prelude.{◌≡◌, ◌++◌, ◌∷◌, [], None, OnOk};
ghost use Rattle.mum_audit.specs.Workers.{at_worker, before_workers, closed_at, next_line as spec_next_line};

use crate::line::next_line;
use indexmap::IndexMap;
use mum_base::OutOfMemory;
use std::alloc::Global;
use std::marker::Model;

// The line that comes next, the last revision of the worker, and the line of each closing entry.
#[derive(Drop)]
pub(crate) struct Trail {
    line: u64,
    least: u64,
    closed: IndexMap<u32, u64>,
}

impl Model for Trail {
    ghost use Rattle.mum_audit.specs.Workers.{Trail as TrailValue};

    ghost Value = { TrailValue };

    ghost view = { λ t. record { line = t.line; least = t.least; closed = t.closed.entries } };
}

impl Trail {
    // Before the entries of the first worker.
    pub(crate) fn new(alloc: Global, line: u64) -> Trail
        ensures { result ≡ before_workers line }
    {
        Trail {
            line,
            least: 0,
            closed: IndexMap::new(alloc),
        }
    }

    // The line that comes next.
    pub(crate) fn line(&self) -> u64
        ensures { result ≡ self.now.line }
    {
        self.line
    }

    // The revision of the last voice entry of the worker.
    pub(crate) fn least(&self) -> u64
        ensures { result ≡ self.now.least }
    {
        self.least
    }

    // The line of the closing entry of a connection.
    pub(crate) fn closed(&self, connection: u32) -> Option<u64>
        ensures { result ≡ closed_at self.now connection }
    {
        self.closed.get(&connection).copied()
    }

    // Goes past the line with the number of a worker.
    pub(crate) fn begin_worker(&mut self)
        ensures { self.new ≡ at_worker self.old }
    {
        self.line = next_line(self.line);
        self.least = 0;
    }

    // Goes past a voice entry of this revision.
    pub(crate) fn pass_voice(&mut self, revision: u64)
        ensures { self.new ≡ record self.old { line = spec_next_line self.old.line; least = revision } }
    {
        self.line = next_line(self.line);
        self.least = revision;
    }

    // Goes past the first closing entry of a connection.
    pub(crate) fn pass_closing(&mut self, connection: u32) -> Result<(), OutOfMemory>
        requires { closed_at self.old connection ≡ None }
        ensures { OnOk result (self.new ≡ record self.old {
          line = spec_next_line self.old.line;
          closed = self.old.closed ++ (connection, self.old.line) ∷ [];
        }) }
    {
        self.closed.insert(connection, self.line)?;
        self.line = next_line(self.line);
        Ok(())
    }
}
