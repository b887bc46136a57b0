//! The step `publish`: all accepted edits are published.

ghost use Rattle.std.specs.Prelude.{◌≡◌, ◌++◌, OnOk, string_bytes};
ghost use Rattle.mum_base.specs.Refusal.{Settles};
ghost use Rattle.mum_core.specs.Case.{first_that_stands, named_cause};
ghost use Rattle.mum_core.specs.Line.{joined};
ghost use Rattle.mum_core.specs.steps.Publish.{forbids, does, lines};

use super::{Machine, StepFault};
use mum_record::{Word, push_line};

impl Machine {
    pub(super) fn take_publish(&mut self, text: &mut String) -> Result<(), StepFault>
        ensures settled { Settles named_cause (first_that_stands forbids) (does self.old) self.old result self.new }
        ensures told { OnOk result (string_bytes text.new ≡ string_bytes text.old ++ joined (lines self.old)) }
    {
        let revision = self.history.revision();
        push_line(self.alloc, text, "published", &[Word::Number(revision)])?;
        self.history.publish();
        Ok(())
    }
}
