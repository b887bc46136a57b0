//! The step `end`: the recording ends.

ghost use Rattle.std.specs.Prelude.{◌≡◌, ◌++◌, OnOk, string_bytes};
ghost use Rattle.mum_base.specs.Refusal.{Settles};
ghost use Rattle.mum_core.specs.Case.{first_that_stands, named_cause};
ghost use Rattle.mum_core.specs.Line.{joined};
ghost use Rattle.mum_core.specs.steps.End.{forbids, does, lines, totals_words};
ghost use Rattle.std.specs.Prelude.{◌∷◌, [], IfOk};

use super::{Machine, StepFault, Totals};
use mum_base::OutOfMemory;
use mum_record::{Word, push_line};
use std::alloc::Global;

// Appends the line that reports the totals.
fn push_totals(alloc: Global, text: &mut String, totals: &Totals) -> Result<(), OutOfMemory>
    ensures { IfOk result
        (λ _. string_bytes text.new ≡ string_bytes text.old ++ joined (totals_words totals.now ∷ [])) }
{
    let words = [
        Word::Name("looks"),
        Word::Number(totals.looks),
        Word::Name("copies"),
        Word::Number(totals.copies),
        Word::Name("full"),
        Word::Number(totals.full),
        Word::Name("stale"),
        Word::Number(totals.stale),
    ];
    push_line(alloc, text, "totals", &words)
}

impl Machine {
    pub(super) fn take_end(&self, text: &mut String) -> Result<(), StepFault>
        ensures settled { Settles named_cause (first_that_stands forbids) (does self.now) self.now result self.now }
        ensures told { OnOk result (string_bytes text.new ≡ string_bytes text.old ++ joined (lines self.now)) }
    {
        push_totals(self.alloc, text, &self.totals)?;
        Ok(())
    }
}
