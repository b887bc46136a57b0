//! The step `offer`: a worker offers its next copy to the outbox of its slot.

ghost use Rattle.std.specs.Prelude.{◌≡◌, ◌++◌, OnOk, string_bytes};
ghost use Rattle.mum_base.specs.Refusal.{Settles};
ghost use Rattle.mum_core.specs.Case.{first_that_stands, named_cause};
ghost use Rattle.mum_core.specs.Line.{joined};
ghost use Rattle.mum_core.specs.steps.Offer.{forbids, does, lines};

use super::{Machine, StepFault, illegal};
use crate::outbox::{Parcel, put_at};
use crate::worker::take_copy_at;
use mum_record::{Word, push_line};

impl Machine {
    pub(super) fn take_offer(&mut self, worker: u32, text: &mut String) -> Result<(), StepFault>
        ensures settled { Settles named_cause (first_that_stands (forbids self.old worker)) (does self.old worker) self.old result self.new }
        ensures told { OnOk result (string_bytes text.new ≡ string_bytes text.old ++ joined (lines self.old worker)) }
    {
        let Some(offering) = self.worker(worker) else {
            return Err(self.no_worker(worker));
        };
        let Some(next) = offering.next_copy() else {
            return Err(illegal(u64::from(worker), 0));
        };
        let slot = next.slot.index();
        let words = [
            Word::Number(u64::from(worker)),
            Word::Number(u64::from(next.to.0)),
            Word::Number(u64::from(next.context)),
        ];
        if !self.outboxes[slot].has_room() {
            push_line(self.alloc, text, "full", &words)?;
            let _ = take_copy_at(&mut self.workers, worker as usize);
            self.totals.full = self.totals.full.saturating_add(1);
            return Ok(());
        }
        push_line(self.alloc, text, "sent", &words)?;
        if let Some(copy) = take_copy_at(&mut self.workers, worker as usize) {
            put_at(
                &mut self.outboxes,
                slot,
                Parcel {
                    to: copy.to,
                    bytes: copy.bytes,
                },
            );
        }
        self.totals.copies = self.totals.copies.saturating_add(1);
        Ok(())
    }
}
