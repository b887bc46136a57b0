//! The step `drain`: a connection takes the oldest copy of its slot.

ghost use Rattle.std.specs.Prelude.{◌≡◌, ◌++◌, OnOk, string_bytes};
ghost use Rattle.mum_base.specs.Refusal.{Settles};
ghost use Rattle.mum_core.specs.Case.{first_that_stands, named_cause};
ghost use Rattle.mum_core.specs.Delivery.{does, forbids, lines};
ghost use Rattle.mum_core.specs.Line.{joined};
ghost use Rattle.mum_core.specs.steps.Drain.{carried, copy_queues};

use super::delivery::{Waiting, push_empty, push_taken};
use super::tell::push_wire;
use super::{Machine, StepFault};
use crate::outbox::{Parcel, take_at};
use mum_base::{OutOfMemory, SessionId};
use mum_frame::kind::UDP_TUNNEL;
use mum_frame::put_frame;
use std::alloc::Global;

impl Waiting for Parcel {
    ghost delivery = { carried };

    fn recipient(&self) -> SessionId {
        self.to
    }

    fn push_frame(
        &self,
        alloc: Global,
        text: &mut String,
        connection: u32,
    ) -> Result<(), OutOfMemory> {
        let frame = put_frame(alloc, UDP_TUNNEL, self.bytes.as_slice())?;
        push_wire(alloc, text, connection, frame.as_slice())
    }
}

impl Machine {
    pub(super) fn take_drain(&mut self, connection: u32, text: &mut String) -> Result<(), StepFault>
        ensures settled { Settles named_cause (first_that_stands (forbids self.old connection)) (does copy_queues self.old connection) self.old result self.new }
        ensures told { OnOk result
            (string_bytes text.new ≡ string_bytes text.old ++ joined (lines copy_queues self.old connection)) }
    {
        let seat = self.seated(connection)?;
        let slot = seat.slot.index();
        let Some(oldest) = self.outboxes[slot].front() else {
            push_empty(self.alloc, text, connection, &seat)?;
            return Ok(());
        };
        let own = push_taken(self.alloc, text, connection, &seat, oldest)?;
        take_at(&mut self.outboxes, slot);
        self.count_stale(own);
        Ok(())
    }
}
