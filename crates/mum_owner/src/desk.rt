//! The desk, from which the owner takes.

ghost use Rattle.std.specs.Prelude.{◌≡◌, None};
ghost use Rattle.mum_outbox.specs.Calls.{IsNewPass, Takes};
ghost use Rattle.mum_outbox.specs.declared.kinds.TheConstants.{DESK_CAPACITY};

use mum_outbox::{BoxPass, Desk};
use mum_port::DeskItem;
use std::marker::Model;
use std::sync::Wait;

/// Where more notices than these are pending, nothing is taken from the desk.
pub const PENDING_LIMIT: usize = 16_384;

// The desk, the pass by which the owner takes from it, and the connection whose leave is to be tried again.
#[derive(Drop)]
pub(crate) struct DeskSide {
    desk: Desk<DeskItem>,
    pass: BoxPass<DeskItem>,
    leave: Option<u32>,
}

impl Model for DeskSide {
    ghost use Rattle.std.specs.Prelude.{◌≡◌};
    ghost use Rattle.mum_owner.specs.Facts.{DeskFacts};

    ghost Value = { DeskFacts };

    ghost view = { λ d. record { pass = d.pass; leave = d.leave } };

    ghost invariant = { λ d. d.pass.queue ≡ d.desk.queue };
}

impl DeskSide {
    pub(crate) fn open(desk: Desk<DeskItem>) -> DeskSide
        ensures pass { IsNewPass desk result.pass }
        ensures leave { result.leave ≡ None }
    {
        let mut desk = desk;
        let pass = desk.pass();
        DeskSide {
            desk,
            pass,
            leave: None,
        }
    }

    // The connection whose leave is to be tried again.
    pub(crate) fn leave(&self) -> Option<u32>
        ensures { result ≡ self.now.leave }
    {
        self.leave
    }

    // The leave of this connection is to be tried again, or none is.
    pub(crate) fn keep(&mut self, leave: Option<u32>)
        ensures { self.new ≡ record self.old { leave = leave } }
    {
        self.leave = leave;
    }

    // Takes the item at the front.
    pub(crate) fn take<R: Wait>(&mut self, rt: &R) -> Option<DeskItem>
        ensures taken { Takes DESK_CAPACITY self.old.pass result self.new.pass }
        ensures leave { self.new.leave ≡ self.old.leave }
    {
        self.desk.take_as(rt, &mut self.pass)
    }
}
