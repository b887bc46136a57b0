//! The desk of the control owner, as a worker puts on it.

ghost use Rattle.std.specs.Prelude.{◌≡◌};
ghost use Rattle.mum_outbox.specs.Calls.{IsNewPass};

use mum_outbox::{BoxPass, Desk};
use mum_port::DeskItem;
use std::marker::Model;

// The desk with the worker's pass of it. A contract sees the pass.
#[derive(Drop)]
pub(crate) struct DeskEnd {
    pub(crate) desk: Desk<DeskItem>,
    pub(crate) pass: BoxPass<DeskItem>,
}

impl Model for DeskEnd {
    ghost use Rattle.std.specs.Prelude.{◌≡◌};
    ghost use Rattle.mum_outbox.specs.Facts.{PassFacts};
    ghost use Rattle.mum_port.specs.declared.item.DeskItem.{DeskItem};

    ghost Value = { PassFacts DeskItem };

    ghost view = { λ e. e.pass };

    ghost invariant = { λ e. e.pass.queue ≡ e.desk.queue };
}

impl DeskEnd {
    // A desk, with a new pass of it.
    pub(crate) fn new(desk: Desk<DeskItem>) -> DeskEnd
        ensures { IsNewPass desk result }
    {
        let mut desk = desk;
        let pass = desk.pass();
        DeskEnd { desk, pass }
    }
}
