//! The slots of the server.

ghost use Rattle.std.specs.Prelude.{◌≡◌, ◌<◌};

use mum_base::{SLOTS, Slot};
use std::marker::Model;

/// A slot that there may be, whatever the limit of sessions is: its number is below 512.
#[derive(Clone, Copy)]
pub struct ValidSlot {
    slot: Slot,
}

impl Model for ValidSlot {
    ghost use Rattle.std.specs.Prelude.{◌<◌};
    ghost use Rattle.mum_base.specs.declared.number.Slot.{Slot};
    ghost use Rattle.mum_base.specs.declared.number.TheConstants.{SLOTS};

    ghost Value = { Slot };

    ghost view = { λ v. v.slot };

    ghost invariant = { λ v. v.slot.0 < SLOTS };

    ghost inverse = { λ s. record { slot = s } };
}

impl ValidSlot {
    pub fn new(number: usize) -> ValidSlot
        requires { number < SLOTS }
        ensures { result ≡ record { 0 = number } }
    {
        ValidSlot {
            slot: Slot(number as u16),
        }
    }

    /// The place of the slot's outbox.
    pub fn index(self) -> usize
        ensures place { result ≡ self.0 }
        ensures below { result < SLOTS }
    {
        usize::from(self.slot.0)
    }
}
