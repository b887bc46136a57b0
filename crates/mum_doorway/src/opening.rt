//! What a door had counted when the role that asks it was opened.

use mum_base::Octets;
use mum_io::Tally;
use std::marker::Brand;

/// What a door had counted when the role that asks it was opened. Contracts alone see one.
#[derive(Drop)]
pub struct DoorOpening {
    /// How many calls had failed, how many had found no connection yet, and how many had found the end.
    pub counts: Tally,
    /// How many connections the door had given.
    pub given: u64,
    /// The address at which it was opened, where that is known.
    pub opened_at: Option<Octets>,
}

/// Names what the door of a role had counted when the role was opened. A server has several doors, and each has a
/// name of its own.
pub trait Doorside {
    ghost use Rattle.mum_doorway.specs.declared.opening.DoorOpening.{DoorOpening};

    ghost door: { DoorOpening };
}

impl Doorside for Brand {
    ghost use Rattle.std.specs.Prelude.{None};
    ghost use Rattle.mum_io.specs.Counts.{no_counts};

    ghost door = { record { counts = no_counts; given = 0; opened_at = None } };
}
