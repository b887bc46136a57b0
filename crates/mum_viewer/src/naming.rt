//! Of which opening a viewer is.

use mum_doorway::{DoorOpening, Doorside};
use mum_published::Naming;
use std::marker::{Brand, PhantomData};

/// Names the `open` whose pass a viewer has, and what its door had counted when the viewer was opened.
pub trait Viewing: Naming {
    ghost use Rattle.mum_doorway.specs.declared.opening.DoorOpening.{DoorOpening};

    ghost view: { DoorOpening };
}

impl Viewing for Brand {
    ghost use Rattle.std.specs.Prelude.{None};
    ghost use Rattle.mum_io.specs.Counts.{no_counts};

    ghost view = { record { counts = no_counts; given = 0; opened_at = None } };
}

/// The viewer's door among those that are named.
pub struct ViewSide<N: Viewing> {
    of: PhantomData<N>,
}

impl<N: Viewing> Doorside for ViewSide<N> {
    ghost door = { N.view };
}
