//! Of which opening a store is.

use mum_base::Octets;
use mum_published::Naming;
use std::marker::Brand;

/// What a keeper had counted when its store was opened. Contracts alone see one.
#[derive(Drop)]
pub struct KeeperOpening {
    /// How many calls had failed.
    pub faults: u64,
    /// The path at which it was opened, where that is known.
    pub opened_at: Option<Octets>,
}

/// Names the `open` whose pass a store has, and what its keeper had counted when the store was opened.
pub trait Keeping: Naming {
    ghost use Rattle.mum_keeper.specs.declared.naming.KeeperOpening.{KeeperOpening};

    ghost keeper: { KeeperOpening };
}

impl Keeping for Brand {
    ghost use Rattle.std.specs.Prelude.{None};

    ghost keeper = { record { faults = 0; opened_at = None } };
}
