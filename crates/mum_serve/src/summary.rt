//! What a server came to.

use crate::totals::Totals;

/// What a server came to.
#[derive(Clone, Copy)]
pub struct Summary {
    pub totals: Totals,
    /// How many views were written whole, where a door for views was asked for.
    pub viewed: Option<u64>,
    /// Memory ran out on the way.
    pub no_memory: bool,
    /// A door failed on the way.
    pub door_failed: bool,
    /// A call of the keeper failed on the way, whether a later one did what was asked or not.
    pub keeper_failed: bool,
}
