//! What keeps rows beyond a run.

ghost use Rattle.std.specs.Prelude.{◌≡◌};
ghost use Rattle.mum_keeper.specs.Keeping.{KeepCall, KeepCounts, KeeperFacts, LoadCall, LoadCounts, Loads, Makes, OpenCall, OpensAt, with_call};

use crate::change::Change;
use mum_kept::KeptRows;
use std::alloc::Global;

/// How a call of a keeper ended.
#[derive(Clone, Copy, Debug, PartialEq, Eq)]
pub enum KeepEnd {
    /// It did what was asked.
    Kept,
    /// It failed, and the count of faults rose.
    Failed,
    /// Memory ran out.
    NoMemory,
}

/// What a keeper answers to whoever asks it for its rows.
#[derive(Drop)]
pub enum Loaded {
    Rows(KeptRows),
    /// It failed, and the count of faults rose.
    Failed,
    /// Memory ran out.
    NoMemory,
}

/// What keeps rows beyond a run. The count of faults is of 64 bits and stays at its last value, `u64::MAX`.
pub trait Keeper: Drop {
    /// What is known of it: how many calls failed; the rows that it has, the path at which it was opened, and all
    /// calls in order, where these are known.
    ghost facts: { Self → KeeperFacts };

    /// Opens what it keeps its rows in.
    fn open(&mut self, path: &str) -> KeepEnd
        ensures counts { KeepCounts result (facts self.old).faults (facts self.new).faults }
        ensures path { OpensAt result (facts self.old).opened_at (facts self.new).opened_at path.now }
        ensures rows { (facts self.new).rows ≡ (facts self.old).rows }
        ensures calls { (facts self.new).calls ≡ with_call (OpenCall path.now) (facts self.old).calls };

    /// The rows that it has. Where they are known, they are in order.
    fn load(&mut self, alloc: Global) -> Loaded
        ensures counts { LoadCounts result (facts self.old).faults (facts self.new).faults }
        ensures loads { Loads result (facts self.new).rows }
        ensures path { (facts self.new).opened_at ≡ (facts self.old).opened_at }
        ensures rows { (facts self.new).rows ≡ (facts self.old).rows }
        ensures calls { (facts self.new).calls ≡ with_call LoadCall (facts self.old).calls };

    /// Makes all these changes, one after another, or none of them.
    fn keep(&mut self, changes: &[Change]) -> KeepEnd
        ensures counts { KeepCounts result (facts self.old).faults (facts self.new).faults }
        ensures makes { Makes result changes.now (facts self.old).rows (facts self.new).rows }
        ensures path { (facts self.new).opened_at ≡ (facts self.old).opened_at }
        ensures calls { (facts self.new).calls ≡ with_call (KeepCall changes.now) (facts self.old).calls };
}
