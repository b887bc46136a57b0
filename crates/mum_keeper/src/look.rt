//! The looks that a store makes.

ghost use Rattle.std.specs.Prelude.{◌≡◌, IfOk};
ghost use Rattle.mum_kept.specs.Kept.{kept};
ghost use Rattle.mum_keeper.specs.Look.{AreKeptRows, AreSeenAt, Finds, Looks, MayShare, is_count, store_ask};

use arrayvec::ArrayVec;
use mum_base::{OutOfMemory, SessionId};
use mum_kept::{KeptRows, kept_rows, kept_rows_sharing};
use mum_published::{Ask, Pass};
use mum_state::State;
use std::alloc::Global;
use std::sync::Wait;

/// What a look found: the rows that are kept of the state, and its policy count.
#[derive(Drop)]
pub struct Found {
    pub rows: KeptRows,
    pub policies: u64,
}

// What a store asks.
fn store_ask() -> Ask
    ensures { result ≡ store_ask }
{
    Ask {
        speaker: SessionId(0),
        target: 0,
        packet: ArrayVec::new(),
    }
}

// The rows that are kept of a state. They are in order.
pub(crate) fn ordered_rows(alloc: Global, state: &State) -> Result<KeptRows, OutOfMemory>
    ensures { AreKeptRows state.now result }
{
    let rows = kept_rows(alloc, state)?;
    // That the state is proper is what its contract says.
    let _tree = state.tree();
    Ok(rows)
}

fn is_count(count: u64, known: Option<u64>) -> bool
    ensures { result ≡ is_count count known }
{
    match known {
        Some(policies) => policies == count,
        None => false,
    }
}

// The rows that are kept of a state. Where its policy count is the one that is known, the earlier rows have its
// policies, and none is encoded.
fn rows_at(
    alloc: Global,
    state: &State,
    earlier: &KeptRows,
    policies: Option<u64>,
) -> Result<KeptRows, OutOfMemory>
    requires { MayShare state.now earlier.now policies }
    ensures { IfOk result (λ rows. rows ≡ kept state.now) }
{
    if is_count(state.stamps().policy, policies) {
        return kept_rows_sharing(alloc, state, earlier);
    }
    kept_rows(alloc, state)
}

fn find_in(
    alloc: Global,
    state: &State,
    earlier: &KeptRows,
    policies: Option<u64>,
) -> Result<Found, OutOfMemory>
    requires { MayShare state.now earlier.now policies }
    ensures { Finds state.now result }
{
    let rows = rows_at(alloc, state, earlier, policies)?;
    // That the state is proper is what its contract says.
    let _tree = state.tree();
    let policies = state.stamps().policy;
    Ok(Found { rows, policies })
}

// One look. The policies of the earlier rows are shared, where they are those of a state that was seen with this
// policy count, and the count is still the same.
pub(crate) fn look_once<R: Wait>(
    rt: &R,
    alloc: Global,
    pass: &mut Pass,
    earlier: &KeptRows,
    policies: Option<u64>,
) -> Result<Found, OutOfMemory>
    requires { AreSeenAt pass.old earlier.now policies }
    ensures { Looks pass.old result pass.new }
{
    pass.look(
        rt,
        store_ask(),
        &mut |state: &State| { find_in(alloc, state, earlier, policies) },
    )
}
