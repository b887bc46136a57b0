//! The store of a server, where channels are kept.

ghost use Rattle.std.specs.Prelude.{◌≡◌, ◌≤◌, ◌+◌, IfErr, IfOk, false, is_some, length, true};
ghost use Rattle.std.specs.List.{All};
ghost use Rattle.mum_keeper.specs.Archive.{queue_of};
ghost use Rattle.mum_keeper.specs.Mirror.{opening_of};
ghost use Rattle.mum_published.specs.Calls.{IsFresh};
ghost use Rattle.mum_serve.specs.Stores.{AreRowsFor, EndsStore, GivesKeeperBack, IsStoreOver, SettlesWhereRan, store_passes};

use crate::queues::new_bell;
use mum_crew::CrewEnd;
use mum_keeper::{Keeper, Keeping, KeptRows, Store, StoreEnd, StoreItem};
use mum_outbox::Bell;
use mum_published::Pass;
use mum_state::State;
use std::alloc::Global;
use std::mem::drop;
use std::sync::Wait;

// The store, where channels are kept, with the end of its bell that is the owner's; and else the keeper that is not used.
#[derive(Drop)]
pub(crate) struct StoreSide<P: Keeper + Send, N: Keeping, R: Wait + Copy + Send> {
    pub(crate) store: Option<Store<P, N, R>>,
    pub(crate) bell: Option<Bell<StoreItem<N>>>,
    pub(crate) unused: Option<P>,
}

// Opens a store over a keeper that gave rows, by the last of these passes; without rows there is none. Where memory runs
// out, the keeper comes back as it was.
pub(crate) fn open_store<P: Keeper + Send, N: Keeping, R: Wait + Copy + Send>(
    rt: &R,
    alloc: Global,
    rows: Option<KeptRows>,
    passes: &mut Vec<Pass>,
    keeper: P,
) -> Result<StoreSide<P, N, R>, P>
    requires fresh { All (IsFresh N.opening) passes.old.items }
    requires some { store_passes rows ≤ length passes.old.items }
    requires rows { AreRowsFor P.facts keeper rows }
    requires keeper { opening_of (P.facts keeper) ≡ N.keeper }
    ensures opened { IfOk result (λ side. IsStoreOver N.opening rows keeper (queue_of side.bell) side.store
        side.unused) }
    ensures fresh { All (IsFresh N.opening) passes.new.items }
    ensures count { length passes.old.items ≡ length passes.new.items + store_passes rows }
    ensures back { IfErr result (λ back. back ≡ keeper) }
{
    let Some(rows) = rows else {
        return Ok(StoreSide {
            store: None,
            bell: None,
            unused: Some(keeper),
        });
    };
    let Some(pass) = passes.pop() else {
        unreachable!()
    };
    let Ok((bell, end)) = new_bell(alloc, 0) else {
        drop(rows);
        drop(pass);
        return Err(keeper);
    };
    match Store::open(*rt, alloc, pass, keeper, rows, end) {
        Ok(store) => Ok(StoreSide {
            store: Some(store),
            bell: Some(bell),
            unused: None,
        }),
        Err(keeper) => {
            drop(bell);
            Err(keeper)
        }
    }
}

// Takes the keeper back from a store that made no turn, or where there is none.
pub(crate) fn keeper_of<P: Keeper + Send, N: Keeping, R: Wait + Copy + Send>(
    store: Option<Store<P, N, R>>,
    unused: Option<P>,
) -> P
    requires { is_some store ≡ false → is_some unused ≡ true }
    ensures { GivesKeeperBack unused store result }
{
    let Some(store) = store else {
        let Some(keeper) = unused else { unreachable!() };
        return keeper;
    };
    drop(unused);
    let StoreEnd { keeper, .. } = store.finish();
    keeper
}

// Settles a store with this state, where the roles have run.
fn settle<P: Keeper + Send, N: Keeping, R: Wait + Copy + Send>(
    store: &mut Store<P, N, R>,
    state: &State,
    end: CrewEnd,
)
    ensures { SettlesWhereRan P.facts end store.old state.now store.new }
{
    match end {
        CrewEnd::Ran => {
            store.settle(state);
        }
        CrewEnd::Refused | CrewEnd::NoMemory => {}
    }
}

// Ends the store, where there is one, and takes the keeper back. It is settled with this state, where the roles have run.
pub(crate) fn end_store<P: Keeper + Send, N: Keeping, R: Wait + Copy + Send>(
    store: Option<Store<P, N, R>>,
    unused: Option<P>,
    state: &State,
    end: CrewEnd,
) -> StoreEnd<P>
    requires { is_some store ≡ false → is_some unused ≡ true }
    ensures { EndsStore P.facts end N.keeper state.now unused store result.keeper_failed result.no_memory result.keeper }
{
    let Some(mut store) = store else {
        let Some(keeper) = unused else { unreachable!() };
        return StoreEnd {
            keeper,
            keeper_failed: false,
            no_memory: false,
        };
    };
    drop(unused);
    settle(&mut store, state, end);
    store.finish()
}
