//! The roles of a server after its workers: the viewer, where views are asked for, and the store, where channels are kept.

ghost use Rattle.std.specs.Prelude.{◌≡◌, ◌≤◌, ◌+◌, IfErr, IfOk, length};
ghost use Rattle.std.specs.List.{All};
ghost use Rattle.mum_keeper.specs.Archive.{queue_of};
ghost use Rattle.mum_keeper.specs.Mirror.{opening_of};
ghost use Rattle.mum_published.specs.Calls.{IsFresh};
ghost use Rattle.mum_serve.specs.Asked.{service};
ghost use Rattle.mum_serve.specs.Serving.{opening_at};
ghost use Rattle.mum_serve.specs.Stores.{AreRowsFor, IsStoreOver, store_passes};
ghost use Rattle.mum_serve.specs.Views.{IsViewDoor, passes_for};

use crate::asked::Asked;
use crate::stores::{StoreSide, open_store};
use crate::views::{ViewDoor, Viewed, end_viewer, open_viewer};
use mum_io::Door;
use mum_keeper::{Keeper, Keeping, KeptRows, Store, StoreItem};
use mum_outbox::Bell;
use mum_published::Pass;
use mum_viewer::{Viewer, Viewing};
use std::alloc::Global;
use std::mem::drop;
use std::sync::Wait;

// What a server was lent and does not use: the door of the views without a viewer, and the keeper without a store.
#[derive(Drop)]
pub(crate) struct Unused<D: Drop, P: Drop> {
    pub(crate) view: Option<D>,
    pub(crate) keeper: Option<P>,
}

// The viewer and the store, as far as these are asked for, the end of the store's bell that is the owner's, and what is
// not used without them.
#[derive(Drop)]
pub(crate) struct Later<
    D: Door + Send,
    P: Keeper + Send,
    N: Viewing + Keeping,
    R: Wait + Copy + Send,
> {
    pub(crate) viewer: Option<Viewer<D, N, R>>,
    pub(crate) store: Option<Store<P, N, R>>,
    pub(crate) bell: Option<Bell<StoreItem<N>>>,
    pub(crate) unused: Unused<D, P>,
}

// Opens the viewer and the store, as far as these are asked for, by the last of these passes. Where memory runs out, the
// door of the views and the keeper come back as they were.
pub(crate) fn open_later<
    D: Door + Send,
    P: Keeper + Send,
    N: Viewing + Keeping,
    R: Wait + Copy + Send,
>(
    rt: &R,
    alloc: Global,
    asked: &Asked<'_>,
    rows: Option<KeptRows>,
    passes: &mut Vec<Pass>,
    view: D,
    keeper: P,
) -> Result<Later<D, P, N, R>, (D, P)>
    requires fresh { All (IsFresh N.opening) passes.old.items }
    requires some { passes_for (service asked.now).view + store_passes rows ≤ length passes.old.items }
    requires view { opening_at D.facts view ≡ N.view }
    requires rows { AreRowsFor P.facts keeper rows }
    requires keeper { opening_of (P.facts keeper) ≡ N.keeper }
    ensures watched { IfOk result (λ later. IsViewDoor N.opening (service asked.now).view view later.viewer
        later.unused.view) }
    ensures stored { IfOk result (λ later. IsStoreOver N.opening rows keeper (queue_of later.bell) later.store
        later.unused.keeper) }
    ensures fresh { All (IsFresh N.opening) passes.new.items }
    ensures count { IfOk result (λ later. length passes.old.items ≡ length passes.new.items
        + passes_for (service asked.now).view + store_passes rows) }
    ensures back { IfErr result (λ back. (back.0 ≡ view) × (back.1 ≡ keeper)) }
{
    let ViewDoor {
        viewer,
        unused: unused_view,
    } = match open_viewer::<D, N, R>(rt, alloc, asked.view, passes, view) {
        Ok(view) => view,
        Err(view) => {
            drop(rows);
            return Err((view, keeper));
        }
    };
    match open_store::<P, N, R>(rt, alloc, rows, passes, keeper) {
        Ok(
            StoreSide {
                store,
                bell,
                unused,
            },
        ) => Ok(Later {
            viewer,
            store,
            bell,
            unused: Unused {
                view: unused_view,
                keeper: unused,
            },
        }),
        Err(keeper) => {
            let Viewed { door, .. } = end_viewer(viewer, unused_view);
            Err((door, keeper))
        }
    }
}
