//! The viewer of a server, where views are asked for.

ghost use Rattle.std.specs.Prelude.{◌≡◌, ◌≤◌, ◌+◌, IfErr, IfOk, false, is_some, length, true};
ghost use Rattle.std.specs.List.{All};
ghost use Rattle.std.specs.Option.{option_map};
ghost use Rattle.mum_published.specs.Calls.{IsFresh};
ghost use Rattle.mum_serve.specs.Asked.{view_service};
ghost use Rattle.mum_serve.specs.Serving.{opening_at};
ghost use Rattle.mum_serve.specs.Views.{CameToViews, IsViewDoor, passes_for, viewer_failed, viewer_memory};

use crate::asked::ViewAsked;
use mum_io::Door;
use mum_published::Pass;
use mum_viewer::{Viewer, ViewerEnd, Viewing};
use std::alloc::Global;
use std::mem::drop;
use std::sync::Wait;

// The viewer, where views are asked for, and else the door that is not used.
#[derive(Drop)]
pub(crate) struct ViewDoor<D: Door + Send, N: Viewing, R: Wait + Copy + Send> {
    pub(crate) viewer: Option<Viewer<D, N, R>>,
    pub(crate) unused: Option<D>,
}

// What came of the views of a server.
#[derive(Drop)]
pub(crate) struct Viewed<D: Drop> {
    pub(crate) door: D,
    /// How many were written whole, where there was a viewer.
    pub(crate) viewed: Option<u64>,
    pub(crate) no_memory: bool,
    pub(crate) door_failed: bool,
}

// Opens a viewer over a door that is open, by the last of these passes, where views are asked for. Where memory runs
// out, the door comes back as it was.
pub(crate) fn open_viewer<D: Door + Send, N: Viewing, R: Wait + Copy + Send>(
    rt: &R,
    alloc: Global,
    asked: Option<ViewAsked<'_>>,
    passes: &mut Vec<Pass>,
    door: D,
) -> Result<ViewDoor<D, N, R>, D>
    requires fresh { All (IsFresh N.opening) passes.old.items }
    requires some { passes_for (option_map view_service asked) ≤ length passes.old.items }
    requires door { opening_at D.facts door ≡ N.view }
    ensures opened { IfOk result (λ view. IsViewDoor N.opening (option_map view_service asked.entry) door view.viewer
        view.unused) }
    ensures fresh { All (IsFresh N.opening) passes.new.items }
    ensures count { length passes.old.items ≡ length passes.new.items + passes_for
        (option_map view_service asked.entry) }
    ensures back { IfErr result (λ back. back ≡ door) }
{
    let Some(asked) = asked else {
        return Ok(ViewDoor {
            viewer: None,
            unused: Some(door),
        });
    };
    let Some(pass) = passes.pop() else {
        unreachable!()
    };
    let viewer = Viewer::open(*rt, alloc, pass, door, asked.views)?;
    Ok(ViewDoor {
        viewer: Some(viewer),
        unused: None,
    })
}

// Ends the viewer, where there is one, and takes the door of the views back.
pub(crate) fn end_viewer<D: Door + Send, N: Viewing, R: Wait + Copy + Send>(
    viewer: Option<Viewer<D, N, R>>,
    unused: Option<D>,
) -> Viewed<D>
    requires { is_some viewer ≡ false → is_some unused ≡ true }
    ensures came { CameToViews D.facts N.view unused viewer result.viewed result.door }
    ensures memory { result.no_memory ≡ viewer_memory viewer }
    ensures failed { result.door_failed ≡ viewer_failed viewer }
{
    let Some(viewer) = viewer else {
        let Some(door) = unused else { unreachable!() };
        return Viewed {
            door,
            viewed: None,
            no_memory: false,
            door_failed: false,
        };
    };
    drop(unused);
    let ViewerEnd {
        door,
        views,
        door_failed,
        no_memory,
    } = viewer.finish();
    Viewed {
        door,
        viewed: Some(views),
        no_memory,
        door_failed,
    }
}
