//! Who hears packets.

ghost use Rattle.std.specs.Prelude.{◌≡◌, ◌<◌, ◌≤◌, OnOk, length, map};
ghost use Rattle.mum_history.specs.View.{IsViewOf};
ghost use Rattle.mum_state.specs.After.{at};
ghost use Rattle.mum_route.specs.Hearers.{member_of};
ghost use Rattle.mum_route.specs.Route.{route};
ghost use Rattle.mum_route.specs.declared.routes.TheConstants.{LOOPBACK};

use mum_base::{OutOfMemory, SessionId, Steps};
use mum_history::{History, View};
use mum_route::{Audience, route_into};
use mum_state::State;
use mum_tree::Scratch;
use std::alloc::Global;
use std::marker::Brand;
use std::sync::ledger::{Blank, Ledger};

// What the packets of all workers are routed with: a state that goes along the accepted edits, and an
// audience that is filled again for each packet.
#[derive(Drop)]
pub(crate) struct Hearing {
    pub view: View,
    pub scratch: Scratch,
    pub audience: Audience,
}

// Who hears what a session says to a target, over a counter of its own.
fn counted<L: Ledger>(
    blank: Blank,
    state: &State,
    speaker: SessionId,
    target: u8,
    scratch: &mut Scratch,
    audience: &mut Audience,
)
    requires name { blank.name ≡ L.name }
    requires parts { blank.parts ≡ L.parts }
    requires some { 0 < blank.parts }
    requires target { target ≤ LOOPBACK }
    ensures { map member_of audience.new ≡ route state.now speaker target }
{
    let mut steps = Steps::<L>::new(blank);
    route_into(state, speaker, target, scratch, &mut steps, audience);
}

// Who hears what a session says to a target, for those who count no steps.
fn routed(
    state: &State,
    speaker: SessionId,
    target: u8,
    scratch: &mut Scratch,
    audience: &mut Audience,
)
    requires { target ≤ LOOPBACK }
    ensures { map member_of audience.new ≡ route state.now speaker target }
{
    counted::<Brand>(Blank::new(1), state, speaker, target, scratch, audience);
}

// Fills the audience with those who hear what a session says to a target, in the state after the first
// accepted edits. Where the revisions of the calls rise, each edit is applied once.
pub(crate) fn hear(
    alloc: Global,
    hearing: &mut Hearing,
    history: &History,
    revision: u64,
    speaker: SessionId,
    target: u8,
) -> Result<(), OutOfMemory>
    requires view { IsViewOf history.now.opening history.now.accepted hearing.old.view }
    requires accepted { revision ≤ length history.now.accepted }
    requires target { target ≤ LOOPBACK }
    ensures view { IsViewOf history.now.opening history.now.accepted hearing.new.view }
    ensures heard { OnOk result (map member_of hearing.new.audience
        ≡ route (at history.now.opening history.now.accepted revision) speaker target) }
{
    hearing.view.go_to(alloc, history, revision)?;
    routed(
        hearing.view.state(),
        speaker,
        target,
        &mut hearing.scratch,
        &mut hearing.audience,
    );
    Ok(())
}
