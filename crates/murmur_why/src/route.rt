//! Who hears packets, and why not, for those who count no steps.

ghost use Rattle.std.specs.Prelude.{◌≡◌, ◌<◌, ◌≤◌, map};
ghost use Rattle.mum_route.specs.Hearers.{member_of};
ghost use Rattle.mum_route.specs.Route.{route};
ghost use Rattle.mum_route.specs.declared.routes.TheConstants.{LOOPBACK};
ghost use Rattle.mum_why.specs.Reason as of_reasons;
ghost use Rattle.mum_why.specs.Cut.{cut_of};

use mum_base::{ChannelId, Perm, SessionId, Steps};
use mum_route::{Audience, route_into};
use mum_state::State;
use mum_tree::Scratch;
use mum_why::{Cut, Reason, cut_for, reason_for};
use std::marker::Brand;
use std::sync::ledger::{Blank, Ledger};

// Why a session does not hear another, over a counter of its own.
fn counted_reason<L: Ledger>(
    blank: Blank,
    state: &State,
    speaker: SessionId,
    hearer: SessionId,
    target: u8,
    scratch: &mut Scratch,
) -> Reason
    requires name { blank.name ≡ L.name }
    requires parts { blank.parts ≡ L.parts }
    requires some { 0 < blank.parts }
    ensures { result ≡ of_reasons.reason state.now speaker hearer target }
{
    let mut steps = Steps::<L>::new(blank);
    reason_for(state, speaker, hearer, target, scratch, &mut steps)
}

// Why a session does not hear what another says to a target, or in which context it does.
pub(crate) fn reason(
    state: &State,
    speaker: SessionId,
    hearer: SessionId,
    target: u8,
    scratch: &mut Scratch,
) -> Reason
    ensures { result ≡ of_reasons.reason state.now speaker hearer target }
{
    counted_reason::<Brand>(Blank::new(1), state, speaker, hearer, target, scratch)
}

// What takes a permission away, over a counter of its own.
fn counted_cut<L: Ledger>(
    blank: Blank,
    state: &State,
    session: SessionId,
    channel: ChannelId,
    permission: Perm,
) -> Option<Cut>
    requires name { blank.name ≡ L.name }
    requires parts { blank.parts ≡ L.parts }
    requires some { 0 < blank.parts }
    ensures { result ≡ cut_of state.now session channel permission }
{
    let mut steps = Steps::<L>::new(blank);
    cut_for(state, session, channel, permission, &mut steps)
}

// What takes a permission away from a session in a channel; none where it has it, or one of the two is not there.
pub(crate) fn cut(
    state: &State,
    session: SessionId,
    channel: ChannelId,
    permission: Perm,
) -> Option<Cut>
    ensures { result ≡ cut_of state.now session channel permission }
{
    counted_cut::<Brand>(Blank::new(1), state, session, channel, permission)
}

// Who hears what a session says to a target, over a counter of its own.
fn counted_route<L: Ledger>(
    blank: Blank,
    state: &State,
    speaker: SessionId,
    target: u8,
    scratch: &mut Scratch,
    audience: &mut Audience,
)
    requires name { blank.name ≡ L.name }
    requires parts { blank.parts ≡ L.parts }
    requires some { 0 < blank.parts }
    requires target { target ≤ LOOPBACK }
    ensures { map member_of audience.new ≡ route state.now speaker target }
{
    let mut steps = Steps::<L>::new(blank);
    route_into(state, speaker, target, scratch, &mut steps, audience);
}

// Fills the audience with those who hear what a session says to a target.
pub(crate) fn hear(
    state: &State,
    speaker: SessionId,
    target: u8,
    scratch: &mut Scratch,
    audience: &mut Audience,
)
    requires { target ≤ LOOPBACK }
    ensures { map member_of audience.new ≡ route state.now speaker target }
{
    counted_route::<Brand>(Blank::new(1), state, speaker, target, scratch, audience);
}
