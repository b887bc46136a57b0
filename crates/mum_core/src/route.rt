//! Who hears a packet, and the copies for them.

ghost use Rattle.std.specs.Prelude.{◌≡◌, ◌<◌, ◌≤◌, Some, map, IfOk};
ghost use Rattle.std.specs.List.{All};
ghost use Rattle.mum_route.specs.Hearers.{IsInRange, hearers_at};
ghost use Rattle.mum_route.specs.declared.routes.TheConstants.{LOOPBACK};
ghost use Rattle.mum_cache.specs.Caches.{AreSound};
ghost use Rattle.mum_cache.specs.Routes.{KeepsAsked};
ghost use Rattle.mum_voice.specs.Packet.{IsPacket, plain_parts};
ghost use Rattle.mum_core.specs.Caches.{KeepsFor};
ghost use Rattle.mum_core.specs.steps.Look.{audience, copies, outgoing};

use crate::outbox::CopyBytes;
use crate::slot::ValidSlot;
use crate::worker::{Held, Outgoing};
use mum_base::{OutOfMemory, SessionId, Steps};
use mum_cache::Caches;
use mum_route::{Audience, Hearer};
use mum_state::State;
use mum_tree::Scratch;
use mum_voice::Packet;
use std::alloc::Global;
use std::collections::VecDeque;
use std::marker::Brand;
use std::sync::ledger::{Blank, Ledger};

// Who hears what a session says to a target, over a counter of its own.
fn counted<L: Ledger>(
    blank: Blank,
    state: &State,
    speaker: SessionId,
    target: u8,
    caches: &mut Caches,
    scratch: &mut Scratch,
) -> Audience
    requires name { blank.name ≡ L.name }
    requires parts { blank.parts ≡ L.parts }
    requires some { 0 < blank.parts }
    requires target { target ≤ LOOPBACK }
    requires sound { AreSound state.now caches.old }
    ensures hearers { result ≡ hearers_at state.now speaker target }
    ensures entry { KeepsAsked state.now speaker target caches.old.routes caches.new.routes }
    ensures sound { AreSound state.now caches.new }
{
    let mut steps = Steps::<L>::new(blank);
    let mut audience = Audience::new();
    caches.route_at(state, speaker, target, scratch, &mut steps, &mut audience);
    audience
}

// Who hears what a session says to a target, for those who count no steps.
fn routed(
    state: &State,
    speaker: SessionId,
    target: u8,
    caches: &mut Caches,
    scratch: &mut Scratch,
) -> Audience
    requires target { target ≤ LOOPBACK }
    requires sound { AreSound state.now caches.old }
    ensures hearers { result ≡ hearers_at state.now speaker target }
    ensures entry { KeepsAsked state.now speaker target caches.old.routes caches.new.routes }
    ensures sound { AreSound state.now caches.new }
{
    counted::<Brand>(Blank::new(1), state, speaker, target, caches, scratch)
}

// The copy of a packet for one who hears it.
fn copy_for(
    alloc: Global,
    speaker: SessionId,
    packet: &Packet<'_>,
    hearer: &Hearer,
) -> Result<Outgoing, OutOfMemory>
    requires packet { IsPacket (plain_parts packet.now) }
    requires range { IsInRange hearer.now }
    ensures { IfOk result
        (λ copy. copy ≡ outgoing (record { speaker = speaker; parts = plain_parts packet.now }) hearer.now) }
{
    let bytes = hearer.copy_for(speaker, packet);
    Ok(Outgoing {
        to: hearer.session,
        slot: ValidSlot::new(usize::from(hearer.slot.0)),
        context: hearer.context,
        bytes: CopyBytes::of(alloc, bytes.as_slice())?,
    })
}

// A copy for each who hears a packet, in their order.
fn copies(
    alloc: Global,
    speaker: SessionId,
    packet: &Packet<'_>,
    hearers: &[Hearer],
) -> Result<VecDeque<Outgoing>, OutOfMemory>
    requires packet { IsPacket (plain_parts packet.now) }
    requires range { All IsInRange hearers.now }
    ensures { IfOk result (λ copies. copies.items
        ≡ map (outgoing (record { speaker = speaker; parts = plain_parts packet.now })) hearers.now) }
{
    let mut copies = Vec::with_capacity(alloc, hearers.len())?;
    for hearer in hearers {
        copies.push(copy_for(alloc, speaker, packet, hearer)?)?;
    }
    Ok(VecDeque::from_vec(copies))
}

// The copies of a packet that a worker holds, for those who hear it, who take the place of those in the audience. It is
// parsed once.
pub(crate) fn heard(
    alloc: Global,
    state: &State,
    held: &Held,
    caches: &mut Caches,
    scratch: &mut Scratch,
    hearers: &mut Audience,
) -> Result<VecDeque<Outgoing>, OutOfMemory>
    requires { AreSound state.now caches.old }
    ensures hearers { hearers.new ≡ audience state.now (Some held.now) }
    ensures copies { IfOk result (λ left. left.items ≡ copies state.now (Some held.now)) }
    ensures asked { KeepsFor state.now (Some held.now) caches.old.routes caches.new.routes }
    ensures sound { AreSound state.now caches.new }
{
    let speaker = held.speaker();
    let packet = held.packet();
    *hearers = routed(state, speaker, packet.target, caches, scratch);
    copies(alloc, speaker, &packet, hearers.as_slice())
}
