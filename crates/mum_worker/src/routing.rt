//! The packets of ports, routed.

ghost use Rattle.std.specs.Prelude.{◌≡◌, ◌<◌, MatchOption};
ghost use Rattle.mum_router.specs.Routing.{Routes};
ghost use Rattle.mum_voice.specs.Packet.{IsPacket, plain_parts};
ghost use Rattle.mum_worker.specs.Routing.{IsNoPacket, RoutesOnce};

use mum_base::{SessionId, Steps};
use mum_published::Naming;
use mum_router::{Routed, Router};
use mum_voice::Packet;
use std::marker::Brand;
use std::sync::Wait;
use std::sync::ledger::{Blank, Ledger};

// Routes a packet, with a counter of its own.
fn route_counted<N: Naming, W: Wait, L: Ledger>(
    blank: Blank,
    rt: &W,
    router: &mut Router<N>,
    speaker: SessionId,
    packet: &Packet,
) -> Routed
    requires name { blank.name ≡ L.name }
    requires parts { blank.parts ≡ L.parts }
    requires some { 0 < blank.parts }
    requires packet { IsPacket (plain_parts packet.now) }
    ensures { Routes N.opening router.old speaker (plain_parts packet.now) router.new result }
{
    let mut steps = Steps::<L>::new(blank);
    router.route(rt, speaker, packet, &mut steps)
}

// Routes bytes once, where they are a packet.
pub(crate) fn route_bytes<N: Naming, W: Wait>(
    rt: &W,
    router: &mut Router<N>,
    speaker: SessionId,
    bytes: &[u8],
) -> Option<Routed>
    ensures { MatchOption result (IsNoPacket bytes.now router.old router.new)
        (λ routed. RoutesOnce N.opening router.old speaker bytes.now routed router.new) }
{
    match Packet::parse(bytes) {
        Ok(packet) => Some(route_counted::<N, W, Brand>(
            Blank::new(1),
            rt,
            router,
            speaker,
            &packet,
        )),
        Err(_) => None,
    }
}
