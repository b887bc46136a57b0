//! What the ports of a worker have together.

ghost use Rattle.std.specs.Prelude.{◌≡◌, IsTrue, OnOk};
ghost use Rattle.mum_router.specs.Picking.{EntryStood, Picks};
ghost use Rattle.mum_router.specs.Routing.{Routes};
ghost use Rattle.mum_voice.specs.Packet.{IsPacket, plain_parts};
ghost use Rattle.mum_worker.specs.Record.{without_room};
ghost use Rattle.mum_worker.specs.Routing.{RoutesPacket, bare};

use crate::record::Record;
use mum_base::{Octets, OutOfMemory, SessionId, Steps};
use mum_crew::Gate;
use mum_port::VoiceRouter;
use mum_published::Naming;
use mum_route::Audience;
use mum_router::{Routed, Router};
use mum_voice::Packet;
use std::alloc::Global;
use std::marker::Model;
use std::sync::Wait;
use std::sync::ledger::Ledger;

// The router of a worker and its record, with the gate that it passes before each packet.
#[derive(Drop)]
pub(crate) struct Common<G: Gate, N: Naming, R: Wait + Copy> {
    pub(crate) number: u8,
    pub(crate) rt: R,
    pub(crate) alloc: Global,
    pub(crate) gate: G,
    pub(crate) router: Router<N>,
    pub(crate) kept: Record,
}

impl<G: Gate, N: Naming, R: Wait + Copy> Model for Common<G, N, R> {
    ghost use Rattle.mum_worker.specs.Routing.{CommonFacts};

    ghost Value = { CommonFacts };

    ghost view = { λ c. record { router = c.router; kept = c.kept } };
}

impl<G: Gate, N: Naming, R: Wait + Copy> Common<G, N, R> {
    // One look, for those who hear a packet.
    pub(crate) fn pick<C: Ledger>(
        &mut self,
        speaker: SessionId,
        packet: &Packet,
        steps: &mut Steps<C>,
    ) -> Audience
        requires { IsPacket (plain_parts packet.now) }
        ensures picks { Picks N.opening self.old.router speaker (plain_parts packet.now) self.new.router result }
        ensures rest { self.new ≡ record self.old { router = self.new.router } }
        ensures steps { EntryStood N.opening self.old.router speaker (plain_parts packet.now) self.new.router
            → steps.new ≡ steps.old }
    {
        let rt = self.rt;
        self.router.pick(&rt, speaker, packet, steps)
    }

    // One look, and the copies of a packet.
    pub(crate) fn route_packet<C: Ledger>(
        &mut self,
        speaker: SessionId,
        packet: &Packet,
        steps: &mut Steps<C>,
    ) -> Routed
        requires { IsPacket (plain_parts packet.now) }
        ensures routes { Routes N.opening self.old.router speaker (plain_parts packet.now) self.new.router result }
        ensures rest { self.new ≡ record self.old { router = self.new.router } }
        ensures steps { EntryStood N.opening self.old.router speaker (plain_parts packet.now) self.new.router
            → steps.new ≡ steps.old }
    {
        let rt = self.rt;
        self.router.route(&rt, speaker, packet, steps)
    }
}

impl<G: Gate, N: Naming, R: Wait + Copy> VoiceRouter for Common<G, N, R> {
    ghost has_room = { λ c. c.kept.has_room };

    ghost without_room = { bare };

    ghost routed = { RoutesPacket N.opening };

    fn reserve(&mut self) -> Result<(), OutOfMemory> {
        self.kept.reserve()
    }

    fn route(&mut self, connection: u32, speaker: SessionId, packet: Octets) {
        self.gate.pass(self.number);
        self.kept.route(
            &self.rt,
            self.alloc,
            &mut self.router,
            connection,
            speaker,
            packet,
        );
    }
}
