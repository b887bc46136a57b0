//! The worker.

ghost use Rattle.std.specs.Prelude.{◌≡◌, [], IfOk, IsSome, length};
ghost use Rattle.mum_base.specs.declared.number.TheConstants.{SLOTS};
ghost use Rattle.mum_published.specs.Bell.{rung};
ghost use Rattle.mum_record.specs.Journal.{Each, IsWritableEntry};
ghost use Rattle.mum_router.specs.Offering.{copies_of, full_of};
ghost use Rattle.mum_router.specs.Picking.{looks_of};
ghost use Rattle.mum_state.specs.Proper.{IsProper};
ghost use Rattle.mum_voice.specs.Packet.{IsPacket, plain_parts};
ghost use Rattle.mum_worker.specs.Facts.{speaker_of};
ghost use Rattle.mum_worker.specs.Hearing.{Heeds, HearsConnection, HearsLag, HearsReply};
ghost use Rattle.mum_worker.specs.Opening.{EntryStoodFor, HasOpened, JoinsShared, PicksFor, RoutesFor};
ghost use Rattle.mum_worker.specs.Turning.{HearsBell, StepsPorts, Turned};

use crate::boxes::{Boxes, share_each};
use crate::common::Common;
use crate::desk::DeskEnd;
use crate::ear::BellEnd;
use crate::hearing::{take_connection, take_lag, take_reply};
use crate::intake::Intake;
use crate::ports::Ports;
use crate::record::Record;
use mum_base::{OutOfMemory, SessionId, Steps};
use mum_crew::{Gate, Turn};
use mum_io::Link;
use mum_outbox::{Bell, Desk};
use mum_parcel::{PostBox, VoiceBox};
use mum_port::DeskItem;
use mum_published::{BellItem, Naming, Pass, Reply};
use mum_record::WorkerEntry;
use mum_route::Audience;
use mum_router::{Routed, Router};
use mum_voice::Packet;
use std::alloc::Global;
use std::marker::Model;
use std::sync::Wait;
use std::sync::ledger::Ledger;

// How many bytes a port reads at once.
const READ_LENGTH: usize = 16_384;

/// The number that the name of the limit stands for. This does nothing: its contract is what it is.
pub fn limits()
    ensures read { READ_LENGTH ≡ 16384 }
{}

/// A live port, by the number of its connection.
#[derive(Clone, Copy, Debug, PartialEq, Eq)]
pub struct PortId(pub u32);

/// What a worker has together with the other roles: a voice box and a post box for each slot, the desk of the
/// control owner, and its own bell.
#[derive(Drop)]
pub struct Shared<L, N: Naming> {
    pub voice: Vec<VoiceBox<N>>,
    pub posts: Vec<PostBox<N>>,
    pub desk: Desk<DeskItem>,
    pub bell: Bell<BellItem<L, N>>,
}

/// What a worker leaves. The counts stay at their last values.
#[derive(Drop)]
pub struct WorkerEnd {
    /// How many packets were routed.
    pub looks: u64,
    /// How many copies were sent.
    pub copies: u64,
    /// How many copies found a full box.
    pub full: u64,
    /// How many parcels were taken for other sessions.
    pub stale: u64,
    /// The entries of its journal, in order; none where no journal was asked for.
    pub entries: Vec<WorkerEntry>,
    /// Whether a port closed because memory ran out.
    pub no_memory: bool,
}

/// A voice worker.
#[derive(Drop)]
pub struct Worker<L: Link, G: Gate, N: Naming, R: Wait + Copy> {
    rt: R,
    alloc: Global,
    intake: Intake,
    common: Common<G, N, R>,
    boxes: Boxes<N>,
    bell: BellEnd<L, N>,
    desk: DeskEnd,
    ports: Ports<L, N>,
    buffer: Vec<u8>,
    ended: bool,
}

impl<L: Link, G: Gate, N: Naming, R: Wait + Copy> Model for Worker<L, G, N, R> {
    ghost use Rattle.std.specs.Prelude.{◌≡◌, length};
    ghost use Rattle.std.specs.List.{All};
    ghost use Rattle.mum_worker.specs.Facts.{WorkerFacts};
    ghost use Rattle.mum_worker.specs.Routing.{bare};
    ghost use Rattle.mum_worker.specs.Stepping.{OwnsPasses};
    ghost use Rattle.mum_worker.specs.declared.worker.TheConstants.{READ_LENGTH};

    ghost Value = { WorkerFacts L };

    ghost view = { λ w. record {
      number = w.intake.number;
      workers = w.intake.workers;
      last = w.intake.last;
      common = bare w.common;
      boxes = w.boxes;
      bell = w.bell;
      desk = w.desk;
      ports = w.ports;
      ended = w.ended;
    } };

    ghost invariant = { λ w. All (OwnsPasses w.boxes) w.ports × (length w.buffer.items ≡ READ_LENGTH) };
}

// Room for what a port reads at once.
fn read_buffer(alloc: Global) -> Result<Vec<u8>, OutOfMemory>
    ensures { IfOk result (λ buffer. length buffer.items ≡ READ_LENGTH) }
{
    vec![in alloc; 0u8; READ_LENGTH]
}

impl<L: Link, G: Gate, N: Naming, R: Wait + Copy> Worker<L, G, N, R> {
    /// A worker without ports, of this number among n, over a pass that made no look. It takes in the connections
    /// of its number alone, each once, as their numbers rise. Where a journal is asked for, the room of the
    /// closing entries of n connections is taken, and no more are taken in. It works over the boxes, the desk
    /// and the bell that it is given, each by new passes.
    pub fn open(
        rt: R,
        alloc: Global,
        number: u8,
        workers: u8,
        pass: Pass,
        shared: Shared<L, N>,
        gate: G,
        journal: Option<u32>,
    ) -> Result<Worker<L, G, N, R>, OutOfMemory>
        requires opening { pass.opening ≡ N.opening }
        requires proper { IsProper N.opening.state }
        requires no_look { pass.asks ≡ [] }
        requires voice { length shared.voice.items ≡ SLOTS }
        requires posts { length shared.posts.items ≡ SLOTS }
        ensures opened { IfOk result (HasOpened number pass journal) }
        ensures workers { IfOk result (λ worker. worker.workers ≡ workers) }
        ensures joins { IfOk result (JoinsShared shared) }
    {
        let Shared {
            voice,
            posts,
            desk,
            bell,
        } = shared;
        let (voice, voices) = share_each(alloc, voice)?;
        let kept = Record::open(alloc, journal)?;
        let ports = Ports::open(alloc)?;
        let buffer = read_buffer(alloc)?;
        let router = Router::open(alloc, pass, voice)?;
        Ok(Worker {
            rt,
            alloc,
            intake: Intake::new(number, workers),
            common: Common {
                number,
                rt,
                alloc,
                gate,
                router,
                kept,
            },
            boxes: Boxes { posts, voices },
            bell: BellEnd::new(bell),
            desk: DeskEnd::new(desk),
            ports,
            buffer,
            ended: false,
        })
    }

    // A reply: its note and its roll are learnt before its port goes on.
    fn heed_reply(&mut self, reply: Reply<N>)
        ensures { HearsReply L.facts reply self.old self.new }
    {
        take_reply(
            reply,
            self.alloc,
            &mut self.common.router,
            &mut self.common.kept,
            &mut self.boxes,
            &mut self.ports,
        );
    }

    // A connection that comes.
    fn heed_connection(&mut self, connection: u32, link: L)
        ensures { HearsConnection L.facts connection link self.old self.new }
    {
        take_connection(
            connection,
            link,
            self.alloc,
            &mut self.intake,
            &mut self.common.kept,
            &mut self.boxes,
            &mut self.ports,
        );
    }

    // A session whose connection is to close.
    fn heed_lag(&mut self, session: SessionId)
        ensures { HearsLag L.facts session self.old self.new }
    {
        take_lag(
            session,
            self.alloc,
            &mut self.common.kept,
            &mut self.boxes,
            &mut self.ports,
        );
    }

    // What is made of an item of the bell.
    fn heed(&mut self, item: BellItem<L, N>)
        ensures { Heeds L.facts (rung item) self.old self.new }
    {
        match item {
            BellItem::Reply(reply) => self.heed_reply(reply),
            BellItem::Conn { connection, link } => self.heed_connection(connection, link),
            BellItem::Lagged(session) => self.heed_lag(session),
            BellItem::Ended => self.ended = true,
        }
    }

    // Takes at most one item from the bell, and answers whether there was one.
    fn hear(&mut self) -> bool
        ensures { HearsBell L.facts self.old result self.new }
    {
        let rt = self.rt;
        match self.bell.take(&rt) {
            Some(item) => {
                self.heed(item);
                true
            }
            None => false,
        }
    }

    // Each port makes its step.
    fn step(&mut self, heard: bool) -> bool
        ensures { StepsPorts L.facts N.opening heard self.old result self.new }
    {
        let rt = self.rt;
        let buffer = self.buffer.as_mut_slice();
        self.ports.step(
            &rt,
            &mut self.desk,
            &mut self.boxes,
            &mut self.common,
            buffer,
            heard,
        )
    }

    /// At most one item of the bell is heeded, and then each port makes its step. Only the queues and the looks
    /// may try again. It answers `Done` where `Ended` was taken and no port is left, and else whether it did
    /// anything.
    pub fn turn(&mut self) -> Turn
        ensures { Turned L.facts N.opening self.old self.new result }
    {
        let heard = self.hear();
        let worked = self.step(heard);
        if self.ended && self.ports.is_empty() {
            Turn::Done
        } else if worked {
            Turn::Worked
        } else {
            Turn::Idle
        }
    }

    /// The session of a port, where it is logged in.
    pub fn speaker(&self, port: PortId) -> Option<SessionId>
        ensures { result ≡ speaker_of self.now.ports port.0 }
    {
        self.ports.speaker(port.0)
    }

    /// Who hears a packet of a port, in slot order, by one look. Where the route is kept already, and the state
    /// of the look has the same count of routing, no step is counted. It takes no memory, and only the look may
    /// try again.
    pub fn pick<C: Ledger>(
        &mut self,
        port: PortId,
        packet: &Packet,
        steps: &mut Steps<C>,
    ) -> Audience
        requires logged_in { IsSome (speaker_of self.old.ports port.0) }
        requires packet { IsPacket (plain_parts packet.now) }
        ensures picks { PicksFor N.opening self.old port.0 (plain_parts packet.now) self.new result }
        ensures steps { EntryStoodFor N.opening self.old port.0 (plain_parts packet.now) self.new
            → steps.new ≡ steps.old }
    {
        let Some(speaker) = self.speaker(port) else {
            unreachable!()
        };
        self.common.pick(speaker, packet, steps)
    }

    /// One `pick`, and one offer for each who hears the packet. It takes no memory, and only the look and the
    /// offers may try again. No entry is kept of it.
    pub fn route<C: Ledger>(
        &mut self,
        port: PortId,
        packet: &Packet,
        steps: &mut Steps<C>,
    ) -> Routed
        requires logged_in { IsSome (speaker_of self.old.ports port.0) }
        requires packet { IsPacket (plain_parts packet.now) }
        ensures routes { RoutesFor N.opening self.old port.0 (plain_parts packet.now) self.new result }
        ensures steps { EntryStoodFor N.opening self.old port.0 (plain_parts packet.now) self.new
            → steps.new ≡ steps.old }
    {
        let Some(speaker) = self.speaker(port) else {
            unreachable!()
        };
        self.common.route_packet(speaker, packet, steps)
    }

    /// The pass by which the worker looks. It is of the opening that the worker is named for.
    pub fn pass(&self) -> &Pass
        ensures pass { result.now ≡ self.now.common.router.pass }
        ensures opening { result.now.opening ≡ N.opening }
    {
        self.common.router.pass()
    }

    /// What the worker did in all, and its journal.
    pub fn finish(self) -> WorkerEnd
        ensures looks { result.looks ≡ looks_of self.common.router.pass }
        ensures copies { result.copies ≡ copies_of self.common.router.outs }
        ensures full { result.full ≡ full_of self.common.router.outs }
        ensures stale { result.stale ≡ self.common.kept.stale }
        ensures entries { result.entries.items ≡ self.common.kept.entries }
        // Each has a line in a journal.
        ensures writable { Each IsWritableEntry result.entries.items }
        ensures no_memory { result.no_memory ≡ self.common.kept.no_memory }
    {
        let Worker { common, .. } = self;
        let Common { router, kept, .. } = common;
        WorkerEnd {
            looks: router.looks(),
            copies: router.copies(),
            full: router.full(),
            stale: kept.stale(),
            no_memory: kept.no_memory(),
            entries: kept.into_entries(),
        }
    }
}
