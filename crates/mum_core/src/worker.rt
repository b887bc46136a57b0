//! What the core keeps of a voice worker.

ghost use Rattle.std.specs.Prelude.{◌≡◌, Some, None, map, max, slice_get, slice_index_or, drop, IfOk, IsOk};
ghost use Rattle.std.specs.Option.{option_copied};
ghost use Rattle.mum_voice.specs.Packet.{packet, plain_parts, IsPacket};
ghost use Rattle.mum_core.specs.Kept.{parts_in};
ghost use Rattle.mum_core.specs.Lists.{changed_at};
ghost use Rattle.mum_core.specs.Worker.{idle, in_hand, least_look};

use crate::outbox::CopyBytes;
use crate::slot::ValidSlot;
use mum_base::{Octets, OutOfMemory, SessionId};
use mum_voice::Packet;
use std::alloc::Global;
use std::collections::VecDeque;
use std::marker::Model;

/// A voice packet that a worker took from a connection and has not looked for yet.
#[derive(Drop)]
pub struct Held {
    speaker: SessionId,
    bytes: Octets,
}

impl Model for Held {
    ghost use Rattle.std.specs.Prelude.{IsOk};
    ghost use Rattle.mum_voice.specs.Packet.{packet};
    ghost use Rattle.mum_core.specs.Kept.{parts_in};
    ghost use Rattle.mum_core.specs.Worker.{HeldPacket};

    ghost Value = { HeldPacket };

    ghost view = { λ h. record { speaker = h.speaker; parts = parts_in (packet h.bytes) } };

    ghost invariant = { λ h. IsOk (packet h.bytes) };
}

impl Held {
    /// Bytes that are a packet, of this speaker.
    pub fn new(speaker: SessionId, bytes: Octets) -> Held
        requires { IsOk (packet bytes) }
        ensures { result ≡ record { speaker = speaker; parts = parts_in (packet bytes) } }
    {
        Held { speaker, bytes }
    }

    pub fn speaker(&self) -> SessionId
        ensures { result ≡ self.now.speaker }
    {
        self.speaker
    }

    pub fn packet(&self) -> Packet<'_>
        ensures parts { plain_parts result ≡ self.now.parts }
        ensures proper { IsPacket (plain_parts result) }
    {
        Packet::parse(self.bytes.as_slice()).unwrap()
    }
}

/// A copy of a packet that is still to be offered.
#[derive(Drop)]
pub struct Outgoing {
    pub to: SessionId,
    pub slot: ValidSlot,
    /// How the packet reaches it, as the voice protocol numbers it: 0 talk, 1 a whisper to a channel, 2 a whisper to
    /// the session, 3 it listens to a channel.
    pub context: u8,
    pub bytes: CopyBytes,
}

/// A voice worker of the core.
#[derive(Drop)]
pub struct Worker {
    /// The revision of its last look.
    seen: u64,
    /// The greatest revision of which its connections were notified.
    told: u64,
    held: Option<Held>,
    copies: VecDeque<Outgoing>,
}

impl Model for Worker {
    ghost use Rattle.mum_core.specs.Worker.{WorkerState};

    ghost Value = { WorkerState };

    ghost view = { λ w. record { seen = w.seen; told = w.told; held = w.held; copies = w.copies.items } };
}

impl Worker {
    /// A worker that has done nothing.
    pub fn new(alloc: Global) -> Worker
        ensures { result ≡ idle }
    {
        Worker {
            seen: 0,
            told: 0,
            held: None,
            copies: VecDeque::new(alloc),
        }
    }

    /// How much it has in hand: 1 for a packet that it holds, else its copies.
    pub fn in_hand(&self) -> u64
        ensures { result ≡ in_hand self.now }
    {
        if self.held.is_some() {
            1
        } else {
            self.copies.len() as u64
        }
    }

    /// The least revision of its next look.
    pub fn least_look(&self) -> u64
        ensures { result ≡ least_look self.now }
    {
        self.seen.max(self.told)
    }

    pub fn held(&self) -> Option<&Held>
        ensures { option_copied result ≡ self.now.held }
    {
        self.held.as_ref()
    }

    /// The copy that it offers next.
    pub fn next_copy(&self) -> Option<&Outgoing>
        ensures { option_copied result ≡ slice_get self.now.copies 0 }
    {
        self.copies.front()
    }

    /// The sessions of the copies that it has still to offer, in their order.
    pub fn recipients(&self, alloc: Global) -> Result<Vec<SessionId>, OutOfMemory>
        ensures { IfOk result (λ sessions. sessions.items ≡ map (λ copy. copy.to) self.now.copies) }
    {
        let mut sessions = Vec::with_capacity(alloc, self.copies.len())?;
        for copy in self.copies.iter() {
            sessions.push(copy.to)?;
        }
        Ok(sessions)
    }

    // It holds a packet.
    fn hold(&mut self, held: Held)
        ensures { self.new ≡ record self.old { held = Some held } }
    {
        self.held = Some(held);
    }

    // One of its connections was notified of a revision.
    fn note(&mut self, revision: u64)
        ensures { self.new ≡ record self.old { told = max self.old.told revision } }
    {
        self.told = self.told.max(revision);
    }

    // It lets go of its packet, and has these copies of it to offer.
    fn look(&mut self, revision: u64, copies: VecDeque<Outgoing>)
        ensures { self.new ≡ record self.old { seen = revision; held = None; copies = copies.items } }
    {
        self.seen = revision;
        self.held = None;
        self.copies = copies;
    }

    fn take_copy(&mut self) -> Option<Outgoing>
        ensures copy { result ≡ slice_get self.old.copies 0 }
        ensures others { self.new ≡ record self.old { copies = drop 1 self.old.copies } }
    {
        self.copies.pop_front()
    }
}

/// The worker at a place holds a packet.
pub fn hold_at(workers: &mut Vec<Worker>, place: usize, held: Held)
    ensures { workers.new.items ≡ changed_at place (λ w. record w { held = Some held }) workers.old.items }
{
    if let Some(worker) = workers.get_mut(place) {
        worker.hold(held);
    }
}

/// A connection of the worker at a place was notified of a revision.
pub fn note_at(workers: &mut Vec<Worker>, place: usize, revision: u64)
    ensures { workers.new.items ≡ changed_at place (λ w. record w { told = max w.told revision }) workers.old.items }
{
    if let Some(worker) = workers.get_mut(place) {
        worker.note(revision);
    }
}

/// The worker at a place looked at a revision, and has these copies to offer.
pub fn look_at(workers: &mut Vec<Worker>, place: usize, revision: u64, copies: VecDeque<Outgoing>)
    ensures { workers.new.items
        ≡ changed_at place (λ w. record w { seen = revision; held = None; copies = copies.items }) workers.old.items }
{
    if let Some(worker) = workers.get_mut(place) {
        worker.look(revision, copies);
    }
}

/// Takes the next copy of the worker at a place.
pub fn take_copy_at(workers: &mut Vec<Worker>, place: usize) -> Option<Outgoing>
    ensures others { workers.new.items
        ≡ changed_at place (λ w. record w { copies = drop 1 w.copies }) workers.old.items }
    ensures copy { result ≡ slice_get (slice_index_or workers.old.items place idle).copies 0 }
{
    workers.get_mut(place)?.take_copy()
}
