//! What is to be written to a link, in the order in which it was taken.

ghost use Rattle.std.specs.Prelude.{◌≡◌, ◌==◌, ◌+◌, ℕ, ◌++◌, ◌<◌, ◌≤◌, [], List, length, OnErr, OnOk};
ghost use Rattle.mum_frame.specs.Frame.{spelling_of};
ghost use Rattle.mum_frame.specs.declared.kind.TheConstants.{UDP_TUNNEL};
ghost use Rattle.mum_io.specs.Link.{Appends, Keeps, PollWriteCounts};
ghost use Rattle.mum_port.specs.Outgoing.{HaveBytes, WritesFirst, unwritten};

use crate::front::Front;
use mum_base::{Octets, OutOfMemory};
use mum_io::{Link, PollWrite};
use mum_voice::COPY_LIMIT;
use std::alloc::{AllocError, Global};
use std::collections::VecDeque;
use std::marker::Model;

/// Frames that are to be written: what is left of the one at the front, and those after it. Contracts
/// see the bytes.
#[derive(Drop)]
pub struct Outgoing {
    front: Front,
    wires: VecDeque<Octets>,
    /// How many bytes there are.
    total: usize,
}

impl Model for Outgoing {
    ghost use Rattle.std.specs.Prelude.{◌≡◌, ℕ, List, length};
    ghost use Rattle.mum_port.specs.Outgoing.{HaveBytes, unwritten};

    ghost Value = { List ℕ };

    ghost view = { λ o. unwritten o.front o.wires.items };

    ghost invariant = { λ o. HaveBytes o.wires.items × (o.total ≡ length (unwritten o.front o.wires.items)) };
}

// The next frame comes to the front, where nothing is left of the one before.
fn advance(front: &mut Front, wires: &mut VecDeque<Octets>)
    requires { HaveBytes wires.old.items }
    ensures same { unwritten front.new wires.new.items ≡ unwritten front.old wires.old.items }
    ensures bytes { HaveBytes wires.new.items }
    ensures filled { 0 < length (unwritten front.old wires.old.items) → 0 < length front.new }
{
    if !front.as_slice().is_empty() {
        return;
    }
    if let Some(wire) = wires.pop_front() {
        front.hold(wire);
    }
}

// Writes as much of the frame at the front as the link takes.
fn write_front<L: Link>(front: &mut Front, link: &mut L) -> PollWrite
    requires { 0 < length front.old }
    ensures counts { PollWriteCounts result (L.facts link.old).counts (L.facts link.new).counts }
    ensures left { Keeps (L.facts link.old).left (L.facts link.new).left }
    ensures address { (L.facts link.new).address ≡ (L.facts link.old).address }
    ensures is_shut { (L.facts link.new).is_shut ≡ (L.facts link.old).is_shut }
    ensures wrote { WritesFirst (L.facts link.old).written (L.facts link.new).written result front.old front.new }
{
    let wrote = link.poll_write(front.as_slice());
    if let PollWrite::Took(count) = wrote {
        front.pass(count);
    }
    wrote
}

impl Outgoing {
    /// Nothing is to be written, and no memory is taken.
    pub fn new(alloc: Global) -> Outgoing
        ensures { result ≡ [] }
    {
        Outgoing {
            front: Front::new(),
            wires: VecDeque::new(alloc),
            total: 0,
        }
    }

    /// How many bytes are to be written.
    pub fn length(&self) -> usize
        ensures { result ≡ length self.now }
    {
        self.total
    }

    /// Whether nothing is to be written.
    pub fn is_empty(&self) -> bool
        ensures { result ≡ (length self.now == 0) }
    {
        self.total == 0
    }

    /// This frame is written after all others. Without memory nothing changes.
    pub fn push(&mut self, wire: Octets) -> Result<(), OutOfMemory>
        ensures ok { OnOk result (self.new ≡ self.old ++ wire) }
        ensures err { OnErr result (self.new ≡ self.old) }
    {
        let count = wire.as_slice().len();
        let Some(total) = self.total.checked_add(count) else {
            return Err(AllocError);
        };
        if count == 0 {
            return Ok(());
        }
        self.wires.reserve(1)?;
        self.wires.push_back_reserved(wire);
        self.total = total;
        Ok(())
    }

    /// This frame is written, where nothing else is to be. No memory is taken.
    pub fn hold(&mut self, wire: Octets)
        requires { self.old ≡ [] }
        ensures { self.new ≡ wire }
    {
        self.total = wire.as_slice().len();
        self.front.hold(wire);
    }

    /// This voice packet is written as a frame of type 1 (UDPTunnel), where nothing else is to be. No memory
    /// is taken.
    pub fn hold_voice(&mut self, packet: &[u8])
        requires empty { self.old ≡ [] }
        requires limit { length packet.now ≤ COPY_LIMIT }
        ensures { self.new ≡ spelling_of UDP_TUNNEL packet.now }
    {
        self.front.hold_voice(packet);
        self.total = self.front.as_slice().len();
    }

    /// Writes the first bytes to the link, as many as it takes in one call.
    pub fn write_to<L: Link>(&mut self, link: &mut L) -> PollWrite
        requires { 0 < length self.old }
        ensures counts { PollWriteCounts result (L.facts link.old).counts (L.facts link.new).counts }
        ensures left { Keeps (L.facts link.old).left (L.facts link.new).left }
        ensures address { (L.facts link.new).address ≡ (L.facts link.old).address }
        ensures is_shut { (L.facts link.new).is_shut ≡ (L.facts link.old).is_shut }
        ensures wrote { WritesFirst (L.facts link.old).written (L.facts link.new).written result self.old self.new }
    {
        advance(&mut self.front, &mut self.wires);
        let before = self.front.as_slice().len();
        let wrote = write_front(&mut self.front, link);
        self.total -= before - self.front.as_slice().len();
        wrote
    }
}
