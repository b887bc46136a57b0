//! A link over a socket.

ghost use Rattle.std.specs.Prelude.{◌≡◌, ◌<◌, IsTrue, None, [], false, true, length};
ghost use Rattle.std.specs.Io.KnownBytes.{Keeps};
ghost use Rattle.std.specs.Net.Addr.{ipv6_octets};
ghost use Rattle.mum_io.specs.Counts.{no_counts};
ghost use Rattle.mum_io.specs.Link.{PollReadCounts, PollReadLeaves, PollWriteCounts, PollWriteLeaves};
ghost use Rattle.mum_io.specs.declared.link.PollRead.TheVariants as read;
ghost use Rattle.mum_io.specs.declared.link.PollWrite.TheVariants as write;
ghost use Rattle.mum_link.specs.Faults.{Closes, IsBroken, Stays, is_of_shut};
ghost use Rattle.mum_link.specs.Paces.{HoldsForFrame, ReadsInPace};
ghost use Rattle.mum_link.specs.Refusals.{IsSentOrRefused};
ghost use Rattle.mum_link.specs.Wires.{taken};
ghost use Rattle.mum_pace.specs.Meters.{state_of};

use crate::doorstep::Delivery;
use crate::kept::Kept;
use crate::seat::Seat;
use crate::socket::Socket;
use crate::wire::Wire;
use mum_io::{Link, PollRead, PollWrite, Tally};
use mum_pace::{Meter, Reservation};
use std::net::Ipv6Addr;

/// A connection. The bytes that are left are those of its socket; those that were written are those of its socket, and
/// after them what is kept back.
#[derive(Drop)]
pub struct SocketLink<S: Socket> {
    tally: Tally,
    address: Ipv6Addr,
    is_shut: bool,
    pub(crate) wire: Wire<S>,
    ghost over: { is_shut ≡ true → IsBroken wire.line.fault },
    ghost open: { is_of_shut wire.line.fault ≡ true → is_shut ≡ true },
}

// Counts the answer of a read.
fn count_read(tally: &mut Tally, answer: PollRead)
    ensures { PollReadCounts answer tally.old tally.new }
{
    match answer {
        PollRead::Got(_) => {}
        PollRead::End => tally.count_end(),
        PollRead::NotYet => tally.count_stall(),
        PollRead::Failed => tally.count_fault(),
    }
}

// Counts the answer of a write.
fn count_write(tally: &mut Tally, answer: PollWrite)
    ensures { PollWriteCounts answer tally.old tally.new }
{
    match answer {
        PollWrite::Took(_) => {}
        PollWrite::NotYet => tally.count_stall(),
        PollWrite::Failed => tally.count_fault(),
    }
}

impl<S: Socket> SocketLink<S> {
    // An open link to the peer at this address, which came at this time in milliseconds. Nothing went over it yet.
    pub(crate) fn new(
        socket: S,
        seat: Seat,
        address: Ipv6Addr,
        meter: Meter,
        reservation: Reservation,
        kept: Kept,
        delivery: Delivery,
        milliseconds: u64,
    ) -> SocketLink<S>
        requires { kept ≡ [] }
        ensures address { result.address ≡ address }
        ensures open { result.is_shut ≡ false }
        ensures counts { result.tally ≡ no_counts }
        ensures socket { result.wire.line.socket ≡ socket }
        ensures meter { result.wire.meter ≡ meter }
        ensures reservation { result.wire.reservation ≡ reservation }
        ensures kept { result.wire.kept ≡ kept }
        ensures batches { result.wire.in_batches ≡ delivery.in_batches }
        ensures fault { result.wire.line.fault ≡ None }
        ensures patience { result.wire.line.patience ≡ record { limit = delivery.patience; since = milliseconds } }
    {
        SocketLink {
            tally: Tally::new(),
            address,
            is_shut: false,
            wire: Wire::new(
                socket,
                seat,
                meter,
                reservation,
                kept,
                delivery,
                milliseconds,
            ),
        }
    }
}

impl<S: Socket> Link for SocketLink<S> {
    ghost facts = { λ l. record {
      counts = l.tally;
      left = S.left l.wire.line.socket;
      written = taken
          (S.written l.wire.line.socket) l.wire.kept;
      address = ipv6_octets l.address;
      is_shut = l.is_shut;
    } };

    #[tactic(auto, using(crate::proofs::Faulting::broken_still, crate::proofs::Faulting::shut_before))]
    fn poll_read(&mut self, buf: &mut [u8]) -> PollRead
        requires { 0 < length buf.old }
        ensures counts { PollReadCounts result self.old.tally self.new.tally }
        ensures bytes { PollReadLeaves result (S.left self.old.wire.line.socket) (S.left self.new.wire.line.socket) buf.new }
        ensures written { Keeps (taken (S.written self.old.wire.line.socket) self.old.wire.kept)
            (taken (S.written self.new.wire.line.socket) self.new.wire.kept) }
        ensures address { ipv6_octets self.new.address ≡ ipv6_octets self.old.address }
        ensures is_shut { self.new.is_shut ≡ self.old.is_shut }

        // It reads no more than its pace allows, counts what it read, and holds what a long frame reserves.
        ensures pace { ReadsInPace result buf.new (state_of self.old.wire.meter) (state_of self.new.wire.meter) }
        ensures held { HoldsForFrame result (state_of self.old.wire.meter) (state_of self.new.wire.meter) self.new.wire.reservation.bytes }
        // It fails only by a fault, which stays and has its cause. After one, as once it was shut, nothing is read.
        ensures fails { result ≡ read.Failed → IsBroken self.new.wire.line.fault }
        ensures fault { Stays self.old.wire.line.fault self.new.wire.line.fault }
        ensures broken { IsBroken self.old.wire.line.fault → (result ≡ read.Failed)
            × (self.new.wire.line.socket ≡ self.old.wire.line.socket) }
    {
        let answer = self.wire.read(buf);
        count_read(&mut self.tally, answer);
        answer
    }

    #[tactic(auto, using(crate::proofs::Faulting::broken_still, crate::proofs::Faulting::shut_before))]
    fn poll_write(&mut self, piece: &[u8]) -> PollWrite
        requires { 0 < length piece.now }
        ensures counts { PollWriteCounts result self.old.tally self.new.tally }
        ensures bytes { PollWriteLeaves result (taken (S.written self.old.wire.line.socket) self.old.wire.kept)
            (taken (S.written self.new.wire.line.socket) self.new.wire.kept) piece.now }
        ensures left { Keeps (S.left self.old.wire.line.socket) (S.left self.new.wire.line.socket) }
        ensures address { ipv6_octets self.new.address ≡ ipv6_octets self.old.address }
        ensures is_shut { self.new.is_shut ≡ self.old.is_shut }

        // So does a write, and after a fault nothing is written.
        ensures fails { result ≡ write.Failed → IsBroken self.new.wire.line.fault }
        ensures fault { Stays self.old.wire.line.fault self.new.wire.line.fault }
        ensures broken { IsBroken self.old.wire.line.fault → (result ≡ write.Failed)
            × (self.new.wire.line.socket ≡ self.old.wire.line.socket) }
    {
        let answer = self.wire.write(piece);
        count_write(&mut self.tally, answer);
        answer
    }

    #[tactic(auto, using(crate::proofs::Faulting::closes_broken))]
    fn shut(&mut self)
        ensures is_shut { IsTrue self.new.is_shut }
        ensures counts { self.new.tally ≡ self.old.tally }
        ensures left { Keeps (S.left self.old.wire.line.socket) (S.left self.new.wire.line.socket) }
        ensures written { Keeps (taken (S.written self.old.wire.line.socket) self.old.wire.kept)
            (taken (S.written self.new.wire.line.socket) self.new.wire.kept) }
        ensures address { ipv6_octets self.new.address ≡ ipv6_octets self.old.address }

        // What it kept is sent, or its socket took nothing of the rest.
        ensures sent { self.old.is_shut ≡ false → IsSentOrRefused self.new.wire.kept
            (S.refusals self.old.wire.line.socket) (S.refusals self.new.wire.line.socket) }
        ensures fault { self.old.is_shut ≡ false → Closes self.old.wire.line.fault self.new.wire.line.fault }
    {
        if !self.is_shut {
            self.wire.shut();
        }
        self.is_shut = true;
    }

    fn address(&self) -> [u8; 16] {
        self.address.octets()
    }
}
