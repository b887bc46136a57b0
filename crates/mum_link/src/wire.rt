//! How a link reads and writes: it reads as its pace and the allowance for long frames allow, and keeps what is written in
//! batches where more is coming.

ghost use Rattle.std.specs.Prelude.{◌≡◌, ◌<◌, ◌⊎◌, [], None, false, length};
ghost use Rattle.std.specs.Io.KnownBytes.{Keeps};
ghost use Rattle.mum_io.specs.Link.{PollReadLeaves, PollWriteLeaves};
ghost use Rattle.mum_io.specs.declared.link.PollRead.TheVariants as read;
ghost use Rattle.mum_io.specs.declared.link.PollWrite.TheVariants as write;
ghost use Rattle.mum_link.specs.Faults.{Closes, IsBroken, Stays};
ghost use Rattle.mum_link.specs.Paces.{HoldsForFrame, ReadsInPace};
ghost use Rattle.mum_link.specs.Refusals.{IsSentOrRefused};
ghost use Rattle.mum_link.specs.Wires.{taken};
ghost use Rattle.mum_pace.specs.Meters.{after_read, state_of};
ghost use Rattle.mum_pace.specs.Places.{payload_under_way};
ghost use Rattle.mum_pace.specs.Reserved.{bytes_kept};

use crate::doorstep::Delivery;
use crate::kept::{KEPT_LIMIT, Kept};
use crate::line::Line;
use crate::patience::Patience;
use crate::seat::Seat;
use crate::socket::Socket;
use mum_io::{PollRead, PollWrite};
use mum_pace::{Meter, Reservation};

// A line, how fast it may be read, and what is kept back of what was written.
#[derive(Drop)]
pub(crate) struct Wire<S: Socket> {
    pub(crate) line: Line<S>,
    pub(crate) meter: Meter,
    pub(crate) reservation: Reservation,
    pub(crate) in_batches: bool,
    pub(crate) kept: Kept,
    was_refused: bool,
    ghost through: { in_batches ≡ false → kept ≡ [] },
}

impl<S: Socket> Wire<S> {
    // A wire over which nothing went yet, to a peer that came at this time in milliseconds.
    pub(crate) fn new(
        socket: S,
        seat: Seat,
        meter: Meter,
        reservation: Reservation,
        kept: Kept,
        delivery: Delivery,
        milliseconds: u64,
    ) -> Wire<S>
        requires { kept ≡ [] }
        ensures socket { result.line.socket ≡ socket }
        ensures meter { result.meter ≡ meter }
        ensures reservation { result.reservation ≡ reservation }
        ensures kept { result.kept ≡ kept }
        ensures batches { result.in_batches ≡ delivery.in_batches }
        ensures fault { result.line.fault ≡ None }
        ensures patience { result.line.patience ≡ record { limit = delivery.patience; since = milliseconds } }
    {
        let patience = Patience::new(delivery.patience, milliseconds);
        Wire {
            line: Line::new(socket, seat, patience),
            meter,
            reservation,
            in_batches: delivery.in_batches,
            kept,
            was_refused: false,
        }
    }

    // Reads what has come, if its pace and the allowance for long frames allow that. What was kept in an earlier batch
    // is sent before.
    #[tactic(auto, using(crate::proofs::Faulting::stays_same, crate::proofs::Faulting::stays_on, crate::proofs::Faulting::broken_still))]
    pub(crate) fn read(&mut self, buf: &mut [u8]) -> PollRead
        requires { 0 < length buf.old }
        ensures left { PollReadLeaves result (S.left self.old.line.socket) (S.left self.new.line.socket) buf.new }
        ensures taken { Keeps (taken (S.written self.old.line.socket) self.old.kept)
            (taken (S.written self.new.line.socket) self.new.kept) }
        ensures pace { ReadsInPace result buf.new (state_of self.old.meter) (state_of self.new.meter) }
        ensures held { HoldsForFrame result (state_of self.old.meter) (state_of self.new.meter) self.new.reservation.bytes }
        ensures fails { result ≡ read.Failed → IsBroken self.new.line.fault }
        ensures fault { Stays self.old.line.fault self.new.line.fault }
        ensures broken { IsBroken self.old.line.fault
            → (result ≡ read.Failed) × (self.new.line.socket ≡ self.old.line.socket) }
    {
        self.line.seat.board.ask();
        if self.keeps_an_earlier_batch() {
            let milliseconds = self.line.seat.board.milliseconds();
            self.send_kept(milliseconds);
        }
        let read = self.read_in_pace(buf);
        if matches!(read, PollRead::End | PollRead::Failed) {
            self.line.seat.board.note_news();
        }
        read
    }

    #[tactic(auto, using(crate::proofs::Faulting::stays_same, crate::proofs::Faulting::stays_on, crate::proofs::Faulting::none_not_broken, crate::proofs::Faulting::broken_still))]
    fn read_in_pace(&mut self, buf: &mut [u8]) -> PollRead
        requires { 0 < length buf.old }
        ensures left { PollReadLeaves result (S.left self.old.line.socket) (S.left self.new.line.socket) buf.new }
        ensures written { Keeps (S.written self.old.line.socket) (S.written self.new.line.socket) }
        ensures kept { self.new.kept ≡ self.old.kept }
        ensures pace { ReadsInPace result buf.new (state_of self.old.meter) (state_of self.new.meter) }
        ensures held { HoldsForFrame result (state_of self.old.meter) (state_of self.new.meter) self.new.reservation.bytes }
        ensures fails { result ≡ read.Failed → IsBroken self.new.line.fault }
        ensures fault { Stays self.old.line.fault self.new.line.fault }
        ensures broken { IsBroken self.old.line.fault
            → (result ≡ read.Failed) × (self.new.line.socket ≡ self.old.line.socket) }
    {
        if self.line.is_over() {
            return PollRead::Failed;
        }
        if !self.line.seat.is_readable() {
            return PollRead::NotYet;
        }
        let allowance = self.meter.allowance(self.line.seat.board.milliseconds());
        if allowance == 0 || !self.reservation.covers(self.meter.payload()) {
            return self.line.wait_to_read();
        }
        let length = buf.len().min(allowance);
        let read = self.line.read(&mut buf[..length]);
        if let PollRead::Got(count) = read {
            self.note_read(&buf[..count]);
        }
        read
    }

    // Links hold back where more is coming; other threads may have to hear of everything but Pings.
    fn note_read(&mut self, bytes: &[u8])
        ensures socket { self.new.line.socket ≡ self.old.line.socket }
        ensures fault { self.new.line.fault ≡ self.old.line.fault }
        ensures kept { self.new.kept ≡ self.old.kept }
        ensures meter { state_of self.new.meter ≡ after_read (state_of self.old.meter) bytes.now }
        ensures held { self.new.reservation.bytes
            ≡ bytes_kept self.old.reservation.bytes (payload_under_way (state_of self.new.meter).place) }
    {
        let counted = self.meter.count(bytes);
        if counted.frames > 1 {
            self.line.seat.board.hold();
        }
        if !counted.is_pings {
            self.line.seat.board.note_news();
        }
        self.reservation.leave_frames_before(self.meter.payload());
    }

    // Sends the piece where nothing is kept and nobody holds back, and else keeps it as far as there is room.
    #[tactic(auto, using(crate::proofs::Faulting::stays_same, crate::proofs::Faulting::stays_on, crate::proofs::Faulting::broken_still))]
    pub(crate) fn write(&mut self, piece: &[u8]) -> PollWrite
        requires { 0 < length piece.now }
        ensures taken { PollWriteLeaves result (taken (S.written self.old.line.socket) self.old.kept)
            (taken (S.written self.new.line.socket) self.new.kept) piece.now }
        ensures left { Keeps (S.left self.old.line.socket) (S.left self.new.line.socket) }
        ensures fails { result ≡ write.Failed → IsBroken self.new.line.fault }
        ensures fault { Stays self.old.line.fault self.new.line.fault }
        ensures broken { IsBroken self.old.line.fault
            → (result ≡ write.Failed) × (self.new.line.socket ≡ self.old.line.socket) }
    {
        let milliseconds = self.line.seat.board.milliseconds();
        if self.keeps_an_earlier_batch() || self.kept.room() < piece.len() {
            self.send_kept(milliseconds);
        }
        let written = self.send_or_keep(piece, milliseconds);
        if self.is_news(written) {
            self.line.seat.board.note_news();
        }
        written
    }

    // Whether other threads may have to hear of an answer: the link failed, or it takes bytes again. Then frames are
    // handled that came long ago, and were not while too much was unwritten.
    fn is_news(&mut self, written: PollWrite) -> bool
        ensures line { self.new.line ≡ self.old.line }
        ensures kept { self.new.kept ≡ self.old.kept }
    {
        let was_refused = self.was_refused;
        self.was_refused = matches!(written, PollWrite::NotYet);
        match written {
            PollWrite::Took(_) => was_refused,
            PollWrite::NotYet => false,
            PollWrite::Failed => true,
        }
    }

    #[tactic(auto, using(crate::proofs::Faulting::stays_same, crate::proofs::Faulting::stays_on, crate::proofs::Faulting::none_not_broken, crate::proofs::Faulting::broken_still))]
    fn send_or_keep(&mut self, piece: &[u8], milliseconds: u64) -> PollWrite
        requires { 0 < length piece.now }
        ensures taken { PollWriteLeaves result (taken (S.written self.old.line.socket) self.old.kept)
            (taken (S.written self.new.line.socket) self.new.kept) piece.now }
        ensures left { Keeps (S.left self.old.line.socket) (S.left self.new.line.socket) }
        ensures fails { result ≡ write.Failed → IsBroken self.new.line.fault }
        ensures fault { Stays self.old.line.fault self.new.line.fault }
        ensures broken { IsBroken self.old.line.fault
            → (result ≡ write.Failed) × (self.new.line.socket ≡ self.old.line.socket) }
    {
        // what it keeps is sent when it is shut
        if self.line.is_over() {
            return PollWrite::Failed;
        }
        let is_sent_now = !self.in_batches
            || KEPT_LIMIT < piece.len()
            || !self.line.seat.board.is_holding();
        if is_sent_now && self.kept.is_empty() {
            return self.line.write(piece, milliseconds);
        }
        match self.kept.put(piece, self.line.seat.board.batch()) {
            0 => PollWrite::NotYet,
            count => PollWrite::Took(count),
        }
    }

    fn keeps_an_earlier_batch(&self) -> bool {
        !self.kept.is_empty() && self.kept.batch() != self.line.seat.board.batch()
    }

    // Sends what is kept, as far as the socket takes it.
    #[tactic(auto, using(crate::proofs::Faulting::stays_same, crate::proofs::Faulting::stays_on, crate::proofs::Faulting::broken_still))]
    fn send_kept(&mut self, milliseconds: u64)
        ensures taken { Keeps (taken (S.written self.old.line.socket) self.old.kept)
            (taken (S.written self.new.line.socket) self.new.kept) }
        ensures left { Keeps (S.left self.old.line.socket) (S.left self.new.line.socket) }
        ensures meter { self.new.meter ≡ self.old.meter }
        ensures fault { Stays self.old.line.fault self.new.line.fault }
        ensures broken { IsBroken self.old.line.fault → self.new.line.socket ≡ self.old.line.socket }
    {
        for _ in 0..KEPT_LIMIT {
            if self.kept.is_empty() {
                break;
            }
            let PollWrite::Took(count) = self.line.write(self.kept.as_slice(), milliseconds) else {
                break;
            };
            self.kept.pass(count);
        }
    }

    // Sends all that is kept, whatever was reported of the socket. If it takes nothing, the rest is lost.
    fn send_all(&mut self)
        ensures taken { Keeps (taken (S.written self.old.line.socket) self.old.kept)
            (taken (S.written self.new.line.socket) self.new.kept) }
        ensures left { Keeps (S.left self.old.line.socket) (S.left self.new.line.socket) }
        ensures sent { IsSentOrRefused self.new.kept (S.refusals self.old.line.socket) (S.refusals self.new.line.socket) }
        ensures fault { self.new.line.fault ≡ self.old.line.fault }
    {
        while !self.kept.is_empty() {
            let Some(sent) = self.line.press(self.kept.as_slice()) else {
                return;
            };
            self.kept.pass(sent);
        }
    }

    // Sends what is kept, takes the socket out of its poll and the link out of its slot.
    #[tactic(auto, using(crate::proofs::Faulting::closes_from))]
    pub(crate) fn shut(&mut self)
        ensures taken { Keeps (taken (S.written self.old.line.socket) self.old.kept)
            (taken (S.written self.new.line.socket) self.new.kept) }
        ensures left { Keeps (S.left self.old.line.socket) (S.left self.new.line.socket) }
        ensures sent { IsSentOrRefused self.new.kept (S.refusals self.old.line.socket) (S.refusals self.new.line.socket) }
        ensures fault { Closes self.old.line.fault self.new.line.fault }
    {
        self.send_all();
        self.reservation.give_back();
        let milliseconds = self.line.seat.board.milliseconds();
        self.line.leave(milliseconds);
    }
}
