//! A socket that is asked only where it may be ready.

ghost use Rattle.std.specs.Prelude.{◌≡◌, ◌<◌, ◌≤◌, ◌⊎◌, ℕ, MatchOption, None, Some, false, true, if◌then◌else◌, length, nat_lt, take};
ghost use Rattle.std.specs.Io.KnownBytes.{Appends, Keeps};
ghost use Rattle.std.specs.Option.{ForSome};
ghost use Rattle.mum_io.specs.Link.{PollReadLeaves, PollWriteLeaves};
ghost use Rattle.mum_io.specs.declared.link.PollRead.TheVariants as read;
ghost use Rattle.mum_io.specs.declared.link.PollWrite.TheVariants as write;
ghost use Rattle.mum_io.specs.Counts.{Rose};
ghost use Rattle.mum_link.specs.Faults.{Closes, IsBroken, Stays, has_cause, is_of_shut, is_passing};
ghost use Rattle.mum_link.specs.Timely.{AnswersInTime, has_run_out};

use crate::fault::{Fault, is_passing};
use crate::patience::Patience;
use crate::seat::Seat;
use crate::socket::Socket;
use mum_io::{PollRead, PollWrite};
use mum_pace::HangUp;
use std::io::ErrorKind;

// A socket, the place of its link, and how many bytes went over it.
#[derive(Drop)]
pub(crate) struct Line<S: Socket> {
    pub(crate) socket: S,
    pub(crate) seat: Seat,
    pub(crate) patience: Patience,
    hang_up: HangUp,
    // why no byte goes over it any more, if none does
    pub(crate) fault: Option<Fault>,
    awaits_room: bool,
    pub(crate) bytes_read: u64,
    pub(crate) bytes_written: u64,
    ghost caused: { ForSome fault (λ cause. has_cause cause (S.failures socket) patience hang_up.since ≡ true) },
}

impl<S: Socket> Line<S> {
    // A line over which nothing went yet.
    pub(crate) fn new(socket: S, seat: Seat, patience: Patience) -> Line<S>
        ensures socket { result.socket ≡ socket }
        ensures patience { result.patience ≡ patience }
        ensures fault { result.fault ≡ None }
    {
        Line {
            socket,
            seat,
            patience,
            hang_up: HangUp::new(),
            fault: None,
            awaits_room: false,
            bytes_read: 0,
            bytes_written: 0,
        }
    }

    // Whether no byte goes over it any more: it has a fault, or the server stops, which is one from then on.
    #[tactic(auto, using(crate::proofs::Faulting::none_before, crate::proofs::Faulting::stays_same, crate::proofs::Faulting::broken_is))]
    pub(crate) fn is_over(&mut self) -> bool
        ensures over { result ≡ true → IsBroken self.new.fault }
        ensures goes_on { result ≡ false → (self.old.fault ≡ None) × (self.new.fault ≡ None) }
        ensures fault { Stays self.old.fault self.new.fault }
        ensures socket { self.new.socket ≡ self.old.socket }
        ensures patience { self.new.patience ≡ self.old.patience }
    {
        if let Some(ending) = self.seat.stopping() {
            self.fail(Fault::Stop(ending));
        }
        self.fault.is_some()
    }

    // It carries no byte any more, for this cause, or an earlier one.
    #[tactic(auto, using(crate::proofs::Faulting::stays_first, crate::proofs::Faulting::cause_first))]
    pub(crate) fn fail(&mut self, fault: Fault)
        requires cause { has_cause fault (S.failures self.old.socket) self.old.patience self.old.hang_up.since ≡ true }
        requires open { is_of_shut (Some fault) ≡ false }
        ensures broken { IsBroken self.new.fault }
        ensures fault { Stays self.old.fault self.new.fault }
        ensures socket { self.new.socket ≡ self.old.socket }
        ensures patience { self.new.patience ≡ self.old.patience }
    {
        self.fault = Some(self.fault.unwrap_or(fault));
    }

    // Reads what has come. The flag is left where there may be more: the system reports no change of that.
    #[tactic(auto, using(crate::proofs::Faulting::stays_same, crate::proofs::Faulting::causes_after_read, crate::proofs::Faulting::read_has_failed))]
    pub(crate) fn read(&mut self, buf: &mut [u8]) -> PollRead
        requires { 0 < length buf.old }
        ensures left { PollReadLeaves result (S.left self.old.socket) (S.left self.new.socket) buf.new }
        ensures written { Keeps (S.written self.old.socket) (S.written self.new.socket) }
        ensures fails { result ≡ read.Failed → IsBroken self.new.fault }
        ensures fault { Stays self.old.fault self.new.fault }
    {
        self.seat.clear_readable();
        match self.socket.read(buf) {
            Ok(0) => {
                self.seat.set_readable();
                PollRead::End
            }
            Ok(count) => {
                self.bytes_read = self.bytes_read.saturating_add(count as u64);
                if count == buf.len() || self.seat.has_hung_up() {
                    self.seat.set_readable();
                }
                PollRead::Got(count)
            }
            Err(error) => self.after_failed_read(error.kind()),
        }
    }

    // Nothing has come yet, or the read failed.
    #[tactic(auto, using(crate::proofs::Faulting::stays_same))]
    fn after_failed_read(&mut self, kind: ErrorKind) -> PollRead
        requires { is_passing kind ≡ false → nat_lt 0 (S.failures self.old.socket) ≡ true }
        ensures answer { (result ≡ read.NotYet) ⊎ (result ≡ read.Failed) }
        ensures socket { self.new.socket ≡ self.old.socket }
        ensures fails { result ≡ read.Failed → IsBroken self.new.fault }
        ensures fault { Stays self.old.fault self.new.fault }
    {
        if !is_passing(kind) {
            self.fail(Fault::Call);
            return PollRead::Failed;
        }
        if matches!(kind, ErrorKind::Interrupted) {
            self.seat.set_readable();
        }
        PollRead::NotYet
    }

    // No byte may be read now, by the pace or because a long frame finds no room beside those of other links. What a
    // client that has hung up left behind is not waited for for long: else it would keep its slot. It is lost then, and
    // so the line fails.
    #[tactic(auto, using(crate::proofs::Faulting::stays_same, crate::proofs::Faulting::none_wants_a_cause, crate::proofs::Faulting::waited_still))]
    pub(crate) fn wait_to_read(&mut self) -> PollRead
        requires { self.old.fault ≡ None }
        ensures answer { (result ≡ read.NotYet) ⊎ (result ≡ read.Failed) }
        ensures socket { self.new.socket ≡ self.old.socket }
        ensures fails { result ≡ read.Failed → IsBroken self.new.fault }
        ensures fault { Stays self.old.fault self.new.fault }
    {
        let has_hung_up = self.seat.has_hung_up();
        let milliseconds = self.seat.board.milliseconds();
        if self.hang_up.is_over(has_hung_up, milliseconds) {
            self.fail(Fault::LeftBehind(milliseconds));
            return PollRead::Failed;
        }
        self.seat.board.slow_down();
        PollRead::NotYet
    }

    // Writes a front of the piece, where there may be room, at this time in milliseconds. A peer that has taken nothing for
    // too long has the line fail.
    #[tactic(auto, using(crate::proofs::Faulting::stays_same, crate::proofs::Faulting::stays_on, crate::proofs::Faulting::none_wants_a_cause, crate::proofs::Faulting::none_is, crate::proofs::Faulting::not_broken, crate::proofs::Faulting::broken_is))]
    pub(crate) fn write(&mut self, piece: &[u8], milliseconds: u64) -> PollWrite
        ensures written { PollWriteLeaves result (S.written self.old.socket) (S.written self.new.socket) piece.now }
        ensures left { Keeps (S.left self.old.socket) (S.left self.new.socket) }
        ensures waits { AnswersInTime result self.old.patience self.new.patience milliseconds }
        ensures fails { result ≡ write.Failed → IsBroken self.new.fault }
        ensures fault { Stays self.old.fault self.new.fault }
        ensures broken { IsBroken self.old.fault → (result ≡ write.Failed) × (self.new.socket ≡ self.old.socket) }
    {
        if self.fault.is_some() {
            return PollWrite::Failed;
        }
        let answer = self.write_front(piece);
        match answer {
            PollWrite::Took(_) => {
                self.patience.renew(milliseconds);
                answer
            }
            PollWrite::NotYet => self.wait_to_write(milliseconds),
            PollWrite::Failed => answer,
        }
    }

    // There is no room yet. It is waited for as long as the patience lasts.
    #[tactic(auto, using(crate::proofs::Faulting::stays_same))]
    fn wait_to_write(&mut self, milliseconds: u64) -> PollWrite
        ensures answer { result ≡ (if has_run_out self.old.patience.limit self.old.patience.since milliseconds then write.Failed else write.NotYet) }
        ensures socket { self.new.socket ≡ self.old.socket }
        ensures patience { self.new.patience ≡ self.old.patience }
        ensures fails { result ≡ write.Failed → IsBroken self.new.fault }
        ensures fault { Stays self.old.fault self.new.fault }
    {
        if self.patience.is_over(milliseconds) {
            self.fail(Fault::TookNothing(milliseconds));
            return PollWrite::Failed;
        }
        PollWrite::NotYet
    }

    #[tactic(auto, using(crate::proofs::Faulting::stays_same, crate::proofs::Faulting::causes_after_write, crate::proofs::Faulting::write_has_failed, crate::proofs::Faulting::write_took_nothing, crate::proofs::Faulting::took_neither))]
    fn write_front(&mut self, piece: &[u8]) -> PollWrite
        requires { self.old.fault ≡ None }
        ensures written { PollWriteLeaves result (S.written self.old.socket) (S.written self.new.socket) piece.now }
        ensures left { Keeps (S.left self.old.socket) (S.left self.new.socket) }
        ensures patience { self.new.patience ≡ self.old.patience }
        ensures fails { result ≡ write.Failed → IsBroken self.new.fault }
        ensures fault { Stays self.old.fault self.new.fault }
        ensures goes_on { (count : ℕ) → result ≡ write.Took count → self.new.fault ≡ None }
    {
        if !self.seat.is_writable() {
            return PollWrite::NotYet;
        }
        match self.socket.write(piece) {
            Ok(0) => {
                self.fail(Fault::Call);
                PollWrite::Failed
            }
            Ok(count) => {
                self.bytes_written = self.bytes_written.saturating_add(count as u64);
                PollWrite::Took(count)
            }
            Err(error) => self.after_failed_write(error.kind()),
        }
    }

    // There is no room yet, or the write failed.
    #[tactic(auto, using(crate::proofs::Faulting::stays_same))]
    fn after_failed_write(&mut self, kind: ErrorKind) -> PollWrite
        requires { is_passing kind ≡ false → nat_lt 0 (S.failures self.old.socket) ≡ true }
        ensures answer { (result ≡ write.NotYet) ⊎ (result ≡ write.Failed) }
        ensures left { Keeps (S.left self.old.socket) (S.left self.new.socket) }
        ensures written { Keeps (S.written self.old.socket) (S.written self.new.socket) }
        ensures patience { self.new.patience ≡ self.old.patience }
        ensures fails { result ≡ write.Failed → IsBroken self.new.fault }
        ensures fault { Stays self.old.fault self.new.fault }
    {
        if !is_passing(kind) {
            self.fail(Fault::Call);
            return PollWrite::Failed;
        }
        if matches!(kind, ErrorKind::Interrupted) {
            return PollWrite::NotYet;
        }
        self.await_room()
    }

    // Has the system report room. It stays asked.
    #[tactic(auto, using(crate::proofs::Faulting::stays_same, crate::proofs::Faulting::causes_after_wait, crate::proofs::Faulting::wait_has_failed))]
    fn await_room(&mut self) -> PollWrite
        ensures answer { (result ≡ write.NotYet) ⊎ (result ≡ write.Failed) }
        ensures left { Keeps (S.left self.old.socket) (S.left self.new.socket) }
        ensures written { Keeps (S.written self.old.socket) (S.written self.new.socket) }
        ensures patience { self.new.patience ≡ self.old.patience }
        ensures fails { result ≡ write.Failed → IsBroken self.new.fault }
        ensures fault { Stays self.old.fault self.new.fault }
    {
        self.seat.clear_writable();
        if self.awaits_room || self.socket.await_room() {
            self.awaits_room = true;
            return PollWrite::NotYet;
        }
        self.fail(Fault::Call);
        PollWrite::Failed
    }

    // Writes a front of the piece, whether the socket was reported to have room or not. How many bytes it took. None: it
    // took nothing.
    #[tactic(auto, using(crate::proofs::Faulting::causes_after_write))]
    pub(crate) fn press(&mut self, piece: &[u8]) -> Option<usize>
        requires { 0 < length piece.now }
        ensures written { MatchOption result
            (Keeps (S.written self.old.socket) (S.written self.new.socket)
            × Rose (S.refusals self.old.socket) (S.refusals self.new.socket))
            (λ count. (0 < count) × (count ≤ length piece.now)
            × (S.refusals self.new.socket ≡ S.refusals self.old.socket)
            × Appends (S.written self.old.socket) (S.written self.new.socket) (take count piece.now)) }
        ensures left { Keeps (S.left self.old.socket) (S.left self.new.socket) }
        ensures fault { self.new.fault ≡ self.old.fault }
    {
        match self.socket.write(piece) {
            Ok(0) => None,
            Ok(count) => {
                self.bytes_written = self.bytes_written.saturating_add(count as u64);
                Some(count)
            }
            Err(_) => None,
        }
    }

    // Leaves the socket and the slot, at this time in milliseconds. It carries no byte any more.
    #[tactic(auto, using(crate::proofs::Faulting::closes_first, crate::proofs::Faulting::causes_same, crate::proofs::Faulting::cause_first))]
    pub(crate) fn leave(&mut self, milliseconds: u64)
        ensures left { Keeps (S.left self.old.socket) (S.left self.new.socket) }
        ensures written { Keeps (S.written self.old.socket) (S.written self.new.socket) }
        ensures refusals { S.refusals self.new.socket ≡ S.refusals self.old.socket }
        ensures fault { Closes self.old.fault self.new.fault }
    {
        self.socket
            .leave(milliseconds, self.bytes_read, self.bytes_written);
        self.fault = Some(self.fault.unwrap_or(Fault::Shut));
        self.seat.leave();
    }
}
