//! How connections come in: from a listener, after the header of a relay where there is one, to the thread of the worker
//! that gets them.

ghost use Rattle.std.specs.Prelude.{◌≡◌, ℕ, ◌<◌, ◌≤◌, ◌==◌, [], None, Some, false, true, not, IfOk, MatchOption, IfSome, is_some, slice_get, string_bytes, unwrap_or, vec_len};
ghost use Rattle.std.specs.Io.KnownBytes.{Keeps};
ghost use Rattle.std.specs.Option.{ForSome, option_map};
ghost use Rattle.std.specs.Result.{ForOk};
ghost use Rattle.std.specs.Net.Addr.{ipv6_octets};
ghost use Rattle.mum_address.specs.Address.{SaysHeaders};
ghost use Rattle.mum_address.specs.Header.{IsHeader};
ghost use Rattle.mum_pace.specs.Arrivals.{no_arrivals, state_of};
ghost use Rattle.mum_link.specs.Comings.{CountsOne, HaveRoom, LetsIn};
ghost use Rattle.mum_link.specs.Headers.{HoldsAnswer, IsOf, TakesOut, refused_after};
ghost use Rattle.mum_link.specs.Origins.{ComesIn, HasRead};
ghost use Rattle.mum_link.specs.Paces.{IsNew};
ghost use Rattle.mum_link.specs.Sharing.{IsWatched};
ghost use Rattle.mum_link.specs.declared.entrance.TheConstants.{WAITING_LIMIT};
ghost use Rattle.mum_pace.specs.Meters as meter;

use crate::board::Board;
use crate::doorstep::Doorstep;
use crate::hub::{Ending, Hub, READABLE};
use crate::kept::Kept;
use crate::link::SocketLink;
use crate::listener::Listener;
use crate::seat::Seat;
use crate::socket::Socket;
use crate::waiting::Waiting;
use mum_address::Header;
use mum_pace::{Arrivals, Meter, Rate, Reservation};
use std::alloc::{AllocError, Global};
use std::io;
use std::io::ErrorKind;
use std::mem::replace;
use std::net::Ipv6Addr;
use std::sync::Arc;

// How many connections may wait for their headers.
pub(crate) const WAITING_LIMIT: usize = 64;

// After how many milliseconds a listener that had no descriptor or no slot is asked again.
const PAUSE: u64 = 1000;

// How many connections are taken from the listener in one call, and how often it is asked for one.
const ARRIVALS: usize = 256;

const ATTEMPTS: usize = 16;

// A connection that came, with its slot and the address of its peer. Nothing of it was read.
#[derive(Drop)]
struct Arrival<S: Socket> {
    socket: S,
    slot: usize,
    address: Ipv6Addr,
    ghost came: { HasRead (S.origin socket) (S.left socket) [] (ipv6_octets address) },
}

// How many links were shut, and the time in milliseconds, when the listener could not be asked.
#[derive(Clone, Copy)]
struct Stuck {
    links_shut: u64,
    since: u64,
}

/// A listener, those who wait at it, and the boards of the crew's threads.
#[derive(Drop)]
pub struct Entrance<L, S: Socket> {
    alloc: Global,
    hub: Arc<Hub>,
    boards: Vec<Arc<Board>>,
    step: Doorstep,
    arrivals: Option<Arrivals>,
    listener: L,
    has_headers: bool,
    waiting: Vec<Waiting<S>>,
    stuck: Option<Stuck>,
    is_failing: bool,
    refused: u64,
    ghost few: { vec_len waiting ≤ WAITING_LIMIT },
}

// Where none came yet at a door with this rate.
fn arrivals_of(rate: Option<Rate>) -> Option<Arrivals>
    ensures { MatchOption result (rate ≡ None) (λ arrivals.
        (rate ≡ Some arrivals.rate) × (state_of arrivals ≡ no_arrivals)) }
{
    match rate {
        Some(rate) => Some(Arrivals::new(rate)),
        None => None,
    }
}

impl<L, S: Socket> Entrance<L, S> {
    /// Over this listener, which is still to be opened.
    pub fn new(
        alloc: Global,
        hub: Arc<Hub>,
        boards: Vec<Arc<Board>>,
        step: Doorstep,
        listener: L,
    ) -> Entrance<L, S>
        ensures step { result.step ≡ step }
        ensures rate { MatchOption result.arrivals (step.rate ≡ None) (λ arrivals.
            (step.rate ≡ Some arrivals.rate) × (state_of arrivals ≡ no_arrivals)) }
        ensures headers { result.has_headers ≡ false }
        ensures waiting { result.waiting.items ≡ [] }
        ensures refused { result.refused ≡ 0 }
    {
        Entrance {
            alloc,
            hub,
            boards,
            step,
            arrivals: arrivals_of(step.rate),
            listener,
            has_headers: false,
            waiting: Vec::new(alloc),
            stuck: None,
            is_failing: false,
            refused: 0,
        }
    }

    pub fn listener(&self) -> &L {
        &self.listener
    }

    /// A copy of this text.
    pub fn text_of(&self, text: &str) -> Result<String, AllocError>
        ensures { IfOk result (λ copy. string_bytes copy ≡ text.now) }
    {
        String::from_str(self.alloc, text)
    }

    /// Why nobody is let in any more, if so: the server stops, or the owner has ended and the door ends with it.
    pub fn ending(&self) -> Option<Ending>
        ensures { ForSome result (λ ending. ending.is_stop ≡ false → self.now.step.ends_with_owner ≡ true) }
    {
        self.hub.ending(self.step.ends_with_owner)
    }

    // An accept failed. Whether that is to be reported: of failures in a row only the first is.
    fn note_failure(&mut self) -> bool
        ensures waiting { self.new.waiting ≡ self.old.waiting }
        ensures first { result ≡ not self.old.is_failing }
        ensures failing { self.new.is_failing ≡ true }
        ensures has_headers { self.new.has_headers ≡ self.old.has_headers }
        ensures step { self.new.step ≡ self.old.step }
        ensures arrivals { self.new.arrivals ≡ self.old.arrivals }
    {
        !replace(&mut self.is_failing, true)
    }
}

impl<S: Socket, L: Listener<Socket = S>> Entrance<L, S> {
    /// Listens at this address. Whether it does. Who waits for a header at another is closed.
    pub fn open(&mut self, address: &str) -> bool
        ensures headers { result ≡ true → SaysHeaders address.now self.new.has_headers }
        ensures as_before { result ≡ false → self.new.has_headers ≡ self.old.has_headers }
        ensures step { self.new.step ≡ self.old.step }
        ensures arrivals { self.new.arrivals ≡ self.old.arrivals }
    {
        let answer = self
            .listener
            .listen(address, self.step.thread, self.step.slot);
        self.begin(answer)
    }

    // The listener answered this. Whether it listens.
    fn begin(&mut self, answer: Option<bool>) -> bool
        ensures listens { result ≡ is_some answer }
        ensures has_headers { self.new.has_headers ≡ unwrap_or answer self.old.has_headers }
        ensures step { self.new.step ≡ self.old.step }
        ensures arrivals { self.new.arrivals ≡ self.old.arrivals }
    {
        let Some(has_headers) = answer else {
            return false;
        };
        self.close_waiting();
        self.has_headers = has_headers;
        self.set_ready();
        true
    }

    // Closes those who wait for their headers.
    fn close_waiting(&mut self)
        ensures none { self.new.waiting.items ≡ [] }
        ensures has_headers { self.new.has_headers ≡ self.old.has_headers }
        ensures step { self.new.step ≡ self.old.step }
        ensures arrivals { self.new.arrivals ≡ self.old.arrivals }
    {
        while let Some(waiting) = self.waiting.pop() {
            self.hub.free_slot(waiting.slot);
        }
    }

    /// The next connection, which gets this number.
    pub fn next(&mut self, connection: u64) -> Option<SocketLink<S>>
        ensures has_headers { self.new.has_headers ≡ self.old.has_headers }
        ensures step { self.new.step ≡ self.old.step }
        ensures rate { (now : ℕ) × LetsIn (is_some result) now self.old.arrivals self.new.arrivals }
        // It begins with a header where connections do, and has the address that this names.
        ensures comes { ForSome result (λ link. ComesIn self.old.has_headers (S.origin link.wire.line.socket)
            (S.left link.wire.line.socket) (ipv6_octets link.address)) }
        ensures pace { ForSome result (λ link. IsNew self.old.step.pace (meter.state_of link.wire.meter)) }
        ensures watched { ForSome result (λ link. IsWatched self.old.step.is_shared self.old.step.thread connection
            (S.watched link.wire.line.socket)) }
    {
        self.try_again();
        let now = self.now();
        if !self.have_arrivals_room(now) {
            self.watch_time();
            return None;
        }
        let link = self.next_of_all(connection);
        if link.is_some() {
            self.count_arrival();
        }
        self.watch_time();
        link
    }

    // Whether the rate of the door has room for a connection at this time in milliseconds.
    fn have_arrivals_room(&mut self, milliseconds: u64) -> bool
        ensures room { HaveRoom result milliseconds self.old.arrivals self.new.arrivals }
        ensures has_headers { self.new.has_headers ≡ self.old.has_headers }
        ensures step { self.new.step ≡ self.old.step }
    {
        match &mut self.arrivals {
            Some(arrivals) => arrivals.have_room(milliseconds),
            None => true,
        }
    }

    fn count_arrival(&mut self)
        ensures has_headers { self.new.has_headers ≡ self.old.has_headers }
        ensures step { self.new.step ≡ self.old.step }
        ensures counted { CountsOne self.old.arrivals self.new.arrivals }
    {
        if let Some(arrivals) = &mut self.arrivals {
            arrivals.count();
        }
    }

    // Whether the listener may have a connection.
    fn is_ready(&self) -> bool {
        self.hub.has(self.step.slot, READABLE)
    }

    fn set_ready(&self) {
        self.hub.set(self.step.slot, READABLE);
    }

    fn clear_ready(&self) {
        self.hub.clear(self.step.slot, READABLE);
    }

    fn next_of_all(&mut self, connection: u64) -> Option<SocketLink<S>>
        ensures comes { ForSome result (λ link. ComesIn self.old.has_headers (S.origin link.wire.line.socket)
            (S.left link.wire.line.socket) (ipv6_octets link.address)) }
        ensures pace { ForSome result (λ link. IsNew self.old.step.pace (meter.state_of link.wire.meter)) }
        ensures watched { ForSome result (λ link. IsWatched self.old.step.is_shared self.old.step.thread connection
            (S.watched link.wire.line.socket)) }
        ensures has_headers { self.new.has_headers ≡ self.old.has_headers }
        ensures step { self.new.step ≡ self.old.step }
        ensures arrivals { self.new.arrivals ≡ self.old.arrivals }
    {
        for _ in 0..ARRIVALS {
            if let Some(link) = self.next_waiting(connection) {
                return Some(link);
            }
            if self.waiting.len() >= WAITING_LIMIT {
                return None;
            }
            let arrival = self.arrive()?;
            if self.has_headers {
                self.await_header(arrival);
                continue;
            }
            if let Some(link) = self.admit_client(arrival, connection) {
                return Some(link);
            }
        }
        None
    }

    // The time in milliseconds.
    fn now(&self) -> u64 {
        match self.boards.get(self.step.thread) {
            Some(board) => board.milliseconds(),
            None => 0,
        }
    }

    // The listener reports no second time what it could not be asked for.
    fn try_again(&mut self)
        ensures has_headers { self.new.has_headers ≡ self.old.has_headers }
        ensures step { self.new.step ≡ self.old.step }
        ensures arrivals { self.new.arrivals ≡ self.old.arrivals }
    {
        if let Some(stuck) = self.stuck {
            let is_over = self.now() >= stuck.since.saturating_add(PAUSE);
            if is_over || self.hub.links_shut() != stuck.links_shut {
                self.stuck = None;
                self.set_ready();
            }
        }
    }

    // Who waits for a header, and a listener that is to be asked again, need the door asked before long. So does one that
    // still is ready, since too many attempts came to nothing or too many came at once: it reports no second time what it has.
    fn watch_time(&self) {
        if self.stuck.is_some() || !self.waiting.is_empty() || self.is_ready() {
            if let Some(board) = self.boards.get(self.step.thread) {
                board.slow_down();
            }
        }
    }

    fn pause(&mut self)
        ensures waiting { self.new.waiting ≡ self.old.waiting }
        ensures failing { self.new.is_failing ≡ self.old.is_failing }
        ensures has_headers { self.new.has_headers ≡ self.old.has_headers }
        ensures step { self.new.step ≡ self.old.step }
        ensures arrivals { self.new.arrivals ≡ self.old.arrivals }
    {
        self.clear_ready();
        self.stuck = Some(Stuck {
            links_shut: self.hub.links_shut(),
            since: self.now(),
        });
    }

    // The next connection of the listener, in a slot of its own.
    fn arrive(&mut self) -> Option<Arrival<S>>
        ensures waiting { self.new.waiting ≡ self.old.waiting }
        ensures has_headers { self.new.has_headers ≡ self.old.has_headers }
        ensures step { self.new.step ≡ self.old.step }
        ensures arrivals { self.new.arrivals ≡ self.old.arrivals }
    {
        if !self.is_ready() {
            return None;
        }
        let Some(slot) = self.hub.take_slot(self.step.first, self.step.end) else {
            self.pause();
            return None;
        };
        match self.accept() {
            Some((socket, address)) => Some(Arrival {
                socket,
                slot,
                address,
            }),
            None => {
                self.hub.free_slot(slot);
                None
            }
        }
    }

    fn accept(&mut self) -> Option<(S, Ipv6Addr)>
        ensures came { IfSome result (λ came. HasRead (S.origin came.0) (S.left came.0) [] (ipv6_octets came.1)) }
        ensures waiting { self.new.waiting ≡ self.old.waiting }
        ensures has_headers { self.new.has_headers ≡ self.old.has_headers }
        ensures step { self.new.step ≡ self.old.step }
        ensures arrivals { self.new.arrivals ≡ self.old.arrivals }
    {
        for _ in 0..ATTEMPTS {
            match self.listener.accept() {
                Ok(accepted) => {
                    self.is_failing = false;
                    return Some(accepted);
                }
                Err(error) => match error.kind() {
                    ErrorKind::WouldBlock => {
                        self.clear_ready();
                        return None;
                    }
                    ErrorKind::Interrupted | ErrorKind::ConnectionAborted => {}
                    _ => {
                        self.fail(&error);
                        return None;
                    }
                },
            }
        }
        None
    }

    // The listener cannot accept, and is asked again after a pause.
    fn fail(&mut self, error: &io::Error)
        ensures waiting { self.new.waiting ≡ self.old.waiting }
        ensures failing { self.new.is_failing ≡ true }
        ensures has_headers { self.new.has_headers ≡ self.old.has_headers }
        ensures step { self.new.step ≡ self.old.step }
        ensures arrivals { self.new.arrivals ≡ self.old.arrivals }
    {
        if self.note_failure() {
            self.listener.cannot_accept(error);
        }
        self.pause();
    }

    // Keeps a connection until its header has come.
    fn await_header(&mut self, arrival: Arrival<S>)
        requires { vec_len self.old.waiting < WAITING_LIMIT }
        ensures has_headers { self.new.has_headers ≡ self.old.has_headers }
        ensures step { self.new.step ≡ self.old.step }
        ensures arrivals { self.new.arrivals ≡ self.old.arrivals }
    {
        let slot = arrival.slot;
        if self.watch_waiting(arrival).is_err() {
            self.hub.free_slot(slot);
        }
    }

    #[tactic(auto, using(crate::proofs::Reading::has_read_still))]
    fn watch_waiting(&mut self, arrival: Arrival<S>) -> io::Result<()>
        requires { vec_len self.old.waiting < WAITING_LIMIT }
        ensures has_headers { self.new.has_headers ≡ self.old.has_headers }
        ensures step { self.new.step ≡ self.old.step }
        ensures arrivals { self.new.arrivals ≡ self.old.arrivals }
    {
        let Arrival {
            mut socket,
            slot,
            address,
        } = arrival;
        self.listener.watch(&mut socket, self.step.thread, slot)?;
        let waiting = Waiting::new(socket, slot, address, self.now());
        self.waiting.push(waiting)?;
        Ok(())
    }

    // The first connection whose header is whole. Those without one are closed.
    fn next_waiting(&mut self, connection: u64) -> Option<SocketLink<S>>
        ensures comes { ForSome result (λ link. ComesIn self.old.has_headers (S.origin link.wire.line.socket)
            (S.left link.wire.line.socket) (ipv6_octets link.address)) }
        ensures pace { ForSome result (λ link. IsNew self.old.step.pace (meter.state_of link.wire.meter)) }
        ensures watched { ForSome result (λ link. IsWatched self.old.step.is_shared self.old.step.thread connection
            (S.watched link.wire.line.socket)) }
        ensures has_headers { self.new.has_headers ≡ self.old.has_headers }
        ensures step { self.new.step ≡ self.old.step }
        ensures arrivals { self.new.arrivals ≡ self.old.arrivals }
    {
        if !self.has_headers {
            return None;
        }
        let mut place = 0usize;
        for _ in 0..WAITING_LIMIT {
            match self.read_waiting(place)? {
                Header::Needs(_) => place = place.saturating_add(1),
                Header::Refused => self.refuse(place),
                Header::Whole(client) => {
                    if let Some(link) = self.admit_waiting(place, connection, client) {
                        return Some(link);
                    }
                }
            }
        }
        None
    }

    // What has come of the header of who waits at this place. None: nobody does.
    fn read_waiting(&mut self, place: usize) -> Option<Header>
        ensures answer { ForSome result
            (λ answer. HoldsAnswer (λ w. w.reader) answer (slice_get self.new.waiting.items place)) }
        ensures has_headers { self.new.has_headers ≡ self.old.has_headers }
        ensures step { self.new.step ≡ self.old.step }
        ensures arrivals { self.new.arrivals ≡ self.old.arrivals }
    {
        let now = self.now();
        match self.waiting.get_mut(place) {
            Some(waiting) => Some(waiting.read_on(&self.hub, now)),
            None => None,
        }
    }

    // Makes the link of who waits at this place, whose header is whole.
    fn admit_waiting(
        &mut self,
        place: usize,
        connection: u64,
        client: Option<Ipv6Addr>,
    ) -> Option<SocketLink<S>>
        requires { ForSome (slice_get self.old.waiting.items place)
            (λ waiting. IsHeader waiting.reader (option_map ipv6_octets client)) }
        ensures same { ForSome result
            (λ link. IsOf S.left (λ w. w.socket) link.wire.line.socket (slice_get self.old.waiting.items place)) }
        ensures address { ForSome result (λ link. ForSome (slice_get self.old.waiting.items place)
            (λ waiting. link.address ≡ unwrap_or client waiting.address)) }
        ensures taken { TakesOut place self.old.waiting.items self.new.waiting.items (slice_get self.old.waiting.items place) }
        ensures comes { ForSome result (λ link. ComesIn true (S.origin link.wire.line.socket)
            (S.left link.wire.line.socket) (ipv6_octets link.address)) }
        ensures pace { ForSome result (λ link. IsNew self.old.step.pace (meter.state_of link.wire.meter)) }
        ensures watched { ForSome result (λ link. IsWatched self.old.step.is_shared self.old.step.thread connection
            (S.watched link.wire.line.socket)) }
        ensures has_headers { self.new.has_headers ≡ self.old.has_headers }
        ensures step { self.new.step ≡ self.old.step }
        ensures arrivals { self.new.arrivals ≡ self.old.arrivals }
    {
        let Waiting {
            socket,
            slot,
            address,
            ..
        } = self.take_waiting(place)?;
        self.admit(socket, slot, connection, client.unwrap_or(address), client)
    }

    // Closes who waits at this place, and counts it.
    fn refuse(&mut self, place: usize)
        ensures taken { TakesOut place self.old.waiting.items self.new.waiting.items (slice_get self.old.waiting.items place) }
        ensures refused { self.new.refused ≡ refused_after (slice_get self.old.waiting.items place) self.old.refused }
        ensures has_headers { self.new.has_headers ≡ self.old.has_headers }
        ensures step { self.new.step ≡ self.old.step }
        ensures arrivals { self.new.arrivals ≡ self.old.arrivals }
    {
        if let Some(waiting) = self.take_waiting(place) {
            self.hub.free_slot(waiting.slot);
            self.refused = self.refused.saturating_add(1);
            self.listener.refuse(self.refused);
        }
    }

    // Takes out who waits at this place.
    fn take_waiting(&mut self, place: usize) -> Option<Waiting<S>>
        ensures taken { TakesOut place self.old.waiting.items self.new.waiting.items result }
        ensures refused { self.new.refused ≡ self.old.refused }
        ensures has_headers { self.new.has_headers ≡ self.old.has_headers }
        ensures step { self.new.step ≡ self.old.step }
        ensures arrivals { self.new.arrivals ≡ self.old.arrivals }
    {
        if self.waiting.len() <= place {
            return None;
        }
        Some(self.waiting.remove(place))
    }

    // Makes the link of a client that came by itself, where connections begin without headers.
    fn admit_client(&mut self, arrival: Arrival<S>, connection: u64) -> Option<SocketLink<S>>
        ensures comes { ForSome result (λ link. ComesIn false (S.origin link.wire.line.socket)
            (S.left link.wire.line.socket) (ipv6_octets link.address)) }
        ensures pace { ForSome result (λ link. IsNew self.old.step.pace (meter.state_of link.wire.meter)) }
        ensures watched { ForSome result (λ link. IsWatched self.old.step.is_shared self.old.step.thread connection
            (S.watched link.wire.line.socket)) }
        ensures has_headers { self.new.has_headers ≡ self.old.has_headers }
        ensures step { self.new.step ≡ self.old.step }
        ensures arrivals { self.new.arrivals ≡ self.old.arrivals }
    {
        let Arrival {
            socket,
            slot,
            address,
        } = arrival;
        self.admit(socket, slot, connection, address, Some(address))
    }

    // Makes the link of this number on the thread of its worker, with this address, for a client that is there, or for a
    // relay. None: something is missing for it, and it is closed.
    fn admit(
        &mut self,
        socket: S,
        slot: usize,
        connection: u64,
        address: Ipv6Addr,
        client: Option<Ipv6Addr>,
    ) -> Option<SocketLink<S>>
        ensures address { IfSome result (λ link. link.address ≡ address) }
        ensures left { ForSome result (λ link. Keeps (S.left socket) (S.left link.wire.line.socket)) }
        ensures origin { ForSome result (λ link. S.origin link.wire.line.socket ≡ S.origin socket) }
        ensures pace { ForSome result (λ link. IsNew self.old.step.pace (meter.state_of link.wire.meter)) }
        ensures watched { ForSome result (λ link. IsWatched self.old.step.is_shared self.old.step.thread connection
            (S.watched link.wire.line.socket)) }
        ensures waiting { self.new.waiting ≡ self.old.waiting }
        ensures has_headers { self.new.has_headers ≡ self.old.has_headers }
        ensures step { self.new.step ≡ self.old.step }
        ensures arrivals { self.new.arrivals ≡ self.old.arrivals }
    {
        match self.link(socket, slot, connection, address, client) {
            Ok(link) => Some(link),
            Err(_) => {
                self.hub.free_slot(slot);
                None
            }
        }
    }

    fn link(
        &mut self,
        mut socket: S,
        slot: usize,
        connection: u64,
        address: Ipv6Addr,
        client: Option<Ipv6Addr>,
    ) -> io::Result<SocketLink<S>>
        ensures address { IfOk result (λ link. link.address ≡ address) }
        ensures left { ForOk result (λ link. Keeps (S.left socket) (S.left link.wire.line.socket)) }
        ensures origin { ForOk result (λ link. S.origin link.wire.line.socket ≡ S.origin socket) }
        ensures pace { ForOk result (λ link. IsNew self.old.step.pace (meter.state_of link.wire.meter)) }
        ensures watched { ForOk result (λ link. IsWatched self.old.step.is_shared self.old.step.thread connection
            (S.watched link.wire.line.socket)) }
        ensures waiting { self.new.waiting ≡ self.old.waiting }
        ensures has_headers { self.new.has_headers ≡ self.old.has_headers }
        ensures step { self.new.step ≡ self.old.step }
        ensures arrivals { self.new.arrivals ≡ self.old.arrivals }
    {
        let thread = self.thread_of(connection);
        let Some(board) = self.boards.get(thread) else {
            return Err(io::Error::from(ErrorKind::NotFound));
        };
        let seat = Seat {
            hub: self.hub.clone()?,
            board: board.clone()?,
            slot,
        };
        let kept = Kept::new(self.alloc)?;
        let reservation = Reservation::new(self.hub.long_frames.clone()?);
        let opened = self.now();
        // it may be readable by now, which watching reports again
        self.hub.set(slot, READABLE);
        self.listener.watch(&mut socket, thread, slot)?;
        self.listener
            .begin(&mut socket, connection, opened, client)?;
        seat.take();
        let meter = Meter::new(self.step.pace, opened);
        let delivery = self.step.delivery;
        Ok(SocketLink::new(
            socket,
            seat,
            address,
            meter,
            reservation,
            kept,
            delivery,
            opened,
        ))
    }

    // The thread of the link of this number.
    fn thread_of(&self, connection: u64) -> usize
        ensures { IsWatched self.now.step.is_shared self.now.step.thread connection (Some result) }
    {
        if self.step.is_shared {
            self.hub.shares().thread_of(connection)
        } else {
            self.step.thread
        }
    }
}
