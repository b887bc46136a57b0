//! A door over a listener.

ghost use Rattle.std.specs.Prelude.{◌≡◌, None, string_bytes};
ghost use Rattle.std.specs.Net.Addr.{ipv6_octets};
ghost use Rattle.std.specs.Option.{option_map};
ghost use Rattle.mum_io.specs.Counts.{no_counts};
ghost use Rattle.mum_io.specs.Door.{AcceptCounts, OpenCounts, OpensAt, given_after};
ghost use Rattle.mum_link.specs.Doors.{BeginsAt, BeginsWhereOpen, FailsOnlyClosed, ForConn, IsOpenAt, ListensAt};
ghost use Rattle.mum_link.specs.Faults.{EndsWhereOver};
ghost use Rattle.mum_link.specs.Origins.{ComesIn};
ghost use Rattle.mum_link.specs.Paces.{IsNew};
ghost use Rattle.mum_link.specs.Sharing.{IsWatched};
ghost use Rattle.mum_pace.specs.Meters.{state_of};

use crate::entrance::Entrance;
use crate::hub::Ending;
use crate::link::SocketLink;
use crate::listener::Listener;
use crate::socket::Socket;
use mum_io::{Accept, Door, DoorOpen, Tally};

/// Where connections come from. It ends where the server stops, or with the owner, and fails only where it was not opened.
#[derive(Drop)]
pub struct SocketDoor<L, S: Socket> {
    tally: Tally,
    given: u64,
    opened_at: Option<String>,
    // why the last accept found the end, if it did
    ending: Option<Ending>,
    entrance: Entrance<L, S>,
}

impl<L, S: Socket> SocketDoor<L, S> {
    /// A door that is closed.
    pub fn new(entrance: Entrance<L, S>) -> SocketDoor<L, S>
        ensures closed { result.opened_at ≡ None }
        ensures given { result.given ≡ 0 }
        ensures counts { result.tally ≡ no_counts }
        ensures entrance { result.entrance ≡ entrance }
    {
        SocketDoor {
            tally: Tally::new(),
            given: 0,
            opened_at: None,
            ending: None,
            entrance,
        }
    }

    pub fn listener(&self) -> &L {
        self.entrance.listener()
    }
}

impl<S: Socket, L: Listener<Socket = S>> SocketDoor<L, S> {
    // Listens at the address of this text, and keeps it. Whether it does.
    fn listen_at(&mut self, address: &str) -> bool
        ensures opens { ListensAt result (option_map string_bytes self.old.opened_at)
            (option_map string_bytes self.new.opened_at) address.now }
        ensures headers { BeginsAt result self.old.entrance.has_headers self.new.entrance.has_headers address.now }
        ensures step { self.new.entrance.step ≡ self.old.entrance.step }
        ensures counts { self.new.tally ≡ self.old.tally }
        ensures given { self.new.given ≡ self.old.given }
    {
        let Ok(text) = self.entrance.text_of(address) else {
            return false;
        };
        if !self.entrance.open(address) {
            return false;
        }
        drop(self.opened_at.replace(text));
        true
    }
}

impl<S: Socket + Send, L: Listener<Socket = S>> Door for SocketDoor<L, S> {
    type Conn = SocketLink<S>;

    ghost facts = { λ d. record { counts = d.tally; given = d.given; opened_at = option_map string_bytes d.opened_at } };

    fn open(&mut self, address: &str) -> DoorOpen
        ensures counts { OpenCounts result self.old.tally self.new.tally }
        ensures address { OpensAt result (option_map string_bytes self.old.opened_at)
            (option_map string_bytes self.new.opened_at) address.now }
        ensures given { self.new.given ≡ self.old.given }

        // It is open at this address, or as it was.
        ensures is_open { IsOpenAt result (option_map string_bytes self.old.opened_at)
            (option_map string_bytes self.new.opened_at) address.now }
        // Connections begin with headers exactly where the address says that.
        ensures headers { BeginsWhereOpen result self.old.entrance.has_headers self.new.entrance.has_headers address.now }
        ensures step { self.new.entrance.step ≡ self.old.entrance.step }
    {
        if self.listen_at(address) {
            return DoorOpen::Opened;
        }
        self.tally.count_fault();
        DoorOpen::Failed
    }

    fn poll_accept(&mut self) -> Accept<SocketLink<S>>
        ensures counts { AcceptCounts result self.old.tally self.new.tally }
        ensures given { self.new.given ≡ given_after result self.old.given }
        ensures address { option_map string_bytes self.new.opened_at ≡ option_map string_bytes self.old.opened_at }

        // It fails only where it is closed. A link begins with a header where the address of the door says that, has the
        // address that the header names, and the pace of the door.
        ensures headers { self.new.entrance.has_headers ≡ self.old.entrance.has_headers }
        ensures step { self.new.entrance.step ≡ self.old.entrance.step }
        ensures fails { FailsOnlyClosed result self.old.opened_at }
        // It ends only where the hub says that the server stops, or that the owner has ended, if the door ends with that.
        ensures ends { EndsWhereOver result self.old.entrance.step.ends_with_owner self.new.ending }
        ensures comes { ForConn result (λ link. ComesIn self.old.entrance.has_headers (S.origin link.wire.line.socket)
            (S.left link.wire.line.socket) (ipv6_octets link.address)) }
        ensures pace { ForConn result (λ link. IsNew self.old.entrance.step.pace (state_of link.wire.meter)) }
        // The thread of its worker watches it, if the links of the door are shared out.
        ensures watched { ForConn result
            (λ link. IsWatched self.old.entrance.step.is_shared self.old.entrance.step.thread
            self.new.given (S.watched link.wire.line.socket)) }
    {
        if self.opened_at.is_none() {
            self.tally.count_fault();
            return Accept::Failed;
        }
        self.ending = self.entrance.ending();
        if self.ending.is_some() {
            self.tally.count_end();
            return Accept::End;
        }
        let given = self.given.saturating_add(1);
        match self.entrance.next(given) {
            Some(link) => {
                self.given = given;
                Accept::Conn(link)
            }
            None => {
                self.tally.count_stall();
                Accept::NotYet
            }
        }
    }
}
