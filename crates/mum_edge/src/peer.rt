//! The socket of a link: a stream, the polls of the crew's threads, and the lines on standard error about it.

ghost use Rattle.std.specs.Prelude.{◌≡◌, None, OnOk, Some, not};
ghost use Rattle.std.specs.Net.Addr.{ipv6_octets};
ghost use Rattle.std.specs.Option.{option_map};
ghost use Rattle.mum_link.specs.Faults.{CountsOneIf};

use crate::stream::{Stream, StreamPolls};
use mum_address::is_made;
use mum_link::{Life, Sightings, Socket, is_passing};
use std::io;
use std::io::{Eprint, ErrorKind};
use std::mem::replace;
use std::net::Ipv6Addr;
use std::sync::Arc;

// How many bytes are thrown away of a peer that still sends when its link is shut.
const DRAIN_LIMIT: usize = 65_536;

const DRAIN_PIECE: usize = 4096;

/// A stream, where it comes from, the address that it has here, and the thread and the slot for which it is registered. Which
/// bytes it carries nobody knows.
#[derive(Drop)]
pub struct Peer<X> {
    pub stream: Stream,
    from: Ipv6Addr,
    address: Ipv6Addr,
    refusals: u64,
    failures: u64,
    polls: Arc<StreamPolls>,
    watched: Option<(usize, usize)>,
    pub life: Life<X>,
    pub connection: u64,
    pub opened: u64,
    sightings: Sightings,
}

// A call was refused by an error, which is counted if it is no passing one.
fn after_refusal(failures: u64, is_passing: bool) -> u64
    ensures { CountsOneIf (not is_passing) failures result }
{
    if is_passing {
        failures
    } else {
        failures.saturating_add(1)
    }
}

impl<X> Peer<X> {
    /// A stream that comes from there, has this address, and is registered nowhere.
    pub fn new(
        stream: Stream,
        from: Ipv6Addr,
        address: Ipv6Addr,
        polls: Arc<StreamPolls>,
        life: Life<X>,
    ) -> Peer<X>
        ensures { result.address ≡ address }
    {
        Peer {
            stream,
            from,
            address,
            refusals: 0,
            failures: 0,
            polls,
            watched: None,
            life,
            connection: 0,
            opened: 0,
            sightings: Sightings::new(),
        }
    }

    /// The address that is reported of a client at this one. In place of one that was made for it that is the true one.
    pub fn reported(&self, client: Ipv6Addr) -> Ipv6Addr {
        if is_made(client) { self.from } else { client }
    }

    /// Registers it on this thread for this slot, and no longer where it was.
    pub fn watch(&mut self, thread: usize, slot: usize) -> io::Result<()>
        ensures watched { OnOk result (option_map (λ w. w.0) self.new.watched ≡ Some thread) }
        ensures address { self.new.address ≡ self.old.address }
    {
        self.unwatch();
        let Some(registry) = self.polls.registry(thread) else {
            return Err(io::Error::from(ErrorKind::NotFound));
        };
        self.stream.register(registry, slot)?;
        self.watched = Some((thread, slot));
        Ok(())
    }

    fn unwatch(&mut self)
        ensures address { self.new.address ≡ self.old.address }
        ensures refusals { self.new.refusals ≡ self.old.refusals }
        ensures failures { self.new.failures ≡ self.old.failures }
    {
        if let Some((thread, _)) = self.watched {
            if let Some(registry) = self.polls.registry(thread) {
                let _gone_already = self.stream.deregister(registry);
            }
        }
        self.watched = None;
    }

    // Has room for bytes reported too. Whether it will be.
    fn watch_for_room(&mut self) -> bool
        ensures address { self.new.address ≡ self.old.address }
        ensures watched { self.new.watched ≡ self.old.watched }
        ensures refusals { self.new.refusals ≡ self.old.refusals }
        ensures failures { self.new.failures ≡ self.old.failures }
    {
        let Some((thread, slot)) = self.watched else {
            return false;
        };
        match self.polls.registry(thread) {
            Some(registry) => self.stream.register_both(registry, slot).is_ok(),
            None => false,
        }
    }

    // Throws away what has come. Whether more may come.
    fn drain(&self) -> bool {
        let mut buf = [0u8; DRAIN_PIECE];
        for _ in 0..DRAIN_LIMIT / DRAIN_PIECE {
            match self.stream.read(&mut buf) {
                Ok(0) => return false,
                Ok(_) => {}
                Err(error) => return error.kind() == ErrorKind::WouldBlock,
            }
        }
        true
    }
}

impl<X: Eprint + Drop> Socket for Peer<X> {
    ghost left = { λ _. None };

    ghost written = { λ _. None };

    ghost origin = { λ p. record { address = ipv6_octets p.address; bytes = None } };

    ghost watched = { λ p. option_map (λ w. w.0) p.watched };

    ghost refusals = { λ p. p.refusals };

    ghost failures = { λ p. p.failures };

    #[tactic(auto, using(crate::proofs::Counting::counted))]
    fn read(&mut self, buf: &mut [u8]) -> io::Result<usize> {
        match self.stream.read(buf) {
            Ok(count) => {
                // before the connection begins it is a relay that sends
                if self.connection > 0 {
                    let sent = &buf[..count.min(buf.len())];
                    self.sightings.sent(sent, &self.life, self.connection);
                }
                Ok(count)
            }
            Err(error) => {
                self.failures = after_refusal(self.failures, is_passing(error.kind()));
                Err(error)
            }
        }
    }

    #[tactic(auto, using(crate::proofs::Counting::counted))]
    fn write(&mut self, piece: &[u8]) -> io::Result<usize> {
        match self.stream.write(piece) {
            Ok(0) => {
                self.refusals = self.refusals.saturating_add(1);
                self.failures = self.failures.saturating_add(1);
                Ok(0)
            }
            Ok(count) => {
                let got = &piece[..count.min(piece.len())];
                self.sightings.got(got, &self.life, self.connection);
                Ok(count)
            }
            Err(error) => {
                self.refusals = self.refusals.saturating_add(1);
                self.failures = after_refusal(self.failures, is_passing(error.kind()));
                Err(error)
            }
        }
    }

    fn await_room(&mut self) -> bool {
        let is_awaited = self.watch_for_room();
        if !is_awaited {
            self.failures = self.failures.saturating_add(1);
        }
        is_awaited
    }

    fn leave(&mut self, milliseconds: u64, received: u64, sent: u64) {
        let _gone_already = self.stream.end_writing();
        let may_send_on = self.drain();
        self.unwatch();
        let seconds = milliseconds.saturating_sub(self.opened) / 1000;
        self.life.went(self.connection, seconds, received, sent);
        if may_send_on {
            let stream = replace(&mut self.stream, Stream::Left);
            self.polls.keep(stream);
        }
    }
}
