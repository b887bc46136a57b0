//! A socket and a listener in memory, of which all is known.

ghost use Rattle.std.specs.Prelude.{◌≡◌, IfOk, Some};
ghost use Rattle.std.specs.Net.Addr.{ipv6_octets};

use mum_address::Address;
use mum_base::Octets;
use mum_io::{MemSink, MemSource, ReadEnd, Sink, Source, WriteEnd};
use mum_link::{Listener, Socket};
use std::alloc::Global;
use std::collections::VecDeque;
use std::io;
use std::io::ErrorKind;
use std::net::Ipv6Addr;
use std::sync::{Arc, OnceLock};

// How many bytes a socket gives in one read, and takes in one write.
const AT_A_TIME: usize = 7;

/// Where a socket puts what was written to it, once its link is shut.
pub type HandBack = Arc<OnceLock<Octets>>;

/// A connection that is to come: its peer, all bytes that come over it, and by their numbers from 1 the reads that find
/// nothing yet and the writes that find no room.
#[derive(Drop)]
pub struct Coming {
    pub address: Ipv6Addr,
    pub bytes: Octets,
    pub not_yet: Vec<u64>,
    pub no_room: Vec<u64>,
    pub hand_back: HandBack,
}

/// A socket over which bytes come and go in short pieces, and none of whose calls fails.
#[derive(Drop)]
pub struct MemSocket {
    alloc: Global,
    address: Ipv6Addr,
    all: Octets,
    source: MemSource,
    sink: MemSink,
    watched: Option<usize>,
    refusals: u64,
    hand_back: HandBack,
}

impl MemSocket {
    // One over which nothing came yet.
    fn new(alloc: Global, coming: Coming) -> io::Result<MemSocket>
        ensures address { IfOk result (λ socket. socket.address ≡ coming.address) }
        ensures bytes { IfOk result (λ socket. socket.source.left ≡ socket.all) }
    {
        let Coming {
            address,
            bytes,
            not_yet,
            no_room,
            hand_back,
        } = coming;
        let Ok(all) = Octets::of(alloc, bytes.as_slice()) else {
            return Err(io::Error::from(ErrorKind::OutOfMemory));
        };
        Ok(MemSocket {
            alloc,
            address,
            all,
            source: MemSource::new(bytes, not_yet),
            sink: MemSink::new(alloc, no_room),
            watched: None,
            refusals: 0,
            hand_back,
        })
    }
}

impl Socket for MemSocket {
    ghost left = { λ s. Some s.source.left };

    ghost written = { λ s. Some s.sink.written };

    ghost origin = { λ s. record { address = ipv6_octets s.address; bytes = Some s.all } };

    ghost watched = { λ s. s.watched };

    ghost refusals = { λ s. s.refusals };

    ghost failures = { λ _. 0 };

    fn read(&mut self, buf: &mut [u8]) -> io::Result<usize> {
        if buf.is_empty() {
            return Ok(0);
        }
        let most = AT_A_TIME.min(buf.len());
        match self.source.read(&mut buf[..most]) {
            ReadEnd::Got(count) => Ok(count),
            ReadEnd::End => Ok(0),
            ReadEnd::Failed => Err(io::Error::from(ErrorKind::WouldBlock)),
        }
    }

    fn write(&mut self, piece: &[u8]) -> io::Result<usize> {
        let most = AT_A_TIME.min(piece.len());
        if 0 < most {
            if let WriteEnd::Took(count) = self.sink.write(&piece[..most]) {
                return Ok(count);
            }
        }
        self.refusals = self.refusals.saturating_add(1);
        Err(io::Error::from(ErrorKind::WouldBlock))
    }

    fn await_room(&mut self) -> bool {
        true
    }

    fn leave(&mut self, _milliseconds: u64, _received: u64, _sent: u64) {
        if let Ok(written) = Octets::of(self.alloc, self.sink.bytes()) {
            let _second = self.hand_back.try_set(written);
        }
    }
}

/// A listener at which these connections come, one after the other.
#[derive(Drop)]
pub struct MemListener {
    pub alloc: Global,
    pub coming: VecDeque<Coming>,
}

impl Listener for MemListener {
    type Socket = MemSocket;

    fn listen(&mut self, text: &str, _thread: usize, _slot: usize) -> Option<bool> {
        Some(Address::from_text(text)?.has_headers)
    }

    fn accept(&mut self) -> io::Result<(MemSocket, Ipv6Addr)> {
        let Some(coming) = self.coming.pop_front() else {
            return Err(io::Error::from(ErrorKind::WouldBlock));
        };
        let address = coming.address;
        let socket = MemSocket::new(self.alloc, coming)?;
        Ok((socket, address))
    }

    fn watch(&mut self, socket: &mut MemSocket, thread: usize, _slot: usize) -> io::Result<()> {
        socket.watched = Some(thread);
        Ok(())
    }

    fn begin(
        &mut self,
        _socket: &mut MemSocket,
        _connection: u64,
        _milliseconds: u64,
        _client: Option<Ipv6Addr>,
    ) -> io::Result<()> {
        Ok(())
    }

    fn cannot_accept(&mut self, _error: &io::Error) {}

    fn refuse(&mut self, _refused: u64) {}
}
