//! Connections whose headers have not come whole.

ghost use Rattle.std.specs.Prelude.{◌≡◌, ◌+◌, ◌≤◌, ℕ, List, Option, []};
ghost use Rattle.std.specs.Net.Addr.{ipv6_octets};
ghost use Rattle.mum_address.specs.Header.{IsHeader, plain};
ghost use Rattle.mum_address.specs.Header.Reading.{needs, whole};
ghost use Rattle.mum_link.specs.Reads.{ReadsOn};
ghost use Rattle.mum_link.specs.Origins.{HasRead};

use crate::hub::{Hub, READABLE};
use crate::socket::Socket;
use mum_address::{HEADER_LIMIT, Header, HeaderReader};
use std::io::ErrorKind;
use std::net::Ipv6Addr;

// How long a connection may wait for its header, in milliseconds.
pub(crate) const PATIENCE: u64 = 10_000;

// A connection that came at this time in milliseconds, with its slot, the address of its peer, and what has come of its
// header, which is all that was read of it.
#[derive(Drop)]
pub(crate) struct Waiting<S: Socket> {
    pub(crate) socket: S,
    pub(crate) slot: usize,
    pub(crate) address: Ipv6Addr,
    pub(crate) reader: HeaderReader,
    pub(crate) since: u64,
    ghost came: { HasRead (S.origin socket) (S.left socket) reader (ipv6_octets address) },
}

// How a read of a header ended.
enum Piece {
    Came,
    NotYet,
    Failed,
}

impl<S: Socket> Waiting<S> {
    // Nothing of its header has come yet.
    pub(crate) fn new(socket: S, slot: usize, address: Ipv6Addr, milliseconds: u64) -> Waiting<S>
        requires { HasRead (S.origin socket) (S.left socket) [] (ipv6_octets address) }
    {
        Waiting {
            socket,
            slot,
            address,
            reader: HeaderReader::new(),
            since: milliseconds,
        }
    }

    // Reads on, no further than the header. What it is by now; one that has not come whole in time is refused.
    pub(crate) fn read_on(&mut self, hub: &Hub, milliseconds: u64) -> Header
        ensures header { (told : Option (List ℕ)) → plain result ≡ whole told → IsHeader self.new.reader told }
        ensures reads { ReadsOn self.old.reader self.new.reader (S.left self.old.socket) (S.left self.new.socket) }
        ensures in_time { (count : ℕ) → plain result ≡ needs count → milliseconds ≤ self.old.since + PATIENCE }
        ensures since { self.new.since ≡ self.old.since }
    {
        if !self.read_pieces(hub) {
            return Header::Refused;
        }
        let header = self.reader.header();
        let is_late = milliseconds > self.since.saturating_add(PATIENCE);
        if is_late && matches!(header, Header::Needs(_)) {
            return Header::Refused;
        }
        header
    }

    // Reads on until the header is whole, or nothing more has come. Whether no read failed.
    fn read_pieces(&mut self, hub: &Hub) -> bool
        ensures since { self.new.since ≡ self.old.since }
        ensures reads { ReadsOn self.old.reader self.new.reader (S.left self.old.socket) (S.left self.new.socket) }
    {
        for _ in 0..HEADER_LIMIT {
            if self.reader.wants() == 0 || !hub.has(self.slot, READABLE) {
                break;
            }
            match self.read_piece(hub) {
                Piece::Came => {}
                Piece::NotYet => break,
                Piece::Failed => return false,
            }
        }
        true
    }

    #[tactic(auto, using(crate::proofs::Reading::has_read_more))]
    fn read_piece(&mut self, hub: &Hub) -> Piece
        ensures since { self.new.since ≡ self.old.since }
        ensures reads { ReadsOn self.old.reader self.new.reader (S.left self.old.socket) (S.left self.new.socket) }
    {
        let mut buf = [0u8; HEADER_LIMIT];
        let wanted = self.reader.wants();
        match self.socket.read(&mut buf[..wanted]) {
            Ok(0) => Piece::Failed,
            Ok(count) => {
                self.reader.take(&buf[..count]);
                Piece::Came
            }
            Err(error) => match error.kind() {
                ErrorKind::WouldBlock => {
                    hub.clear(self.slot, READABLE);
                    Piece::NotYet
                }
                ErrorKind::Interrupted => Piece::NotYet,
                _ => Piece::Failed,
            },
        }
    }
}
