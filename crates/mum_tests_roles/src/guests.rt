//! Two clients, each of which sends what it has to say when a run has come so far, and the door that gives them.

ghost use Rattle.std.specs.Prelude.{◌≡◌, ◌≤◌, None, length, replicate};

use mum_io::{Accept, Door, DoorOpen, Link, PollRead, PollWrite, Tally};
use std::alloc::Global;
use std::process::Abort;
use std::sync::Arc;
use std::sync::atomic::{AtomicU64, Ordering};

// What happens in a run: each is noted as a digit after those of before. A worker came to its gate.
pub(crate) const GATE: u64 = 1;

// The hearer was sent whether it is deaf.
const NOTICE: u64 = 2;

// The hearer was sent a voice packet.
const VOICE: u64 = 3;

// When the clients end: at each of its two packets the worker of the speaker was held until the hearer was sent what it
// had changed of itself. So the first found it deaf, and the second did not.
pub(crate) const WHOLE: u64 = 12_123;

// What a client sends, and what has happened by then. It ends where it sends nothing.
type Line = (u64, &'static [u8]);

const SPEAKER: [Line; 4] = [
    (0, b"\x00\x02\x00\x00\x00\x05\x0a\x03ann"),
    (0, b"\x00\x01\x00\x00\x00\x06\x80\x01\x03\xaa\xbb\xcc"),
    (0, b"\x00\x01\x00\x00\x00\x06\x80\x02\x03\xaa\xbb\xcc"),
    (WHOLE, b""),
];

// It deafens itself while the speaker's worker is at its gate for the first time, and hears again at the second.
const HEARER: [Line; 4] = [
    (0, b"\x00\x02\x00\x00\x00\x05\x0a\x03bob"),
    (1, b"\x00\x09\x00\x00\x00\x02\x50\x01"),
    (121, b"\x00\x09\x00\x00\x00\x02\x50\x00"),
    (WHOLE, b""),
];

// Notes what happens. All that has happened then.
pub(crate) fn note(events: &AtomicU64, event: u64) -> u64 {
    let before = events.load(Ordering::SeqCst);
    let now = before.wrapping_mul(10).wrapping_add(event);
    events.store(now, Ordering::SeqCst);
    now
}

// A client that takes all that it is sent.
#[derive(Drop)]
pub(crate) struct Guest {
    is_hearer: bool,
    sent: usize,
    events: Arc<AtomicU64>,
    tally: Tally,
    is_shut: bool,
}

// Moves the bytes to the front of the slice, as far as it has room. How many.
fn give(bytes: &[u8], buf: &mut [u8]) -> usize
    ensures { result ≤ length buf.old }
{
    let count = buf.len().min(bytes.len());
    buf[..count].copy_from_slice(&bytes[..count]);
    count
}

// Notes a voice packet, and a user with a last field that says whether it is deaf.
fn hear(events: &AtomicU64, piece: &[u8]) {
    match *piece {
        [0, 1, ..] => note(events, VOICE),
        [0, 9, .., 0x50, _] => note(events, NOTICE),
        _ => 0,
    };
}

impl Link for Guest {
    ghost facts = { λ g. record { counts = g.tally; left = None; written = None; address = replicate 16 0; is_shut = g.is_shut } };

    fn poll_read(&mut self, buf: &mut [u8]) -> PollRead {
        let happened = self.events.load(Ordering::SeqCst);
        let lines = if self.is_hearer { HEARER } else { SPEAKER };
        let (after, bytes) = lines[self.sent % 4];
        if happened < after {
            self.tally.count_stall();
            return PollRead::NotYet;
        }
        self.sent = self.sent.wrapping_add(1);
        let count = give(bytes, buf);
        if count == 0 {
            self.tally.count_end();
            return PollRead::End;
        }
        PollRead::Got(count)
    }

    fn poll_write(&mut self, piece: &[u8]) -> PollWrite {
        if self.is_hearer {
            hear(&self.events, piece);
        }
        PollWrite::Took(piece.len())
    }

    fn shut(&mut self) {
        self.is_shut = true;
    }

    fn address(&self) -> [u8; 16] {
        [0; 16]
    }
}

// A door that gives the speaker and the hearer, and then ends.
#[derive(Drop)]
pub(crate) struct Entry {
    // the last comes first
    guests: Vec<Guest>,
    given: u64,
    tally: Tally,
}

impl Entry {
    pub(crate) fn new(rt: &impl Abort, alloc: Global, events: &Arc<AtomicU64>) -> Entry {
        let mut guests = Vec::new(alloc);
        for is_hearer in [true, false] {
            let guest = Guest {
                is_hearer,
                sent: 0,
                events: events.clone().expect(rt, "memory"),
                tally: Tally::new(),
                is_shut: false,
            };
            guests.push(guest).expect(rt, "memory");
        }
        Entry {
            guests,
            given: 0,
            tally: Tally::new(),
        }
    }
}

impl Door for Entry {
    type Conn = Guest;

    ghost facts = { λ e. record { counts = e.tally; given = e.given; opened_at = None } };

    fn open(&mut self, _address: &str) -> DoorOpen {
        DoorOpen::Opened
    }

    fn poll_accept(&mut self) -> Accept<Guest> {
        match self.guests.pop() {
            Some(guest) => {
                self.given = self.given.saturating_add(1);
                Accept::Conn(guest)
            }
            None => {
                self.tally.count_end();
                Accept::End
            }
        }
    }
}
