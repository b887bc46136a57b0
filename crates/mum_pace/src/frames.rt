//! Where a client is in the frames that it sends.

ghost use Rattle.std.specs.Prelude.{◌≡◌, ◌<◌, ◌≤◌, ◌==◌, ◌||◌, not};
ghost use Rattle.mum_pace.specs.declared.frames.TheConstants.{HEADER_LENGTH};

use crate::long::SHORT_LIMIT;
use crate::pieces::{bytes_within, pieces_in};

// The types of frames that do not count as messages.
pub(crate) const VOICE: u16 = 1;

pub(crate) const PING: u16 = 3;

pub(crate) const HEADER_LENGTH: usize = 6;

// What bytes count for: how many frames begin in them, and for how many messages and frames of voice they count.
#[derive(Clone, Copy)]
pub(crate) struct Cost {
    pub(crate) frames: usize,
    pub(crate) messages: u64,
    pub(crate) voice: u64,
}

// Whether a frame of this type counts as a message.
fn is_message(kind: u16) -> bool
    ensures { result ≡ not ((kind == VOICE) || (kind == PING)) }
{
    !matches!(kind, VOICE | PING)
}

impl Cost {
    ghost use Rattle.std.specs.Prelude.{◌≡◌};
    ghost use Rattle.mum_pace.specs.Places as spec;

    // Nothing.
    fn nothing() -> Cost
        ensures { result ≡ spec.nothing }
    {
        Cost {
            frames: 0,
            messages: 0,
            voice: 0,
        }
    }

    // That of a frame of this type, which begins.
    fn of_header(kind: u16) -> Cost
        ensures { result ≡ spec.cost_of_header kind }
    {
        Cost {
            frames: 1,
            messages: u64::from(is_message(kind)),
            voice: u64::from(kind == VOICE),
        }
    }
}

// The bytes at the front of what was read that are of one payload or of one header: how many they are, and what they
// count for.
#[derive(Clone, Copy)]
pub(crate) struct Front {
    pub(crate) length: usize,
    pub(crate) cost: Cost,
}

// Where a client is in the frames that it sends: how much of the next header has come; and of the frame that began
// last, its type, how long its payload is and how much of that is to come.
#[derive(Clone, Copy)]
pub(crate) struct Frames {
    header: [u8; HEADER_LENGTH],
    gathered: usize,
    kind: u16,
    payload: u32,
    left: u32,
    ghost unfinished: { gathered < HEADER_LENGTH },
    ghost within: { left ≤ payload },
    ghost apart: { 0 < left → gathered ≡ 0 },
}

impl Frames {
    ghost use Rattle.std.specs.Prelude.{◌≡◌, ◌<◌, ◌^◌};
    ghost use Rattle.mum_pace.specs.Fronts.{IsFront};
    ghost use Rattle.mum_pace.specs.Places.{begun, is_in_a_ping, passed, payload_under_way, place_of, start};
    ghost use Rattle.mum_pace.specs.Places as spec;

    // Before the first byte.
    pub(crate) fn new() -> Frames
        ensures { place_of result ≡ start }
    {
        Frames {
            header: [0; HEADER_LENGTH],
            gathered: 0,
            kind: PING,
            payload: 0,
            left: 0,
        }
    }

    // The length of the payload that is under way. 0: none is.
    pub(crate) fn payload(&self) -> u64
        ensures { result ≡ payload_under_way (place_of self.now) }
    {
        if self.left == 0 {
            return 0;
        }
        u64::from(self.payload)
    }

    // Goes past the front of what was read.
    pub(crate) fn pass_front(&mut self, read: &[u8]) -> Front
        ensures { IsFront (place_of self.old) read.now result (place_of self.new) }
    {
        if self.left > 0 {
            self.pass_payload(read)
        } else {
            self.pass_header(read)
        }
    }

    // Goes past as much as is read of the next header.
    fn pass_header(&mut self, read: &[u8]) -> Front
        requires { self.old.left ≡ 0 }
        ensures { IsFront (place_of self.old) read.now result (place_of self.new) }
    {
        let length = read.len().min(HEADER_LENGTH - self.gathered);
        self.header[self.gathered..self.gathered + length].copy_from_slice(&read[..length]);
        if self.gathered + length < HEADER_LENGTH {
            self.gathered += length;
            return Front {
                length,
                cost: Cost::nothing(),
            };
        }
        self.begin_frame();
        Front {
            length,
            cost: Cost::of_header(self.kind),
        }
    }

    // Goes on to the payload of the header that has come.
    fn begin_frame(&mut self)
        ensures { place_of self.new ≡ begun self.old.header }
    {
        let [a, b, c, d, e, f] = self.header;
        self.gathered = 0;
        self.kind = u16::from_be_bytes([a, b]);
        self.payload = u32::from_be_bytes([c, d, e, f]);
        self.left = self.payload;
    }

    // Goes past as much as is read of the payload under way.
    fn pass_payload(&mut self, read: &[u8]) -> Front
        requires { 0 < self.old.left }
        ensures { IsFront (place_of self.old) read.now result (place_of self.new) }
    {
        let length = read.len().min(self.left as usize);
        let messages = self.pieces_to_come(length as u32);
        self.left -= length as u32;
        Front {
            length,
            cost: Cost {
                messages,
                ..Cost::nothing()
            },
        }
    }

    // Whether the frame that began last is a Ping, and a short one: a frame that is too long ends its connection.
    pub(crate) fn are_in_a_ping(&self) -> bool
        ensures { result ≡ is_in_a_ping (place_of self.now) }
    {
        self.kind == PING && u64::from(self.payload) <= SHORT_LIMIT
    }

    // How many bytes of the frame that began last have come, with those of its header.
    fn passed(&self) -> u64
        ensures passed { result ≡ passed (place_of self.now) }
        ensures small { result < 2 ^ 33 }
    {
        u64::from(self.payload - self.left) + HEADER_LENGTH as u64
    }

    // How many pieces begin in the next bytes of the payload under way.
    #[tactic(auto, using(crate::proofs::OnePiece::small_pieces))]
    fn pieces_to_come(&self, bytes: u32) -> u64
        ensures pieces { result ≡ spec.pieces_to_come (place_of self.now) bytes }
        ensures small { result < 2 ^ 34 }
    {
        if !is_message(self.kind) {
            return 0;
        }
        let passed = self.passed();
        pieces_in(passed + u64::from(bytes)).saturating_sub(pieces_in(passed))
    }

    // The least length of what takes up this much room: of the payload under way, as far as its pieces find room, and of
    // frames after it.
    #[tactic(auto, unfolding(crate::specs::Places::length_within))]
    pub(crate) fn length_within(&self, messages: u64, voice: u64) -> usize
        requires messages_fit { messages < 2 ^ 32 }
        requires voice_fits { voice < 2 ^ 32 }
        ensures { result ≡ spec.length_within (place_of self.now) messages voice }
    {
        let pieces = self.pieces_to_come(self.left);
        let length = if pieces > messages {
            let passed = self.passed();
            bytes_within(pieces_in(passed) + messages).saturating_sub(passed)
        } else {
            u64::from(self.left) + (messages - pieces).min(voice) * HEADER_LENGTH as u64
        };
        length as usize
    }
}
