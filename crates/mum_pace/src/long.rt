//! Long frames. A client may send one before it has logged in, and the server keeps it until it is whole; so all links
//! share an allowance of bytes for them. Ordinary clients send none.

ghost use Rattle.std.specs.Prelude.{◌≡◌, ◌+◌, ◌-◌, ◌≤◌, ◌<◌, [], IfOk, IsTrue, if◌then◌else◌};
ghost use Rattle.std.specs.Arc.{arc_value};
ghost use Rattle.mum_pace.specs.Reserved.{bytes_kept};
ghost use Rattle.mum_pace.specs.Reserved as spec;

use atomic_table::{Play, Seat, Table, TableRule};
use std::alloc::{AllocError, Global};
use std::sync::Arc;

/// A frame is long whose payload has more bytes than this: 128 KiB.
pub const SHORT_LIMIT: u64 = 0x2_0000;

/// How many bytes the payloads of long frames may have that are under way over all links: 64 MiB.
pub const LONG_FRAMES_LIMIT: u64 = 0x400_0000;

/// What is reserved is the sum of what each link holds, and no more than the whole allowance. Each step of a link keeps this.
pub struct HeldTogether;

impl TableRule<(), u64, ()> for HeldTogether {
    ghost use Rattle.mum_pace.specs.Allowance.{IsHeldTogether};

    ghost holds = { λ _ state. IsHeldTogether state };

    ghost first = { λ _. 0 };
}

// A link comes, and holds nothing.
struct Coming;

impl Play<(), u64> for Coming {
    ghost use Rattle.mum_pace.specs.Allowance.{Comes};

    ghost then = { Comes };
}

// A link reserves, if no other has come before it.
struct Exchanging;

impl Play<(), u64> for Exchanging {
    ghost use Rattle.mum_pace.specs.Allowance.{Exchanges};

    ghost then = { Exchanges };
}

// A link gives back.
struct Giving;

impl Play<(), u64> for Giving {
    ghost use Rattle.mum_pace.specs.Allowance.{GivesBack};

    ghost then = { GivesBack };
}

/// The allowance that all links share. What they have reserved of it is what they hold together, at most the whole, whatever
/// they do at once.
#[derive(Drop)]
pub struct LongFrames {
    table: Table<(), u64, (), HeldTogether, Global>,
    ghost one_word: { table.shared.table_id.words ≡ 1 },
}

impl LongFrames {
    /// Nothing of it is reserved.
    pub fn new(alloc: Global) -> Result<LongFrames, AllocError> {
        let (table, _seat) = Table::of_words(alloc, &[0], &())?;
        Ok(LongFrames { table })
    }

    // A seat for a link, which holds nothing.
    fn seat(&self) -> Seat<(), u64>
        ensures table { result.table_id ≡ self.now.table.shared.table_id }
        ensures nothing { result.me ≡ (0, []) }
    {
        let (_reserved, seat) = self.table.shared.load_new_seat::<Coming>(0);
        seat
    }

    // Reserves n bytes for the link of this seat, if as many are left. Whether it did.
    fn reserve(&self, seat: &mut Seat<(), u64>, bytes: u64) -> bool
        requires { (seat.old.table_id ≡ self.now.table.shared.table_id) × (seat.old.me.1 ≡ []) }
        ensures table { seat.new.table_id ≡ seat.old.table_id }
        ensures held { seat.new.me ≡ ((if result then seat.old.me.0 + bytes else seat.old.me.0), []) }
    {
        let shared = &self.table.shared;
        let mut reserved = shared.peek(0);
        for _ in 0..u64::MAX {
            let after = reserved.saturating_add(bytes);
            if after > LONG_FRAMES_LIMIT {
                return false;
            }
            let found = shared.compare_exchange::<Exchanging>(seat, 0, reserved, after);
            if found == reserved {
                return true;
            }
            reserved = found;
        }
        false
    }

    // The link of this seat gives back n bytes of those that it holds.
    fn give_back(&self, seat: &mut Seat<(), u64>, bytes: u64)
        requires seat { (seat.old.table_id ≡ self.now.table.shared.table_id) × (seat.old.me.1 ≡ []) }
        requires held { bytes ≤ seat.old.me.0 }
        ensures table { seat.new.table_id ≡ seat.old.table_id }
        ensures held { seat.new.me ≡ (seat.old.me.0 - bytes, []) }
    {
        self.table.shared.fetch_sub::<Giving>(seat, 0, bytes);
    }
}

/// What one link has reserved: the whole length of the long frame under way there, or nothing. A frame reserves all of
/// its length at once and before the link reads on, so each frame that has begun to be read can be read to its end. What
/// is reserved is given back by a drop, too.
pub struct Reservation {
    long_frames: Arc<LongFrames>,
    seat: Seat<(), u64>,
    bytes: u64,
    ghost seated: { seat.table_id ≡ (arc_value long_frames).table.shared.table_id },
    ghost held: { seat.me ≡ (bytes, []) },
}

// What a frame with a payload of this length reserves. One that is above the whole allowance, which no server takes,
// reserves all of it.
fn bytes_for(payload: u64) -> u64
    ensures { result ≡ spec.bytes_for payload }
{
    if payload <= SHORT_LIMIT {
        0
    } else {
        payload.min(LONG_FRAMES_LIMIT)
    }
}

impl Reservation {
    /// Nothing is reserved.
    pub fn new(long_frames: Arc<LongFrames>) -> Reservation
        ensures bytes { result.bytes ≡ 0 }
        ensures shared { result.long_frames ≡ long_frames }
    {
        let seat = long_frames.seat();
        Reservation {
            long_frames,
            seat,
            bytes: 0,
        }
    }

    /// Makes the reservation that of the frame under way, whose payload has this length (0: no frame is). Whether that
    /// frame may be read on; if not, others have to give back first.
    pub fn covers(&mut self, payload: u64) -> bool
        ensures bytes { self.new.bytes ≡ (if result then spec.bytes_for payload else 0) }
        // What is reserved already stays, and a frame that reserves nothing never waits.
        ensures kept { self.old.bytes ≡ spec.bytes_for payload → IsTrue result }
        ensures short { spec.bytes_for payload ≡ 0 → IsTrue result }
        ensures shared { self.new.long_frames ≡ self.old.long_frames }
    {
        self.leave_frames_before(payload);
        let bytes = bytes_for(payload);
        if self.bytes < bytes && self.long_frames.reserve(&mut self.seat, bytes) {
            self.bytes = bytes;
        }
        self.bytes == bytes
    }

    /// Gives back what was reserved for a frame before the one under way, whose payload has this length (0: no frame
    /// is).
    pub fn leave_frames_before(&mut self, payload: u64)
        ensures bytes { self.new.bytes ≡ bytes_kept self.old.bytes payload }
        ensures shared { self.new.long_frames ≡ self.old.long_frames }
    {
        if self.bytes != bytes_for(payload) {
            self.give_back();
        }
    }

    /// Gives back what is reserved.
    pub fn give_back(&mut self)
        ensures bytes { self.new.bytes ≡ 0 }
        ensures shared { self.new.long_frames ≡ self.old.long_frames }
    {
        if self.bytes > 0 {
            self.long_frames.give_back(&mut self.seat, self.bytes);
            self.bytes = 0;
        }
    }
}

impl Drop for Reservation {
    fn drop(self) {
        let Self {
            long_frames,
            mut seat,
            bytes,
        } = self;
        long_frames.give_back(&mut seat, bytes);
    }
}
