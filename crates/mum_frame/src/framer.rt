//! A stream's frames, in whatever pieces the stream comes.

ghost use Rattle.std.specs.Prelude.{◌≡◌, ◌+◌, ◌≤◌, ◌↔◌, [], drop, length, None, IfOk, IsOk, OnOk, OnErr};
ghost use Rattle.std.specs.Vec.{vec_capacity, vec_len};
ghost use Rattle.mum_frame.specs.Frame.{HasNoFrame, TooLong, named_length};
ghost use Rattle.mum_frame.specs.Kept.{BeginAs};
ghost use Rattle.mum_frame.specs.Stream.{FeedKeeps, HasGivenBack, NextGives, NextLeaves};

use crate::frame::{FirstFrame, Frame, HEADER_LENGTH, first_frame};
use mum_base::OutOfMemory;
use std::alloc::{AllocError, Global};
use std::marker::Model;
use thiserror::Error;

/// Why no frame is given.
#[derive(Clone, Copy, Debug, PartialEq, Eq, Error)]
pub enum FrameFault {
    /// The next header names a payload of this many bytes, more than `PAYLOAD_LIMIT`.
    #[error("a frame names a payload of {length} bytes")]
    FrameTooLong { length: u32 },
    /// There is no memory for the payload, or for a smaller buffer for what is after the frame.
    #[error("out of memory")]
    OutOfMemory,
}

impl From<AllocError> for FrameFault {
    ghost use Rattle.std.specs.Prelude.{◌≡◌};
    ghost use Rattle.mum_frame.specs.declared.framer.FrameFault.TheVariants.{OutOfMemory};

    ghost from_gives = { λ _ fault. fault ≡ OutOfMemory };

    fn from(_: AllocError) -> FrameFault {
        FrameFault::OutOfMemory
    }
}

impl FrameFault {
    ghost use Rattle.mum_frame.specs.Fault.{frame_fault_code};

    /// The number of the fault: 10 for a length above the limit, none where memory ran out.
    pub fn code(self) -> Option<u8>
        ensures { result ≡ frame_fault_code self }
    {
        match self {
            FrameFault::FrameTooLong { .. } => Some(10),
            FrameFault::OutOfMemory => None,
        }
    }
}

/// The most bytes of memory that a framer holds while it keeps none of a stream: 128 KiB.
pub const ROOM_LIMIT: usize = 0x2_0000;

/// Above `ROOM_LIMIT`, the memory after a frame that was given is at most this many times what is
/// still kept.
pub const ROOM_FACTOR: usize = 4;

/// How the bytes begin that a framer keeps.
#[derive(Clone, Copy, Debug, PartialEq, Eq)]
pub enum Kept {
    /// With no whole frame and no length above the limit: more of the stream has to come.
    Nothing,
    /// With a whole frame within the limit.
    Whole,
    /// With a header that names a payload above `PAYLOAD_LIMIT`.
    TooLong,
}

/// Takes a stream in pieces of any size, and gives its frames one by one. A contract sees the bytes
/// that are kept, those fed and not yet given, and the room that they are in. They are in one
/// buffer, from `start` on.
#[derive(Drop)]
pub struct Framer {
    alloc: Global,
    buffer: Vec<u8>,
    start: usize,
}

impl Model for Framer {
    ghost use Rattle.std.specs.Prelude.{◌≤◌, drop};
    ghost use Rattle.std.specs.Vec.{vec_capacity, vec_len};
    ghost use Rattle.mum_frame.specs.declared.framer.TheConstants.{ROOM_LIMIT};
    ghost use Rattle.mum_frame.specs.Stream.{FramerState};

    ghost Value = { FramerState };

    ghost view = { λ f. record { kept = drop f.start f.buffer.items; room = vec_capacity f.buffer } };

    ghost invariant = { λ f. (f.start ≤ vec_len f.buffer)
        × (vec_len f.buffer ≤ f.start → vec_capacity f.buffer ≤ ROOM_LIMIT) };
}

impl Framer {
    /// Nothing is kept yet, and no memory is taken.
    pub fn new(alloc: Global) -> Framer
        ensures { result ≡ record { kept = []; room = 0 } }
    {
        Framer {
            alloc,
            buffer: Vec::new(alloc),
            start: 0,
        }
    }

    /// For how many bytes it holds memory: at most 128 KiB while it keeps none.
    pub fn room(&self) -> usize
        ensures room { result ≡ self.now.room }
        ensures limit { self.now.kept ≡ [] → result ≤ ROOM_LIMIT }
    {
        self.buffer.capacity()
    }

    /// Whether `next` has a frame to give. It takes nothing and no memory.
    pub fn kept(&self) -> Kept
        ensures { BeginAs self.now.kept result }
    {
        match first_frame(self.bytes()) {
            FirstFrame::Partial => Kept::Nothing,
            FirstFrame::Whole(_) => Kept::Whole,
            FirstFrame::AboveLimit(_) => Kept::TooLong,
        }
    }

    fn bytes(&self) -> &[u8]
        ensures { result.now ≡ self.now.kept }
    {
        &self.buffer[self.start..]
    }

    /// Appends a piece of the stream to what is kept. Without memory nothing changes.
    pub fn feed(&mut self, piece: &[u8]) -> Result<(), OutOfMemory>
        ensures kept { FeedKeeps self.old.kept piece.now result self.new.kept }
        ensures refused { OnErr result (self.new ≡ self.old) }
    {
        if piece.is_empty() {
            return Ok(());
        }
        // What is kept moves only over as many bytes or more that were given, so over a whole stream
        // no more bytes are moved than given.
        if self.buffer.len() - self.start <= self.start {
            forget_front(&mut self.buffer, self.start);
            self.start = 0;
        }
        self.buffer.reserve(piece.len())?;
        self.buffer.extend_from_slice(piece)
    }

    /// Takes the next whole frame from what is kept. Its payload is copied once. Any other answer
    /// changes nothing: after `FrameTooLong` each later call answers the same, whatever is fed. The
    /// room that a great frame took is given back with it: at most 128 KiB are left, or four times
    /// what is still kept.
    pub fn next(&mut self) -> Result<Option<Frame>, FrameFault>
        ensures answer { NextGives self.old.kept result self.new.kept }
        ensures none { (result ≡ Ok None) ↔ (HasNoFrame self.old.kept × ¬ TooLong self.old.kept) }
        ensures too_long { (result ≡ Err (FrameFault.FrameTooLong (named_length self.old.kept)))
            ↔ TooLong self.old.kept }
        ensures room { NextLeaves self.old result self.new }
    {
        match first_frame(self.bytes()) {
            FirstFrame::Partial => Ok(None),
            FirstFrame::AboveLimit(length) => Err(FrameFault::FrameTooLong { length }),
            FirstFrame::Whole(view) => {
                let frame = view.to_frame(self.alloc)?;
                let length = HEADER_LENGTH + view.payload.len();
                self.drop_front(length)?;
                Ok(Some(frame))
            }
        }
    }

    // Drops the first `count` bytes that are kept. Where the room is too great for the rest, the rest
    // moves to a buffer of its size; without memory for that nothing changes. A buffer has room for
    // at most twice the bytes that it was ever given, and a rest that moves is below a quarter of the
    // room: so more bytes were dropped from this buffer than move, and over a whole stream no more
    // bytes are moved than given.
    fn drop_front(&mut self, count: usize) -> Result<(), OutOfMemory>
        requires { count ≤ length self.old.kept }
        ensures ok { OnOk result ((self.new.kept ≡ drop count self.old.kept)
            × HasGivenBack self.old self.new) }
        ensures err { OnErr result (self.new ≡ self.old) }
    {
        let start = self.start + count;
        let rest = self.buffer.len() - start;
        if self.buffer.capacity() > ROOM_LIMIT.max(rest.saturating_mul(ROOM_FACTOR)) {
            self.buffer = copy_of(self.alloc, &self.buffer[start..])?;
            self.start = 0;
        } else {
            self.start = start;
        }
        Ok(())
    }
}

// A copy of these bytes in a buffer of their size.
fn copy_of(alloc: Global, bytes: &[u8]) -> Result<Vec<u8>, OutOfMemory>
    ensures items { IfOk result (λ copy. copy.items ≡ bytes.now) }
    ensures room { IfOk result (λ copy. vec_capacity copy ≡ length bytes.now) }
    ensures none { bytes.now ≡ [] → IsOk result }
{
    let mut copy = Vec::with_capacity(alloc, bytes.len())?;
    for byte in bytes {
        copy.push_reserved(*byte);
    }
    Ok(copy)
}

// Drops the first `count` bytes. What stays is not longer than they are, so one copy moves it.
fn forget_front(bytes: &mut Vec<u8>, count: usize)
    requires within { count ≤ vec_len bytes.old }
    requires half { vec_len bytes.old ≤ count + count }
    ensures rest { bytes.new.items ≡ drop count bytes.old.items }
    ensures room { vec_capacity bytes.new ≡ vec_capacity bytes.old }
{
    let kept = bytes.len() - count;
    let (front, rest) = bytes.as_mut_slice().split_at_mut(count);
    front[..kept].copy_from_slice(rest);
    bytes.truncate(kept);
}
