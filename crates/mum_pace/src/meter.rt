//! The frames that a client sends, counted.

ghost use Rattle.std.specs.Prelude.{◌≡◌};
ghost use Rattle.mum_pace.specs.Places.{payload_under_way};
ghost use Rattle.mum_pace.specs.Meters.{after_read, allowance_of, at_time, counted, new_meter, state_of};

use crate::frames::Frames;
use crate::pace::Pace;
use crate::used::Used;

/// What was read of a client.
#[derive(Clone, Copy, Debug, PartialEq, Eq)]
pub struct Counted {
    /// How many frames begin in it.
    pub frames: usize,
    /// Whether all of it is of Pings, which concern nobody else. What has come of a header counts with the frame before.
    pub is_pings: bool,
}

/// Counts the frames that a client sends, and says when no more may be read.
#[derive(Clone, Copy)]
pub struct Meter {
    pace: Pace,
    frames: Frames,
    messages: Used,
    voice: Used,
    milliseconds: u64,
}

impl Meter {
    /// A meter for a client that sent nothing yet.
    pub fn new(pace: Pace, milliseconds: u64) -> Meter
        ensures { state_of result ≡ new_meter pace milliseconds }
    {
        Meter {
            pace,
            frames: Frames::new(),
            messages: Used::nothing(),
            voice: Used::nothing(),
            milliseconds,
        }
    }

    /// How many bytes may be read at this time, so that no more frames and pieces of messages begin in them than there is
    /// room for.
    pub fn allowance(&mut self, milliseconds: u64) -> usize
        ensures meter { state_of self.new ≡ at_time (state_of self.old) milliseconds }
        ensures bytes { result ≡ allowance_of (state_of self.new) }
    {
        let Pace::Limited { messages, voice } = self.pace else {
            return usize::MAX;
        };
        let passed = milliseconds.saturating_sub(self.milliseconds);
        self.milliseconds = self.milliseconds.max(milliseconds);
        self.messages.give_back(messages, passed);
        self.voice.give_back(voice, passed);
        self.frames
            .length_within(self.messages.room(messages), self.voice.room(voice))
    }

    /// The length of the payload that is under way. 0: none is.
    pub fn payload(&self) -> u64
        ensures { result ≡ payload_under_way (state_of self.now).place }
    {
        self.frames.payload()
    }

    /// Counts the frames that begin in what was read.
    pub fn count(&mut self, read: &[u8]) -> Counted
        ensures meter { state_of self.new ≡ after_read (state_of self.old) read.now }
        ensures counted { result ≡ counted (state_of self.old) read.now }
    {
        let mut rest = read;
        let mut counted = Counted {
            frames: 0,
            is_pings: true,
        };
        while !rest.is_empty() {
            let front = self.frames.pass_front(rest);
            self.messages.add_frames(front.cost.messages);
            self.voice.add_frames(front.cost.voice);
            counted.frames += front.cost.frames;
            counted.is_pings &= self.frames.are_in_a_ping();
            rest = &rest[front.length..];
        }
        counted
    }
}
