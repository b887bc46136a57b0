//! A client in memory, as the link that the server has to it.

ghost use Rattle.std.specs.Prelude.{◌≡◌, ◌≤◌, None, length, replicate};

use crate::ear::{Ear, Heard};
use crate::room::Room;
use mum_io::{Link, PollRead, PollWrite, Tally};
use std::sync::{Arc, OnceLock};

/// The types of the frames that clients look for.
pub const VERSION: u8 = 0;

pub const VOICE: u8 = 1;

pub const PING: u8 = 3;

pub const REJECT: u8 = 4;

pub const SERVER_SYNC: u8 = 5;

pub const CHANNEL_STATE: u8 = 7;

pub const USER_REMOVE: u8 = 8;

pub const USER_STATE: u8 = 9;

pub const BAN_LIST: u8 = 10;

pub const CODEC_VERSION: u8 = 21;

/// What a client does, one act after another. Each read goes on by at most one act.
#[derive(Clone, Copy)]
pub enum Act {
    /// It logs in as the user of this number.
    LogIn(u8),
    /// It kicks the session of this number, below 128.
    Kick(u8),
    /// It sends these bytes, in one read.
    Say(&'static [u8]),
    /// It sends a change of itself, which this many users are to be told of.
    Change(&'static [u8], u64),
    /// It waits for its first frame of a type.
    Hear(u8),
    /// It comes to a meeting.
    Come,
    /// It waits until clients came to meetings this often.
    Meet(u64),
    /// It waits until this many links are shut.
    Outlive(u64),
    /// It waits for this many reads.
    Pause(u32),
    /// It waits until it was written nothing for this many reads.
    Settle(u32),
    /// It takes nothing that is written, until clients came to meetings this often.
    BeDeaf(u64),
    /// It takes nothing that is written, and after this many writes they fail.
    Break(u32),
    /// What users are told from here on counts for the changes.
    Begin,
    /// It waits for good.
    Stay,
}

/// Where a client leaves what it heard when its link is shut.
pub type Memory = Arc<OnceLock<Heard>>;

/// A client that goes along its acts, and then ends. It takes what it is written, but while it is deaf.
#[derive(Drop)]
pub struct Client {
    room: Arc<Room>,
    memory: Memory,
    acts: Vec<Act>,
    place: usize,
    ear: Ear,
    // reads since the act began, and since something was written
    waited: u32,
    silent: u32,
    // the users that are to be told of a change that is not answered yet
    change: Option<u64>,
    deaf_until: u64,
    // the writes until they fail
    breaks_after: Option<u32>,
    tally: Tally,
    is_shut: bool,
}

// Moves the bytes to the front of the slice, as far as it has room. How many.
fn give(bytes: &[u8], buf: &mut [u8]) -> usize
    ensures count { result ≤ length buf.old }
{
    let count = buf.len().min(bytes.len());
    buf[..count].copy_from_slice(&bytes[..count]);
    count
}

// The login of a user of a number of its own.
fn login(user: u8) -> [u8; 11] {
    let (first, second) = (b'a' + user / 16, b'a' + user % 16);
    [0, 2, 0, 0, 0, 5, 10, 3, b'u', first, second]
}

// Hears what the server sends, and tells the room of each change of a user.
fn hear(ear: &mut Ear, room: &Room, piece: &[u8]) {
    for byte in piece {
        if ear.hear(*byte) == Some(USER_STATE) {
            room.tell();
        }
    }
}

impl Client {
    pub fn new(room: Arc<Room>, memory: Memory, acts: Vec<Act>) -> Client {
        Client {
            room,
            memory,
            acts,
            place: 0,
            ear: Ear::new(),
            waited: 0,
            silent: 0,
            change: None,
            deaf_until: 0,
            breaks_after: None,
            tally: Tally::new(),
            is_shut: false,
        }
    }

    // Whether it is done with an act at this read.
    fn is_done(&self, act: Act) -> bool {
        match act {
            Act::Hear(kind) => self.ear.heard.frames(kind) > 0,
            Act::Meet(times) => self.room.is_met(times),
            Act::Outlive(links) => self.room.is_left(links),
            Act::Pause(reads) => self.waited >= reads,
            Act::Settle(reads) => self.waited >= reads && self.silent >= reads,
            Act::Stay => false,
            _ => true,
        }
    }

    // Does an act that it is done with at once. How many bytes it sends.
    fn act(&mut self, act: Act, buf: &mut [u8]) -> usize
        ensures count { result ≤ length buf.old }
        ensures tally { self.new.tally ≡ self.old.tally }
        ensures shut { self.new.is_shut ≡ self.old.is_shut }
    {
        match act {
            Act::LogIn(user) => give(&login(user), buf),
            Act::Kick(session) => give(&[0, 8, 0, 0, 0, 2, 8, session], buf),
            Act::Say(bytes) => give(bytes, buf),
            Act::Change(bytes, users) => {
                self.change = Some(users);
                give(bytes, buf)
            }
            Act::Come => {
                self.room.come();
                0
            }
            Act::BeDeaf(times) => {
                self.deaf_until = times;
                0
            }
            Act::Break(writes) => {
                self.breaks_after = Some(writes);
                0
            }
            Act::Begin => {
                self.room.begin();
                0
            }
            _ => 0,
        }
    }

    // A read comes, so what was sent before is answered.
    fn note_read(&mut self)
        ensures tally { self.new.tally ≡ self.old.tally }
        ensures shut { self.new.is_shut ≡ self.old.is_shut }
    {
        if let Some(users) = self.change.take() {
            self.room.answer(users);
        }
        self.silent = self.silent.saturating_add(1);
        self.waited = self.waited.saturating_add(1);
    }
}

impl Link for Client {
    ghost facts = { λ c. record { counts = c.tally; left = None; written = None; address = replicate 16 0; is_shut = c.is_shut } };

    fn poll_read(&mut self, buf: &mut [u8]) -> PollRead {
        self.note_read();
        let Some(act) = self.acts.get(self.place).copied() else {
            self.tally.count_end();
            return PollRead::End;
        };
        let mut count = 0;
        if self.is_done(act) {
            self.place = self.place.saturating_add(1);
            self.waited = 0;
            count = self.act(act, buf);
        }
        if count > 0 {
            return PollRead::Got(count);
        }
        self.tally.count_stall();
        PollRead::NotYet
    }

    fn poll_write(&mut self, piece: &[u8]) -> PollWrite {
        if let Some(writes) = self.breaks_after {
            if writes == 0 {
                self.tally.count_fault();
                return PollWrite::Failed;
            }
            self.breaks_after = Some(writes - 1);
            self.tally.count_stall();
            return PollWrite::NotYet;
        }
        if !self.room.is_met(self.deaf_until) {
            self.tally.count_stall();
            return PollWrite::NotYet;
        }
        self.silent = 0;
        hear(&mut self.ear, &self.room, piece);
        PollWrite::Took(piece.len())
    }

    fn shut(&mut self) {
        if !self.is_shut {
            let mut heard = self.ear.heard;
            heard.is_through = self.place >= self.acts.len();
            let _first = self.memory.try_set(heard);
            self.room.shut();
        }
        self.is_shut = true;
    }

    fn address(&self) -> [u8; 16] {
        [0; 16]
    }
}
