//! A link in memory.

ghost use Rattle.std.specs.Prelude.{◌≡◌, ◌≢◌, ℕ, ◌<◌, ◌++◌, [], true, IsTrue, OnErr, OnOk, Some, length, replicate};
ghost use Rattle.std.specs.Option.{ForSome};
ghost use Rattle.mum_io.specs.Link.{Keeps, PollReadCounts, PollReadLeaves, PollWriteCounts, PollWriteLeaves};
ghost use Rattle.mum_io.specs.MemLink.{after_event, after_poll_read, after_poll_write, bytes_of, due, link_facts, poll_read_answer, read_answer, refuses, with_rest};

use super::unread::Unread;
use crate::calls::Calls;
use crate::link::{Link, PollRead, PollWrite};
use crate::tally::Tally;
use mum_base::{Octets, OutOfMemory};
use std::alloc::Global;
use std::collections::VecDeque;
use std::marker::Model;
use std::mem::replace;
use std::sync::{Arc, OnceLock};

/// What a read from a link in memory finds.
#[derive(Debug, Drop)]
pub enum LinkEvent {
    /// These bytes, in as many reads as the slices need. A piece without bytes is passed over.
    Piece(Octets),
    /// That no byte has come yet.
    NotYet,
    /// A fault.
    Fail,
    /// The end. No event comes after it.
    End,
}

// Where a link puts what was written to it when it is shut.
pub(crate) type HandBack = Arc<OnceLock<Octets>>;

// What is to be handed back is kept twice, so that `shut` takes no memory and the link still knows it.
#[derive(Drop)]
struct Kept {
    bytes: Vec<u8>,
    copy: Option<(Vec<u8>, HandBack)>,
    ghost same: { ForSome copy (λ c. c.0.items ≡ bytes.items) },
}

impl Kept {
    fn new(alloc: Global) -> Kept
        ensures { result.bytes.items ≡ [] }
    {
        Kept {
            bytes: Vec::new(alloc),
            copy: None,
        }
    }

    fn add(&mut self, piece: &[u8]) -> Result<(), OutOfMemory>
        ensures ok { OnOk result (self.new.bytes.items ≡ self.old.bytes.items ++ piece.now) }
        ensures err { OnErr result (self.new.bytes.items ≡ self.old.bytes.items) }
    {
        self.bytes.reserve(piece.len())?;
        if let Some((copy, _)) = &mut self.copy {
            copy.extend_from_slice(piece)?;
        }
        self.bytes.extend_from_slice(piece)
    }

    // From here on what is kept is to be handed back.
    fn copy_for(&mut self, alloc: Global, hand_back: HandBack) -> Result<(), OutOfMemory>
        ensures { self.new.bytes.items ≡ self.old.bytes.items }
    {
        let copy = Vec::from_slice(alloc, self.bytes.as_slice())?;
        drop(self.copy.replace((copy, hand_back)));
        Ok(())
    }

    // Hands the copy back, if there is one.
    fn hand_back(&mut self)
        ensures { self.new.bytes.items ≡ self.old.bytes.items }
    {
        if let Some((copy, hand_back)) = self.copy.take() {
            let _second = hand_back.try_set(Octets::from_vec(copy));
        }
    }
}

/// A link in memory. Its reads go along a list of events, and after the last one find the end. A write takes
/// the whole piece. Once it was shut each read and each write fails.
#[derive(Drop)]
pub struct MemLink {
    piece: Unread,
    events: VecDeque<LinkEvent>,
    kept: Kept,
    writes: Calls,
    tally: Tally,
    starved: u64,
    address: [u8; 16],
    is_shut: bool,
}

impl Model for MemLink {
    ghost use Rattle.mum_io.specs.MemLink.{LinkState, with_rest};

    ghost Value = { LinkState };

    ghost view = { λ l. record {
      events = with_rest l.piece l.events.items;
      written = l.kept.bytes.items;
      writes = l.writes;
      counts = l.tally;
      starved = l.starved;
      address = l.address;
      is_shut = l.is_shut;
    } };
}

impl MemLink {
    ghost use Rattle.mum_io.specs.MemLink.{new_link};

    /// A link over these events, at the address of sixteen zeros. The writes that have these numbers, from 1,
    /// fail, and those for which there is no memory.
    pub fn new(alloc: Global, events: Vec<LinkEvent>, failing: Vec<u64>) -> MemLink
        ensures { result ≡ new_link (replicate 16 0) events.items failing.items }
    {
        MemLink::with_address(alloc, [0; 16], events, failing)
    }

    /// The same at an address.
    pub fn with_address(
        alloc: Global,
        address: [u8; 16],
        events: Vec<LinkEvent>,
        failing: Vec<u64>,
    ) -> MemLink
        ensures { result ≡ new_link address events.items failing.items }
    {
        MemLink {
            piece: Unread::new(Octets::from_vec(Vec::new(alloc))),
            events: VecDeque::from_vec(events),
            kept: Kept::new(alloc),
            writes: Calls::new(failing),
            tally: Tally::new(),
            starved: 0,
            address,
            is_shut: false,
        }
    }

    /// How many writes ran out of memory. The count stays at its last value, `u64::MAX`.
    pub fn starved(&self) -> u64
        ensures { result ≡ self.now.starved }
    {
        self.starved
    }

    // From here on `shut` puts what was written to the link there, if nothing else was.
    pub(crate) fn return_to(
        &mut self,
        alloc: Global,
        hand_back: HandBack,
    ) -> Result<(), OutOfMemory>
        ensures { self.new ≡ self.old }
    {
        self.kept.copy_for(alloc, hand_back)
    }
}

// Takes from the rest of a piece and the events after it what a read finds.
fn read_events(piece: &mut Unread, events: &mut VecDeque<LinkEvent>, buf: &mut [u8]) -> PollRead
    requires { 0 < length buf.old }
    ensures answer { result ≡
        read_answer (length buf.old) (due (with_rest piece.old events.old.items)) }
    ensures events { with_rest piece.new events.new.items ≡
        after_event (length buf.old) (due (with_rest piece.old events.old.items)) }
    ensures bytes { PollReadLeaves result (Some (bytes_of (with_rest piece.old events.old.items)))
        (Some (bytes_of (with_rest piece.new events.new.items))) buf.new }
{
    while piece.is_empty() {
        let Some(event) = events.pop_front() else {
            return PollRead::End;
        };
        match event {
            LinkEvent::Piece(bytes) => drop(replace(piece, Unread::new(bytes))),
            LinkEvent::NotYet => return PollRead::NotYet,
            LinkEvent::Fail => return PollRead::Failed,
            LinkEvent::End => {
                events.clear();
                return PollRead::End;
            }
        }
    }
    PollRead::Got(piece.read(buf))
}

impl Link for MemLink {
    ghost facts = { link_facts };

    fn poll_read(&mut self, buf: &mut [u8]) -> PollRead
        requires { 0 < length buf.old }
        ensures counts { PollReadCounts result self.old.counts self.new.counts }
        ensures bytes { PollReadLeaves result (Some (bytes_of self.old.events))
            (Some (bytes_of self.new.events)) buf.new }
        ensures written { Keeps (Some self.old.written) (Some self.new.written) }
        ensures address { self.new.address ≡ self.old.address }
        ensures is_shut { self.new.is_shut ≡ self.old.is_shut }

        // Once it was shut it fails, and no byte is taken.
        ensures silent { IsTrue self.old.is_shut → (result ≡ PollRead.Failed) × (self.new.events ≡ self.old.events) }
        ensures answer { result ≡ poll_read_answer self.old (length buf.old) }
        ensures state { self.new ≡ after_poll_read self.old (length buf.old) result }
    {
        let answer = if self.is_shut {
            PollRead::Failed
        } else {
            read_events(&mut self.piece, &mut self.events, buf)
        };
        match answer {
            PollRead::Got(_) => {}
            PollRead::End => self.tally.count_end(),
            PollRead::NotYet => self.tally.count_stall(),
            PollRead::Failed => self.tally.count_fault(),
        }
        answer
    }

    fn poll_write(&mut self, piece: &[u8]) -> PollWrite
        requires { 0 < length piece.now }
        ensures counts { PollWriteCounts result self.old.counts self.new.counts }
        ensures bytes { PollWriteLeaves result (Some self.old.written) (Some self.new.written)
            piece.now }
        ensures left { Keeps (Some (bytes_of self.old.events)) (Some (bytes_of self.new.events)) }
        ensures address { self.new.address ≡ self.old.address }
        ensures is_shut { self.new.is_shut ≡ self.old.is_shut }

        ensures ready { result ≢ PollWrite.NotYet }
        ensures fails { IsTrue (refuses self.old) → result ≡ PollWrite.Failed }
        // Once it was shut it fails, and no byte is written.
        ensures silent { IsTrue self.old.is_shut → (result ≡ PollWrite.Failed) × (self.new.written ≡ self.old.written) }
        ensures whole { (n : ℕ) → result ≡ PollWrite.Took n → n ≡ length piece.now }
        ensures state { self.new ≡ after_poll_write self.old piece.now result }
    {
        if self.writes.begin() || self.is_shut {
            self.tally.count_fault();
            return PollWrite::Failed;
        }
        if self.kept.add(piece).is_err() {
            self.tally.count_fault();
            self.starved = self.starved.saturating_add(1);
            return PollWrite::Failed;
        }
        PollWrite::Took(piece.len())
    }

    fn shut(&mut self)
        ensures is_shut { IsTrue self.new.is_shut }
        ensures counts { self.new.counts ≡ self.old.counts }
        ensures left { Keeps (Some (bytes_of self.old.events)) (Some (bytes_of self.new.events)) }
        ensures written { Keeps (Some self.old.written) (Some self.new.written) }
        ensures address { self.new.address ≡ self.old.address }

        ensures state { self.new ≡ record self.old { is_shut = true } }
    {
        self.kept.hand_back();
        self.is_shut = true;
    }

    fn address(&self) -> [u8; 16] {
        self.address
    }
}
