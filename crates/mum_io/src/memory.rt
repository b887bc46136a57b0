//! The outside in memory: a source and a sink whose calls fail by their numbers, and below them a link, a
//! door and a clock.

ghost use Rattle.std.specs.Prelude.{◌≡◌, ℕ, [], ◌<◌, ◌↔◌, IsTrue, Some, length, min};
ghost use Rattle.mum_io.specs.Calls.{before_calls, next_fails};
ghost use Rattle.mum_io.specs.Memory.{after_read, after_write};
ghost use Rattle.mum_io.specs.Outside.{ReadCounts, ReadLeaves, WriteCounts, WriteLeaves};

pub mod clock;
pub mod door;
pub mod link;
pub mod unread;

use crate::calls::Calls;
use crate::{ReadEnd, Sink, Source, WriteEnd};
use mum_base::Octets;
use std::alloc::Global;
use std::marker::Model;
use unread::Unread;

/// Bytes in memory. A read gives as many of those that are left as the slice has room for.
#[derive(Debug, Drop)]
pub struct MemSource {
    left: Unread,
    calls: Calls,
    faults: u64,
}

impl Model for MemSource {
    ghost use Rattle.mum_io.specs.Memory.{SourceState};

    ghost Value = { SourceState };

    ghost view = { λ s. record { left = s.left; calls = s.calls; faults = s.faults } };
}

impl MemSource {
    /// A source of these bytes. The reads that have these numbers, from 1, fail.
    pub fn new(bytes: Octets, failing: Vec<u64>) -> MemSource
        ensures { result ≡ record { left = bytes; calls = before_calls failing.items; faults = 0 } }
    {
        MemSource {
            left: Unread::new(bytes),
            calls: Calls::new(failing),
            faults: 0,
        }
    }
}

impl Source for MemSource {
    ghost faults = { λ s. s.faults };

    ghost left = { λ s. Some s.left };

    fn read(&mut self, buf: &mut [u8]) -> ReadEnd
        requires { 0 < length buf.old }
        ensures counts { ReadCounts result self.old.faults self.new.faults }
        ensures bytes { ReadLeaves result (Some self.old.left) (Some self.new.left) buf.new }

        ensures fails { (result ≡ ReadEnd.Failed) ↔ IsTrue (next_fails self.old.calls) }
        ensures whole { (n : ℕ) → result ≡ ReadEnd.Got n →
            n ≡ min (length buf.old) (length self.old.left) }
        ensures state { self.new ≡ after_read self.old result }
    {
        if self.calls.begin() {
            self.faults = self.faults.saturating_add(1);
            return ReadEnd::Failed;
        }
        if self.left.is_empty() {
            return ReadEnd::End;
        }
        ReadEnd::Got(self.left.read(buf))
    }
}

/// A sink that keeps what is written to it. A write takes the whole piece.
#[derive(Debug, Drop)]
pub struct MemSink {
    written: Vec<u8>,
    calls: Calls,
    faults: u64,
    starved: u64,
}

impl Model for MemSink {
    ghost use Rattle.mum_io.specs.Memory.{SinkState};

    ghost Value = { SinkState };

    ghost view = { λ s. record { written = s.written.items; calls = s.calls; faults = s.faults; starved = s.starved } };
}

impl MemSink {
    /// A sink to which nothing was written. The writes that have these numbers, from 1, fail, and those
    /// for which there is no memory.
    pub fn new(alloc: Global, failing: Vec<u64>) -> MemSink
        ensures { result ≡
            record { written = []; calls = before_calls failing.items; faults = 0; starved = 0 } }
    {
        MemSink {
            written: Vec::new(alloc),
            calls: Calls::new(failing),
            faults: 0,
            starved: 0,
        }
    }

    /// What was written.
    pub fn bytes(&self) -> &[u8]
        ensures { result.now ≡ self.now.written }
    {
        self.written.as_slice()
    }

    /// How many writes ran out of memory. The count stays at its last value, `u64::MAX`.
    pub fn starved(&self) -> u64
        ensures { result ≡ self.now.starved }
    {
        self.starved
    }
}

impl Sink for MemSink {
    ghost faults = { λ s. s.faults };

    ghost written = { λ s. Some s.written };

    fn write(&mut self, piece: &[u8]) -> WriteEnd
        requires { 0 < length piece.now }
        ensures counts { WriteCounts result self.old.faults self.new.faults }
        ensures bytes { WriteLeaves result (Some self.old.written) (Some self.new.written) piece.now }

        ensures fails { IsTrue (next_fails self.old.calls) → result ≡ WriteEnd.Failed }
        ensures whole { (n : ℕ) → result ≡ WriteEnd.Took n → n ≡ length piece.now }
        ensures state { self.new ≡ after_write self.old piece.now result }
    {
        if self.calls.begin() {
            self.faults = self.faults.saturating_add(1);
            return WriteEnd::Failed;
        }
        if self.written.extend_from_slice(piece).is_err() {
            self.faults = self.faults.saturating_add(1);
            self.starved = self.starved.saturating_add(1);
            return WriteEnd::Failed;
        }
        WriteEnd::Took(piece.len())
    }
}
