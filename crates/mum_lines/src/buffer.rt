//! The buffer of a reader of lines.

ghost use Rattle.std.specs.Prelude.{◌≡◌, ◌+◌, ◌<◌, ◌≤◌, [], IfOk, drop, length, position, slice_range, take};
ghost use Rattle.std.specs.Vec.{vec_len};
ghost use Rattle.mum_io.specs.Outside.{ReadCounts, ReadLeaves};
ghost use Rattle.mum_record.specs.Lines.{is_line_feed};
ghost use Rattle.mum_lines.specs.Lines.{line_length};
ghost use Rattle.mum_lines.specs.declared.buffer.TheConstants.{BUFFER_LENGTH};

use mum_base::OutOfMemory;
use mum_io::{ReadEnd, Source};
use mum_record::LINE_LIMIT;
use std::alloc::Global;

// The greatest line with its line feed.
pub(crate) const BUFFER_LENGTH: usize = LINE_LIMIT + 1;

// The bytes that were read and are not given yet, from `start` to `end`. The first `scanned` of them are known
// to be no line feed, so that no byte is looked at twice.
#[derive(Drop)]
pub(crate) struct Buffer {
    bytes: Vec<u8>,
    start: usize,
    end: usize,
    scanned: usize,
    ghost ordered: { start ≤ end },
    ghost within: { end ≤ vec_len bytes },
    ghost sized: { vec_len bytes ≡ BUFFER_LENGTH },
    ghost no_line_feed: { scanned ≤ line_length (slice_range bytes.items start end) },
}

// Where the first line feed is.
fn first_line_feed(bytes: &[u8]) -> Option<usize>
    ensures { result ≡ position is_line_feed bytes.now }
{
    bytes.iter().position(|byte| *byte == b'\n')
}

// The same, where none is among the first `scanned` bytes.
fn line_feed_from(bytes: &[u8], scanned: usize) -> Option<usize>
    requires within { scanned ≤ length bytes.now }
    requires none { scanned ≤ line_length bytes.now }
    ensures { result ≡ position is_line_feed bytes.now }
{
    match first_line_feed(&bytes[scanned..]) {
        Some(at) => Some(scanned + at),
        None => None,
    }
}

// Reads once, after the first `end` bytes.
fn read_behind<I: Source>(bytes: &mut Vec<u8>, end: usize, input: &mut I) -> ReadEnd
    requires { end < vec_len bytes.old }
    ensures len { vec_len bytes.new ≡ vec_len bytes.old }
    ensures front { take end bytes.new.items ≡ take end bytes.old.items }
    ensures counts { ReadCounts result (I.faults input.old) (I.faults input.new) }
    ensures bytes { ReadLeaves result (I.left input.old) (I.left input.new) (drop end bytes.new.items) }
{
    input.read(&mut bytes[end..])
}

impl Buffer {
    ghost use Rattle.mum_lines.specs.Seeking.{ReadKeeps, kept_in};

    // A buffer that keeps nothing.
    pub(crate) fn new(alloc: Global) -> Result<Buffer, OutOfMemory>
        ensures { IfOk result (λ buffer. kept_in buffer ≡ []) }
    {
        let bytes = vec![in alloc; 0u8; BUFFER_LENGTH]?;
        Ok(Buffer {
            bytes,
            start: 0,
            end: 0,
            scanned: 0,
        })
    }

    pub(crate) fn as_slice(&self) -> &[u8]
        ensures value { result.now ≡ kept_in self.now }
        ensures fits { length result.now ≤ BUFFER_LENGTH }
    {
        &self.bytes[self.start..self.end]
    }

    // Where the first line feed is.
    pub(crate) fn line_feed(&mut self) -> Option<usize>
        ensures same { kept_in self.new ≡ kept_in self.old }
        ensures found { result ≡ position is_line_feed (kept_in self.old) }
    {
        let found = line_feed_from(self.as_slice(), self.scanned);
        if found.is_none() {
            self.scanned = self.end - self.start;
        }
        found
    }

    // Drops the first `count` bytes and the line feed after them, and answers where they are in the buffer.
    pub(crate) fn drop_line(&mut self, count: usize) -> usize
        requires { count < length (kept_in self.old) }
        ensures inside { result + count ≤ vec_len self.new.bytes }
        ensures line { slice_range self.new.bytes.items result (result + count) ≡ take count (kept_in self.old) }
        ensures rest { kept_in self.new ≡ drop (count + 1) (kept_in self.old) }
    {
        let start = self.start;
        self.start = start + count + 1;
        self.scanned = 0;
        start
    }

    // The `count` bytes from `start` on, kept or dropped.
    pub(crate) fn part(&self, start: usize, count: usize) -> &[u8]
        requires { start + count ≤ vec_len self.now.bytes }
        ensures { result.now ≡ slice_range self.now.bytes.items start (start + count) }
    {
        &self.bytes[start..start + count]
    }

    // Moves what is kept to the front, where there is no room after it. A line moves once at most.
    fn make_room(&mut self)
        requires { length (kept_in self.old) < BUFFER_LENGTH }
        ensures same { kept_in self.new ≡ kept_in self.old }
        ensures room { self.new.end < BUFFER_LENGTH }
    {
        if self.end < BUFFER_LENGTH {
            return;
        }
        let (start, end) = (self.start, self.end);
        self.bytes.copy_within(start..end, 0);
        self.start = 0;
        self.end = end - start;
    }

    // Reads once, after what is kept.
    pub(crate) fn read<I: Source>(&mut self, input: &mut I) -> ReadEnd
        requires { length (kept_in self.old) < BUFFER_LENGTH }
        ensures counts { ReadCounts result (I.faults input.old) (I.faults input.new) }
        ensures bytes { ReadKeeps result (kept_in self.old) (kept_in self.new) (I.left input.old) (I.left input.new) }
    {
        self.make_room();
        let end = self.end;
        match read_behind(&mut self.bytes, end, input) {
            ReadEnd::Got(count) => {
                self.end = end + count;
                ReadEnd::Got(count)
            }
            ReadEnd::End => ReadEnd::End,
            ReadEnd::Failed => ReadEnd::Failed,
        }
    }
}
