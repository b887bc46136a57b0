//! A reader of lines.

ghost use Rattle.std.specs.Prelude.{◌≡◌, ◌<◌, ◌⊎◌, ◌↔◌, IfOk, IsTrue, length};
ghost use Rattle.mum_lines.specs.Lines.{CountsLine, GivesLine, at_start, line_length};
ghost use Rattle.mum_lines.specs.Seeking.{CountsSought, Seeks, Ended, kept_in};

use crate::buffer::{BUFFER_LENGTH, Buffer};
use mum_base::OutOfMemory;
use mum_io::{ReadEnd, Source};
use mum_record::{INPUT_LIMIT, LINE_LIMIT};
use std::alloc::Global;
use std::marker::Model;

/// What comes next of an input.
#[derive(Clone, Copy, Debug)]
pub enum LineEnd<'a> {
    /// A line, without its line feed.
    Line(&'a [u8]),
    /// The end of the input, after the line feed of its last line.
    End,
    /// The end of the input after these bytes, at least one, which no line feed ends.
    Rest(&'a [u8]),
    /// A line of more than `LINE_LIMIT` bytes, or one in which the input passes `INPUT_LIMIT` bytes.
    TooLong,
    /// A read failed.
    Failed,
}

/// Reads an input line by line through one buffer, which has room for the greatest line and its line feed.
/// A contract sees the bytes that were read and are not given yet, how many bytes the input may have from these
/// on, and the size of the buffer, in bytes, which never changes.
#[derive(Drop)]
pub struct LineReader {
    buffer: Buffer,
    room: usize,
}

impl Model for LineReader {
    ghost use Rattle.std.specs.Prelude.{◌≤◌};
    ghost use Rattle.std.specs.Vec.{vec_len};
    ghost use Rattle.mum_record.specs.declared.split.TheConstants.{INPUT_LIMIT};
    ghost use Rattle.mum_lines.specs.Lines.{ReaderState};
    ghost use Rattle.mum_lines.specs.Seeking.{kept_in};

    ghost Value = { ReaderState };

    ghost view = { λ r. record { kept = kept_in r.buffer; room = r.room; buffer = vec_len r.buffer.bytes } };
}

// What a search for the next line feed came to.
enum Sought {
    // It is after n bytes.
    LineFeed(usize),
    // The input has none.
    End,
    TooLong,
    Failed,
}

// Whether bytes that no line feed ends are too many for a line.
fn are_too_many(count: usize, room: usize) -> bool
    ensures { IsTrue result ↔ ((LINE_LIMIT < count) ⊎ (room < count)) }
{
    count > LINE_LIMIT || count > room
}

// Reads on up to the next line feed, as long as the line is not too long.
fn seek<I: Source>(buffer: &mut Buffer, room: usize, input: &mut I) -> Sought
    ensures sought { Seeks result room (kept_in buffer.old) (kept_in buffer.new) (I.left input.old) (I.left input.new) }
    ensures counts { CountsSought result (I.faults input.old) (I.faults input.new) }
    ensures unread { line_length (kept_in buffer.old) < length (kept_in buffer.old) → input.new ≡ input.old }
{
    'reads: loop {
        if let Some(at) = buffer.line_feed() {
            return if at < room {
                Sought::LineFeed(at)
            } else {
                Sought::TooLong
            };
        }
        if are_too_many(buffer.as_slice().len(), room) {
            return Sought::TooLong;
        }
        match buffer.read(input) {
            ReadEnd::Got(_) => {}
            ReadEnd::End => return Sought::End,
            ReadEnd::Failed => return Sought::Failed,
        }
    }
}

// The end of an input after bytes that no line feed ends.
fn ended(rest: &[u8]) -> LineEnd<'_>
    ensures { Ended rest.now result }
{
    if rest.is_empty() {
        LineEnd::End
    } else {
        LineEnd::Rest(rest)
    }
}

impl LineReader {
    ghost use Rattle.std.specs.Borrow.{sem};
    ghost use Rattle.mum_lines.specs.Lending.{Leaves};

    /// A reader of an input from its first byte on. It takes the memory of its buffer.
    pub fn new(alloc: Global) -> Result<LineReader, OutOfMemory>
        ensures { IfOk result (λ reader. reader ≡ at_start) }
    {
        Ok(LineReader {
            buffer: Buffer::new(alloc)?,
            room: INPUT_LIMIT,
        })
    }

    /// Gives the next line. It takes no memory, and reads only where no whole line is kept. No answer loses
    /// a byte: what comes next after an answer that gives no line is found again by the next call.
    pub fn next<I: Source>(&mut self, input: &mut I) -> LineEnd<'_>
        // What is given and what is kept once the bytes that were given are let go.
        ensures* lines { sem 𝓛 (Leaves self.entry (λ new.
            GivesLine result self.old new (I.left input.old) (I.left input.new))) }
        // A read that failed is answered as one, and no other answer hides one.
        ensures counts { CountsLine result (I.faults input.old) (I.faults input.new) }
        // Where a whole line is kept, nothing is read.
        ensures unread { line_length self.old.kept < length self.old.kept → input.new ≡ input.old }
    {
        match seek(&mut self.buffer, self.room, input) {
            Sought::LineFeed(at) => {
                self.room -= at + 1;
                let start = self.buffer.drop_line(at);
                LineEnd::Line(self.buffer.part(start, at))
            }
            Sought::End => ended(self.buffer.as_slice()),
            Sought::TooLong => LineEnd::TooLong,
            Sought::Failed => LineEnd::Failed,
        }
    }
}
