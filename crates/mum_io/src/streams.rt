//! Readers and writers, as the standard streams are, as the server sees them. They count each call that
//! failed, and say of the bytes what the reader or writer says: of a standard stream nothing is known.

ghost use Rattle.std.specs.Prelude.{◌≡◌, ◌<◌, length};
ghost use Rattle.mum_io.specs.Counts.{next_count};
ghost use Rattle.mum_io.specs.Outside.{ReadCounts, ReadLeaves, WriteCounts, WriteLeaves};

use crate::sink::{Sink, WriteEnd};
use crate::source::{ReadEnd, Source};
use std::io::{Read, Write};

/// A reader as a source. Nothing is read ahead.
#[derive(Drop)]
pub struct Input<R> {
    reader: R,
    faults: u64,
}

impl<R> Input<R> {
    /// A source with no fault counted.
    pub fn new(reader: R) -> Input<R>
        ensures reader { result.reader ≡ reader }
        ensures faults { result.faults ≡ 0 }
    {
        Input { reader, faults: 0 }
    }
}

impl<R: Read> Source for Input<R> {
    ghost faults = { λ s. s.faults };

    ghost left = { λ s. R.remaining s.reader };

    fn read(&mut self, buf: &mut [u8]) -> ReadEnd
        requires { 0 < length buf.old }
        ensures counts { ReadCounts result self.old.faults self.new.faults }
        ensures bytes { ReadLeaves result
            (R.remaining self.old.reader) (R.remaining self.new.reader) buf.new }

        ensures next { result ≡ ReadEnd.Failed → self.new.faults ≡ next_count self.old.faults }
    {
        match self.reader.read(buf) {
            Ok(0) => ReadEnd::End,
            Ok(count) => ReadEnd::Got(count),
            Err(_) => {
                self.faults = self.faults.saturating_add(1);
                ReadEnd::Failed
            }
        }
    }
}

/// A writer as a sink. Nothing is kept back, so no later call can lose what a write took.
#[derive(Drop)]
pub struct Output<W> {
    writer: W,
    faults: u64,
}

impl<W> Output<W> {
    /// A sink with no fault counted.
    pub fn new(writer: W) -> Output<W>
        ensures writer { result.writer ≡ writer }
        ensures faults { result.faults ≡ 0 }
    {
        Output { writer, faults: 0 }
    }
}

impl<W: Write> Sink for Output<W> {
    ghost faults = { λ s. s.faults };

    ghost written = { λ s. W.contents s.writer };

    /// A write that takes nothing failed.
    fn write(&mut self, piece: &[u8]) -> WriteEnd
        requires { 0 < length piece.now }
        ensures counts { WriteCounts result self.old.faults self.new.faults }
        ensures bytes { WriteLeaves result
            (W.contents self.old.writer) (W.contents self.new.writer) piece.now }

        ensures next { result ≡ WriteEnd.Failed → self.new.faults ≡ next_count self.old.faults }
    {
        match self.writer.write(piece) {
            Ok(count) if count > 0 => WriteEnd::Took(count),
            _ => {
                self.faults = self.faults.saturating_add(1);
                WriteEnd::Failed
            }
        }
    }
}
