//! Where bytes come from.

ghost use Rattle.std.specs.Prelude.{ℕ, ◌<◌, List, Option, length};
ghost use Rattle.mum_io.specs.Outside.{ReadCounts, ReadLeaves};

/// How a read ended.
#[derive(Clone, Copy, Debug, PartialEq, Eq)]
pub enum ReadEnd {
    /// This many bytes are at the front of the slice, at least one and at most its length.
    Got(usize),
    /// No byte is left.
    End,
    /// The read failed, and the count of faults rose.
    Failed,
}

/// A source of bytes.
pub trait Source {
    /// How many reads have failed. The count stays at its last value, `u64::MAX`.
    ghost faults: { Self → ℕ };

    /// The bytes that are left, where the source reports them. From then on it always does.
    ghost left: { Self → Option (List ℕ) };

    /// Takes the first bytes that are left to the front of the slice.
    fn read(&mut self, buf: &mut [u8]) -> ReadEnd
        requires { 0 < length buf.old }
        ensures counts { ReadCounts result (faults self.old) (faults self.new) }
        ensures bytes { ReadLeaves result (left self.old) (left self.new) buf.new };
}
