//! Where bytes go.

ghost use Rattle.std.specs.Prelude.{ℕ, ◌<◌, List, Option, length};
ghost use Rattle.mum_io.specs.Outside.{WriteCounts, WriteLeaves};

/// How a write ended.
#[derive(Clone, Copy, Debug, PartialEq, Eq)]
pub enum WriteEnd {
    /// This many bytes of the piece were taken from its front, at least one and at most its length.
    Took(usize),
    /// The write failed and took nothing, and the count of faults rose.
    Failed,
}

/// A sink of bytes.
pub trait Sink {
    /// How many writes have failed. The count stays at its last value, `u64::MAX`.
    ghost faults: { Self → ℕ };

    /// The bytes that were written, where the sink reports them. From then on it always does.
    ghost written: { Self → Option (List ℕ) };

    /// Writes a front of the piece after what was written before.
    fn write(&mut self, piece: &[u8]) -> WriteEnd
        requires { 0 < length piece.now }
        ensures counts { WriteCounts result (faults self.old) (faults self.new) }
        ensures bytes { WriteLeaves result (written self.old) (written self.new) piece.now };
}
