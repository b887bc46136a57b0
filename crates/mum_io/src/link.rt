//! A stream to a peer that can be read and written without waiting.

ghost use Rattle.std.specs.Prelude.{◌≡◌, ◌<◌, IsTrue, length};
ghost use Rattle.mum_io.specs.Link.{Keeps, LinkFacts, PollReadCounts, PollReadLeaves, PollWriteCounts, PollWriteLeaves};

/// How a read from a link ended.
#[derive(Clone, Copy, Debug, PartialEq, Eq)]
pub enum PollRead {
    /// This many bytes are at the front of the slice, at least one and at most its length.
    Got(usize),
    /// The peer sends no more, and the count of ends rose.
    End,
    /// No byte has come yet, and the count of stalls rose.
    NotYet,
    /// The read failed, and the count of faults rose.
    Failed,
}

/// How a write to a link ended.
#[derive(Clone, Copy, Debug, PartialEq, Eq)]
pub enum PollWrite {
    /// This many bytes of the piece were taken from its front, at least one and at most its length.
    Took(usize),
    /// No byte can be taken yet, and the count of stalls rose.
    NotYet,
    /// The write failed and took nothing, and the count of faults rose.
    Failed,
}

/// A stream to a peer. No call waits. Each count is of 64 bits and stays at its last value, `u64::MAX`.
pub trait Link: Drop {
    /// What is known of it: what was counted, the bytes that are left to be read and those that were written, where
    /// they are known, the address of the peer, and whether it was shut.
    ghost facts: { Self → LinkFacts };

    /// Takes the first bytes that are left to the front of the slice.
    fn poll_read(&mut self, buf: &mut [u8]) -> PollRead
        requires { 0 < length buf.old }
        ensures counts { PollReadCounts result (facts self.old).counts (facts self.new).counts }
        ensures bytes { PollReadLeaves result (facts self.old).left (facts self.new).left buf.new }
        ensures written { Keeps (facts self.old).written (facts self.new).written }
        ensures address { (facts self.new).address ≡ (facts self.old).address }
        ensures is_shut { (facts self.new).is_shut ≡ (facts self.old).is_shut };

    /// Writes a front of the piece after what was written before.
    fn poll_write(&mut self, piece: &[u8]) -> PollWrite
        requires { 0 < length piece.now }
        ensures counts { PollWriteCounts result (facts self.old).counts (facts self.new).counts }
        ensures bytes { PollWriteLeaves result (facts self.old).written (facts self.new).written piece.now }
        ensures left { Keeps (facts self.old).left (facts self.new).left }
        ensures address { (facts self.new).address ≡ (facts self.old).address }
        ensures is_shut { (facts self.new).is_shut ≡ (facts self.old).is_shut };

    /// Sends what was written and is still kept back, and closes the stream. Nothing is counted.
    fn shut(&mut self)
        ensures is_shut { IsTrue (facts self.new).is_shut }
        ensures counts { (facts self.new).counts ≡ (facts self.old).counts }
        ensures left { Keeps (facts self.old).left (facts self.new).left }
        ensures written { Keeps (facts self.old).written (facts self.new).written }
        ensures address { (facts self.new).address ≡ (facts self.old).address };

    /// The address of the peer. One of IPv4 has ten bytes 0, two bytes 255 and its four bytes.
    fn address(&self) -> [u8; 16]
        ensures { result ≡ (facts self.now).address };
}
