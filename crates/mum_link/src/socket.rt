//! A connected socket, as a link uses it.

ghost use Rattle.std.specs.Prelude.{◌≡◌, ℕ, List, Option, length, not};
ghost use Rattle.std.specs.Io.{ReadsAtMost, WritesAtMost};
ghost use Rattle.std.specs.Io.KnownBytes.{Keeps, ReadConsumes, WriteAppends};
ghost use Rattle.mum_link.specs.Faults.{CountsFailedRead, CountsFailedWrite, CountsOneIf};
ghost use Rattle.mum_link.specs.Origins.{Origin};
ghost use Rattle.mum_link.specs.Refusals.{CountsRefusal};

use std::io;

/// A connected socket. No call waits.
pub trait Socket: Drop {
    /// The bytes that are left to be read, where they are known. Once known, they stay known.
    ghost left: { Self → Option (List ℕ) };

    /// The bytes that were written, where they are known. Once known, they stay known.
    ghost written: { Self → Option (List ℕ) };

    /// Where it comes from: the address of its peer, and all bytes that come over it, where they are known. It is never another.
    ghost origin: { Self → Origin };

    /// The thread on which what it is ready for is reported, if one is.
    ghost watched: { Self → Option ℕ };

    /// How many writes took nothing. The count is of 64 bits and stays at its last value, `u64::MAX`.
    ghost refusals: { Self → ℕ };

    /// How many calls failed, otherwise than since nothing had come yet or there was no room yet. The count is of 64 bits and
    /// stays at its last value, `u64::MAX`.
    ghost failures: { Self → ℕ };

    /// Takes the first bytes that have come to the front of the slice. An error of the kind `WouldBlock`: none has come
    /// yet.
    fn read(&mut self, buf: &mut [u8]) -> io::Result<usize>
        ensures fits { ReadsAtMost result buf.new }
        ensures left { ReadConsumes (left self.old) (left self.new) result buf.new }
        ensures written { Keeps (written self.old) (written self.new) }
        ensures origin { origin self.new ≡ origin self.old }
        ensures refusals { refusals self.new ≡ refusals self.old }
        ensures failures { CountsFailedRead result (failures self.old) (failures self.new) };

    /// Writes a front of the piece after what was written before. An error of the kind `WouldBlock`: there is no room
    /// yet.
    fn write(&mut self, piece: &[u8]) -> io::Result<usize>
        ensures fits { WritesAtMost result piece.now }
        ensures written { WriteAppends (written self.old) (written self.new) result piece.now }
        ensures left { Keeps (left self.old) (left self.new) }
        ensures origin { origin self.new ≡ origin self.old }
        ensures refusals { CountsRefusal result (refusals self.old) (refusals self.new) }
        ensures failures { CountsFailedWrite result (failures self.old) (failures self.new) };

    /// Has room for bytes reported from now on. Whether it will be; that it will not is a failure.
    fn await_room(&mut self) -> bool
        ensures left { Keeps (left self.old) (left self.new) }
        ensures written { Keeps (written self.old) (written self.new) }
        ensures origin { origin self.new ≡ origin self.old }
        ensures refusals { refusals self.new ≡ refusals self.old }
        ensures failures { CountsOneIf (not result) (failures self.old) (failures self.new) };

    /// Notifies the peer that no more comes, and stops reporting what the socket is ready for, at this time in
    /// milliseconds: this many bytes were received and sent. What the peer has still sent is thrown away, or else
    /// the close would be a reset, and the peer might lose what was written last.
    fn leave(&mut self, milliseconds: u64, received: u64, sent: u64)
        ensures left { Keeps (left self.old) (left self.new) }
        ensures written { Keeps (written self.old) (written self.new) }
        ensures origin { origin self.new ≡ origin self.old }
        ensures refusals { refusals self.new ≡ refusals self.old }
        ensures failures { failures self.new ≡ failures self.old };
}
