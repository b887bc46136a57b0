//! Where connections come from.

ghost use Rattle.std.specs.Prelude.{◌≡◌};
ghost use Rattle.mum_io.specs.Door.{AcceptCounts, DoorFacts, OpenCounts, OpensAt, given_after};

use crate::link::Link;

/// How the opening of a door ended.
#[derive(Clone, Copy, Debug, PartialEq, Eq)]
pub enum DoorOpen {
    Opened,
    /// The opening failed, and the count of faults rose.
    Failed,
}

/// What a door answers to whoever asks it for a connection.
#[derive(Debug, Drop)]
pub enum Accept<L> {
    Conn(L),
    /// No connection has come yet, and the count of stalls rose.
    NotYet,
    /// No connection comes any more, and the count of ends rose.
    End,
    /// The door failed, and the count of faults rose.
    Failed,
}

/// Where connections come from. No call waits. Each count is of 64 bits and stays at its last value,
/// `u64::MAX`.
pub trait Door: Drop {
    type Conn: Link + Send;

    /// What is known of it: what was counted, how many connections it gave, and the address at which it was opened,
    /// where that is known.
    ghost facts: { Self → DoorFacts };

    /// Opens the door at this address.
    fn open(&mut self, address: &str) -> DoorOpen
        ensures counts { OpenCounts result (facts self.old).counts (facts self.new).counts }
        ensures address { OpensAt result (facts self.old).opened_at (facts self.new).opened_at address.now }
        ensures given { (facts self.new).given ≡ (facts self.old).given };

    /// The next connection, if one has come.
    fn poll_accept(&mut self) -> Accept<Self::Conn>
        ensures counts { AcceptCounts result (facts self.old).counts (facts self.new).counts }
        ensures given { (facts self.new).given ≡ given_after result (facts self.old).given }
        ensures address { (facts self.new).opened_at ≡ (facts self.old).opened_at };
}
