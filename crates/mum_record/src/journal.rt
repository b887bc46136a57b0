//! Journals: what the control owner decided and what each worker sent, so that others can check it.

ghost use Rattle.std.specs.Prelude.{◌≡◌};
ghost use Rattle.mum_record.specs.declared.journal.JournalFault.TheVariants.{OutOfMemory};

use crate::head::Limits;
use mum_base::{Cause, Items, Mark, Octets, SessionId};
use std::alloc::AllocError;
use thiserror::Error;

/// A journal. It is read by `read_journal` and written by `write_journal`.
#[derive(Drop)]
pub struct Journal {
    /// How many workers there were, 1 to 8.
    pub workers: u8,
    /// The limits of sessions and of channels in version 2; in version 1 none are named.
    pub limits: Option<Limits>,
    /// The document of the configuration, or no bytes where there was none.
    pub config: Octets,
    /// What was decided, in the order of the control owner.
    pub controls: Items<ControlEntry>,
    /// What each worker did, in its order: a list for each worker.
    pub by_worker: Items<Items<WorkerEntry>>,
}

/// A command and what was decided of it.
#[derive(Drop)]
pub struct ControlEntry {
    /// The connection that asked, from 1 on in the order in which they opened.
    pub connection: u32,
    /// The number of the last Version message that had one, for a login alone.
    pub version: Option<u32>,
    /// The command as a frame of its own encoding, or none for the leave of a connection that ended.
    pub frame: Option<Octets>,
    pub verdict: Mark,
}

/// What a worker did.
#[derive(Drop)]
pub enum WorkerEntry {
    /// A packet of a connection was copied to those who heard it at a revision.
    Voice {
        connection: u32,
        revision: u64,
        /// The packet as it came, not empty.
        packet: Octets,
        /// The copies in the order in which they were made.
        copies: Items<Marked>,
    },
    /// A connection ended.
    Closed {
        connection: u32,
        cause: Cause,
    },
}

/// A copy of a packet.
#[derive(Clone, Copy)]
pub struct Marked {
    /// The session that it was for.
    pub session: SessionId,
    /// Why the session hears it: 0 talk, 1 a whisper to a channel, 2 a whisper to the session, 3 it
    /// listens to a channel.
    pub context: u8,
    /// Whether it was sent; else the box of the session was full.
    pub sent: bool,
}

/// Why a text gave no journal.
#[derive(Clone, Copy, Debug, PartialEq, Eq, Error)]
pub enum JournalFault {
    /// The first line that no journal has after the lines before it, counted from 1. Where a text
    /// ends before its journal does, it is the line that is missing.
    #[error("line {line} is no line of a journal")]
    NotALine { line: u64 },
    /// Memory ran out.
    #[error("out of memory")]
    OutOfMemory,
}

impl From<AllocError> for JournalFault {
    ghost from_gives = { λ _ e. e ≡ OutOfMemory };

    fn from(_e: AllocError) -> JournalFault {
        JournalFault::OutOfMemory
    }
}
