//! The steps of a recording, and what may be wrong with a line.

ghost use Rattle.std.specs.Prelude.{◌≡◌};
ghost use Rattle.mum_record.specs.declared.step.LineFault.TheVariants.{OutOfMemory};

use mum_base::{Cause, Octets};
use std::alloc::AllocError;
use thiserror::Error;

/// A step of a recording. Connections are numbered from 1 in the order in which they open, and
/// workers from 0.
#[derive(Drop)]
pub enum Step {
    /// A connection begins at a worker.
    Open {
        connection: u32,
        worker: u32,
    },
    /// The worker of a connection takes one whole frame of its stream.
    Frame {
        connection: u32,
        bytes: Octets,
    },
    /// The first command of a connection that waits is decided.
    Edit {
        connection: u32,
    },
    /// All accepted edits are published.
    Publish,
    /// The reply to the decided command of a connection reaches its worker, with a revision or
    /// without one.
    Tell {
        connection: u32,
        revision: Option<u64>,
    },
    /// A worker looks for the packet that it holds, at a revision.
    Look {
        worker: u32,
        revision: u64,
    },
    /// A worker offers the next copy of its packet.
    Offer {
        worker: u32,
    },
    /// The first notice that waits goes to its session.
    Post,
    /// One voice parcel of a connection goes to its peer.
    Drain {
        connection: u32,
    },
    /// One control parcel of a connection goes to its peer.
    Collect {
        connection: u32,
    },
    /// A connection ends.
    Close {
        connection: u32,
        cause: Cause,
    },
    /// The recording ends.
    End,
}

/// Why a line gave no step.
#[derive(Clone, Copy, Debug, PartialEq, Eq, Error)]
pub enum LineFault {
    /// It is no line of a recording.
    #[error("it is no line of a recording")]
    NotALine,
    /// Memory ran out.
    #[error("out of memory")]
    OutOfMemory,
}

impl From<AllocError> for LineFault {
    ghost from_gives = { λ _ e. e ≡ OutOfMemory };

    fn from(_e: AllocError) -> LineFault {
        LineFault::OutOfMemory
    }
}
