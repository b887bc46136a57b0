//! What a connection of a recording asked for that was not decided yet.

use mum_base::{Octets, OutOfMemory};
use mum_frame::whole_frame;
use mum_msg_state::{Message, MessageFault, Version};
use std::alloc::{AllocError, Global};
use std::collections::VecDeque;

// A connection of a recording.
#[derive(Drop)]
pub(crate) struct Caller {
    pub worker: u32,
    /// The number of its last Version that has one.
    pub version: Option<u32>,
    /// What waits to be decided, the oldest first: the frame of a command, or none for its leave.
    waiting: VecDeque<Option<Octets>>,
    /// Whether its leave was asked for.
    leaves: bool,
}

// The number of the last Version after a frame that is one.
fn version_after(
    alloc: Global,
    version: Option<u32>,
    bytes: &[u8],
) -> Result<Option<u32>, OutOfMemory> {
    let Some(view) = whole_frame(bytes) else {
        return Ok(version);
    };
    match Version::decode(alloc, view.payload) {
        Ok(told) => Ok(told.version.or(version)),
        Err(MessageFault::OutOfMemory) => Err(AllocError),
        Err(_) => Ok(version),
    }
}

impl Caller {
    // A connection of a worker that asked for nothing yet.
    pub(crate) fn new(alloc: Global, worker: u32) -> Caller {
        Caller {
            worker,
            version: None,
            waiting: VecDeque::new(alloc),
            leaves: false,
        }
    }

    // Its frame asks for a command.
    pub(crate) fn ask(&mut self, alloc: Global, bytes: &[u8]) -> Result<(), OutOfMemory> {
        self.waiting.push_back(Some(Octets::of(alloc, bytes)?))?;
        Ok(())
    }

    // Its leave is asked for, once.
    pub(crate) fn leave(&mut self) -> Result<(), OutOfMemory> {
        if self.leaves {
            return Ok(());
        }
        self.leaves = true;
        self.waiting.push_back(None)?;
        Ok(())
    }

    // Its frame is a Version.
    pub(crate) fn keep(&mut self, alloc: Global, bytes: &[u8]) -> Result<(), OutOfMemory> {
        self.version = version_after(alloc, self.version, bytes)?;
        Ok(())
    }

    // What is decided next.
    pub(crate) fn next(&mut self) -> Option<Option<Octets>> {
        self.waiting.pop_front()
    }
}
