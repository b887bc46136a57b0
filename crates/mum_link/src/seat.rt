//! The place of a link.

ghost use Rattle.std.specs.Prelude.{◌≡◌, true};
ghost use Rattle.std.specs.Option.{ForSome};

use crate::board::Board;
use crate::hub::{Ending, HUNG_UP, Hub, READABLE, WRITABLE};
use std::sync::Arc;

/// The slot of a link among those of all links, and the board of the thread that it is on.
#[derive(Drop)]
pub struct Seat {
    pub hub: Arc<Hub>,
    pub board: Arc<Board>,
    pub slot: usize,
}

impl Seat {
    pub fn is_readable(&self) -> bool {
        self.hub.has(self.slot, READABLE)
    }

    pub fn is_writable(&self) -> bool {
        self.hub.has(self.slot, WRITABLE)
    }

    pub fn has_hung_up(&self) -> bool {
        self.hub.has(self.slot, HUNG_UP)
    }

    /// There may be more to read: the system reports no change of that.
    pub fn set_readable(&self) {
        self.hub.set(self.slot, READABLE);
    }

    pub fn clear_readable(&self) {
        self.hub.clear(self.slot, READABLE);
    }

    pub fn clear_writable(&self) {
        self.hub.clear(self.slot, WRITABLE);
    }

    /// Why the link is to end, if it is: the server stops.
    pub fn stopping(&self) -> Option<Ending>
        ensures { ForSome result (λ ending. ending.is_stop ≡ true) }
    {
        self.hub.stopping()
    }

    /// The link is open.
    pub fn take(&self) {
        self.board.open_link();
        self.hub.note_opened();
    }

    /// The link is shut, and its slot free.
    pub fn leave(&self) {
        self.hub.free_slot(self.slot);
        self.board.shut_link();
        self.hub.note_shut();
    }
}
