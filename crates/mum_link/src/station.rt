//! What a thread of the crew sleeps on: it speaks for the links of the thread, and says when and how long to sleep.

ghost use Rattle.std.specs.Prelude.{◌≡◌, true, false, if◌then◌else◌};

use crate::board::Board;
use crate::hub::{Hub, Sleepers};
use crate::sleeper::{Ready, Sleeper};
use mum_crew::{Look, Station};
use std::sync::Arc;

// The longest sleep in milliseconds: while a link is open, where one has to wait until time has passed, and while
// none is open.
const SLEEP: u64 = 1000;

const SHORT_SLEEP: u64 = 50;

const LONG_SLEEP: u64 = 600_000;

/// The station of one thread, whose sleeper the system wakes.
#[derive(Drop)]
pub struct LinkStation<P> {
    pub sleeper: P,
    pub hub: Arc<Hub>,
    pub board: Arc<Board>,
    pub thread: usize,
    owner_turns: u64,
    shut: u64,
}

// How long a thread may sleep, in milliseconds.
fn longest_sleep(is_slowed: bool, has_links: bool) -> u64
    ensures slowed { is_slowed ≡ true → result ≡ 50 }
    ensures open { is_slowed ≡ false → has_links ≡ true → result ≡ 1000 }
    ensures idle { is_slowed ≡ false → has_links ≡ false → result ≡ 600000 }
{
    if is_slowed {
        SHORT_SLEEP
    } else if has_links {
        SLEEP
    } else {
        LONG_SLEEP
    }
}

impl<P> LinkStation<P> {
    /// The station of this thread, which has not slept yet.
    pub fn new(sleeper: P, hub: Arc<Hub>, board: Arc<Board>, thread: usize) -> LinkStation<P> {
        LinkStation {
            sleeper,
            hub,
            board,
            thread,
            owner_turns: 0,
            shut: 0,
        }
    }
}

impl<P: Sleeper> LinkStation<P> {
    fn wake(&self, sleepers: Sleepers) {
        if sleepers.is_empty() {
            return;
        }
        for thread in 0..self.hub.threads() {
            if sleepers.has(thread) {
                self.sleeper.wake(thread);
            }
        }
    }

    // The server is to stop: every thread has to look at its links.
    fn stop(&self) {
        self.hub.stop();
        for thread in 0..self.hub.threads() {
            self.sleeper.wake(thread);
        }
    }
}

impl<P: Sleeper + Send> Station for LinkStation<P> {
    fn begin(&mut self) {
        self.hub.doze(self.thread);
        if let Some(milliseconds) = self.sleeper.milliseconds() {
            self.board.begin(milliseconds);
        } else {
            self.board.begin(self.board.milliseconds());
        }
    }

    fn were_all_asked(&self) -> bool {
        self.board.were_all_asked()
    }

    fn hold(&mut self) {
        self.board.hold();
    }

    fn release(&mut self) -> bool {
        self.board.release()
    }

    fn wake_others(&mut self, owner_too: bool) {
        self.wake(self.hub.take_sleepers(self.thread, owner_too));
    }

    fn wake_all(&mut self) {
        self.wake(self.hub.take_all_sleepers(self.thread));
    }

    fn note_owner(&mut self) {
        self.hub.note_owner();
    }

    fn note_ended(&mut self) {
        self.hub.note_owner_ended();
    }

    fn did_owner_work(&mut self) -> bool {
        let before = self.owner_turns;
        self.owner_turns = self.hub.owner_turns();
        self.owner_turns != before
    }

    fn was_shut(&mut self) -> bool {
        let before = self.shut;
        self.shut = self.board.shut();
        self.shut != before
    }

    fn had_news(&mut self) -> bool {
        self.board.take_news()
    }

    fn look(&mut self, may_sleep: bool) -> Look {
        let is_slowed = self.board.is_slowed();
        let longest = if may_sleep {
            longest_sleep(is_slowed, self.hub.has_links())
        } else {
            0
        };
        let Ready {
            sockets,
            was_woken,
            is_stop,
        } = self.sleeper.sleep(&self.hub, longest);
        if is_stop {
            self.stop();
        }
        if sockets > 1 {
            self.board.hold();
        }
        // a link that had to wait may be read now, and the patience of one that views are written to may be over
        let is_time = is_slowed || self.hub.is_later(self.thread);
        if is_time || was_woken || sockets > 0 {
            Look::Something
        } else {
            Look::Nothing
        }
    }

    fn note_late(&mut self) {
        self.hub.note_late();
    }
}
