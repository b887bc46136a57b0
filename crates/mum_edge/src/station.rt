//! What a thread sleeps on.

use crate::listener::STOP;
use mio::event::Event;
use mio::{Events, Poll, Waker};
use mum_link::{HUNG_UP, Hub, Life, READABLE, Ready, Sleeper, WRITABLE};
use std::io::Eprint;
use std::sync::Arc;
use std::time::{Clock, Duration, Instant};

/// The token of the waker, after that of the socket for a stop.
pub const WAKER: usize = STOP + 1;

/// A poll of its own, and the wakers of all threads.
#[derive(Drop)]
pub struct PollSleeper<X> {
    pub rt: X,
    pub start: Instant,
    pub poll: Poll,
    pub events: Events,
    pub wakers: Arc<Vec<Waker>>,
    pub life: Life<X>,
}

// What an event says of a link.
fn flags_of(event: &Event) -> u32 {
    let mut flags = 0;
    if event.is_readable() {
        flags |= READABLE;
    }
    if event.is_writable() {
        flags |= WRITABLE;
    }
    if event.is_read_closed() || event.is_write_closed() || event.is_error() {
        flags |= READABLE | WRITABLE | HUNG_UP;
    }
    flags
}

impl<X: Clock + Eprint + Drop> PollSleeper<X> {
    fn take_notice(&self, hub: &Hub) -> Ready {
        let mut sockets = 0usize;
        let mut is_stop = false;
        for event in &self.events {
            match event.token().0 {
                WAKER => continue,
                STOP => is_stop = true,
                slot => hub.set(slot, flags_of(event)),
            }
            sockets = sockets.saturating_add(1);
        }
        Ready {
            sockets,
            was_woken: !self.events.is_empty(),
            is_stop,
        }
    }
}

impl<X: Clock + Eprint + Drop> Sleeper for PollSleeper<X> {
    fn milliseconds(&self) -> Option<u64> {
        let passed = self.start.elapsed(&self.rt).ok()?;
        Some(u64::try_from(passed.as_millis()).unwrap_or(u64::MAX))
    }

    fn sleep(&mut self, hub: &Hub, milliseconds: u64) -> Ready {
        let wait = Duration::from_millis(milliseconds);
        if self.poll.poll(&mut self.events, Some(wait)).is_err() {
            return Ready {
                sockets: 0,
                was_woken: true,
                is_stop: false,
            };
        }
        let ready = self.take_notice(hub);
        if ready.is_stop {
            self.life.stops();
        }
        ready
    }

    fn wake(&self, thread: usize) {
        if let Some(waker) = self.wakers.get(thread) {
            let _unheard = waker.wake();
        }
    }
}
