//! What a station sleeps on, as the system has it.

use crate::hub::Hub;

/// What ended a sleep.
#[derive(Clone, Copy)]
pub struct Ready {
    /// How many links are ready, with the door and the socket for a stop.
    pub sockets: usize,
    /// Whether it ended before its time: something was ready, another thread woke this one, or the system refused.
    pub was_woken: bool,
    /// Whether somebody asked for a stop of the server.
    pub is_stop: bool,
}

/// What one thread sleeps on, and by which it wakes others. Its calls promise nothing.
pub trait Sleeper: Drop {
    /// The time in milliseconds since the machine was opened, if the system says it.
    fn milliseconds(&self) -> Option<u64>;

    /// Sleeps for n milliseconds at most, and notes in the hub what each link that is ready is ready for.
    fn sleep(&mut self, hub: &Hub, milliseconds: u64) -> Ready;

    /// Wakes a thread, or has its next sleep end at once. One that the crew does not have is no fault.
    fn wake(&self, thread: usize);
}
