//! What all sockets share: where they are registered, and the sockets whose links were shut.
//!
//! Where a socket is closed while its peer still sends, the system reports the connection to the peer as broken, and a relay
//! then throws away what it has not read: the last words to a client, too. So each socket that was left stays open until
//! some others were.

use std::alloc::{AllocError, Global};
use std::mem::{drop, replace};
use std::sync::Mutex;

// How many sockets that were left stay open.
const DEPARTED_LIMIT: usize = 64;

// The sockets that were left last.
#[derive(Drop)]
struct Departed<S> {
    sockets: Vec<Option<S>>,
    next: usize,
}

impl<S: Drop> Departed<S> {
    fn new(alloc: Global) -> Result<Departed<S>, AllocError> {
        let mut sockets = Vec::with_capacity(alloc, DEPARTED_LIMIT)?;
        for _ in 0..DEPARTED_LIMIT {
            sockets.push(None)?;
        }
        Ok(Departed { sockets, next: 0 })
    }

    // In the place of the one that was left first.
    fn put(&mut self, socket: S) {
        if let Some(place) = self.sockets.get_mut(self.next) {
            drop(replace(place, Some(socket)));
        }
        self.next = (self.next % DEPARTED_LIMIT + 1) % DEPARTED_LIMIT;
    }
}

/// Where sockets are registered at the polls of a crew's threads, and the 64 sockets that were left last.
#[derive(Drop)]
pub struct Polls<R, S> {
    registries: Vec<R>,
    departed: Mutex<Departed<S>>,
}

impl<R: Drop, S: Drop> Polls<R, S> {
    /// No socket was left yet. It takes the room for all.
    pub fn new(alloc: Global, registries: Vec<R>) -> Result<Polls<R, S>, AllocError> {
        let departed = Departed::new(alloc)?;
        Ok(Polls {
            registries,
            departed: Mutex::new(departed),
        })
    }

    /// How many threads there are.
    pub fn threads(&self) -> usize {
        self.registries.len()
    }

    pub fn registry(&self, thread: usize) -> Option<&R> {
        self.registries.get(thread)
    }

    /// Keeps a socket open until 64 others were left. Where another thread keeps one at this moment, it is closed at once.
    pub fn keep(&self, socket: S) {
        if let Some(mut departed) = self.departed.try_lock() {
            departed.put(socket);
        }
    }
}
