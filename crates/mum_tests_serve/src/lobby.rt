//! A door in memory that gives clients.

ghost use Rattle.std.specs.Prelude.{None};

use crate::client::{Act, Client};
use crate::ear::Heard;
use crate::room::Room;
use crate::run::TestDoor;
use mum_io::{Accept, Door, DoorOpen, Tally};
use std::alloc::Global;
use std::collections::VecDeque;
use std::process::Abort;
use std::sync::{Arc, OnceLock};

/// A door that gives its clients one after another, and then ends.
#[derive(Drop)]
pub struct Lobby {
    alloc: Global,
    room: Arc<Room>,
    clients: VecDeque<Client>,
    memories: Vec<Arc<OnceLock<Heard>>>,
    given: u64,
    tally: Tally,
}

impl Lobby {
    pub fn new(rt: &impl Abort, alloc: Global) -> Lobby {
        Lobby {
            alloc,
            room: Arc::new(alloc, Room::new()).expect(rt, "memory"),
            clients: VecDeque::new(alloc),
            memories: Vec::new(alloc),
            given: 0,
            tally: Tally::new(),
        }
    }

    /// One client more, which does this.
    pub fn invite(&mut self, rt: &impl Abort, acts: Vec<Act>) {
        let memory = Arc::new(self.alloc, OnceLock::new()).expect(rt, "memory");
        let share = memory.clone().expect(rt, "memory");
        let room = self.room.clone().expect(rt, "memory");
        self.memories.push(memory).expect(rt, "memory");
        let client = Client::new(room, share, acts);
        self.clients.push_back(client).expect(rt, "memory");
    }

    /// One client more, which does these.
    pub fn invite_with(&mut self, rt: &impl Abort, acts: &[Act]) {
        let acts = Vec::from_slice(self.alloc, acts).expect(rt, "memory");
        self.invite(rt, acts);
    }

    /// What the clients know of each other.
    pub fn room(&self) -> &Room {
        &self.room
    }

    /// What the client of a place, from 0, heard until its link was shut.
    pub fn heard(&self, place: usize) -> Option<Heard> {
        self.memories.get(place)?.get().copied()
    }

    /// How many frames of a type all clients heard.
    pub fn frames(&self, kind: u8) -> u64 {
        let mut sum: u64 = 0;
        for memory in &self.memories {
            if let Some(heard) = memory.get() {
                sum = sum.saturating_add(u64::from(heard.frames(kind)));
            }
        }
        sum
    }

    /// How many clients came to the end of their acts.
    pub fn are_through(&self) -> u64 {
        let mut sum: u64 = 0;
        for memory in &self.memories {
            if let Some(heard) = memory.get() {
                sum = sum.saturating_add(u64::from(heard.is_through));
            }
        }
        sum
    }
}

impl TestDoor for Lobby {
    fn empty(rt: &impl Abort, alloc: Global) -> Lobby {
        Lobby::new(rt, alloc)
    }
}

impl Door for Lobby {
    type Conn = Client;

    ghost facts = { λ l. record { counts = l.tally; given = l.given; opened_at = None } };

    fn open(&mut self, _address: &str) -> DoorOpen {
        DoorOpen::Opened
    }

    fn poll_accept(&mut self) -> Accept<Client> {
        match self.clients.pop_front() {
            Some(client) => {
                self.given = self.given.saturating_add(1);
                Accept::Conn(client)
            }
            None => {
                self.tally.count_end();
                Accept::End
            }
        }
    }
}
