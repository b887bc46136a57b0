//! What the clients of a run know of each other.

use std::sync::atomic::{AtomicU64, Ordering};

/// Counts that the clients of a run raise and read.
#[derive(Drop)]
pub struct Room {
    came: AtomicU64,
    shut: AtomicU64,
    answered: AtomicU64,
    told: AtomicU64,
    most_owed: AtomicU64,
}

impl Room {
    pub fn new() -> Room {
        Room {
            came: AtomicU64::new(0),
            shut: AtomicU64::new(0),
            answered: AtomicU64::new(0),
            told: AtomicU64::new(0),
            most_owed: AtomicU64::new(0),
        }
    }

    /// A client came to its next meeting.
    pub fn come(&self) {
        self.came.fetch_add(1, Ordering::SeqCst);
    }

    /// Whether clients came to meetings at least this often.
    pub fn is_met(&self, times: u64) -> bool {
        self.came.load(Ordering::SeqCst) >= times
    }

    /// A link was shut.
    pub fn shut(&self) {
        self.shut.fetch_add(1, Ordering::SeqCst);
    }

    /// Whether at least this many links were shut.
    pub fn is_left(&self, links: u64) -> bool {
        self.shut.load(Ordering::SeqCst) >= links
    }

    /// A client was told of a user.
    pub fn tell(&self) {
        self.told.fetch_add(1, Ordering::SeqCst);
    }

    /// From here on users are told of changes of users alone.
    pub fn begin(&self) {
        self.told.store(0, Ordering::SeqCst);
    }

    /// A change that is to be told to this many users was answered.
    pub fn answer(&self, users: u64) {
        let answered = self
            .answered
            .fetch_add(1, Ordering::SeqCst)
            .saturating_add(1);
        let told = self.told.load(Ordering::SeqCst);
        let owed = answered.saturating_mul(users).saturating_sub(told);
        if owed > self.most_owed.load(Ordering::SeqCst) {
            self.most_owed.store(owed, Ordering::SeqCst);
        }
    }

    /// How many changes were answered.
    pub fn answered(&self) -> u64 {
        self.answered.load(Ordering::SeqCst)
    }

    /// The most messages of changes that were answered that had not been written at one time.
    pub fn most_owed(&self) -> u64 {
        self.most_owed.load(Ordering::SeqCst)
    }
}
