//! What the links and the station of one thread report to each other.

use std::sync::atomic::{AtomicBool, AtomicU64, Ordering};

/// What the links of one thread did in a round, and whether they keep what is written. One thread alone writes most of
/// it, so the boards of two threads lie apart in memory.
#[derive(Drop)]
pub struct Board {
    milliseconds: AtomicU64,
    batch: AtomicU64,
    is_holding: AtomicBool,
    is_slowed: AtomicBool,
    asked: AtomicU64,
    open: AtomicU64,
    shut: AtomicU64,
    has_news: AtomicBool,
    apart: [u64; 16],
}

impl Board {
    pub fn new() -> Board {
        Board {
            milliseconds: AtomicU64::new(0),
            batch: AtomicU64::new(0),
            is_holding: AtomicBool::new(false),
            is_slowed: AtomicBool::new(false),
            asked: AtomicU64::new(0),
            open: AtomicU64::new(0),
            shut: AtomicU64::new(0),
            has_news: AtomicBool::new(false),
            apart: [0; 16],
        }
    }

    /// A round begins at this time.
    pub fn begin(&self, milliseconds: u64) {
        self.milliseconds.store(milliseconds, Ordering::SeqCst);
        self.asked.store(0, Ordering::SeqCst);
        self.is_slowed.store(false, Ordering::SeqCst);
    }

    /// The time at which the round began, in milliseconds since the machine was opened.
    pub fn milliseconds(&self) -> u64 {
        self.milliseconds.load(Ordering::SeqCst)
    }

    /// A link is asked to read.
    pub fn ask(&self) {
        self.asked.fetch_add(1, Ordering::SeqCst);
    }

    /// Whether each open link was asked to read in this round.
    pub fn were_all_asked(&self) -> bool {
        self.asked.load(Ordering::SeqCst) >= self.open.load(Ordering::SeqCst)
    }

    /// A link has to wait until time has passed.
    pub fn slow_down(&self) {
        self.is_slowed.store(true, Ordering::SeqCst);
    }

    /// Whether a link has to wait until time has passed.
    pub fn is_slowed(&self) -> bool {
        self.is_slowed.load(Ordering::SeqCst)
    }

    /// Links keep what is written from now on.
    pub fn hold(&self) {
        self.is_holding.store(true, Ordering::SeqCst);
    }

    pub fn is_holding(&self) -> bool {
        self.is_holding.load(Ordering::SeqCst)
    }

    /// Ends that, and begins a batch: what links keep of an earlier one is to be sent. Whether they kept.
    pub fn release(&self) -> bool {
        let was_holding = self.is_holding.swap(false, Ordering::SeqCst);
        if was_holding {
            self.batch.fetch_add(1, Ordering::SeqCst);
        }
        was_holding
    }

    /// The number of the batch.
    pub fn batch(&self) -> u64 {
        self.batch.load(Ordering::SeqCst)
    }

    /// A link brought what other threads may have to hear of.
    pub fn note_news(&self) {
        self.has_news.store(true, Ordering::SeqCst);
    }

    /// Whether a link did since the last call.
    pub fn take_news(&self) -> bool {
        self.has_news.swap(false, Ordering::SeqCst)
    }

    pub fn open_link(&self) {
        self.open.fetch_add(1, Ordering::SeqCst);
    }

    pub fn shut_link(&self) {
        self.open.fetch_sub(1, Ordering::SeqCst);
        self.shut.fetch_add(1, Ordering::SeqCst);
    }

    /// How many links were shut.
    pub fn shut(&self) -> u64 {
        self.shut.load(Ordering::SeqCst)
    }
}
