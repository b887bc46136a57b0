//! What the links, the door and the stations share: which slots are ready, who sleeps, who worked.

ghost use Rattle.std.specs.Prelude.{◌≡◌, ◌+◌, ◌*◌, ◌-◌, ◌<◌, ◌≤◌, IfSome, false, true};
ghost use Rattle.std.specs.Option.{ForSome};
ghost use Rattle.mum_link.specs.Sharing.{IsEnough};

use crate::shares::{LaterRoles, Shares};
use mum_pace::LongFrames;
use std::alloc::{AllocError, Global};
use std::sync::Arc;
use std::sync::atomic::{AtomicBool, AtomicU32, AtomicU64, Ordering};

/// The most links of users, those among them that wait for their header.
pub const USER_LINK_LIMIT: usize = 1024;

/// The most links at the door for views: those of open views, and those that wait for their header.
pub const VIEW_LINK_LIMIT: usize = 16 + 64;

/// How many slots there are: one for each link, and one for the listener of each door.
pub const SLOT_LIMIT: usize = USER_LINK_LIMIT + VIEW_LINK_LIMIT + 2;

/// The most threads, each of which has a bit of a word.
pub const THREAD_LIMIT: usize = 64;

/// The link may have bytes, or its end, to read.
pub const READABLE: u32 = 1;

/// The link may have room for bytes.
pub const WRITABLE: u32 = 2;

/// The peer sends no more, or the link failed.
pub const HUNG_UP: u32 = 4;

// A link has the slot.
const TAKEN: u32 = 8;

/// The flags of each slot, the threads that sleep, counts that one thread raises and another reads, and the allowance
/// for long frames.
#[derive(Drop)]
pub struct Hub {
    pub long_frames: Arc<LongFrames>,
    slots: Vec<AtomicU32>,
    sleepers: AtomicU64,
    owner_turns: AtomicU64,
    links_opened: AtomicU64,
    links_shut: AtomicU64,
    late_rounds: AtomicU64,
    is_stopping: AtomicBool,
    has_owner_ended: AtomicBool,
    shares: AtomicU64,
    threads: AtomicU64,
    later: AtomicU64,
    later_hear_owner: AtomicBool,
}

fn bit(thread: usize) -> u64 {
    1u64 << (thread % THREAD_LIMIT)
}

// How many numbers a spread may be. The workers and the spread are in one word, so whoever reads it has both of one time.
const SPREADS: u64 = 0x1_0000;

// The most workers that find room there.
const WORKERS: u64 = 0xffff_ffff;

fn word_of(shares: Shares) -> u64
    ensures { shares.workers ≤ WORKERS → result ≡ shares.workers * SPREADS + shares.spread }
{
    (shares.workers as u64).min(WORKERS) * SPREADS + u64::from(shares.spread)
}

fn shares_of(word: u64) -> Shares
    ensures { word ≡ result.workers * SPREADS + result.spread }
{
    Shares {
        workers: (word / SPREADS) as usize,
        spread: (word % SPREADS) as u16,
    }
}

impl Hub {
    /// A hub whose slots are all free.
    pub fn new(alloc: Global) -> Result<Hub, AllocError> {
        let mut slots = Vec::with_capacity(alloc, SLOT_LIMIT)?;
        for _ in 0..SLOT_LIMIT {
            slots.push(AtomicU32::new(0))?;
        }
        Ok(Hub {
            long_frames: Arc::new(alloc, LongFrames::new(alloc)?)?,
            slots,
            sleepers: AtomicU64::new(0),
            owner_turns: AtomicU64::new(0),
            links_opened: AtomicU64::new(0),
            links_shut: AtomicU64::new(0),
            late_rounds: AtomicU64::new(0),
            is_stopping: AtomicBool::new(false),
            has_owner_ended: AtomicBool::new(false),
            shares: AtomicU64::new(word_of(Shares {
                workers: 1,
                spread: 1,
            })),
            threads: AtomicU64::new(1),
            later: AtomicU64::new(0),
            later_hear_owner: AtomicBool::new(false),
        })
    }

    /// Takes the first free slot from this one on, and before that one, with the flags of a link that may be ready. None:
    /// there are as many links as may be.
    pub fn take_slot(&self, first: usize, end: usize) -> Option<usize>
        ensures { IfSome result (λ slot. (first ≤ slot) × (slot < end)) }
    {
        for slot in first..end {
            if self.take(slot) {
                return Some(slot);
            }
        }
        None
    }

    // Takes this slot. Whether it was free.
    fn take(&self, slot: usize) -> bool {
        let Some(slot) = self.slots.get(slot) else {
            return false;
        };
        let fresh = READABLE | WRITABLE | TAKEN;
        // a late event of the link before may have left a flag
        let flags = slot.load(Ordering::SeqCst);
        flags & TAKEN == 0
            && slot
                .compare_exchange(flags, fresh, Ordering::SeqCst, Ordering::SeqCst)
                .is_ok()
    }

    pub fn free_slot(&self, slot: usize) {
        if let Some(slot) = self.slots.get(slot) {
            slot.store(0, Ordering::SeqCst);
        }
    }

    pub fn has(&self, slot: usize, flags: u32) -> bool {
        match self.slots.get(slot) {
            Some(slot) => slot.load(Ordering::SeqCst) & flags != 0,
            None => false,
        }
    }

    pub fn set(&self, slot: usize, flags: u32) {
        if let Some(slot) = self.slots.get(slot) {
            slot.fetch_or(flags, Ordering::SeqCst);
        }
    }

    pub fn clear(&self, slot: usize, flags: u32) {
        if let Some(slot) = self.slots.get(slot) {
            slot.fetch_and(!flags, Ordering::SeqCst);
        }
    }

    /// The thread is to be woken from here on.
    pub fn doze(&self, thread: usize) {
        if self.sleepers.load(Ordering::SeqCst) & bit(thread) == 0 {
            self.sleepers.fetch_or(bit(thread), Ordering::SeqCst);
        }
    }

    /// The threads that are to be woken by this one, which it alone then wakes. The roles after the workers have no news for
    /// others, but for an owner that waits for one of them; and of the news of others they may ask to hear of the owner's.
    pub fn take_sleepers(&self, thread: usize, with_owner: bool) -> Sleepers {
        if self.is_later(thread) {
            return self.take_waiting_owner();
        }
        let later = self.later.load(Ordering::SeqCst);
        let hears = thread == 0 && self.later_hear_owner.load(Ordering::SeqCst);
        let mut spared = bit(thread);
        if !with_owner {
            spared |= bit(0);
        }
        if !hears {
            spared |= later;
        }
        self.take_all_but(spared)
    }

    // The owner's thread, where that may wait for a role that hears of it: in the end alone, once no link is open.
    fn take_waiting_owner(&self) -> Sleepers {
        if self.later_hear_owner.load(Ordering::SeqCst) && !self.has_links() {
            self.take_all_but(!bit(0))
        } else {
            Sleepers { bits: 0 }
        }
    }

    /// Whether the thread is that of the roles after the workers.
    pub fn is_later(&self, thread: usize) -> bool {
        self.later.load(Ordering::SeqCst) == bit(thread)
    }

    /// All others that sleep, as this one has ended.
    pub fn take_all_sleepers(&self, thread: usize) -> Sleepers {
        self.take_all_but(bit(thread))
    }

    fn take_all_but(&self, spared: u64) -> Sleepers {
        if self.sleepers.load(Ordering::SeqCst) & !spared == 0 {
            return Sleepers { bits: 0 };
        }
        Sleepers {
            bits: self.sleepers.fetch_and(spared, Ordering::SeqCst) & !spared,
        }
    }

    pub fn note_owner(&self) {
        self.owner_turns.fetch_add(1, Ordering::SeqCst);
    }

    /// How many rounds the owner worked in.
    pub fn owner_turns(&self) -> u64 {
        self.owner_turns.load(Ordering::SeqCst)
    }

    pub fn note_opened(&self) {
        self.links_opened.fetch_add(1, Ordering::SeqCst);
    }

    /// Whether a link is open.
    pub fn has_links(&self) -> bool {
        self.links_opened.load(Ordering::SeqCst) != self.links_shut.load(Ordering::SeqCst)
    }

    pub fn note_shut(&self) {
        self.links_shut.fetch_add(1, Ordering::SeqCst);
    }

    /// How many links were shut.
    pub fn links_shut(&self) -> u64 {
        self.links_shut.load(Ordering::SeqCst)
    }

    pub fn note_late(&self) {
        self.late_rounds.fetch_add(1, Ordering::SeqCst);
    }

    /// How many rounds worked although the thread was not woken.
    pub fn late_rounds(&self) -> u64 {
        self.late_rounds.load(Ordering::SeqCst)
    }

    /// The server is to stop: its door ends, and its links end.
    pub fn stop(&self) {
        self.is_stopping.store(true, Ordering::SeqCst);
    }

    /// Why links are to end, if they are: the server stops.
    pub fn stopping(&self) -> Option<Ending>
        ensures { ForSome result (λ ending. ending.is_stop ≡ true) }
    {
        if self.is_stopping.load(Ordering::SeqCst) {
            Some(Ending { is_stop: true })
        } else {
            None
        }
    }

    /// Why a door is to end, if it is: the server stops, or, where it ends with the owner, that has ended.
    pub fn ending(&self, with_owner: bool) -> Option<Ending>
        ensures { ForSome result (λ ending. ending.is_stop ≡ false → with_owner ≡ true) }
    {
        if self.is_stopping.load(Ordering::SeqCst) {
            Some(Ending { is_stop: true })
        } else if with_owner && self.has_owner_ended() {
            Some(Ending { is_stop: false })
        } else {
            None
        }
    }

    /// The owner has ended.
    pub fn note_owner_ended(&self) {
        self.has_owner_ended.store(true, Ordering::SeqCst);
    }

    pub fn has_owner_ended(&self) -> bool {
        self.has_owner_ended.load(Ordering::SeqCst)
    }

    /// m threads are to share n roles. The last is that of the roles after the workers, where there are any.
    pub fn share(&self, roles: usize, threads: usize, later: LaterRoles) -> Shares
        ensures { (result.workers ≡ roles - later.count - 1)
            × IsEnough threads later.count result.workers result.spread roles }
    {
        let shares = Shares::of(roles, threads, later);
        let last = threads.saturating_sub(1);
        let later_bit = if later.count > 0 { bit(last) } else { 0 };
        self.shares.store(word_of(shares), Ordering::SeqCst);
        self.threads.store(threads as u64, Ordering::SeqCst);
        self.later.store(later_bit, Ordering::SeqCst);
        self.later_hear_owner
            .store(later.hear_owner, Ordering::SeqCst);
        shares
    }

    /// How many threads there are.
    pub fn threads(&self) -> usize {
        self.threads.load(Ordering::SeqCst) as usize
    }

    /// How the threads share the roles, as they were asked to last.
    pub fn shares(&self) -> Shares {
        shares_of(self.shares.load(Ordering::SeqCst))
    }
}

/// Why a door is to end, or a link: the server stops, or else the owner has ended. Nothing but a hub makes one.
#[derive(Clone, Copy, Debug, PartialEq, Eq)]
pub struct Ending {
    is_stop: bool,
}

/// Threads that are to be woken.
#[derive(Clone, Copy)]
pub struct Sleepers {
    bits: u64,
}

impl Sleepers {
    pub fn is_empty(self) -> bool {
        self.bits == 0
    }

    pub fn has(self, thread: usize) -> bool {
        self.bits & bit(thread) != 0
    }
}
