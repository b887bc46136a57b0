//! How the threads of a crew share its roles.

ghost use Rattle.std.specs.Prelude.{◌≡◌, ◌-◌, false};
ghost use Rattle.mum_link.specs.Sharing.{IsEnough, later_threads, thread_of_link};

use std::alloc::Global;
use std::mem::replace;

/// The roles after the workers.
#[derive(Clone, Copy)]
pub struct LaterRoles {
    pub count: usize,
    /// Whether one of them is to be woken where the owner worked.
    pub hear_owner: bool,
}

impl LaterRoles {
    /// This many, none of which hears of the owner.
    pub fn new(count: usize) -> LaterRoles
        ensures { result ≡ record { count = count; hear_owner = false } }
    {
        LaterRoles {
            count,
            hear_owner: false,
        }
    }

    /// How many threads are theirs.
    pub fn threads(self) -> usize
        ensures { result ≡ later_threads self.count }
    {
        usize::from(self.count > 0)
    }
}

/// How many workers there are, and how many threads share them.
#[derive(Clone, Copy)]
pub struct Shares {
    pub workers: usize,
    pub spread: u16,
}

impl Shares {
    /// Of m roles in at most n threads, which are enough where there is one for the owner, one for workers, and
    /// one for the roles after these, if there are any.
    pub fn of(roles: usize, threads: usize, later: LaterRoles) -> Shares
        ensures workers { result.workers ≡ roles - later.count - 1 }
        ensures enough { IsEnough threads later.count result.workers result.spread roles }
    {
        let workers = roles.saturating_sub(later.count).saturating_sub(1);
        let most = threads
            .saturating_sub(1)
            .saturating_sub(later.threads())
            .min(workers.max(1));
        let spread = match u16::try_from(most) {
            Ok(spread) => spread,
            Err(_) => u16::MAX,
        };
        Shares { workers, spread }
    }

    /// The thread of the worker to whom this connection belongs. Connections are numbered from 1.
    pub fn thread_of(self, connection: u64) -> usize
        ensures { result ≡ thread_of_link self connection }
    {
        // before the workers' roles is the owner's
        let worker = connection.saturating_sub(1) as usize % self.workers.max(1) + 1;
        mum_crew::thread_of(worker, self.spread, self.workers)
    }
}

/// The stations of a crew in the order of their numbers, the last for the roles after the workers, where there are any.
#[derive(Drop)]
pub struct Stations<S> {
    list: Vec<S>,
    spare: Vec<S>,
    has_later: bool,
}

// Puts a station after the others. Where there is no memory for it, it is dropped.
fn put<S: Drop>(list: &mut Vec<S>, station: Option<S>) {
    if let Some(station) = station {
        let _no_memory = list.push(station);
    }
}

// Moves the last stations from one list to the other, until this many are left.
fn move_last<S: Drop>(from: &mut Vec<S>, to: &mut Vec<S>, left: usize) {
    for _ in left..from.len() {
        put(to, from.pop());
    }
}

impl<S: Drop> Stations<S> {
    pub fn new(alloc: Global, list: Vec<S>, later: LaterRoles) -> Stations<S> {
        Stations {
            list,
            spare: Vec::new(alloc),
            has_later: later.count > 0,
        }
    }

    pub fn as_slice(&self) -> &[S]
        ensures { result.now ≡ self.now.list.items }
    {
        self.list.as_slice()
    }

    /// Those of the owner, of n threads that share the workers, and of the roles after them.
    pub fn lend(&mut self, alloc: Global, spread: u16) -> Vec<S> {
        let later = self.take_later();
        move_last(&mut self.list, &mut self.spare, usize::from(spread) + 1);
        put(&mut self.list, later);
        replace(&mut self.list, Vec::new(alloc))
    }

    /// Those that were lent.
    pub fn take_back(&mut self, stations: Vec<S>) {
        drop(replace(&mut self.list, stations));
        let later = self.take_later();
        move_last(&mut self.spare, &mut self.list, 0);
        put(&mut self.list, later);
    }

    // That of the roles after the workers, which is the last.
    fn take_later(&mut self) -> Option<S> {
        if self.has_later {
            self.list.pop()
        } else {
            None
        }
    }
}
