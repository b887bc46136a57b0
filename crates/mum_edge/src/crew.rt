//! A crew of threads that sleep until a socket is ready or another thread wakes them.

ghost use Rattle.std.specs.Prelude.{◌≡◌};

use crate::station::{PollSleeper, WAKER};
use crate::stream::StreamPolls;
use mio::{Events, Poll, Token, Waker};
use mum_crew::{Crew, CrewEnd, Plan, RunTally};
use mum_link::{Board, Hub, LaterRoles, Life, LinkStation, Shares, Stations, THREAD_LIMIT};
use std::alloc::{AllocError, Global};
use std::io::Eprint;
use std::net::Net;
use std::sync::{Arc, Wait};
use std::thread::Threads;
use std::time::{Clock, Instant};
use std::{io, thread};

// How many events one look takes notice of.
const EVENTS: usize = 256;

/// The station of one thread.
pub type SocketStation<X> = LinkStation<PollSleeper<X>>;

/// Threads with a station each: the first for the owner, the next for the workers, the last for the roles after these,
/// where there are any.
#[derive(Drop)]
pub struct ThreadCrew<X> {
    rt: X,
    hub: Arc<Hub>,
    stations: Stations<SocketStation<X>>,
    pub later: LaterRoles,
    tally: RunTally,
    life: Life<X>,
}

/// How many threads the owner and the workers have on this machine: the owner's, and one for each two processors.
pub fn thread_count<X: Threads>(rt: &X) -> usize {
    let processors = thread::available_parallelism(rt).map_or(1, |count| count.get());
    (processors / 2).clamp(1, THREAD_LIMIT - 2) + 1
}

impl<X: Net + Clock + Copy> ThreadCrew<X> {
    // A crew of this many threads for the owner and the workers, and one for n roles after these, if there are any.
    pub(crate) fn new(
        rt: X,
        alloc: Global,
        hub: Arc<Hub>,
        threads: usize,
        later_roles: usize,
        life: Life<X>,
    ) -> io::Result<ThreadCrew<X>> {
        let later = LaterRoles::new(later_roles);
        let threads = threads.saturating_add(later.threads()).min(THREAD_LIMIT);
        let stations = stations(rt, alloc, &hub, threads, life)?;
        Ok(ThreadCrew {
            rt,
            stations: Stations::new(alloc, stations, later),
            hub,
            later,
            tally: RunTally::new(),
            life,
        })
    }

    // The boards of its threads.
    pub(crate) fn boards(&self, alloc: Global) -> Result<Vec<Arc<Board>>, AllocError> {
        let stations = self.stations.as_slice();
        let mut boards = Vec::with_capacity(alloc, stations.len())?;
        for station in stations.iter() {
            boards.push(station.board.clone()?)?;
        }
        Ok(boards)
    }

    // What sockets share, with the polls of its threads.
    pub(crate) fn polls(&self, alloc: Global) -> io::Result<Arc<StreamPolls>> {
        let stations = self.stations.as_slice();
        let mut registries = Vec::with_capacity(alloc, stations.len())?;
        for station in stations.iter() {
            registries.push(station.sleeper.poll.registry().try_clone()?)?;
        }
        let polls = StreamPolls::new(alloc, registries)?;
        Ok(Arc::new(alloc, polls)?)
    }
}

impl<X> ThreadCrew<X> {
    /// How many rounds worked although their thread slept to the end: wakes that were missed.
    pub fn late_rounds(&self) -> u64 {
        self.hub.late_rounds()
    }
}

fn stations<X: Net + Clock + Copy>(
    rt: X,
    alloc: Global,
    hub: &Arc<Hub>,
    threads: usize,
    life: Life<X>,
) -> io::Result<Vec<SocketStation<X>>> {
    let start = Instant::now(&rt)?;
    let mut polls = Vec::with_capacity(alloc, threads)?;
    let mut wakers = Vec::with_capacity(alloc, threads)?;
    for _ in 0..threads {
        let poll = Poll::new(&rt)?;
        wakers.push(Waker::new(poll.registry(), Token(WAKER))?)?;
        polls.push(poll)?;
    }
    let wakers = Arc::new(alloc, wakers)?;
    let mut stations = Vec::with_capacity(alloc, threads)?;
    for poll in polls.into_iter() {
        let sleeper = PollSleeper {
            rt,
            start,
            poll,
            events: Events::with_capacity(alloc, EVENTS)?,
            wakers: wakers.clone()?,
            life,
        };
        let board = Arc::new(alloc, Board::new())?;
        let thread = stations.len();
        stations.push(LinkStation::new(sleeper, hub.clone()?, board, thread))?;
    }
    Ok(stations)
}

impl<X: Net + Wait + Threads + Clock + Eprint + Copy + Sync + Send> Crew for ThreadCrew<X> {
    type Runtime = X;

    type Station = SocketStation<X>;

    ghost counts = { λ c. c.tally };

    fn runtime(&self) -> X {
        self.rt
    }

    fn plan(&mut self, alloc: Global, roles: usize) -> Plan<SocketStation<X>> {
        let threads = self.stations.as_slice().len();
        let Shares { workers, spread } = self.hub.share(roles, threads, self.later);
        Plan::Threads {
            stations: self.stations.lend(alloc, spread),
            workers,
            spread,
        }
    }

    fn keep(&mut self, plan: Plan<SocketStation<X>>)
        ensures { self.new.tally ≡ self.old.tally }
    {
        match plan {
            Plan::Threads { stations, .. } => {
                let times = self.hub.late_rounds();
                if times > 0 {
                    self.life.overslept(times);
                }
                self.stations.take_back(stations);
            }
            Plan::Turns(turns) => drop(turns),
        }
    }

    fn count(&mut self, end: CrewEnd) {
        self.tally.count(end);
    }
}
