//! What `serve` needs of the machine.

use crate::clock::SystemClock;
use crate::crew::{ThreadCrew, thread_count};
use crate::listener::SocketListener;
use crate::peer::Peer;
use crate::stream::StreamPolls;
use mum_address::reports_under;
use mum_link::{Doorstep, Entrance, Hub, Life, Socket, SocketDoor};
use mum_pace::Pace;
use std::alloc::{AllocError, Global};
use std::env::VarError;
use std::fs::Files;
use std::io::{Eprint, ErrorKind};
use std::net::Net;
use std::rt::Env;
use std::sync::Arc;
use std::thread::Threads;
use std::time::Clock;
use std::{env, io};

/// A door at a socket: `IP:PORT`, `[IPv6]:PORT` or `unix:PATH`, and with `proxy:` before it a relay that begins each
/// connection with a PROXY header.
pub type MachineDoor<X> = SocketDoor<SocketListener<X>, Peer<X>>;

/// A crew, two doors and a clock that belong together. The caller takes them apart and hands them on:
///
/// ```text
/// let Machine { crew, door, view, clock } = Machine::open(rt, alloc, LATER_ROLES)?;
/// ```
///
/// The crew comes first, since the doors register their links at the polls on which the threads of the crew sleep.
/// The door is to be asked by the first role of that crew, and a connection's link by the worker to whom it belongs:
/// connection n belongs to worker (n - 1) modulo their number. The view door, and the links of its connections, are to be
/// asked by a role after the workers.
#[derive(Drop)]
pub struct Machine<X: Eprint + Drop>
where
    Peer<X>: Socket,
{
    pub crew: ThreadCrew<X>,
    pub door: MachineDoor<X>,
    pub view: MachineDoor<X>,
    pub clock: SystemClock<X>,
}

// How fast a client may send, the lines on standard error, and where to connect for a stop.
#[derive(Drop)]
struct Setting<X> {
    pace: Pace,
    life: Life<X>,
    stop_at: Option<String>,
}

impl<X: AllocGlobal + Net + Files + Env + Eprint + Threads + Clock + Copy> Machine<X> {
    /// Makes a crew for as many roles after the workers, with threads for half of the processors and the owner's.
    /// The environment's `MURMUR_PACE` says how fast a client may send, `MURMUR_LOG=none` that connections leave no
    /// lines on standard error, and `MURMUR_STOP` where to connect for a stop. Where the system refuses what threads
    /// sleep on, as to a process with too few descriptors, the door cannot be opened, and says why.
    pub fn open(rt: X, alloc: Global, later_roles: usize) -> io::Result<Machine<X>> {
        let life = log_of(&rt, Life::new(rt, alloc, true))?;
        let setting = Setting {
            pace: pace_of(&rt, &life)?,
            life,
            stop_at: variable(&rt, "MURMUR_STOP")?,
        };
        Machine::with(rt, alloc, thread_count(&rt), later_roles, setting)
    }

    /// The same with this many threads and this pace, whatever the environment says, and without lines on standard
    /// error about connections.
    pub fn quiet(
        rt: X,
        alloc: Global,
        threads: usize,
        later_roles: usize,
        pace: Pace,
    ) -> io::Result<Machine<X>> {
        let setting = Setting {
            pace,
            life: Life::new(rt, alloc, false),
            stop_at: None,
        };
        Machine::with(rt, alloc, threads, later_roles, setting)
    }

    fn with(
        rt: X,
        alloc: Global,
        threads: usize,
        later_roles: usize,
        setting: Setting<X>,
    ) -> io::Result<Machine<X>> {
        let life = setting.life;
        let hub = Arc::new(alloc, Hub::new(alloc)?)?;
        let (crew, polls, fault) = match crew_of(rt, alloc, &hub, threads, later_roles, life) {
            Ok((crew, polls)) => (crew, polls, None),
            Err(error) if error.kind() == ErrorKind::OutOfMemory => return Err(error),
            Err(error) => {
                let (crew, polls) = crew_of(rt, alloc, &hub, 0, 0, life)?;
                (crew, polls, error.raw_os_error())
            }
        };
        let step = Doorstep::of_users(setting.pace);
        let listener = SocketListener::new(rt, polls.clone()?, fault, life, setting.stop_at, false);
        let door = Entrance::new(alloc, hub.clone()?, crew.boards(alloc)?, step, listener);
        let step = Doorstep::of_views(polls.threads().saturating_sub(1));
        let keeps_little = step.delivery.patience.is_some();
        let listener = SocketListener::new(rt, polls, fault, life.silent(), None, keeps_little);
        let view = Entrance::new(alloc, hub, crew.boards(alloc)?, step, listener);
        Ok(Machine {
            crew,
            door: SocketDoor::new(door),
            view: SocketDoor::new(view),
            clock: SystemClock::new(rt),
        })
    }
}

// A crew of this many threads, and what sockets share.
fn crew_of<X: Net + Clock + Copy>(
    rt: X,
    alloc: Global,
    hub: &Arc<Hub>,
    threads: usize,
    later_roles: usize,
    life: Life<X>,
) -> io::Result<(ThreadCrew<X>, Arc<StreamPolls>)> {
    let crew = ThreadCrew::new(rt, alloc, hub.clone()?, threads, later_roles, life)?;
    let polls = crew.polls(alloc)?;
    Ok((crew, polls))
}

// The text of a variable. One that is not UTF-8 has none of the forms that are asked for, as an empty one has not.
fn variable<X: Env + AllocGlobal>(rt: &X, name: &str) -> Result<Option<String>, AllocError> {
    match env::var(rt, name) {
        Ok(text) => Ok(Some(text)),
        Err(VarError::NotPresent) => Ok(None),
        Err(VarError::NotUnicode) => Ok(Some(String::new(rt.alloc()))),
        Err(VarError::OutOfMemory) => Err(AllocError),
    }
}

fn log_of<X: Env + AllocGlobal + Eprint + Copy>(
    rt: &X,
    life: Life<X>,
) -> Result<Life<X>, AllocError> {
    let Some(word) = variable(rt, "MURMUR_LOG")? else {
        return Ok(life);
    };
    match reports_under(word.as_str()) {
        Some(true) => {}
        Some(false) => return Ok(life.silent()),
        None => life.is_no_log_word(word.as_str()),
    }
    Ok(life)
}

fn pace_of<X: Env + AllocGlobal + Eprint>(rt: &X, life: &Life<X>) -> Result<Pace, AllocError> {
    let Some(text) = variable(rt, "MURMUR_PACE")? else {
        return Ok(Pace::usual());
    };
    match Pace::from_text(text.as_str()) {
        Some(pace) => return Ok(pace),
        None => life.is_no_pace(text.as_str()),
    }
    Ok(Pace::usual())
}
