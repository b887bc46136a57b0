//! `mum_io` and `mum_crew`: a link, a door and a crew of a test's own, as anybody may write them; what a link in
//! memory hands back; in which order roles get their turns.

ghost use Rattle.std.specs.Prelude.{◌≡◌, ◌==◌, None, replicate};

use mum_base::Octets;
use mum_crew::{Crew, CrewEnd, Look, Plan, Role, RunTally, Station, Turn, TurnCrew};
use mum_io::{
    Accept, Door, DoorEvent, DoorOpen, Link, LinkEvent, MemClock, MemDoor, MemLink, PollRead,
    PollWrite, Tally,
};
use std::alloc::{AllocError, Global};
use std::process::Abort;
use std::sync::atomic::{AtomicU64, Ordering};
use std::sync::{Arc, Wait};
use std::thread;
use std::thread::Threads;
use std::time::Clock;

// A link that gives back each byte that is written to it. It reports nothing of its bytes.
#[derive(Drop)]
struct Echo {
    byte: Option<u8>,
    tally: Tally,
    is_shut: bool,
}

impl Link for Echo {
    ghost facts = { λ e. record { counts = e.tally; left = None; written = None; address = replicate 16 0; is_shut = e.is_shut } };

    fn poll_read(&mut self, buf: &mut [u8]) -> PollRead {
        let Some(byte) = self.byte.take() else {
            self.tally.count_stall();
            return PollRead::NotYet;
        };
        buf[0] = byte;
        PollRead::Got(1)
    }

    fn poll_write(&mut self, piece: &[u8]) -> PollWrite {
        if self.byte.is_some() {
            self.tally.count_stall();
            return PollWrite::NotYet;
        }
        self.byte = Some(piece[0]);
        PollWrite::Took(1)
    }

    fn shut(&mut self) {
        self.is_shut = true;
    }

    fn address(&self) -> [u8; 16] {
        [0; 16]
    }
}

// A door that gives one echo, wherever it is opened, and then fails.
#[derive(Drop)]
struct OneEcho {
    given: u64,
    tally: Tally,
}

impl Door for OneEcho {
    type Conn = Echo;

    ghost facts = { λ d. record { counts = d.tally; given = d.given; opened_at = None } };

    fn open(&mut self, _address: &str) -> DoorOpen {
        DoorOpen::Opened
    }

    fn poll_accept(&mut self) -> Accept<Echo> {
        if self.given > 0 {
            self.tally.count_fault();
            return Accept::Failed;
        }
        self.given = 1;
        Accept::Conn(Echo {
            byte: None,
            tally: Tally::new(),
            is_shut: false,
        })
    }
}

// A station of a thread that never sleeps.
#[derive(Drop)]
struct Awake;

impl Station for Awake {
    fn begin(&mut self) {}

    fn were_all_asked(&self) -> bool {
        true
    }

    fn hold(&mut self) {}

    fn release(&mut self) -> bool {
        false
    }

    fn wake_others(&mut self, _owner_too: bool) {}

    fn wake_all(&mut self) {}

    fn note_owner(&mut self) {}

    fn note_ended(&mut self) {}

    fn did_owner_work(&mut self) -> bool {
        false
    }

    fn was_shut(&mut self) -> bool {
        false
    }

    fn had_news(&mut self) -> bool {
        false
    }

    fn look(&mut self, _may_sleep: bool) -> Look {
        thread::yield_now();
        Look::Something
    }

    fn note_late(&mut self) {}
}

// A crew of this many threads that never sleep.
#[derive(Drop)]
struct Watchers<X> {
    rt: X,
    threads: u16,
    tally: RunTally,
}

fn stations(alloc: Global, threads: u16) -> Result<Vec<Awake>, AllocError> {
    let mut all = Vec::with_capacity(alloc, usize::from(threads))?;
    for _ in 0..threads {
        all.push(Awake)?;
    }
    Ok(all)
}

impl<X: Wait + Threads + Clock + Copy + Sync> Crew for Watchers<X> {
    type Runtime = X;

    type Station = Awake;

    ghost counts = { λ w. w.tally };

    fn runtime(&self) -> X {
        self.rt
    }

    fn plan(&mut self, alloc: Global, roles: usize) -> Plan<Awake> {
        Plan::Threads {
            stations: stations(alloc, self.threads).unwrap_or(Vec::new(alloc)),
            workers: roles,
            spread: self.threads.saturating_sub(1),
        }
    }

    fn keep(&mut self, plan: Plan<Awake>)
        ensures { self.new.tally ≡ self.old.tally }
    {
        drop(plan);
    }

    fn count(&mut self, end: CrewEnd) {
        self.tally.count(end);
    }
}

// A role that writes its number into a word at each of its turns.
#[derive(Drop)]
struct Writer {
    number: u64,
    turns: u32,
    word: Arc<AtomicU64>,
}

impl Role for Writer {
    ghost use Rattle.std.specs.Prelude.{⊤};

    type Opening = u64;

    ghost opening = { λ w. w.number };

    ghost has_ended = { λ w. w.turns == 0 };

    ghost turned = { λ _ _ _. ⊤ };

    fn turn(&mut self) -> Turn {
        let word = self.word.load(Ordering::SeqCst);
        let digits = word.wrapping_mul(10).wrapping_add(self.number);
        self.word.store(digits, Ordering::SeqCst);
        self.turns = self.turns.saturating_sub(1);
        if self.turns == 0 {
            Turn::Done
        } else {
            Turn::Worked
        }
    }
}

// Writers with the numbers from 1, each with this many turns.
fn writers(
    rt: &impl Abort,
    alloc: Global,
    count: u64,
    turns: u32,
    word: &Arc<AtomicU64>,
) -> Vec<Writer> {
    let mut all = Vec::new(alloc);
    for number in 0..count {
        let writer = Writer {
            number: number.wrapping_add(1),
            turns,
            word: word.clone().expect(rt, "memory"),
        };
        all.push(writer).expect(rt, "memory");
    }
    all
}

// Runs three writers of three turns each. The end, and what they wrote.
fn write_all<C: Crew>(rt: &impl Abort, alloc: Global, crew: &mut C) -> (CrewEnd, u64) {
    let word = Arc::new(alloc, AtomicU64::new(0)).expect(rt, "memory");
    let run = crew.run(alloc, writers(rt, alloc, 3, 3, &word));
    (run.end, word.load(Ordering::SeqCst))
}

#[test]
fn turns_come_in_the_order_of_their_list(rt: HostRuntime) {
    let alloc: Global = rt.alloc();
    // the second writer, the first, a number without a role, the second; then rounds
    let turns = vec![in alloc; 1, 0, 9, 1].expect(&rt, "memory");
    let mut crew = TurnCrew::new(rt, turns);
    assert_eq!(rt;
        write_all(&rt, alloc, &mut crew),
        (CrewEnd::Ran, 212_123_133)
    );
    assert_eq!(rt;
        write_all(&rt, alloc, &mut crew),
        (CrewEnd::Ran, 212_123_133)
    );
}

#[test]
fn threads_run_all_roles_or_none(rt: HostRuntime) {
    let alloc: Global = rt.alloc();
    let mut crew = Watchers {
        rt,
        threads: 0,
        tally: RunTally::new(),
    };
    assert_eq!(rt; write_all(&rt, alloc, &mut crew), (CrewEnd::Refused, 0));
    // the first role has many turns in a round
    crew.threads = 1;
    assert_eq!(rt;
        write_all(&rt, alloc, &mut crew),
        (CrewEnd::Ran, 111_232_323)
    );
    crew.threads = 3;
    let (end, _in_any_order) = write_all(&rt, alloc, &mut crew);
    assert_eq!(rt; end, CrewEnd::Ran);
}

// Asks a door once, and hands a byte to whom it gives. The byte that comes back.
fn echoed<D: Door>(door: &mut D, byte: u8) -> Option<u8> {
    let DoorOpen::Opened = door.open("here") else {
        return None;
    };
    let Accept::Conn(mut link) = door.poll_accept() else {
        return None;
    };
    let _took = link.poll_write(&[byte]);
    let mut buf = [0u8; 4];
    let PollRead::Got(1) = link.poll_read(&mut buf) else {
        return None;
    };
    link.shut();
    Some(buf[0])
}

#[test]
fn a_door_of_ones_own_serves(rt: HostRuntime) {
    let mut door = OneEcho {
        given: 0,
        tally: Tally::new(),
    };
    assert_eq!(rt; echoed(&mut door, 7), Some(7));
    assert_eq!(rt; echoed(&mut door, 7), None);
}

// A client that ends. The second write to it fails.
fn link(rt: &impl Abort, alloc: Global) -> DoorEvent {
    let events = vec![in alloc; LinkEvent::End].expect(rt, "memory");
    let failing = vec![in alloc; 2].expect(rt, "memory");
    DoorEvent::Conn(MemLink::new(alloc, events, failing))
}

// A door that gives two clients, and nobody between them.
fn door(rt: &impl Abort, alloc: Global) -> MemDoor {
    let mut events = Vec::new(alloc);
    events.push(link(rt, alloc)).expect(rt, "memory");
    events.push(DoorEvent::NotYet).expect(rt, "memory");
    events.push(link(rt, alloc)).expect(rt, "memory");
    MemDoor::new(alloc, events, true).expect(rt, "memory")
}

fn bytes(written: Option<&Octets>) -> Option<&[u8]> {
    match written {
        Some(octets) => Some(octets.as_slice()),
        None => None,
    }
}

// The next client of a door.
fn accepted(rt: &impl Abort, door: &mut MemDoor) -> MemLink {
    match door.poll_accept() {
        Accept::Conn(link) => link,
        _ => panic!(rt; "no connection"),
    }
}

#[test]
fn a_link_hands_back_what_was_written(rt: HostRuntime) {
    let mut door = door(&rt, rt.alloc());
    assert_eq!(rt; door.open("here"), DoorOpen::Opened);
    let mut link = accepted(&rt, &mut door);
    assert_eq!(rt; link.poll_write(b"one"), PollWrite::Took(3));
    assert_eq!(rt; link.poll_write(b" two"), PollWrite::Failed);
    assert_eq!(rt; link.poll_write(b" three"), PollWrite::Took(6));
    assert!(rt; bytes(door.written(0)).is_none());
    link.shut();
    link.shut();
    assert_eq!(rt; bytes(door.written(0)), Some(b"one three".as_slice()));
    assert!(rt; bytes(door.written(1)).is_none());
    assert!(rt; bytes(door.written(2)).is_none());
    assert_eq!(rt; (link.starved(), door.starved()), (0, 0));
    drop(link);
    drop(door);
}

fn crosses_threads<T: Send>(_value: &T) {}

#[test]
fn what_is_in_memory_crosses_threads(rt: HostRuntime) {
    let alloc: Global = rt.alloc();
    let door = MemDoor::new(alloc, Vec::new(alloc), true).expect(&rt, "memory");
    crosses_threads(&door);
    drop(door);
    crosses_threads(&MemClock::new(Vec::new(alloc)));
}
