//! A run of the program that serves.

ghost use Rattle.std.specs.Prelude.{◌≡◌};

use mum_base::Octets;
use mum_crew::turn_crew::NoStation;
use mum_crew::{Crew, CrewEnd, Plan, RunTally, TurnCrew};
use mum_io::{Door, DoorEvent, LinkEvent, MemClock, MemDoor, MemLink, MemSink, MemSource};
use mum_keeper::MapKeeper;
use mum_server::murmur;
use std::alloc::Global;
use std::process::Abort;
use std::sync::Wait;
use std::thread::Threads;
use std::time::Clock;

/// A door that tests can make.
pub trait TestDoor: Door + Send {
    /// One that gives nobody.
    fn empty(rt: &impl Abort, alloc: Global) -> Self;
}

impl TestDoor for MemDoor {
    fn empty(rt: &impl Abort, alloc: Global) -> MemDoor {
        MemDoor::new(alloc, Vec::new(alloc), true).expect(rt, "memory")
    }
}

/// What a run came to: its status, its output and its errors, the doors, the clock and the keeper.
#[derive(Drop)]
pub struct Outcome<D: Drop> {
    pub status: u8,
    output: MemSink,
    errors: MemSink,
    door: Option<D>,
    view: Option<D>,
    pub clock: Option<MemClock>,
    keeper: Option<MapKeeper>,
}

fn text(bytes: &[u8]) -> &str {
    match str::from_utf8(bytes) {
        Ok(text) => text,
        Err(_) => "no text",
    }
}

impl<D: Drop> Outcome<D> {
    pub fn output(&self) -> &str {
        text(self.output.bytes())
    }

    pub fn errors(&self) -> &str {
        text(self.errors.bytes())
    }

    /// The door, which a run hands back.
    pub fn door<'a>(&'a self, rt: &impl Abort) -> &'a D {
        self.door.as_ref().expect(rt, "no door")
    }

    /// The keeper, which a run hands back too.
    pub fn keeper<'a>(&'a self, rt: &impl Abort) -> &'a MapKeeper {
        self.keeper.as_ref().expect(rt, "no keeper")
    }

    /// The door of the views, which a run hands back too.
    pub fn view<'a>(&'a self, rt: &impl Abort) -> &'a D {
        self.view.as_ref().expect(rt, "no door")
    }
}

// A list of words.
fn owned(rt: &impl Abort, alloc: Global, words: &[&str]) -> Vec<String> {
    let mut list = Vec::new(alloc);
    for word in words {
        let word = String::from_str(alloc, word).expect(rt, "memory");
        list.push(word).expect(rt, "memory");
    }
    list
}

/// Runs these words with this input and a door, and with one for views that gives nobody. The writes of these numbers
/// fail.
pub fn ran_with<R: Abort + Copy + Send + Wait, D: TestDoor, C: Crew>(
    rt: &R,
    alloc: Global,
    words: &[&str],
    input: &str,
    failing: &[u64],
    door: D,
    crew: &mut C,
) -> Outcome<D> {
    let doors = (door, D::empty(rt, alloc));
    ran_over(rt, alloc, words, input, failing, doors, crew)
}

/// The same with a door and one for views.
pub fn ran_over<R: Abort + Copy + Send + Wait, D: Door + Send, C: Crew>(
    rt: &R,
    alloc: Global,
    words: &[&str],
    input: &str,
    failing: &[u64],
    doors: (D, D),
    crew: &mut C,
) -> Outcome<D> {
    let keeper = MapKeeper::new(alloc, Vec::new(alloc));
    ran_by(rt, alloc, words, input, failing, doors, &[], keeper, crew)
}

/// Runs these words on no input with a door and this keeper.
pub fn ran_keeping<R: Abort + Copy + Send + Wait, D: TestDoor, C: Crew>(
    rt: &R,
    alloc: Global,
    words: &[&str],
    door: D,
    keeper: MapKeeper,
    crew: &mut C,
) -> Outcome<D> {
    let doors = (door, D::empty(rt, alloc));
    ran_by(rt, alloc, words, "", &[], doors, &[], keeper, crew)
}

// Runs these words with a clock that answers these moments, and then the last of them, and with a keeper.
fn ran_by<R: Abort + Copy + Send + Wait, D: Door + Send, C: Crew>(
    rt: &R,
    alloc: Global,
    words: &[&str],
    input: &str,
    failing: &[u64],
    doors: (D, D),
    moments: &[u64],
    keeper: MapKeeper,
    crew: &mut C,
) -> Outcome<D> {
    let words = owned(rt, alloc, words);
    let bytes = Octets::of(alloc, input.as_bytes()).expect(rt, "memory");
    let failing = Vec::from_slice(alloc, failing).expect(rt, "memory");
    let mut input = MemSource::new(bytes, Vec::new(alloc));
    let mut output = MemSink::new(alloc, failing);
    let mut errors = MemSink::new(alloc, Vec::new(alloc));
    let (door, view) = doors;
    let (mut door, mut view) = (Some(door), Some(view));
    let moments = Vec::from_slice(alloc, moments).expect(rt, "memory");
    let mut clock = Some(MemClock::new(moments));
    let mut keeper = Some(keeper);
    let status = murmur(
        rt,
        alloc,
        &words,
        &mut input,
        &mut output,
        &mut errors,
        &mut door,
        &mut view,
        crew,
        &mut clock,
        &mut keeper,
    );
    drop(words);
    drop(input);
    Outcome {
        status,
        output,
        errors,
        door,
        view,
        clock,
        keeper,
    }
}

/// Serves this many connections that come to a door, with this configuration.
pub fn ran<R: Abort + Copy + Send + Wait, D: TestDoor, C: Crew>(
    rt: &R,
    alloc: Global,
    connections: &str,
    configuration: &str,
    door: D,
    crew: &mut C,
) -> Outcome<D> {
    let words = ["serve", "x", connections];
    ran_with(rt, alloc, &words, configuration, &[], door, crew)
}

/// The same by a clock that answers these moments.
pub fn ran_at<R: Abort + Copy + Send + Wait, D: TestDoor, C: Crew>(
    rt: &R,
    alloc: Global,
    connections: &str,
    configuration: &str,
    door: D,
    moments: &[u64],
    crew: &mut C,
) -> Outcome<D> {
    let words = ["serve", "x", connections];
    let doors = (door, D::empty(rt, alloc));
    let keeper = MapKeeper::new(alloc, Vec::new(alloc));
    ran_by(
        rt,
        alloc,
        &words,
        configuration,
        &[],
        doors,
        moments,
        keeper,
        crew,
    )
}

/// Serves on the calling thread, whose roles have their turns in the order of this list.
pub fn ran_by_turns<X, D: TestDoor>(
    rt: X,
    alloc: Global,
    connections: &str,
    configuration: &str,
    door: D,
    turns: Vec<u8>,
) -> Outcome<D>
where
    X: Abort + Clock + Copy + Send + Sync + Threads + Wait,
{
    let mut crew = TurnCrew::new(rt, turns);
    ran(&rt, alloc, connections, configuration, door, &mut crew)
}

/// A list of turns that repeats this one so often. Role 0 is the owner, and those behind it are the workers.
pub fn turns(rt: &impl Abort, alloc: Global, pattern: &[u8], times: usize) -> Vec<u8> {
    let mut list = Vec::new(alloc);
    add_turns(rt, &mut list, pattern, times);
    list
}

/// So often these turns behind those of a list.
pub fn add_turns(rt: &impl Abort, list: &mut Vec<u8>, pattern: &[u8], times: usize) {
    for _ in 0..times {
        list.extend_from_slice(pattern).expect(rt, "memory");
    }
}

/// A link that finds these pieces, and then this. The writes of these numbers fail.
pub fn link(
    rt: &impl Abort,
    alloc: Global,
    pieces: &[&[u8]],
    last: LinkEvent,
    failing: &[u64],
) -> MemLink {
    let failing = Vec::from_slice(alloc, failing).expect(rt, "memory");
    let mut events = Vec::new(alloc);
    for piece in pieces {
        let bytes = Octets::of(alloc, piece).expect(rt, "memory");
        events.push(LinkEvent::Piece(bytes)).expect(rt, "memory");
    }
    events.push(last).expect(rt, "memory");
    MemLink::new(alloc, events, failing)
}

/// A door with this one event.
pub fn door_of(rt: &impl Abort, alloc: Global, event: DoorEvent) -> MemDoor {
    let mut events = Vec::new(alloc);
    events.push(event).expect(rt, "memory");
    MemDoor::new(alloc, events, true).expect(rt, "memory")
}

/// A crew without threads, which does not start.
#[derive(Drop)]
pub struct NoThreads<X> {
    rt: X,
    tally: RunTally,
}

impl<X> NoThreads<X> {
    pub fn new(rt: X) -> NoThreads<X> {
        NoThreads {
            rt,
            tally: RunTally::new(),
        }
    }
}

impl<X: Wait + Threads + Clock + Copy + Sync> Crew for NoThreads<X> {
    type Runtime = X;

    type Station = NoStation;

    ghost counts = { λ c. c.tally };

    fn runtime(&self) -> X {
        self.rt
    }

    fn plan(&mut self, alloc: Global, roles: usize) -> Plan<NoStation> {
        Plan::Threads {
            stations: Vec::new(alloc),
            workers: roles,
            spread: 0,
        }
    }

    fn keep(&mut self, plan: Plan<NoStation>)
        ensures { self.new.tally ≡ self.old.tally }
    {
        drop(plan);
    }

    fn count(&mut self, end: CrewEnd) {
        self.tally.count(end);
    }
}
