//! A run over the steps of a recording.

ghost use Rattle.mum_record.specs.Grammar.{IsRecordable};

use crate::caller::Caller;
use crate::end::End;
use crate::spoken::Spoken;
use crate::states::States;
use crate::story::Story;
use crate::words::session_in;
use mum_base::{Mark, OutOfMemory, SessionId};
use mum_core::{PlainCore, StepFault};
use mum_frame::whole_frame;
use mum_record::{ControlEntry, LineFault, Step, read_step};
use mum_voice::Packet;
use std::alloc::Global;
use std::mem::drop;

// A packet that a worker holds.
#[derive(Clone, Copy)]
struct Held {
    worker: u32,
    connection: u32,
    target: u8,
}

// What was said so far, and what waits to be decided.
#[derive(Drop)]
pub(crate) struct Run {
    alloc: Global,
    story: Story,
    /// Connection n is at place n - 1.
    callers: Vec<Caller>,
    held: Vec<Held>,
    /// How many commands were decided before the last publish.
    published: usize,
    over: bool,
}

// The target of the packet in a frame, if it has one.
fn target_in(bytes: &[u8]) -> Option<u8> {
    let view = whole_frame(bytes)?;
    match Packet::parse(view.payload) {
        Ok(packet) => Some(packet.target),
        Err(_) => None,
    }
}

// The session whose connection is to lag, if the line says so.
fn lagged(told: &str) -> Option<SessionId> {
    let Some(("lagged", word)) = told.split_once(' ') else {
        return None;
    };
    session_in(word)
}

// Whether a connection got a session by its login.
fn is_of(states: &States, connection: u32, session: SessionId) -> bool {
    match states.session(connection) {
        Some(own) => own.0 == session.0,
        None => false,
    }
}

impl Run {
    // A run that took no step yet.
    pub(crate) fn new(alloc: Global, story: Story) -> Run {
        Run {
            alloc,
            story,
            callers: Vec::new(alloc),
            held: Vec::new(alloc),
            published: 0,
            over: false,
        }
    }

    // Whether the last step was taken.
    pub(crate) fn is_over(&self) -> bool {
        self.over
    }

    // All that was said.
    pub(crate) fn into_story(self) -> Story {
        let Run { story, callers, .. } = self;
        drop(callers);
        story
    }

    fn caller(&mut self, connection: u32) -> Option<&mut Caller> {
        let place = (connection as usize).checked_sub(1)?;
        self.callers.get_mut(place)
    }

    // A worker holds a packet in place of the one before.
    fn hold(&mut self, held: Held) -> Result<(), OutOfMemory> {
        for before in self.held.iter_mut() {
            if before.worker == held.worker {
                *before = held;
                return Ok(());
            }
        }
        self.held.push(held)?;
        Ok(())
    }

    // The packet that a worker holds.
    fn held_by(&self, worker: u32) -> Option<Held> {
        for held in self.held.as_slice() {
            if held.worker == worker {
                return Some(*held);
            }
        }
        None
    }

    // A frame was heard: its worker holds a packet.
    fn heard(&mut self, connection: u32, bytes: &[u8]) -> Result<(), OutOfMemory> {
        let Some(target) = target_in(bytes) else {
            return Ok(());
        };
        let Some(caller) = self.caller(connection) else {
            return Ok(());
        };
        let worker = caller.worker;
        self.hold(Held {
            worker,
            connection,
            target,
        })
    }

    // What was reported of a frame.
    fn framed(&mut self, connection: u32, bytes: &[u8], told: &str) -> Result<(), OutOfMemory> {
        let alloc = self.alloc;
        if told.starts_with("heard") {
            return self.heard(connection, bytes);
        }
        let Some(caller) = self.caller(connection) else {
            return Ok(());
        };
        if told.starts_with("asked") {
            return caller.ask(alloc, bytes);
        }
        if told.starts_with("kept") {
            return caller.keep(alloc, bytes);
        }
        Ok(())
    }

    // The entry of what a connection asked for next.
    fn next_entry(&mut self, connection: u32) -> Option<ControlEntry> {
        let caller = self.caller(connection)?;
        let version = caller.version;
        let frame = caller.next()?;
        Some(ControlEntry {
            connection,
            version,
            frame,
            verdict: Mark::Answer,
        })
    }

    // What a connection asked for next is decided in this line.
    fn edited(&mut self, line: u64, connection: u32) -> Result<(), OutOfMemory> {
        match self.next_entry(connection) {
            Some(entry) => self.story.decide(self.alloc, line, entry),
            None => Ok(()),
        }
    }

    // A connection is opened at a worker.
    fn opened(&mut self, worker: u32) -> Result<(), OutOfMemory> {
        self.callers.push(Caller::new(self.alloc, worker))?;
        Ok(())
    }

    // A worker looked for its packet.
    fn looked(&mut self, line: u64, worker: u32, revision: u64) -> Result<(), OutOfMemory> {
        let Some(held) = self.held_by(worker) else {
            return Ok(());
        };
        self.story.packets.push(Spoken {
            line,
            connection: held.connection,
            revision,
            target: held.target,
            seen: Some(self.published),
        })?;
        Ok(())
    }

    // A connection is to leave.
    fn leave(&mut self, connection: u32) -> Result<(), OutOfMemory> {
        match self.caller(connection) {
            Some(caller) => caller.leave(),
            None => Ok(()),
        }
    }

    // The connection of a session is to leave.
    fn leave_of(&mut self, session: SessionId) -> Result<(), OutOfMemory> {
        let mut connection = 0u32;
        for caller in self.callers.iter_mut() {
            connection = connection.saturating_add(1);
            if is_of(&self.story.states, connection, session) {
                return caller.leave();
            }
        }
        Ok(())
    }

    // A notice went to its session, or the session lagged.
    fn posted(&mut self, told: &str) -> Result<(), OutOfMemory> {
        match lagged(told) {
            Some(session) => self.leave_of(session),
            None => Ok(()),
        }
    }

    // Notes a step that was taken, by what was reported of it.
    fn note(&mut self, line: u64, step: &Step, told: &str) -> Result<(), OutOfMemory> {
        match step {
            Step::Open { worker, .. } => self.opened(*worker),
            Step::Frame { connection, bytes } => self.framed(*connection, bytes.as_slice(), told),
            Step::Edit { connection } => self.edited(line, *connection),
            Step::Look { worker, revision } => self.looked(line, *worker, *revision),
            Step::Close { connection, .. } => self.leave(*connection),
            Step::Post => self.posted(told),
            Step::Publish => {
                self.published = self.story.lines.len();
                Ok(())
            }
            Step::End => {
                self.over = true;
                Ok(())
            }
            _ => Ok(()),
        }
    }
}

// Takes the step of a line.
fn take(
    core: &mut PlainCore,
    run: &mut Run,
    line: u64,
    step: &Step,
    told: &mut String,
) -> Result<(), End>
    requires { IsRecordable step.now }
{
    told.clear();
    match core.take(step, told) {
        Ok(()) => {}
        Err(StepFault::Illegal { given, against }) => {
            return Err(End::Illegal {
                line,
                given,
                against,
            });
        }
        Err(StepFault::OutOfMemory) => return Err(End::OutOfMemory),
    }
    run.note(line, step, told.as_str())?;
    Ok(())
}

// Takes a line.
pub(crate) fn take_line(
    alloc: Global,
    core: &mut PlainCore,
    run: &mut Run,
    line: u64,
    bytes: &[u8],
    told: &mut String,
) -> Result<(), End> {
    if run.is_over() {
        return Err(End::NotALine { line });
    }
    match read_step(alloc, bytes) {
        Ok(step) => take(core, run, line, &step, told),
        Err(LineFault::NotALine) => Err(End::NotALine { line }),
        Err(LineFault::OutOfMemory) => Err(End::OutOfMemory),
    }
}
