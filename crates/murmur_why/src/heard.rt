//! Who hears the packets of a story, and why the others do not.

ghost use Rattle.std.specs.Prelude.{◌≤◌, IfOk, length};

use crate::end::End;
use crate::hearers::{Said, push_lines, push_said};
use crate::names::push_number;
use crate::spoken::Spoken;
use crate::states::States;
use crate::story::Story;
use mum_base::{OutOfMemory, SessionId};
use mum_io::{Sink, write_all};
use mum_tree::Scratch;
use std::alloc::Global;

// Appends all lines of what is said at a revision.
fn push_answer(
    alloc: Global,
    text: &mut String,
    states: &mut States,
    said: Said,
    session: Option<SessionId>,
    scratch: &mut Scratch,
) -> Result<(), OutOfMemory>
    requires { said.revision ≤ length states.old.past.accepted }
{
    states.go_to(alloc, said.revision)?;
    let state = states.state();
    push_said(alloc, text, state, said)?;
    push_lines(alloc, text, state, said, session, scratch)
}

// Appends all lines of a packet. A speaker without a session, or a revision that is not there, has none.
fn push_packet(
    alloc: Global,
    text: &mut String,
    states: &mut States,
    spoken: Spoken,
    session: Option<SessionId>,
    scratch: &mut Scratch,
) -> Result<(), OutOfMemory> {
    let Some(speaker) = states.session(spoken.connection) else {
        return Ok(());
    };
    if spoken.revision > states.last_revision() {
        return Ok(());
    }
    text.push_str("line ")?;
    push_number(alloc, text, spoken.line)?;
    text.push_str(" ")?;
    let said = Said {
        revision: spoken.revision,
        speaker,
        target: spoken.target,
    };
    push_answer(alloc, text, states, said, session, scratch)
}

// Writes a text.
pub(crate) fn write<O: Sink>(output: &mut O, text: &str) -> Result<(), End> {
    match write_all(output, text.as_bytes()) {
        Ok(()) => Ok(()),
        Err(_) => Err(End::WriteFault),
    }
}

// Whether a packet is that of a line, or no line is named.
fn is_wanted(line: Option<u64>, spoken: &Spoken) -> bool {
    match line {
        Some(line) => line == spoken.line,
        None => true,
    }
}

// Writes all lines of packets, and answers how many there were: those of a line, or of each where none is named.
fn write_packets<O: Sink>(
    alloc: Global,
    states: &mut States,
    packets: &[Spoken],
    line: Option<u64>,
    session: Option<SessionId>,
    output: &mut O,
) -> Result<u64, End> {
    let mut scratch = Scratch::new(alloc)?;
    let mut text = String::new(alloc);
    let mut count = 0u64;
    for spoken in packets {
        if is_wanted(line, spoken) {
            text.clear();
            push_packet(alloc, &mut text, states, *spoken, session, &mut scratch)?;
            write(output, text.as_str())?;
            count = count.saturating_add(1);
        }
    }
    Ok(count)
}

// Writes who hears the packet of a line, or each packet, and why the others do not.
pub(crate) fn write_heard<O: Sink>(
    alloc: Global,
    story: &mut Story,
    line: Option<u64>,
    session: Option<SessionId>,
    output: &mut O,
) -> Result<(), End> {
    let count = write_packets(
        alloc,
        &mut story.states,
        story.packets.as_slice(),
        line,
        session,
        output,
    )?;
    match line {
        Some(line) if count == 0 => Err(End::NoPacket { line }),
        _ => Ok(()),
    }
}

// A revision that is named, or the last one; or that there is none such.
pub(crate) fn revision_of(states: &States, named: Option<u64>) -> Result<u64, End>
    ensures { IfOk result (λ revision. revision ≤ length states.now.past.accepted) }
{
    let last = states.last_revision();
    let revision = named.unwrap_or(last);
    if revision > last {
        return Err(End::NoRevision { revision, last });
    }
    Ok(revision)
}

// Writes who would hear what a session says to a target at a revision, and why the others would not.
pub(crate) fn write_who<O: Sink>(
    alloc: Global,
    story: &mut Story,
    speaker: SessionId,
    target: u8,
    revision: Option<u64>,
    output: &mut O,
) -> Result<(), End> {
    let said = Said {
        revision: revision_of(&story.states, revision)?,
        speaker,
        target,
    };
    let mut scratch = Scratch::new(alloc)?;
    let mut text = String::new(alloc);
    push_answer(
        alloc,
        &mut text,
        &mut story.states,
        said,
        None,
        &mut scratch,
    )?;
    write(output, text.as_str())
}
