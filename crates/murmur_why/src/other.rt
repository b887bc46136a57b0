//! What a different configuration would change.

use crate::audience::{are_same, audience_at, push_audience};
use crate::end::End;
use crate::heard::write;
use crate::names::push_number;
use crate::recording::opening_of;
use crate::spoken::Spoken;
use crate::states::States;
use crate::story::Story;
use crate::verdicts::{Made, is_same, number_given, push_made, push_verdict};
use mum_base::{Mark, OutOfMemory};
use mum_io::Sink;
use mum_record::ControlEntry;
use mum_route::Audience;
use mum_tree::Scratch;
use std::alloc::Global;
use std::mem::drop;

// Appends the line of a command whose verdict differs, and what number it no longer gives, if it gave one.
fn push_command(
    alloc: Global,
    text: &mut String,
    line: u64,
    here: Mark,
    there: Mark,
    ends: Option<Made>,
) -> Result<(), OutOfMemory> {
    text.push_str("line ")?;
    push_number(alloc, text, line)?;
    text.push_str(" ")?;
    push_verdict(alloc, text, here)?;
    text.push_str(" other ")?;
    push_verdict(alloc, text, there)?;
    if let Some(made) = ends {
        text.push_str(" ends ")?;
        push_made(alloc, text, made)?;
    }
    text.push_str("\n")
}

// Appends the line of a packet whose audience differs.
fn push_packet(
    alloc: Global,
    text: &mut String,
    line: u64,
    here: &Audience,
    there: &Audience,
) -> Result<(), OutOfMemory> {
    text.push_str("line ")?;
    push_number(alloc, text, line)?;
    text.push_str(" audience ")?;
    push_audience(alloc, text, here.as_slice())?;
    text.push_str(" other ")?;
    push_audience(alloc, text, there.as_slice())?;
    text.push_str("\n")
}

// A command: its line, and what was decided here and there.
#[derive(Clone, Copy)]
struct Decided {
    line: u64,
    here: Mark,
    there: Mark,
    made_here: Option<Made>,
    made_there: Option<Made>,
}

// Writes the line of a command whose verdict or whose number differs. Whether the numbers go on as they did.
fn write_command<O: Sink>(alloc: Global, decided: Decided, output: &mut O) -> Result<bool, End> {
    let goes_on = decided.made_here == decided.made_there;
    if goes_on && is_same(decided.here, decided.there) {
        return Ok(true);
    }
    let ends = if goes_on {
        None
    } else {
        decided.made_here.or(decided.made_there)
    };
    let mut text = String::new(alloc);
    push_command(
        alloc,
        &mut text,
        decided.line,
        decided.here,
        decided.there,
        ends,
    )?;
    write(output, text.as_str())?;
    Ok(goes_on)
}

// Decides a command under the other configuration.
fn decide_there(
    alloc: Global,
    states: &States,
    there: &mut States,
    line: u64,
    entry: &ControlEntry,
) -> Result<Decided, OutOfMemory> {
    let mark = there.decide(alloc, entry)?;
    Ok(Decided {
        line,
        here: entry.verdict,
        there: mark,
        made_here: number_given(states, entry.verdict),
        made_there: number_given(there, mark),
    })
}

// How far the commands were decided under the other configuration.
#[derive(Drop)]
struct Course {
    /// The revision there after as many commands.
    revisions: Vec<u64>,
    /// The place of the command of each revision here.
    places: Vec<usize>,
}

impl Course {
    // Before all commands.
    fn begin(alloc: Global) -> Result<Course, OutOfMemory> {
        let mut revisions = Vec::new(alloc);
        revisions.push(0)?;
        Ok(Course {
            revisions,
            places: Vec::new(alloc),
        })
    }

    // One command more, at this place, after which this revision is reached there.
    fn go_on(&mut self, place: usize, verdict: Mark, revision: u64) -> Result<(), OutOfMemory> {
        if matches!(verdict, Mark::Accepted { .. }) {
            self.places.push(place)?;
        }
        self.revisions.push(revision)?;
        Ok(())
    }

    // The revision there at which a packet is looked for: after the commands that its worker may have seen, which are
    // those before the command of the next revision. None where numbers changed before.
    fn revision_of(&self, spoken: Spoken) -> Option<u64> {
        let revision = spoken.revision as usize;
        if revision > self.places.len() {
            return None;
        }
        let last = self.revisions.len().saturating_sub(1);
        let seen = match self.places.get(revision) {
            Some(next) => spoken.seen.unwrap_or(*next).min(*next),
            None => spoken.seen.unwrap_or(last),
        };
        self.revisions.get(seen).copied()
    }
}

// Writes the commands whose verdicts differ, up to the first that changes numbers.
fn write_commands<O: Sink>(
    alloc: Global,
    story: &Story,
    there: &mut States,
    course: &mut Course,
    output: &mut O,
) -> Result<(), End> {
    for (place, entry) in story.controls.as_slice().iter().enumerate() {
        let line = story.lines.get(place).copied().unwrap_or(0);
        let command = decide_there(alloc, &story.states, there, line, entry)?;
        if !write_command(alloc, command, output)? {
            return Ok(());
        }
        course.go_on(place, entry.verdict, there.last_revision())?;
    }
    Ok(())
}

// Who hears a packet here and there.
#[derive(Drop)]
struct Audiences {
    here: Audience,
    there: Audience,
}

// Who hears a packet, if it was sent before numbers changed.
fn heard_in_both(
    alloc: Global,
    states: &mut States,
    there: &mut States,
    course: &Course,
    spoken: Spoken,
    scratch: &mut Scratch,
) -> Result<Option<Audiences>, OutOfMemory> {
    let Some(revision) = course.revision_of(spoken) else {
        return Ok(None);
    };
    let here = audience_at(alloc, states, spoken, spoken.revision, scratch)?;
    let there = audience_at(alloc, there, spoken, revision, scratch)?;
    Ok(Some(Audiences { here, there }))
}

// Writes the line of a packet whose audience differs.
fn write_packet<O: Sink>(
    alloc: Global,
    line: u64,
    audiences: &Audiences,
    output: &mut O,
) -> Result<(), End> {
    if are_same(audiences.here.as_slice(), audiences.there.as_slice()) {
        return Ok(());
    }
    let mut text = String::new(alloc);
    push_packet(alloc, &mut text, line, &audiences.here, &audiences.there)?;
    write(output, text.as_str())
}

// Writes the packets whose audiences differ.
fn write_packets<O: Sink>(
    alloc: Global,
    states: &mut States,
    there: &mut States,
    packets: &[Spoken],
    course: &Course,
    output: &mut O,
) -> Result<(), End> {
    let mut scratch = Scratch::new(alloc)?;
    for spoken in packets {
        let found = heard_in_both(alloc, states, there, course, *spoken, &mut scratch)?;
        if let Some(audiences) = found {
            write_packet(alloc, spoken.line, &audiences, output)?;
        }
    }
    Ok(())
}

// Writes each command and each packet that differs there.
fn compare<O: Sink>(
    alloc: Global,
    story: &mut Story,
    there: &mut States,
    output: &mut O,
) -> Result<(), End> {
    let mut course = Course::begin(alloc)?;
    write_commands(alloc, story, there, &mut course, output)?;
    write_packets(
        alloc,
        &mut story.states,
        there,
        story.packets.as_slice(),
        &course,
        output,
    )
}

// Writes each command and each packet whose verdict or audience differs under a different document, up to the first
// command that changes which numbers are given.
pub(crate) fn write_other<O: Sink>(
    alloc: Global,
    story: &mut Story,
    document: &[u8],
    output: &mut O,
) -> Result<(), End> {
    let opening = opening_of(alloc, &story.limits, document)?;
    let mut there = States::begin(alloc, opening)?;
    let compared = compare(alloc, story, &mut there, output);
    drop(there);
    compared
}
