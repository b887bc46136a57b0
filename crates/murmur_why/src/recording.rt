//! A recording: it is run as `murmur replay` runs it, and what it asked for is decided once more for the states
//! between.

use crate::end::End;
use crate::run::{Run, take_line};
use crate::story::Story;
use mum_base::Octets;
use mum_config::BadConfig;
use mum_core::PlainCore;
use mum_opening::{document_edits, opening_state};
use mum_record::{
    Limits, LineFault, Version, read_config_line, read_limits, read_workers, recording_version,
    split_line,
};
use mum_state::State;
use std::alloc::Global;
use std::mem::drop;

// What is above the steps.
#[derive(Drop)]
struct Head {
    version: Version,
    workers: u8,
    limits: Option<Limits>,
    document: Octets,
}

// The first line of a text, which is this one of the input, and what follows it.
fn line_of(text: &[u8], line: u64) -> Result<(&[u8], &[u8]), End> {
    match split_line(text) {
        Some(parts) => Ok(parts),
        None => Err(End::NotALine { line }),
    }
}

// The line of the limits, in the version that has one.
fn limits_of(version: Version, text: &[u8]) -> Result<(Option<Limits>, &[u8]), End> {
    match version {
        Version::One => Ok((None, text)),
        Version::Two => {
            let (line, rest) = line_of(text, 3)?;
            match read_limits(line) {
                Some(limits) => Ok((Some(limits), rest)),
                None => Err(End::NotALine { line: 3 }),
            }
        }
    }
}

// The document of the line that names one.
fn document_of(alloc: Global, bytes: &[u8], line: u64) -> Result<Octets, End> {
    match read_config_line(alloc, bytes) {
        Ok(document) => Ok(document),
        Err(LineFault::NotALine) => Err(End::NotALine { line }),
        Err(LineFault::OutOfMemory) => Err(End::OutOfMemory),
    }
}

// The head of a recording, and what follows it.
fn head_of(alloc: Global, text: &[u8]) -> Result<(Head, &[u8]), End> {
    let (line, rest) = line_of(text, 1)?;
    let Some(version) = recording_version(line) else {
        return Err(End::NotALine { line: 1 });
    };
    let (line, rest) = line_of(rest, 2)?;
    let Some(workers) = read_workers(line) else {
        return Err(End::NotALine { line: 2 });
    };
    let (limits, rest) = limits_of(version, rest)?;
    let config_line = version.first_step_line().saturating_sub(1);
    let (line, rest) = line_of(rest, config_line)?;
    let document = document_of(alloc, line, config_line)?;
    let head = Head {
        version,
        workers,
        limits,
        document,
    };
    Ok((head, rest))
}

// The state at which steps and entries begin, by limits and a document; or the first fault of the document.
pub(crate) fn opening_of(
    alloc: Global,
    limits: &Option<Limits>,
    document: &[u8],
) -> Result<State, End> {
    let edits = match document_edits(alloc, document) {
        Ok(edits) => edits,
        Err(BadConfig::Fault { code, key }) => return Err(End::BadConfig { code, key }),
        Err(BadConfig::OutOfMemory) => return Err(End::OutOfMemory),
    };
    let opening = opening_state(alloc, limits, edits.as_slice());
    drop(edits);
    Ok(opening?)
}

// The core of a head.
fn core_of(alloc: Global, head: &Head) -> Result<PlainCore, End> {
    let opening = opening_of(alloc, &head.limits, head.document.as_slice())?;
    Ok(PlainCore::begin(alloc, head.version, head.workers, opening)?)
}

// The run of a head, before all steps.
fn run_of(alloc: Global, head: &Head) -> Result<Run, End> {
    let opening = opening_of(alloc, &head.limits, head.document.as_slice())?;
    let story = Story::begin(alloc, head.limits, opening)?;
    Ok(Run::new(alloc, story))
}

// Takes all lines of steps, the first of which is this one of the input.
fn run_lines(
    alloc: Global,
    core: &mut PlainCore,
    run: &mut Run,
    first: u64,
    text: &[u8],
) -> Result<(), End> {
    let mut told = String::new(alloc);
    let mut line = first;
    let mut rest = text;
    'lines: while let Some((bytes, behind)) = split_line(rest) {
        take_line(alloc, core, run, line, bytes, &mut told)?;
        line = line.saturating_add(1);
        rest = behind;
    }
    if run.is_over() && rest.is_empty() {
        return Ok(());
    }
    Err(End::NotALine { line })
}

// What the steps below a head say.
fn story_below(
    alloc: Global,
    head: &Head,
    core: &mut PlainCore,
    text: &[u8],
) -> Result<Story, End> {
    let mut run = run_of(alloc, head)?;
    let first = head.version.first_step_line();
    match run_lines(alloc, core, &mut run, first, text) {
        Ok(()) => return Ok(run.into_story()),
        Err(end) => {
            drop(run);
            return Err(end);
        }
    }
}

// What a recording says, or its first fault.
pub(crate) fn story_in(alloc: Global, text: &[u8]) -> Result<Story, End> {
    let (head, rest) = head_of(alloc, text)?;
    let mut core = core_of(alloc, &head)?;
    let story = story_below(alloc, &head, &mut core, rest);
    drop(core);
    story
}
