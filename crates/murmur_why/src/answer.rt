//! What is asked over an input, and the answer.

use crate::end::End;
use crate::heard::{write_heard, write_who};
use crate::may::write_may;
use crate::other::write_other;
use crate::story::Story;
use crate::words::Command;
use crate::{journal, recording};
use mum_io::{ReadFault, Sink, Source, read_up_to};
use mum_record::INPUT_LIMIT;
use std::alloc::Global;
use std::mem::drop;

// All of an input.
fn read_all<I: Source>(alloc: Global, input: &mut I) -> Result<Vec<u8>, End> {
    match read_up_to(alloc, input, INPUT_LIMIT) {
        Ok(bytes) if bytes.len() > INPUT_LIMIT => Err(End::TooLong),
        Ok(bytes) => Ok(bytes),
        Err(ReadFault::Failed) => Err(End::ReadFault),
        Err(ReadFault::OutOfMemory) => Err(End::OutOfMemory),
    }
}

// What a text says, which begins as a journal does or is a recording.
fn story_in(alloc: Global, text: &[u8]) -> Result<Story, End> {
    if text.starts_with(b"journal ") {
        return journal::story_in(alloc, text);
    }
    recording::story_in(alloc, text)
}

// What an input says.
fn read_story<I: Source>(alloc: Global, input: &mut I) -> Result<Story, End> {
    let text = read_all(alloc, input)?;
    story_in(alloc, text.as_slice())
}

// Writes what is asked about what was said.
fn write_answer<O: Sink>(
    alloc: Global,
    story: &mut Story,
    command: Command,
    document: &[u8],
    output: &mut O,
) -> Result<(), End> {
    match command {
        Command::Heard { line, session } => write_heard(alloc, story, line, session, output),
        Command::Who {
            speaker,
            target,
            revision,
        } => write_who(alloc, story, speaker, target, revision, output),
        Command::May {
            session,
            channel,
            revision,
        } => write_may(alloc, story, session, channel, revision, output),
        Command::Other => write_other(alloc, story, document, output),
    }
}

// Writes what is asked about an input, and how that ended. The document is the different one that is asked about.
pub(crate) fn answer_input<I: Source, O: Sink>(
    alloc: Global,
    command: Command,
    document: &[u8],
    input: &mut I,
    output: &mut O,
) -> End {
    let mut story = match read_story(alloc, input) {
        Ok(story) => story,
        Err(end) => return end,
    };
    let answered = write_answer(alloc, &mut story, command, document, output);
    drop(story);
    match answered {
        Ok(()) => End::Finished,
        Err(end) => end,
    }
}
