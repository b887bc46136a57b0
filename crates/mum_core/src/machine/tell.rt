//! The step `tell`: the reply to a decided command reaches the worker of its connection.

ghost use Rattle.std.specs.Prelude.{◌≡◌, ◌++◌, OnOk, string_bytes};
ghost use Rattle.mum_base.specs.Refusal.{Gives, Settles};
ghost use Rattle.mum_core.specs.Case.{Passes, first_that_stands, named_cause};
ghost use Rattle.mum_core.specs.Line.{joined, wire_words};
ghost use Rattle.std.specs.Prelude.{◌∷◌, [], IfOk, Some, map, true};
ghost use Rattle.std.specs.List.{join_with_byte};
ghost use Rattle.mum_record.specs.Grammar.{revision_word};
ghost use Rattle.mum_record.specs.Words.{line_of_words, spelled_word};
ghost use Rattle.mum_core.specs.Core.{is_opened};
ghost use Rattle.mum_core.specs.steps.Tell.{forbids, does, lines, note_cases, told_words, wire_lines, wire_to};

use super::{Effects, Machine, StepFault, illegal};
use crate::connection::{Reply, tell_at};
use crate::worker::note_at;
use mum_base::{Items, Mark, OutOfMemory, Text};
use mum_record::{Word, push_line};
use std::alloc::Global;

// The word of a note: its revision, or a dash where there is none.
fn note_word(note: Option<u64>) -> Word<'static>
    ensures { spelled_word result ≡ revision_word note }
{
    match note {
        Some(revision) => Word::Number(revision),
        None => Word::Name("-"),
    }
}

// Appends the line of a frame on the wire to a connection.
pub(super) fn push_wire(
    alloc: Global,
    text: &mut String,
    connection: u32,
    frame: &[u8],
) -> Result<(), OutOfMemory>
    ensures { IfOk result
        (λ _. string_bytes text.new ≡ string_bytes text.old ++ joined (wire_words connection frame.now ∷ [])) }
{
    let words = [Word::Number(u64::from(connection)), Word::Digits(frame)];
    push_line(alloc, text, "wire", &words)
}

// A line of a first word and others, by itself.
fn line(alloc: Global, first: &str, words: &[Word<'_>]) -> Result<Text, OutOfMemory>
    ensures { IfOk result (λ line. line ≡ line_of_words (first.now ∷ map spelled_word words.now)) }
{
    let mut text = String::new(alloc);
    push_line(alloc, &mut text, first, words)?;
    Ok(Text::from_string(text))
}

// What is reported of a reply: that it was sent, and after that its frame, where it has one.
fn reply_lines(
    alloc: Global,
    connection: u32,
    note: Option<u64>,
    frame: &[u8],
) -> Result<Effects, OutOfMemory>
    ensures { IfOk result (λ reported. reported
        ≡ map line_of_words (told_words connection note ∷ wire_lines connection frame.now)) }
{
    let number = Word::Number(u64::from(connection));
    let mut reported = Items::new(alloc);
    reported.push(line(alloc, "told", &[number, note_word(note)])?)?;
    if !frame.is_empty() {
        let words = [Word::Number(u64::from(connection)), Word::Digits(frame)];
        reported.push(line(alloc, "wire", &words)?)?;
    }
    Ok(reported)
}

// Appends lines, separated by line feeds.
fn push_lines(text: &mut String, lines: &[Text]) -> Result<(), OutOfMemory>
    ensures { IfOk result (λ _. string_bytes text.new ≡ string_bytes text.old ++ join_with_byte 10 lines.now) }
{
    match lines {
        [] => Ok(()),
        [last] => text.push_str(last.as_str()),
        [first, rest @ ..] => {
            text.push_str(first.as_str())?;
            text.push_str("\n")?;
            push_lines(text, rest)
        }
    }
}

impl Machine {
    // Refuses a note where no edit was accepted, or that does not hold it, or that is not published.
    fn check_note(&self, reply: &Reply, note: Option<u64>) -> Result<(), StepFault>
        ensures { Passes (first_that_stands (note_cases self.now (Some reply.now) note)) result }
    {
        let Some(revision) = note else {
            return Ok(());
        };
        let Mark::Accepted { revision: accepted } = reply.mark else {
            return Err(illegal(revision, 0));
        };
        if revision < accepted {
            return Err(illegal(revision, accepted));
        }
        if revision > self.history.published() {
            return Err(illegal(revision, self.history.published()));
        }
        Ok(())
    }

    // Refuses a `Tell` that is not allowed.
    fn check_tell(&self, connection: u32, note: Option<u64>) -> Result<(), StepFault>
        ensures passes { Passes (first_that_stands (forbids self.now connection note)) result }
        ensures opened { OnOk result (is_opened self.now connection ≡ true) }
    {
        let Some(found) = self.connection(connection) else {
            return Err(self.unopened(connection));
        };
        let Some(reply) = &found.decided else {
            return Err(illegal(u64::from(connection), 0));
        };
        self.check_note(reply, note)
    }

    // The bytes that come on the wire to a connection: those of its reply, where it is not closed.
    fn wire_to(&self, connection: u32) -> &[u8]
        ensures { result.now ≡ wire_to self.now connection }
    {
        match self.connection(connection) {
            Some(found) => found.wire(),
            None => &[],
        }
    }

    // The lines of a `Tell`, which is refused where it is not allowed.
    pub(super) fn tell_lines(
        &self,
        connection: u32,
        note: Option<u64>,
    ) -> Result<Effects, StepFault>
        ensures gives { Gives named_cause (first_that_stands (forbids self.now connection note))
            (map line_of_words (lines self.now connection note)) self.now self.now result self.now }
        ensures opened { OnOk result (is_opened self.now connection ≡ true) }
    {
        self.check_tell(connection, note)?;
        let reported = reply_lines(self.alloc, connection, note, self.wire_to(connection))?;
        Ok(reported)
    }

    // A connection is sent its reply, and its worker the note.
    pub(super) fn tell(&mut self, connection: u32, note: Option<u64>)
        requires { is_opened self.old connection ≡ true }
        ensures { self.new ≡ does self.old connection note }
    {
        let place = connection as usize - 1;
        let worker = self.connections[place].worker as usize;
        tell_at(&mut self.connections, place);
        if let Some(revision) = note {
            note_at(&mut self.workers, worker, revision);
        }
    }

    pub(super) fn take_tell(
        &mut self,
        connection: u32,
        note: Option<u64>,
        text: &mut String,
    ) -> Result<(), StepFault>
        ensures settled { Settles named_cause (first_that_stands (forbids self.old connection note)) (does self.old connection note) self.old result self.new }
        ensures told { OnOk result
            (string_bytes text.new ≡ string_bytes text.old ++ joined (lines self.old connection note)) }
    {
        let reported = self.tell_lines(connection, note)?;
        push_lines(text, reported.as_slice())?;
        self.tell(connection, note);
        Ok(())
    }
}
