//! Reading the line of a step.

ghost use Rattle.std.specs.Prelude.{◌≡◌, ◌%◌, ◌↔◌, IfOk, IsErrOf, IsTrue, is_some, length};
ghost use Rattle.mum_record.specs.declared.step.Step.{Step};
ghost use Rattle.mum_record.specs.Grammar.{IsLineOf};
ghost use Rattle.mum_record.specs.Reading.{frame_of, told_of, cause_of, step_of};
ghost use Rattle.mum_record.specs.Reading as spec;
ghost use Rattle.mum_record.specs.Answers.{Reads, TestsFrame};
ghost use Rattle.mum_record.specs.Laws.{ReadsTheGrammar, ReadsBack};

use crate::step::{LineFault, Step};
use crate::words::{Words, are_lower_digits, number_in, place_in, words_in};
use byteorder::{BigEndian, ByteOrder};
use hex::FromHex;
use mum_base::{Cause, Octets};
use mum_frame::{HEADER_LENGTH, PAYLOAD_LIMIT};
use std::alloc::Global;

// The revision that a word says, or that it says none.
#[tactic(auto, unfolding(crate::specs::Reading::told_of))]
fn told_in(word: &str) -> Option<Option<u64>>
    ensures { result ≡ told_of word.now }
{
    match word {
        "-" => Some(None),
        _ => number_in(word).map(Some),
    }
}

// The cause that a word of a recording says.
#[tactic(auto, unfolding(crate::specs::Reading::cause_of))]
pub(crate) fn cause_in(word: &str) -> Option<Cause>
    ensures { result ≡ cause_of word.now }
{
    match word {
        "end" => Some(Cause::End),
        "fault" => Some(Cause::LinkFault),
        "toolong" => Some(Cause::FrameTooLong),
        "rejected" => Some(Cause::Rejected),
        "kicked" => Some(Cause::Kicked),
        "lagged" => Some(Cause::Lagged),
        _ => None,
    }
}

// Whether as many digits follow those of a frame's header as it names, within the limit.
fn has_named_length(word: &[u8]) -> bool
    ensures pairs { IsTrue result → length word.now % 2 ≡ 0 }
    ensures named { TestsFrame word.now result }
{
    if word.len() < 2 * HEADER_LENGTH {
        return false;
    }
    let Ok(header) = <[u8; HEADER_LENGTH] as FromHex>::from_hex(&word[..2 * HEADER_LENGTH]) else {
        return false;
    };
    let length = BigEndian::read_u32(&header[2..]) as usize;
    length <= PAYLOAD_LIMIT && word.len() == 2 * (HEADER_LENGTH + length)
}

// Whether a word is the digits of exactly one frame. It takes no memory.
fn is_frame(word: &[u8]) -> bool
    ensures { result ≡ is_some (frame_of word.now) }
{
    are_lower_digits(word) && has_named_length(word)
}

// The bytes of the frame whose digits a word is. It takes memory only for such a word.
pub(crate) fn frame_in(alloc: Global, word: &str) -> Result<Octets, LineFault>
    ensures { Reads result (frame_of word.now) }
{
    if !is_frame(word.as_bytes()) {
        return Err(LineFault::NotALine);
    }
    match hex::decode(alloc, word) {
        Ok(bytes) => Ok(Octets::from_vec(bytes)),
        Err(_) => Err(LineFault::OutOfMemory),
    }
}

// The step of a line of one word.
#[tactic(auto, unfolding(crate::specs::Reading::step_of_verb))]
fn step_of_verb(verb: &str) -> Option<Step>
    ensures { result ≡ spec.step_of_verb verb.now }
{
    match verb {
        "publish" => Some(Step::Publish),
        "post" => Some(Step::Post),
        "end" => Some(Step::End),
        _ => None,
    }
}

// The step of a line of two words, which names a connection or a worker.
#[tactic(auto, unfolding(crate::specs::Reading::step_naming))]
fn step_naming(verb: &str, number: u32) -> Option<Step>
    ensures { result ≡ spec.step_naming verb.now number }
{
    match verb {
        "edit" => Some(Step::Edit { connection: number }),
        "offer" => Some(Step::Offer { worker: number }),
        "drain" => Some(Step::Drain { connection: number }),
        "collect" => Some(Step::Collect { connection: number }),
        _ => None,
    }
}

// The step of a line of three words, which names a connection or a worker.
#[tactic(auto, unfolding(crate::specs::Reading::step_with))]
fn step_with(alloc: Global, verb: &str, number: u32, word: &str) -> Result<Step, LineFault>
    ensures { Reads result (spec.step_with verb.now number word.now) }
{
    let step = match verb {
        "open" => place_in(word).map(|worker| Step::Open {
            connection: number,
            worker,
        }),
        "frame" => {
            let bytes = frame_in(alloc, word)?;
            Some(Step::Frame {
                connection: number,
                bytes,
            })
        }
        "tell" => told_in(word).map(|revision| Step::Tell {
            connection: number,
            revision,
        }),
        "look" => number_in(word).map(|revision| Step::Look {
            worker: number,
            revision,
        }),
        "close" => cause_in(word).map(|cause| Step::Close {
            connection: number,
            cause,
        }),
        _ => None,
    };
    step.ok_or(LineFault::NotALine)
}

// The step of a line that is a text.
#[tactic(auto, unfolding(crate::specs::Reading::step_of, crate::specs::Reading::step_of_words))]
fn step_in(alloc: Global, line: &str) -> Result<Step, LineFault>
    ensures { Reads result (step_of line.now) }
{
    match words_in(line) {
        Words::One(verb) => step_of_verb(verb).ok_or(LineFault::NotALine),
        Words::Two(verb, name) => {
            let number = place_in(name).ok_or(LineFault::NotALine)?;
            step_naming(verb, number).ok_or(LineFault::NotALine)
        }
        Words::Three(verb, name, word) => {
            let number = place_in(name).ok_or(LineFault::NotALine)?;
            step_with(alloc, verb, number, word)
        }
        Words::More => Err(LineFault::NotALine),
    }
}

/// The step that a line says. The line comes without its line feed, and may be any bytes. Only the
/// bytes of a frame take memory, and only once the whole line is known to say a step: a line that
/// says none is `NotALine` whatever memory there is.
pub fn read_step(alloc: Global, line: &[u8]) -> Result<Step, LineFault>
    // A step is the one that the line says, `NotALine` is of a line that says none, and
    // `OutOfMemory` of one that says some.
    ensures exact { Reads result (step_of line.now) }
    // What is read is a step whose line this is.
    ensures found { IfOk result (IsLineOf line.now) }
    // A line is refused exactly where it is that of no step, whatever memory there is.
    ensures refused { IsErrOf result LineFault.NotALine
        ↔ ((step : Step) → IsLineOf line.now step → ⊥) }
{
    match str::from_utf8(line) {
        Ok(text) => step_in(alloc, text),
        Err(_) => Err(LineFault::NotALine),
    }
}

/// What contracts compute of a line, `step_of`, is the grammar of lines: each line says one step at
/// most, and each step that can be recorded is read back from its line.
pub fn reading_is_the_grammar()
    ensures exact { ReadsTheGrammar }
    ensures read_back { ReadsBack }
{}
