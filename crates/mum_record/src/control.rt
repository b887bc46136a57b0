//! The lines of the control entries of a journal: `c C V FRAME VERDICT`.

ghost use Rattle.std.specs.Prelude.{◌≡◌, ◌∷◌, ◌++◌, ◌==◌, ◌<◌, ◌^◌, codes, MatchOption, IfOk, OnOk, IfSome, None, string_bytes};
ghost use Rattle.std.specs.List.{flat_map};
ghost use Rattle.hex.specs.Hex.{IsBytes};
ghost use Rattle.mum_frame.specs.Frame.{IsOneFrame, kind_of};
ghost use Rattle.mum_frame.specs.declared.kind.TheConstants.{AUTHENTICATE};
ghost use Rattle.mum_record.specs.Words.{words_in, behind_word, spelled_word};
ghost use Rattle.mum_record.specs.Grammar.{revision_word};
ghost use Rattle.mum_record.specs.Journal.{verdict_words, control_line, may_carry, FitsVerdict, FitsControl};
ghost use Rattle.mum_record.specs.Journal as spec_journal;
ghost use Rattle.mum_record.specs.JournalReading.{version_of, command_of, lack_of, verdict_of, control_of};
ghost use Rattle.mum_record.specs.JournalReading as spec;
ghost use Rattle.mum_record.specs.JournalAnswers.{ReadsOrTires};

use crate::journal::ControlEntry;
use crate::line::{Word, byte_word, digits_word, number_word, place_word, push_line, push_words};
use crate::read::frame_in;
use crate::step::LineFault;
use crate::words::{Words, byte_in, number_in, place_in, split_word, words_in};
use mum_base::{ChannelId, Mark, Octets, OutOfMemory, Perm};
use mum_frame::{kind, whole_frame};
use std::alloc::Global;

// The Version number that a word says, or that it says none.
#[tactic(auto, unfolding(crate::specs::JournalReading::version_of))]
fn version_in(word: &str) -> Option<Option<u32>>
    ensures { result ≡ version_of word.now }
{
    match word {
        "-" => Some(None),
        _ => place_in(word).map(Some),
    }
}

// The frame of a command that a word says, or that it says a leave.
#[tactic(auto, unfolding(crate::specs::JournalReading::command_of))]
fn command_in(alloc: Global, word: &str) -> Result<Option<Octets>, LineFault>
    ensures { ReadsOrTires result (command_of word.now) }
{
    match word {
        "leave" => Ok(None),
        _ => Ok(Some(frame_in(alloc, word)?)),
    }
}

// A verdict of a word and a number.
#[tactic(auto, unfolding(crate::specs::JournalReading::verdict_with))]
fn verdict_with(name: &str, word: &str) -> Option<Mark>
    ensures { result ≡ spec.verdict_with name.now word.now }
{
    match name {
        "accepted" => number_in(word).map(|revision| Mark::Accepted { revision }),
        "refused" => byte_in(word).map(|kind| Mark::Refused { kind }),
        "rejected" => byte_in(word).map(|kind| Mark::Rejected { kind }),
        "ignored" => byte_in(word).map(|why| Mark::Ignored { why }),
        _ => None,
    }
}

// The verdict that a permission was missing in a channel.
#[tactic(auto, unfolding(crate::specs::JournalReading::lack_of))]
fn lack_in(perm: &str, channel: &str) -> Option<Mark>
    ensures { result ≡ lack_of perm.now channel.now }
{
    let perm = place_in(perm)?;
    let channel = place_in(channel)?;
    Some(Mark::Lacks {
        perm: Perm(perm),
        channel: ChannelId(channel),
    })
}

// The verdict that words say.
#[tactic(auto, unfolding(crate::specs::JournalReading::verdict_of))]
fn verdict_in(words: &str) -> Option<Mark>
    ensures { result ≡ verdict_of (words_in words.now) }
{
    match words_in(words) {
        Words::One("answer") => Some(Mark::Answer),
        Words::One(_) => None,
        Words::Two(name, word) => verdict_with(name, word),
        Words::Three("lacks", perm, channel) => lack_in(perm, channel),
        Words::Three(..) => None,
        Words::More => None,
    }
}

// The words of a control entry in its line.
#[derive(Clone, Copy)]
struct ControlWords<'a> {
    connection: &'a str,
    version: &'a str,
    command: &'a str,
    verdict: &'a str,
}

// The words of a line as those of a control entry, where it has enough of them.
#[tactic(auto, unfolding(crate::specs::JournalReading::control_of))]
fn control_words(line: &str) -> Option<ControlWords<'_>>
    ensures { MatchOption result (control_of (words_in line.now) ≡ None)
        (λ entry. words_in line.now ≡ codes "c" ∷ entry.connection.now ∷ entry.version.now ∷ entry.command.now ∷ words_in entry.verdict.now) }
{
    let (mark, rest) = split_word(line)?;
    let (connection, rest) = split_word(rest)?;
    let (version, rest) = split_word(rest)?;
    let (command, verdict) = split_word(rest)?;
    if mark != "c" {
        return None;
    }
    Some(ControlWords {
        connection,
        version,
        command,
        verdict,
    })
}

// Whether a frame is a login: an Authenticate message.
fn is_login(frame: &[u8]) -> bool
    requires { IsOneFrame frame.now }
    ensures { result ≡ (kind_of frame.now == AUTHENTICATE) }
{
    match whole_frame(frame) {
        Some(view) => view.kind == kind::AUTHENTICATE,
        None => false,
    }
}

// Whether a command may carry this Version number: a login may, and others may carry none.
fn may_carry_version(version: Option<u32>, frame: &Option<Octets>) -> bool
    requires { IfSome frame.now IsOneFrame }
    ensures { result ≡ may_carry version frame.now }
{
    if version.is_none() {
        return true;
    }
    match frame {
        Some(frame) => is_login(frame.as_slice()),
        None => false,
    }
}

// The control entry that a line says.
#[tactic(auto, unfolding(crate::specs::JournalReading::control_of, crate::specs::JournalReading::control_with))]
pub(crate) fn control_in(alloc: Global, line: &str) -> Result<ControlEntry, LineFault>
    ensures { ReadsOrTires result (control_of (words_in line.now)) }
{
    let words = control_words(line).ok_or(LineFault::NotALine)?;
    let connection = place_in(words.connection).ok_or(LineFault::NotALine)?;
    let version = version_in(words.version).ok_or(LineFault::NotALine)?;
    let frame = command_in(alloc, words.command)?;
    let verdict = verdict_in(words.verdict).ok_or(LineFault::NotALine)?;
    if !may_carry_version(version, &frame) {
        return Err(LineFault::NotALine);
    }
    Ok(ControlEntry {
        connection,
        version,
        frame,
        verdict,
    })
}

// Appends a verdict, each of its words after a space.
fn push_verdict(alloc: Global, text: &mut String, verdict: &Mark) -> Result<(), OutOfMemory>
    ensures text { IfOk result
        (λ _. string_bytes text.new ≡ string_bytes text.old ++ flat_map behind_word (verdict_words verdict.now)) }
    ensures fits { OnOk result (FitsVerdict verdict.now) }
{
    match *verdict {
        Mark::Accepted { revision } => push_words(
            alloc,
            text,
            &[Word::Name("accepted"), number_word(revision)],
        ),
        Mark::Lacks { perm, channel } => push_words(
            alloc,
            text,
            &[
                Word::Name("lacks"),
                place_word(perm.0),
                place_word(channel.0),
            ],
        ),
        Mark::Refused { kind } => push_words(
            alloc,
            text,
            &[Word::Name("refused"), byte_word(kind)],
        ),
        Mark::Rejected { kind } => push_words(
            alloc,
            text,
            &[Word::Name("rejected"), byte_word(kind)],
        ),
        Mark::Answer => push_words(alloc, text, &[Word::Name("answer")]),
        Mark::Ignored { why } => push_words(alloc, text, &[Word::Name("ignored"), byte_word(why)]),
    }
}

// The word for a Version number, or for none.
fn version_word(version: Option<u32>) -> Word<'static>
    ensures word { spelled_word result ≡ revision_word version }
    ensures fits { IfSome version (λ v. v < 2 ^ 32) }
{
    match version {
        Some(version) => place_word(version),
        None => Word::Name("-"),
    }
}

// The word for the frame of a command, or for a leave.
fn command_word(frame: &Option<Octets>) -> Word<'_>
    ensures word { spelled_word result ≡ spec_journal.command_word frame.now }
    ensures fits { IfSome frame.now IsBytes }
{
    match frame {
        Some(frame) => digits_word(frame.as_slice()),
        None => Word::Name("leave"),
    }
}

// Appends the line of a control entry, without a line feed.
pub(crate) fn push_control(
    alloc: Global,
    text: &mut String,
    entry: &ControlEntry,
) -> Result<(), OutOfMemory>
    ensures text { IfOk result (λ _. string_bytes text.new ≡ string_bytes text.old ++ control_line entry.now) }
    ensures fits { OnOk result (FitsControl entry.now) }
{
    let words = [
        place_word(entry.connection),
        version_word(entry.version),
        command_word(&entry.frame),
    ];
    push_line(alloc, text, "c", &words)?;
    push_verdict(alloc, text, &entry.verdict)
}
