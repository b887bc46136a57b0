//! The lines of the entries of a worker: `v C REV PACKET N` with N copies, and `x C CAUSE`.

ghost use Rattle.std.specs.Prelude.{◌≡◌, ◌∷◌, ◌++◌, [], IfOk, OnOk, MatchOption, None, codes, map, string_bytes};
ghost use Rattle.std.specs.List.{flat_map, slice_split};
ghost use Rattle.std.specs.Option.{option_copied};
ghost use Rattle.mum_record.specs.Words.{words_in, words_after};
ghost use Rattle.mum_record.specs.Journal.{copy_word, mark_word, behind_copy, entry_line, Each, FitsCopy, FitsEntry};
ghost use Rattle.mum_record.specs.JournalReading.{is_slash, mark_of, copy_of, copies_of, closing_cause_of, closed_of, voice_of, entry_of};
ghost use Rattle.mum_record.specs.JournalReading as spec;
ghost use Rattle.mum_record.specs.JournalAnswers.{ReadsOrTires};

use crate::journal::{Marked, WorkerEntry};
use crate::line::{Word, byte_word, place_word, push_line, push_word};
use crate::read::cause_in;
use crate::step::LineFault;
use crate::words::{
    Words, byte_in, bytes_in, first_word, number_in, place_in, split_word, words_in,
};
use crate::write::cause_name;
use mum_base::{Cause, Items, Octets, OutOfMemory, SessionId};
use std::alloc::Global;

// Whether the word of a mark says that the copy was sent.
#[tactic(auto, unfolding(crate::specs::JournalReading::mark_of))]
fn mark_in(word: &str) -> Option<bool>
    ensures { result ≡ mark_of word.now }
{
    match word {
        "s" => Some(true),
        "f" => Some(false),
        _ => None,
    }
}

// The copy that the parts of a word say.
#[tactic(auto, unfolding(crate::specs::JournalReading::copy_with))]
fn copy_with(session: &str, context: &str, mark: &str) -> Option<Marked>
    ensures { result ≡ spec.copy_with session.now context.now mark.now }
{
    let session = place_in(session)?;
    let context = byte_in(context)?;
    let sent = mark_in(mark)?;
    Some(Marked {
        session: SessionId(session),
        context,
        sent,
    })
}

// The part of a word before its first slash and the part after it, where there is one.
fn split_slash(word: &str) -> Option<(&str, &str)>
    ensures { MatchOption result (slice_split is_slash word.now ≡ word.now ∷ [])
        (λ parts. slice_split is_slash word.now ≡ parts.0.now ∷ slice_split is_slash parts.1.now) }
{
    word.split_once('/')
}

// The copy that a word says: `SESSION/CONTEXT/MARK`.
#[tactic(auto, unfolding(crate::specs::JournalReading::copy_of))]
fn copy_in(word: &str) -> Option<Marked>
    ensures { result ≡ copy_of word.now }
{
    let (session, rest) = split_slash(word)?;
    let (context, mark) = split_slash(rest)?;
    copy_with(session, context, mark)
}

// The copies that the words of the rest of a line say, if there is more of it.
fn copies_in(alloc: Global, mut rest: Option<&str>) -> Result<Items<Marked>, LineFault>
    ensures { ReadsOrTires result (copies_of (words_after (option_copied rest.entry))) }
{
    let mut copies = Items::new(alloc);
    'words: while let Some(words) = rest {
        let (word, behind) = first_word(words);
        let copy = copy_in(word).ok_or(LineFault::NotALine)?;
        copies.push(copy)?;
        rest = behind;
    }
    Ok(copies)
}

// The words of a voice entry in its line, after its mark.
#[derive(Clone, Copy)]
struct VoiceWords<'a> {
    connection: &'a str,
    revision: &'a str,
    packet: &'a str,
    count: &'a str,
    copies: Option<&'a str>,
}

// The words of a voice entry, where there are enough of them.
#[tactic(auto, unfolding(crate::specs::JournalReading::voice_of))]
fn voice_words(words: &str) -> Option<VoiceWords<'_>>
    ensures { MatchOption result (voice_of (words_in words.now) ≡ None)
        (λ entry. words_in words.now
        ≡ entry.connection.now ∷ entry.revision.now ∷ entry.packet.now ∷ entry.count.now
        ∷ words_after (option_copied entry.copies)) }
{
    let (connection, rest) = split_word(words)?;
    let (revision, rest) = split_word(rest)?;
    let (packet, rest) = split_word(rest)?;
    let (count, copies) = first_word(rest);
    Some(VoiceWords {
        connection,
        revision,
        packet,
        count,
        copies,
    })
}

// The voice entry that the words after its mark say.
#[tactic(auto, unfolding(crate::specs::JournalReading::voice_of, crate::specs::JournalReading::voice_with))]
fn voice_in(alloc: Global, words: &str) -> Result<WorkerEntry, LineFault>
    ensures { ReadsOrTires result (voice_of (words_in words.now)) }
{
    let words = voice_words(words).ok_or(LineFault::NotALine)?;
    let connection = place_in(words.connection).ok_or(LineFault::NotALine)?;
    let revision = number_in(words.revision).ok_or(LineFault::NotALine)?;
    let packet = bytes_in(alloc, words.packet)?;
    let count = number_in(words.count).ok_or(LineFault::NotALine)?;
    let copies = copies_in(alloc, words.copies)?;
    if count != copies.as_slice().len() as u64 {
        return Err(LineFault::NotALine);
    }
    Ok(WorkerEntry::Voice {
        connection,
        revision,
        packet,
        copies,
    })
}

// The cause that a word of a journal says.
#[tactic(auto, unfolding(crate::specs::JournalReading::closing_cause_of))]
fn closing_cause_in(word: &str) -> Option<Cause>
    ensures { result ≡ closing_cause_of word.now }
{
    match word {
        "memory" => Some(Cause::Memory),
        _ => cause_in(word),
    }
}

// The end of a connection that the words after its mark say.
#[tactic(auto, unfolding(crate::specs::JournalReading::closed_of))]
fn closed_in(words: &str) -> Option<WorkerEntry>
    ensures { result ≡ closed_of (words_in words.now) }
{
    let Words::Two(connection, cause) = words_in(words) else {
        return None;
    };
    let connection = place_in(connection)?;
    let cause = closing_cause_in(cause)?;
    Some(WorkerEntry::Closed { connection, cause })
}

// The entry of a worker that a line says.
#[tactic(auto, unfolding(crate::specs::JournalReading::entry_of))]
pub(crate) fn entry_in(alloc: Global, line: &str) -> Result<WorkerEntry, LineFault>
    ensures { ReadsOrTires result (entry_of (words_in line.now)) }
{
    let (mark, words) = split_word(line).ok_or(LineFault::NotALine)?;
    match mark {
        "v" => voice_in(alloc, words),
        "x" => closed_in(words).ok_or(LineFault::NotALine),
        _ => Err(LineFault::NotALine),
    }
}

// The word for whether a copy was sent.
fn mark_name(sent: bool) -> &'static str
    ensures { result.now ≡ mark_word sent }
{
    if sent { "s" } else { "f" }
}

// Appends a copy: `SESSION/CONTEXT/MARK`.
fn push_copy(alloc: Global, text: &mut String, copy: &Marked) -> Result<(), OutOfMemory>
    ensures text { IfOk result (λ _. string_bytes text.new ≡ string_bytes text.old ++ copy_word copy.now) }
    ensures fits { OnOk result (FitsCopy copy.now) }
{
    push_word(alloc, text, &place_word(copy.session.0))?;
    text.push_str("/")?;
    push_word(alloc, text, &byte_word(copy.context))?;
    text.push_str("/")?;
    text.push_str(mark_name(copy.sent))
}

// Appends copies, each after a space.
fn push_copies(alloc: Global, text: &mut String, copies: &[Marked]) -> Result<(), OutOfMemory>
    ensures text { IfOk result (λ _. string_bytes text.new ≡ string_bytes text.old ++ flat_map behind_copy copies.now) }
    ensures fits { OnOk result (Each FitsCopy copies.now) }
{
    for copy in copies {
        text.push_str(" ")?;
        push_copy(alloc, text, copy)?;
    }
    Ok(())
}

// Appends the line of a voice entry, without a line feed.
fn push_voice(
    alloc: Global,
    text: &mut String,
    connection: u32,
    revision: u64,
    packet: &[u8],
    copies: &[Marked],
) -> Result<(), OutOfMemory>
    ensures text { IfOk result (λ _. string_bytes text.new ≡ string_bytes text.old
        ++ entry_line (WorkerEntry.Voice connection revision packet.now copies.now)) }
    ensures fits { OnOk result (FitsEntry (WorkerEntry.Voice connection revision packet.now copies.now)) }
{
    let words = [
        place_word(connection),
        Word::Number(revision),
        Word::Digits(packet),
        Word::Number(copies.len() as u64),
    ];
    push_line(alloc, text, "v", &words)?;
    push_copies(alloc, text, copies)
}

// Appends the line of an entry of a worker, without a line feed.
pub(crate) fn push_entry(
    alloc: Global,
    text: &mut String,
    entry: &WorkerEntry,
) -> Result<(), OutOfMemory>
    ensures text { IfOk result (λ _. string_bytes text.new ≡ string_bytes text.old ++ entry_line entry.now) }
    ensures fits { OnOk result (FitsEntry entry.now) }
{
    match *entry {
        WorkerEntry::Voice {
            connection,
            revision,
            ref packet,
            ref copies,
        } => push_voice(
            alloc,
            text,
            connection,
            revision,
            packet.as_slice(),
            copies.as_slice(),
        ),
        WorkerEntry::Closed { connection, cause } => {
            let words = [place_word(connection), Word::Name(cause_name(cause))];
            push_line(alloc, text, "x", &words)
        }
    }
}
