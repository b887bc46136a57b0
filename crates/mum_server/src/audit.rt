//! The command `audit`: a journal is read whole and tested, and its counts are written.

ghost use Rattle.std.specs.Prelude.{◌≡◌, ◌++◌, ◌∷◌, [], IfOk, IfSome, List, ℕ, string_bytes};
ghost use Rattle.mum_opening.specs.Opening.{document_fault};
ghost use Rattle.mum_record.specs.Journal.{IsTextOf};
ghost use Rattle.mum_record.specs.Words.{line_of_words};
ghost use Rattle.mum_audit.specs.Audit.{IsAuditable};
ghost use Rattle.mum_server.specs.Audit.{FindsFault, Judges, audit_of, counts_words, found, judged};
ghost use Rattle.mum_server.specs.Audit as spec;
ghost use Rattle.mum_server.specs.Program.{Ends, ReadsCounted, WritesCounted};

use crate::end::{End, LineFault};
use crate::journal_input::read_input;
use mum_audit::{Audited, audit};
use mum_base::OutOfMemory;
use mum_config::BadConfig;
use mum_io::{Sink, Source, write_all};
use mum_opening::document_edits;
use mum_record::{Journal, Limits, Word, push_line};
use std::alloc::Global;
use std::mem::drop;

// The line of the counts of a legal journal.
fn counts_line(
    alloc: Global,
    controls: u64,
    voices: u64,
    copies: u64,
    full: u64,
) -> Result<String, OutOfMemory>
    ensures { IfOk result (λ line. string_bytes line ≡ line_of_words (counts_words controls voices copies full) ++ 10
        ∷ []) }
{
    let words = [
        Word::Name("controls"),
        Word::Number(controls),
        Word::Name("voices"),
        Word::Number(voices),
        Word::Name("copies"),
        Word::Number(copies),
        Word::Name("full"),
        Word::Number(full),
    ];
    let mut line = String::new(alloc);
    push_line(alloc, &mut line, "legal", &words)?;
    line.push_str("\n")?;
    Ok(line)
}

// The number of the line of the configuration.
fn config_line(limits: &Option<Limits>) -> u64
    ensures { result ≡ spec.config_line limits.now }
{
    match limits {
        Some(_) => 4,
        None => 3,
    }
}

// The first fault of the configuration of a journal.
fn test_config(alloc: Global, journal: &Journal) -> Result<(), End>
    ensures { FindsFault journal.now result }
{
    match document_edits(alloc, journal.config.as_slice()) {
        Ok(edits) => {
            drop(edits);
            Ok(())
        }
        Err(BadConfig::Fault { code, key }) => Err(End::faulty(
            config_line(&journal.limits),
            LineFault::BadConfig { code, key },
        )),
        Err(BadConfig::OutOfMemory) => Err(End::OutOfMemory),
    }
}

// The line of what an audit found, or where it found a wrong entry.
fn account_of(alloc: Global, audited: Audited) -> Result<String, End>
    ensures { Judges string_bytes (found audited) result }
{
    match audited {
        Audited::Legal {
            controls,
            voices,
            copies,
            full,
        } => match counts_line(alloc, controls, voices, copies, full) {
            Ok(line) => Ok(line),
            Err(_) => Err(End::OutOfMemory),
        },
        Audited::Wrong {
            line,
            given,
            defined,
        } => Err(End::faulty(line, LineFault::AuditWrong { given, defined })),
    }
}

// The line of a legal journal, or its first fault: the configuration is tested before the entries.
fn judge(alloc: Global, journal: &Journal) -> Result<String, End>
    requires { (text : List ℕ) × IsTextOf text journal.now }
    ensures { Judges string_bytes (judged journal.now) result }
{
    match test_config(alloc, journal) {
        Ok(()) => {}
        Err(end) => return Err(end),
    }
    match audit(alloc, journal) {
        Ok(audited) => account_of(alloc, audited),
        Err(_) => Err(End::OutOfMemory),
    }
}

// Writes the line of a journal.
fn write_line<O: Sink>(output: &mut O, line: &str) -> End
    ensures ends { Ends (record { text = line.now; ending = End.Finished }) result (O.written output.old)
        (O.written output.new) }
    ensures writes { WritesCounted result (O.faults output.old) (O.faults output.new) }
    ensures no_read { result ≡ End.ReadFault → ⊥ }
{
    match write_all(output, line.as_bytes()) {
        Ok(()) => End::Finished,
        Err(_) => End::WriteFault,
    }
}

// Reads a journal, and writes the counts of its audit.
pub(crate) fn audit_input<I: Source, O: Sink>(alloc: Global, input: &mut I, output: &mut O) -> End
    ensures ends { IfSome (I.left input.old) (λ bytes. Ends (audit_of bytes) result (O.written output.old)
        (O.written output.new)) }
    ensures reads { ReadsCounted result (I.faults input.old) (I.faults input.new) }
    ensures writes { WritesCounted result (O.faults output.old) (O.faults output.new) }
{
    let journal = match read_input(alloc, input) {
        Ok(journal) => journal,
        Err(end) => return end,
    };
    let judged = judge(alloc, &journal);
    drop(journal);
    match judged {
        Ok(line) => write_line(output, line.as_str()),
        Err(end) => end,
    }
}
