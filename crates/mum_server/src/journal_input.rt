//! A journal as it comes in: its lines are read one by one, kept, and read as one text.

ghost use Rattle.std.specs.Prelude.{◌≡◌, ◌++◌, ◌∷◌, [], IfOk, List, ℕ};
ghost use Rattle.mum_io.specs.Outside.{Rose};
ghost use Rattle.mum_lines.specs.Lines.{at_start};
ghost use Rattle.mum_record.specs.Journal.{IsTextOf};
ghost use Rattle.mum_server.specs.JournalText.{CountsReads, Gathers, ReadsGathered, ReadsInput};
ghost use Rattle.mum_server.specs.JournalText as spec;
ghost use Rattle.mum_server.specs.declared.end.End.TheVariants.{Faulty};

use crate::end::{End, LineFault};
use mum_base::OutOfMemory;
use mum_io::Source;
use mum_lines::{LineEnd, LineReader};
use mum_record::{Journal, JournalFault, read_journal};
use std::alloc::Global;
use std::mem::drop;

// Appends a line and its line feed.
fn push_line(text: &mut Vec<u8>, line: &[u8]) -> Result<(), OutOfMemory>
    ensures { IfOk result (λ _. text.new.items ≡ text.old.items ++ (line.now ++ 10 ∷ [])) }
{
    text.extend_from_slice(line)?;
    text.push(b'\n')?;
    Ok(())
}

// Appends the lines of an input, and answers the number of the first that is too long, if one is.
fn gather<I: Source>(
    text: &mut Vec<u8>,
    reader: &mut LineReader,
    input: &mut I,
) -> Result<Option<u64>, End>
    requires empty { text.old.items ≡ [] }
    requires reader { reader.old ≡ at_start }
    ensures gathers { Gathers (I.left input.old) text.new.items result }
    ensures counts { CountsReads result (Rose (I.faults input.old) (I.faults input.new))
        (I.faults input.new ≡ I.faults input.old) }
{
    let mut number = 1;
    'lines: loop {
        match reader.next(input) {
            LineEnd::Line(line) => {
                match push_line(text, line) {
                    Ok(()) => {}
                    Err(_) => return Err(End::OutOfMemory),
                }
                number += 1;
            }
            LineEnd::End => return Ok(None),
            LineEnd::Rest(rest) => match text.extend_from_slice(rest) {
                Ok(()) => return Ok(None),
                Err(_) => return Err(End::OutOfMemory),
            },
            LineEnd::TooLong => return Ok(Some(number)),
            LineEnd::Failed => return Err(End::ReadFault),
        }
    }
}

// The first fault of a text whose line `line` is the first that is not in the grammar.
fn first_fault(line: u64, long: Option<u64>) -> End
    ensures { result ≡ Faulty (spec.first_fault long line).0 (spec.first_fault long line).1 }
{
    let Some(long) = long else {
        return End::faulty(line, LineFault::BadJournal);
    };
    if line < long {
        End::faulty(line, LineFault::BadJournal)
    } else {
        End::faulty(long, LineFault::TooLong)
    }
}

// The journal of a text that was gathered up to a line that is too long, if one is.
fn journal_in(alloc: Global, text: &[u8], long: Option<u64>) -> Result<Journal, End>
    ensures reads { ReadsGathered long text.now result }
    ensures found { IfOk result (IsTextOf text.now) }
{
    let journal = match read_journal(alloc, text) {
        Ok(journal) => journal,
        Err(JournalFault::NotALine { line }) => return Err(first_fault(line, long)),
        Err(JournalFault::OutOfMemory) => return Err(End::OutOfMemory),
    };
    let Some(number) = long else {
        return Ok(journal);
    };
    drop(journal);
    Err(End::faulty(number, LineFault::TooLong))
}

// The journal of an input, or its first line that is too long or not in the grammar.
pub(crate) fn read_input<I: Source>(alloc: Global, input: &mut I) -> Result<Journal, End>
    ensures reads { ReadsInput (I.left input.old) result }
    ensures counts { CountsReads result (Rose (I.faults input.old) (I.faults input.new))
        (I.faults input.new ≡ I.faults input.old) }
    // What is read is the journal of some text.
    ensures found { IfOk result (λ journal. (text : List ℕ) × IsTextOf text journal) }
{
    let Ok(mut reader) = LineReader::new(alloc) else {
        return Err(End::OutOfMemory);
    };
    let mut text = Vec::new(alloc);
    match gather(&mut text, &mut reader, input) {
        Ok(long) => journal_in(alloc, &text, long),
        Err(end) => Err(end),
    }
}
