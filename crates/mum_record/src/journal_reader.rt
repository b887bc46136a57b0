//! Reading a journal.

ghost use Rattle.std.specs.Prelude.{◌≡◌, ◌≢◌, ◌+◌, IfOk, IfErr, IfSome, length, position};
ghost use Rattle.mum_record.specs.Journal.{IsTextOf};
ghost use Rattle.mum_record.specs.declared.journal.JournalFault.TheVariants.{OutOfMemory};
ghost use Rattle.mum_record.specs.JournalReading.{ending};
ghost use Rattle.mum_record.specs.JournalAnswers.{ReadsText, AnswersBy, NamesFirstFault, StopsAt, JournalsAreReadBack, TextsSayOneJournal};

use crate::draft::{Draft, Stage};
use crate::journal::{Journal, JournalFault};
use crate::split::split_line;
use crate::step::LineFault;
use std::alloc::Global;

// The fault of a line as that of the journal that it is in.
fn fault_at(line: u64, fault: LineFault) -> JournalFault
    ensures { StopsAt line fault result }
{
    match fault {
        LineFault::NotALine => JournalFault::NotALine { line },
        LineFault::OutOfMemory => JournalFault::OutOfMemory,
    }
}

// The journal of a draft, if it has ended and nothing follows.
fn ended(draft: Draft, line: u64, rest: &[u8]) -> Result<Journal, JournalFault>
    ensures answer { AnswersBy (ending draft line rest.now) result }
    ensures named { IfErr result (λ fault. fault ≢ OutOfMemory) }
{
    if matches!(draft.stage, Stage::Over) && rest.is_empty() {
        Ok(draft.into_journal())
    } else {
        Err(JournalFault::NotALine { line })
    }
}

/// The journal that a text says, or the first line that is none of it. The text may be any bytes. `OutOfMemory` is the
/// answer at a line alone: a text that ends too early, or goes on after its end, takes no memory to be refused.
pub fn read_journal(alloc: Global, text: &[u8]) -> Result<Journal, JournalFault>
    // A journal is the one that the text says, and `NotALine` is of a text that says none.
    ensures exact { ReadsText text.now result }
    // What is read is a journal whose text this is.
    ensures found { IfOk result (IsTextOf text.now) }
    // A text is refused at the first line that no journal has after the lines before it.
    ensures refused { IfErr result (NamesFirstFault text.now) }
{
    let mut draft = Draft::new(alloc);
    let mut number = 1;
    let mut rest = text;
    'lines: while let Some((line, behind)) = split_line(rest) {
        match draft.take(alloc, line) {
            Ok(()) => {}
            Err(fault) => return Err(fault_at(number, fault)),
        }
        number += 1;
        rest = behind;
    }
    ended(draft, number, rest)
}

/// What contracts compute of a text, `journal_of`, is the grammar of journals: each journal that has
/// lines is read back from its text, and each text says one journal at most.
pub fn journals_are_read_back()
    ensures read_back { JournalsAreReadBack }
    ensures one { TextsSayOneJournal }
{}
