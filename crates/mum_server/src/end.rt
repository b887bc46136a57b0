//! How the program ends: one type from the line at fault to the exit, with one status and one line.

ghost use Rattle.std.specs.Prelude.{◌≡◌, ◌++◌, ◌∷◌, [], IfOk, string_bytes};
ghost use Rattle.std.specs.List.{flat_map};
ghost use Rattle.mum_record.specs.Words.{behind_word, line_of_words};
ghost use Rattle.mum_server.specs.End.{details, fault_name, fault_status, fault_words};
ghost use Rattle.mum_server.specs.declared.end.End.TheVariants.{Faulty};
ghost use Rattle.mum_server.specs.declared.end.LineFault.TheVariants as faults;

use mum_base::{OutOfMemory, Text};
use mum_record::{Word, push_line, push_words};
use std::alloc::{AllocError, Global};

/// What is wrong with a line.
#[derive(Drop)]
pub enum LineFault {
    /// It has more than `LINE_LIMIT` bytes, or the recording passes `INPUT_LIMIT` bytes in it.
    TooLong,
    /// It is not in the grammar of recordings.
    BadRecording,
    /// It is not in the grammar of journals.
    BadJournal,
    /// It names a document that is no configuration: the number of its first fault, and the key at which that is.
    BadConfig { code: u8, key: Text },
    /// Its step is not allowed: what the step gave, against what is expected.
    IllegalStep { given: u64, against: u64 },
    /// Its entry of a journal is wrong: what it says, and what it had to say.
    AuditWrong { given: Text, defined: Text },
}

/// How the program ends.
#[derive(Drop)]
pub enum End {
    /// The recording was run to its end, or the exercise was.
    Finished,
    /// The line with this number, from 1, is the first that is faulty.
    Faulty { line: u64, fault: LineFault },
    /// A read failed.
    ReadFault,
    /// A write failed.
    WriteFault,
    OutOfMemory,
}

impl End {
    // The end of a run at a fault of line `n`.
    pub(crate) fn faulty(n: u64, fault: LineFault) -> End
        ensures { result ≡ Faulty n fault }
    {
        End::Faulty { line: n, fault }
    }
}

impl From<AllocError> for End {
    ghost use Rattle.std.specs.Prelude.{◌≡◌};
    ghost use Rattle.mum_server.specs.declared.end.End.TheVariants.{OutOfMemory};

    ghost from_gives = { λ _ end. end ≡ OutOfMemory };

    fn from(_: AllocError) -> End {
        End::OutOfMemory
    }
}

pub(crate) const READ_FAULT_LINE: &str = "murmur: 3 ReadFault\n";

pub(crate) const WRITE_FAULT_LINE: &str = "murmur: 4 WriteFault\n";

pub(crate) const MEMORY_LINE: &str = "murmur: 70 OutOfMemory\n";

// Appends what is said of a configuration's fault: its number and its key.
fn push_config_fault(
    alloc: Global,
    text: &mut String,
    code: u8,
    key: &str,
) -> Result<(), OutOfMemory>
    ensures { IfOk result (λ _. string_bytes text.new ≡ string_bytes text.old
        ++ flat_map behind_word (details 0 (faults.BadConfig code key.now))) }
{
    let words = [Word::Number(u64::from(code)), Word::Name(key)];
    push_words(alloc, text, &words)
}

// Appends the line that is at fault.
fn push_place(alloc: Global, text: &mut String, n: u64) -> Result<(), OutOfMemory>
    ensures { IfOk result (λ _. string_bytes text.new ≡ string_bytes text.old
        ++ flat_map behind_word (details n faults.BadRecording)) }
{
    push_words(alloc, text, &[Word::Name("line"), Word::Number(n)])
}

// Appends the line whose step is not allowed, and the two numbers.
fn push_numbers(
    alloc: Global,
    text: &mut String,
    n: u64,
    given: u64,
    against: u64,
) -> Result<(), OutOfMemory>
    ensures { IfOk result (λ _. string_bytes text.new ≡ string_bytes text.old
        ++ flat_map behind_word (details n (faults.IllegalStep given against))) }
{
    let words = [
        Word::Name("line"),
        Word::Number(n),
        Word::Name("given"),
        Word::Number(given),
        Word::Name("against"),
        Word::Number(against),
    ];
    push_words(alloc, text, &words)
}

// Appends the line whose entry is wrong, what it says and what it had to say.
fn push_entry<'a>(
    alloc: Global,
    text: &mut String,
    n: u64,
    given: &'a str,
    defined: &'a str,
) -> Result<(), OutOfMemory>
    ensures { IfOk result (λ _. string_bytes text.new ≡ string_bytes text.old
        ++ flat_map behind_word (details n (faults.AuditWrong given.now defined.now))) }
{
    let words = [
        Word::Name("line"),
        Word::Number(n),
        Word::Name("given"),
        Word::Name(given),
        Word::Name("defined"),
        Word::Name(defined),
    ];
    push_words(alloc, text, &words)
}

impl LineFault {
    /// The status of a run that ends at this fault.
    pub fn status(&self) -> u8
        ensures { result ≡ fault_status self.now }
    {
        match self {
            LineFault::TooLong => 10,
            LineFault::BadRecording => 2,
            LineFault::BadJournal => 2,
            LineFault::BadConfig { .. } => 6,
            LineFault::IllegalStep { .. } => 7,
            LineFault::AuditWrong { .. } => 5,
        }
    }

    fn name(&self) -> &'static str
        ensures { result.now ≡ fault_name self.now }
    {
        match self {
            LineFault::TooLong => "TooLong",
            LineFault::BadRecording => "BadRecording",
            LineFault::BadJournal => "BadJournal",
            LineFault::BadConfig { .. } => "BadConfig",
            LineFault::IllegalStep { .. } => "IllegalStep",
            LineFault::AuditWrong { .. } => "AuditWrong",
        }
    }

    // Appends where this fault of line `n` is, and what it is about.
    fn push_details(&self, alloc: Global, text: &mut String, n: u64) -> Result<(), OutOfMemory>
        ensures { IfOk result (λ _. string_bytes text.new ≡ string_bytes text.old ++ flat_map behind_word
            (details n self.now)) }
    {
        match self {
            LineFault::TooLong => push_place(alloc, text, n),
            LineFault::BadRecording => push_place(alloc, text, n),
            LineFault::BadJournal => push_place(alloc, text, n),
            LineFault::BadConfig { code, key } => {
                push_config_fault(alloc, text, *code, key.as_str())
            }
            LineFault::IllegalStep { given, against } => {
                push_numbers(alloc, text, n, *given, *against)
            }
            LineFault::AuditWrong { given, defined } => {
                push_entry(alloc, text, n, given.as_str(), defined.as_str())
            }
        }
    }

    // Appends what is said of this fault of line `n`, with its line feed.
    pub(crate) fn push(&self, alloc: Global, text: &mut String, n: u64) -> Result<(), OutOfMemory>
        ensures { IfOk result (λ _. string_bytes text.new ≡ string_bytes text.old
            ++ (line_of_words (fault_words n self.now) ++ 10 ∷ [])) }
    {
        let words = [
            Word::Number(u64::from(self.status())),
            Word::Name(self.name()),
        ];
        push_line(alloc, text, "murmur:", &words)?;
        self.push_details(alloc, text, n)?;
        text.push_str("\n")
    }
}
