//! How a run ends, what is said of it, and its status.

use mum_base::{OutOfMemory, Text};
use mum_io::{Sink, write_all};
use mum_record::{Word, push_line};
use std::alloc::{AllocError, Global};

// How a run ends.
#[derive(Drop)]
pub(crate) enum End {
    /// What was asked is answered.
    Finished,
    /// The words ask for nothing.
    Usage,
    /// Nobody speaks in this line.
    NoPacket {
        line: u64,
    },
    /// There are fewer accepted edits.
    NoRevision {
        revision: u64,
        last: u64,
    },
    /// The line is the first that is in neither grammar, or it is missing.
    NotALine {
        line: u64,
    },
    /// The step of the line is not allowed.
    Illegal {
        line: u64,
        given: u64,
        against: u64,
    },
    /// The line of a journal is wrong.
    Wrong {
        line: u64,
        given: Text,
        defined: Text,
    },
    /// A configuration has a fault.
    BadConfig {
        code: u8,
        key: Text,
    },
    ReadFault,
    WriteFault,
    /// The input has too many bytes.
    TooLong,
    OutOfMemory,
}

impl From<AllocError> for End {
    ghost use Rattle.std.specs.Prelude.{◌≡◌};
    ghost use Rattle.murmur_why.specs.declared.end.End.TheVariants.{OutOfMemory};

    ghost from_gives = { λ _ end. end ≡ OutOfMemory };

    fn from(_: AllocError) -> End {
        End::OutOfMemory
    }
}

const USAGE: &str = "usage: murmur-why heard LINE|- [SESSION] | who SESSION TARGET [REVISION] \
    | may SESSION CHANNEL [REVISION] | other FILE\n";

const MEMORY: &str = "murmur-why: 70 OutOfMemory\n";

// Appends what is said of the end of a run: a word after its status, and what it is about.
fn push_end(alloc: Global, text: &mut String, end: &End) -> Result<(), OutOfMemory> {
    match end {
        End::Finished => Ok(()),
        End::Usage => text.push_str(USAGE),
        End::NoPacket { line } => {
            let words = [Word::Name("1 NoPacket line"), Word::Number(*line)];
            push_line(alloc, text, "murmur-why:", &words)
        }
        End::NoRevision { revision, last } => {
            let words = [
                Word::Name("1 NoRevision"),
                Word::Number(*revision),
                Word::Name("of"),
                Word::Number(*last),
            ];
            push_line(alloc, text, "murmur-why:", &words)
        }
        End::NotALine { line } => {
            let words = [Word::Name("2 NotALine line"), Word::Number(*line)];
            push_line(alloc, text, "murmur-why:", &words)
        }
        End::ReadFault => text.push_str("murmur-why: 3 ReadFault"),
        End::WriteFault => text.push_str("murmur-why: 4 WriteFault"),
        End::Illegal {
            line,
            given,
            against,
        } => {
            let words = [
                Word::Name("5 NotLegal line"),
                Word::Number(*line),
                Word::Name("given"),
                Word::Number(*given),
                Word::Name("against"),
                Word::Number(*against),
            ];
            push_line(alloc, text, "murmur-why:", &words)
        }
        End::Wrong {
            line,
            given,
            defined,
        } => {
            let words = [
                Word::Name("5 NotLegal line"),
                Word::Number(*line),
                Word::Name("given"),
                Word::Name(given.as_str()),
                Word::Name("defined"),
                Word::Name(defined.as_str()),
            ];
            push_line(alloc, text, "murmur-why:", &words)
        }
        End::BadConfig { code, key } => {
            let words = [
                Word::Name("6 BadConfig"),
                Word::Number(u64::from(*code)),
                Word::Name(key.as_str()),
            ];
            push_line(alloc, text, "murmur-why:", &words)
        }
        End::TooLong => text.push_str("murmur-why: 10 TooLong"),
        End::OutOfMemory => text.push_str("murmur-why: 70 OutOfMemory"),
    }
}

// The status of a run that ends so.
fn status(end: &End) -> u8 {
    match end {
        End::Finished => 0,
        End::Usage | End::NoPacket { .. } | End::NoRevision { .. } => 1,
        End::NotALine { .. } => 2,
        End::ReadFault => 3,
        End::WriteFault => 4,
        End::Illegal { .. } | End::Wrong { .. } => 5,
        End::BadConfig { .. } => 6,
        End::TooLong => 10,
        End::OutOfMemory => 70,
    }
}

// The line that is said of the end of a run.
fn line_of(alloc: Global, end: &End) -> Result<String, OutOfMemory> {
    let mut text = String::new(alloc);
    push_end(alloc, &mut text, end)?;
    if !matches!(end, End::Finished | End::Usage) {
        text.push_str("\n")?;
    }
    Ok(text)
}

// Writes a line to the error stream, as far as that takes it.
fn say<E: Sink>(errors: &mut E, line: &str) {
    let _ = write_all(errors, line.as_bytes());
}

// Says how a run ended on the error stream, and gives its status.
pub(crate) fn report<E: Sink>(alloc: Global, end: &End, errors: &mut E) -> u8 {
    match line_of(alloc, end) {
        Ok(line) => {
            say(errors, line.as_str());
            status(end)
        }
        Err(_) => {
            say(errors, MEMORY);
            70
        }
    }
}
