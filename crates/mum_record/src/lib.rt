//! The texts of runs, in two versions. A recording is the lines of its head, and then a line for each step:
//! `head` has the readers of the head, and `read_step` and `write_step` read and write the line of a step.
//! A journal is what a server decided and sent: `read_journal` and `write_journal` read and write the text.
#![tactic(auto)]

mod control;
mod draft;
mod entry;
pub mod head;
pub mod journal;
pub mod journal_reader;
pub mod journal_writer;
pub mod line;
pub mod read;
pub mod split;
pub mod step;
mod words;
pub mod write;

pub use head::{
    Limits, Version, is_empty_config, push_config_line, push_limits_line, read_config_line,
    read_limits, read_workers, recording_version, steps_begin_below_the_head,
};
pub use journal::{ControlEntry, Journal, JournalFault, Marked, WorkerEntry};
pub use journal_reader::read_journal;
pub use journal_writer::write_journal;
pub use line::{Word, push_line, push_word, push_words};
pub use read::{read_step, reading_is_the_grammar};
pub use split::{INPUT_LIMIT, LINE_LIMIT, split_line, text_limits};
pub use step::{LineFault, Step};
pub use words::number_within;
pub use write::{cause_name, write_step};
