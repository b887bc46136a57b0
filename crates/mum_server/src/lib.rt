//! The runs of the server: the program's call over a recording, a journal or an exercise, and as it serves.
#![tactic(auto)]

mod audit;
mod command;
mod end;
mod journal_input;
pub mod laws;
mod opening;
mod program;
mod replay;
mod top;

pub use command::{keeps_channels, later_roles};
pub use mum_exercise::{DOCUMENT, USERS, WORKERS, generate};
pub use mum_record::{INPUT_LIMIT, LINE_LIMIT, text_limits};
pub use program::{out_of_memory, run_plain};
pub use top::murmur;
