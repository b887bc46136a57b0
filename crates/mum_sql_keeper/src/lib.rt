//! A keeper over a SQLite file.
#![tactic(auto)]

mod changes;
mod failures;
mod file;
mod kept_file;
mod log;
mod rows;
mod sql_keeper;

pub use sql_keeper::SqlKeeper;
