//! The lines of an input, one by one, through one buffer: `LineReader` holds the memory for one line, and reads
//! on only where it keeps no whole line.
#![tactic(auto)]

mod buffer;
pub mod reader;

pub use reader::{LineEnd, LineReader};
