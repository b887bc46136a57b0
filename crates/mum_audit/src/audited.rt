//! The answer of an audit.

use mum_base::Text;

/// What an audit finds.
#[derive(Drop)]
pub enum Audited {
    /// No line is wrong. Each count stays at the greatest number of 64 bits.
    Legal {
        /// How many control entries there are.
        controls: u64,
        /// How many voice entries there are.
        voices: u64,
        /// How many copies were sent.
        copies: u64,
        /// How many copies found the box of their session full.
        full: u64,
    },
    /// The first wrong line.
    Wrong {
        /// Its number, counted from 1.
        line: u64,
        /// What it says, in the words of the journal.
        given: Text,
        /// What it had to say, or what it conflicts with.
        defined: Text,
    },
}
