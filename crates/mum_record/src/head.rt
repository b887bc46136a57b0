//! The lines above the steps of a recording and above the entries of a journal.

ghost use Rattle.std.specs.Prelude.{◌≡◌, ◌↔◌, ℕ, List, ◌++◌, IsTrue, IfSome, IfNone, IfOk, IsErrOf, string_bytes};
ghost use Rattle.mum_record.specs.Head.{recording_line, journal_version, version_with, BeginBelowTheHead};
ghost use Rattle.mum_record.specs.Head.{IsWorkersLine, workers_of, IsLimitsLine, limits_of, limits_line};
ghost use Rattle.mum_record.specs.Head.{empty_config_line, document_of, config_of, config_line, IsConfigLine};
ghost use Rattle.mum_record.specs.Head as spec;
ghost use Rattle.mum_record.specs.Answers.{Reads};

use crate::line::{Word, place_word, push_line};
use crate::step::LineFault;
use crate::words::{Words, bytes_in, number_within, words_in};
use mum_base::{Octets, OutOfMemory};
use std::alloc::Global;
use std::marker::Model;

/// The most workers of a recording or a journal.
pub const WORKERS_LIMIT: u64 = 8;

/// The least limit of sessions that a line may name.
pub const LEAST_SESSIONS: u64 = 128;

/// The greatest limit of sessions that a line may name.
pub const MOST_SESSIONS: u64 = 512;

/// The least limit of channels that a line may name.
pub const LEAST_CHANNELS: u64 = 1_024;

/// The greatest limit of channels that a line may name.
pub const MOST_CHANNELS: u64 = 2_048;

/// Limits of sessions and of channels that a line may name: 128 to 512 sessions, and 1,024 to 2,048
/// channels.
#[derive(Clone, Copy)]
pub struct Limits {
    sessions: u16,
    channels: u32,
}

impl Model for Limits {
    ghost use Rattle.std.specs.Prelude.{ℕ};
    ghost use Rattle.mum_record.specs.Head.{AreLimits};

    ghost Value = { ℕ × ℕ };

    ghost view = { λ l. (l.sessions, l.channels) };

    ghost invariant = { λ l. AreLimits (l.sessions, l.channels) };

    ghost inverse = { λ l. record { sessions = l.0; channels = l.1 } };
}

impl Limits {
    ghost use Rattle.std.specs.Prelude.{◌≡◌, ◌≤◌};
    ghost use Rattle.mum_record.specs.declared.head.TheConstants.{MOST_SESSIONS, MOST_CHANNELS};

    /// The greatest limits.
    pub fn greatest() -> Limits
        ensures { result ≡ (MOST_SESSIONS, MOST_CHANNELS) }
    {
        Limits {
            sessions: MOST_SESSIONS as u16,
            channels: MOST_CHANNELS as u32,
        }
    }

    /// The limit of sessions.
    pub fn sessions(&self) -> u16
        ensures value { result ≡ self.now.0 }
        ensures range { (LEAST_SESSIONS ≤ result) × (result ≤ MOST_SESSIONS) }
    {
        self.sessions
    }

    /// The limit of channels.
    pub fn channels(&self) -> u32
        ensures value { result ≡ self.now.1 }
        ensures range { (LEAST_CHANNELS ≤ result) × (result ≤ MOST_CHANNELS) }
    {
        self.channels
    }
}

/// A version of recordings and journals.
#[derive(Clone, Copy, Debug, PartialEq, Eq)]
pub enum Version {
    /// The limits are 128 sessions and 1,024 channels.
    One,
    /// A line names the limits.
    Two,
}

impl Version {
    /// The version in which a text with these limits of sessions and channels, or without any, is written.
    pub fn with_limits(limits: &Option<Limits>) -> Version
        ensures { result ≡ version_with limits.now }
    {
        match limits {
            None => Version::One,
            Some(_) => Version::Two,
        }
    }

    /// The line at which the steps of a recording or the entries of a journal begin, counted from 1.
    pub fn first_step_line(self) -> u64
        ensures { result ≡ spec.first_step_line self }
    {
        match self {
            Version::One => 4,
            Version::Two => 5,
        }
    }
}

/// Steps and entries begin at the line below the head, in either version.
pub fn steps_begin_below_the_head()
    ensures { BeginBelowTheHead }
{}

/// The version of the recording that the line begins: `recording 1` or `recording 2`.
#[tactic(auto, unfolding(crate::specs::Head::recording_version))]
pub fn recording_version(line: &[u8]) -> Option<Version>
    ensures exact { result ≡ spec.recording_version line.now }
    ensures found { IfSome result (λ version. line.now ≡ recording_line version) }
    ensures only { IfNone result ((version : Version) → line.now ≡ recording_line version → ⊥) }
{
    if line == b"recording 1".as_slice() {
        Some(Version::One)
    } else if line == b"recording 2".as_slice() {
        Some(Version::Two)
    } else {
        None
    }
}

// The version of the journal that a line which is a text begins.
#[tactic(auto, unfolding(crate::specs::Head::journal_version))]
pub(crate) fn journal_version_in(line: &str) -> Option<Version>
    ensures { result ≡ journal_version line.now }
{
    match line {
        "journal 1" => Some(Version::One),
        "journal 2" => Some(Version::Two),
        _ => None,
    }
}

// The workers that a line which is a text names.
#[tactic(auto, unfolding(crate::specs::Head::workers_of))]
pub(crate) fn workers_in(line: &str) -> Option<u8>
    ensures { result ≡ workers_of line.now }
{
    let Words::Two("workers", word) = words_in(line) else {
        return None;
    };
    let workers = number_within(1, WORKERS_LIMIT, word)?;
    Some(workers as u8)
}

/// The workers, 1 to 8, that the second line of a recording or a journal names: `workers W`.
pub fn read_workers(line: &[u8]) -> Option<u8>
    ensures exact { result ≡ workers_of line.now }
    ensures found { IfSome result (IsWorkersLine line.now) }
    ensures only { IfNone result ((w : ℕ) → IsWorkersLine line.now w → ⊥) }
    ensures limit { WORKERS_LIMIT ≡ 8 }
{
    match str::from_utf8(line) {
        Ok(text) => workers_in(text),
        Err(_) => None,
    }
}

// The limits that a line which is a text names.
#[tactic(auto, unfolding(crate::specs::Head::limits_of))]
pub(crate) fn limits_in(line: &str) -> Option<Limits>
    ensures { result ≡ limits_of line.now }
{
    let Words::Three("limits", sessions, channels) = words_in(line) else {
        return None;
    };
    let sessions = number_within(LEAST_SESSIONS, MOST_SESSIONS, sessions)?;
    let channels = number_within(LEAST_CHANNELS, MOST_CHANNELS, channels)?;
    Some(Limits {
        sessions: sessions as u16,
        channels: channels as u32,
    })
}

/// The limit of sessions, 128 to 512, and that of channels, 1,024 to 2,048, that the third line of a
/// recording or a journal of version 2 names: `limits SESSIONS CHANNELS`.
pub fn read_limits(line: &[u8]) -> Option<Limits>
    ensures exact { result ≡ limits_of line.now }
    ensures found { IfSome result (IsLimitsLine line.now) }
    ensures only { IfNone result ((limits : ℕ × ℕ) → IsLimitsLine line.now limits → ⊥) }
    ensures sessions { (LEAST_SESSIONS ≡ 128) × (MOST_SESSIONS ≡ 512) }
    ensures channels { (LEAST_CHANNELS ≡ 1024) × (MOST_CHANNELS ≡ 2048) }
{
    match str::from_utf8(line) {
        Ok(text) => limits_in(text),
        Err(_) => None,
    }
}

/// Appends the line that names limits of sessions and channels, without a line feed.
pub fn push_limits_line(
    alloc: Global,
    text: &mut String,
    limits: &Limits,
) -> Result<(), OutOfMemory>
    ensures { IfOk result (λ _. string_bytes text.new ≡ string_bytes text.old ++ limits_line limits.now) }
{
    let words = [
        place_word(u32::from(limits.sessions())),
        place_word(limits.channels()),
    ];
    push_line(alloc, text, "limits", &words)
}

/// Whether the line names no configuration: `config -`.
pub fn is_empty_config(line: &[u8]) -> bool
    ensures exact { result ≡ spec.is_empty_config line.now }
    ensures said { IsTrue result ↔ (line.now ≡ empty_config_line) }
{
    line == b"config -".as_slice()
}

// The document that a word says: none for a dash, else the bytes whose digits it is.
fn document_in(alloc: Global, word: &str) -> Result<Octets, LineFault>
    ensures { Reads result (document_of word.now) }
{
    match word {
        "-" => Ok(Octets::from_vec(Vec::new(alloc))),
        _ => bytes_in(alloc, word),
    }
}

// The document that a line which is a text names.
#[tactic(auto, unfolding(crate::specs::Head::config_of))]
pub(crate) fn config_in(alloc: Global, line: &str) -> Result<Octets, LineFault>
    ensures { Reads result (config_of line.now) }
{
    match words_in(line) {
        Words::Two("config", word) => document_in(alloc, word),
        _ => Err(LineFault::NotALine),
    }
}

/// The document of the configuration that the last line of a head names, `config -` or `config HEX`: no
/// bytes for the dash. Whether the document is a configuration is not tested. Only a document takes
/// memory, and only once the line is known to name one.
pub fn read_config_line(alloc: Global, line: &[u8]) -> Result<Octets, LineFault>
    ensures exact { Reads result (config_of line.now) }
    ensures found { IfOk result (IsConfigLine line.now) }
    // A line is refused exactly where it names no document, whatever memory there is.
    ensures refused { IsErrOf result LineFault.NotALine
        ↔ ((document : List ℕ) → IsConfigLine line.now document → ⊥) }
{
    match str::from_utf8(line) {
        Ok(text) => config_in(alloc, text),
        Err(_) => Err(LineFault::NotALine),
    }
}

/// Appends the line that names the document of a configuration, `config -` where it has no bytes,
/// without a line feed.
pub fn push_config_line(
    alloc: Global,
    text: &mut String,
    document: &[u8],
) -> Result<(), OutOfMemory>
    ensures { IfOk result (λ _. string_bytes text.new ≡ string_bytes text.old ++ config_line document.now) }
{
    if document.is_empty() {
        return push_line(alloc, text, "config", &[Word::Name("-")]);
    }
    push_line(alloc, text, "config", &[Word::Digits(document)])
}
