//! What the words of the command line ask for.

ghost use Rattle.std.specs.Prelude.{◌≡◌, map, string_bytes};
ghost use Rattle.mum_record.specs.Words.{place_of, revision_of};
ghost use Rattle.murmur_why.specs.Words.{every_or, heard_of, may_of, number_if_given, who_of};
ghost use Rattle.murmur_why.specs.Words as spec;

use mum_base::{ChannelId, SessionId};
use mum_record::number_within;
use mum_route::LOOPBACK;

// What the program is asked.
#[derive(Clone, Copy)]
pub(crate) enum Command {
    /// Who hears the packet of a line, or each packet where none is named, and why the others do not; or whether one
    /// session does.
    Heard {
        line: Option<u64>,
        session: Option<SessionId>,
    },
    /// Who would hear a session at a revision, or at the last one.
    Who {
        speaker: SessionId,
        target: u8,
        revision: Option<u64>,
    },
    /// What a session may do in a channel at a revision, or at the last one.
    May {
        session: SessionId,
        channel: ChannelId,
        revision: Option<u64>,
    },
    /// What a different configuration would change.
    Other,
}

// The greatest number of a session or a channel, which fits 32 bits.
const GREATEST_PLACE: u64 = 0xFFFF_FFFF;

// The greatest number of a line or a revision, which fits 64 bits.
const GREATEST_NUMBER: u64 = 0xFFFF_FFFF_FFFF_FFFF;

// The number of 32 bits that a word says.
fn place_in(word: &str) -> Option<u32>
    ensures { result ≡ place_of word.now }
{
    let number = number_within(0, GREATEST_PLACE, word)?;
    Some(number as u32)
}

// The number of 64 bits that a word says.
fn number_in(word: &str) -> Option<u64>
    ensures { result ≡ revision_of word.now }
{
    number_within(0, GREATEST_NUMBER, word)
}

// The session that a word names.
#[tactic(auto, unfolding(crate::specs::Words::session_of))]
pub(crate) fn session_in(word: &str) -> Option<SessionId>
    ensures { result ≡ spec.session_of word.now }
{
    match place_in(word) {
        Some(number) => Some(SessionId(number)),
        None => None,
    }
}

// The channel that a word names.
#[tactic(auto, unfolding(crate::specs::Words::channel_of))]
fn channel_in(word: &str) -> Option<ChannelId>
    ensures { result ≡ spec.channel_of word.now }
{
    match place_in(word) {
        Some(number) => Some(ChannelId(number)),
        None => None,
    }
}

// The target that a word names.
#[tactic(auto, unfolding(crate::specs::Words::target_of))]
fn target_in(word: &str) -> Option<u8>
    ensures { result ≡ spec.target_of word.now }
{
    let number = number_within(0, u64::from(LOOPBACK), word)?;
    Some(number as u8)
}

// The line that a word names, or that it names each.
#[tactic(auto, unfolding(crate::specs::Words::every_or))]
fn line_in(word: &str) -> Option<Option<u64>>
    ensures { result ≡ every_or word.now }
{
    match word {
        "-" => Some(None),
        _ => number_in(word).map(Some),
    }
}

// The number of the words that are left, if one is.
#[tactic(auto, unfolding(crate::specs::Words::number_if_given))]
fn number_if_given(words: &[String]) -> Option<Option<u64>>
    ensures { result ≡ number_if_given (map string_bytes words.now) }
{
    match words {
        [] => Some(None),
        [word] => number_in(word.as_str()).map(Some),
        _ => None,
    }
}

// The words after `heard`.
#[tactic(auto, unfolding(crate::specs::Words::heard_of))]
fn heard_in(words: &[String]) -> Option<Command>
    ensures { result ≡ heard_of (map string_bytes words.now) }
{
    match words {
        [line] => {
            let line = line_in(line.as_str())?;
            Some(Command::Heard {
                line,
                session: None,
            })
        }
        [line, session] => {
            let line = line_in(line.as_str())?;
            let session = session_in(session.as_str())?;
            Some(Command::Heard {
                line,
                session: Some(session),
            })
        }
        _ => None,
    }
}

// The words after `who`.
#[tactic(auto, unfolding(crate::specs::Words::who_of))]
fn who_in(words: &[String]) -> Option<Command>
    ensures { result ≡ who_of (map string_bytes words.now) }
{
    let [speaker, target, rest @ ..] = words else {
        return None;
    };
    let speaker = session_in(speaker.as_str())?;
    let target = target_in(target.as_str())?;
    let revision = number_if_given(rest)?;
    Some(Command::Who {
        speaker,
        target,
        revision,
    })
}

// The words after `may`.
#[tactic(auto, unfolding(crate::specs::Words::may_of))]
fn may_in(words: &[String]) -> Option<Command>
    ensures { result ≡ may_of (map string_bytes words.now) }
{
    let [session, channel, rest @ ..] = words else {
        return None;
    };
    let session = session_in(session.as_str())?;
    let channel = channel_in(channel.as_str())?;
    let revision = number_if_given(rest)?;
    Some(Command::May {
        session,
        channel,
        revision,
    })
}

// That one word is after `other`.
#[tactic(auto, unfolding(crate::specs::Words::other_of))]
fn other_in(words: &[String]) -> Option<Command>
    ensures { result ≡ spec.other_of (map string_bytes words.now) }
{
    match words {
        [_] => Some(Command::Other),
        _ => None,
    }
}

// What the words ask for; none where they have no such form.
#[tactic(auto, unfolding(crate::specs::Words::command_of))]
pub(crate) fn command_of(words: &[String]) -> Option<Command>
    ensures { result ≡ spec.command_of (map string_bytes words.now) }
{
    let [verb, rest @ ..] = words else {
        return None;
    };
    match verb.as_str() {
        "heard" => heard_in(rest),
        "who" => who_in(rest),
        "may" => may_in(rest),
        "other" => other_in(rest),
        _ => None,
    }
}
