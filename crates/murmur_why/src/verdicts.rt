//! Verdicts in the words of a journal, and the numbers that accepted commands give.

ghost use Rattle.std.specs.Prelude.{◌≡◌, ◌++◌, ◌∷◌, [], IfOk, decimal, string_bytes};
ghost use Rattle.mum_record.specs.Words.{line_of_words};
ghost use Rattle.mum_record.specs.Journal.{verdict_words};

use crate::states::States;
use mum_base::{ChannelId, Mark, OutOfMemory, SessionId};
use mum_record::{Word, push_line};
use mum_state::Edit;
use std::alloc::Global;

// What an accepted command gives a number of its own.
#[derive(Clone, Copy, PartialEq, Eq)]
pub(crate) enum Made {
    Session(SessionId),
    Channel(ChannelId),
}

// What an edit gives a number.
fn made_by(edit: &Edit) -> Option<Made> {
    match edit {
        Edit::Join { session, .. } => Some(Made::Session(*session)),
        Edit::MakeChannel { id, .. } => Some(Made::Channel(*id)),
        _ => None,
    }
}

// What an accepted command gives a number, if it does.
pub(crate) fn number_given(states: &States, mark: Mark) -> Option<Made> {
    let Mark::Accepted { revision } = mark else {
        return None;
    };
    let place = (revision as usize).checked_sub(1)?;
    made_by(states.accepted().get(place)?)
}

// Whether two verdicts are one, whatever their revisions.
pub(crate) fn is_same(here: Mark, there: Mark) -> bool {
    match (here, there) {
        (Mark::Accepted { .. }, Mark::Accepted { .. }) => true,
        _ => here == there,
    }
}

// Appends a word and a number.
fn push_pair(alloc: Global, text: &mut String, word: &str, number: u64) -> Result<(), OutOfMemory>
    ensures { IfOk result (λ _. string_bytes text.new ≡ string_bytes text.old
        ++ line_of_words (word.now ∷ decimal number ∷ [])) }
{
    push_line(alloc, text, word, &[Word::Number(number)])
}

// Appends a verdict.
pub(crate) fn push_verdict(alloc: Global, text: &mut String, mark: Mark) -> Result<(), OutOfMemory>
    ensures { IfOk result (λ _. string_bytes text.new ≡ string_bytes text.old
        ++ line_of_words (verdict_words mark)) }
{
    match mark {
        Mark::Accepted { revision } => push_pair(alloc, text, "accepted", revision),
        Mark::Lacks { perm, channel } => {
            let words = [
                Word::Number(u64::from(perm.0)),
                Word::Number(u64::from(channel.0)),
            ];
            push_line(alloc, text, "lacks", &words)
        }
        Mark::Refused { kind } => push_pair(alloc, text, "refused", u64::from(kind)),
        Mark::Rejected { kind } => push_pair(alloc, text, "rejected", u64::from(kind)),
        Mark::Answer => push_line(alloc, text, "answer", &[]),
        Mark::Ignored { why } => push_pair(alloc, text, "ignored", u64::from(why)),
    }
}

// Appends what is given a number.
pub(crate) fn push_made(alloc: Global, text: &mut String, made: Made) -> Result<(), OutOfMemory> {
    match made {
        Made::Session(session) => push_line(
            alloc,
            text,
            "session",
            &[Word::Number(u64::from(session.0))],
        ),
        Made::Channel(channel) => push_line(
            alloc,
            text,
            "channel",
            &[Word::Number(u64::from(channel.0))],
        ),
    }
}
