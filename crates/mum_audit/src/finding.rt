//! What is wrong with a line, in the words of the journal.

ghost use Rattle.std.specs.Prelude.{◌≡◌, ◌++◌, ◌∷◌, IfOk, map, string_bytes};
ghost use Rattle.std.specs.List.{flat_map};
ghost use Rattle.mum_record.specs.Words.{spelled_word};
ghost use Rattle.mum_route.specs.Hearers.{member_of};
ghost use Rattle.mum_audit.specs.Finding.{audiences_differ, audience_text, member_word, members_of, numbers_differ, packet_is_faulty, verdicts_differ, verdict_text};

use mum_base::{Mark, OutOfMemory, SessionId, Text};
use mum_record::{Marked, Word, push_line, push_word};
use mum_route::Hearer;
use std::alloc::Global;

// What is wrong with a line.
#[derive(Drop)]
pub(crate) struct Finding {
    /// What it says.
    pub given: Text,
    /// What it had to say, or what it conflicts with.
    pub defined: Text,
}

// The text of a word.
fn word_text(alloc: Global, word: &Word<'_>) -> Result<Text, OutOfMemory>
    ensures { IfOk result (λ text. text ≡ spelled_word word.now) }
{
    let mut text = String::new(alloc);
    push_word(alloc, &mut text, word)?;
    Ok(Text::from_string(text))
}

// Appends a verdict.
fn push_verdict(alloc: Global, text: &mut String, verdict: &Mark) -> Result<(), OutOfMemory>
    ensures { IfOk result (λ _. string_bytes text.new ≡ string_bytes text.old ++ verdict_text verdict.now) }
{
    match *verdict {
        Mark::Accepted { revision } => {
            push_line(alloc, text, "accepted", &[Word::Number(revision)])
        }
        Mark::Lacks { perm, channel } => {
            let words = [
                Word::Number(u64::from(perm.0)),
                Word::Number(u64::from(channel.0)),
            ];
            push_line(alloc, text, "lacks", &words)
        }
        Mark::Refused { kind } => {
            push_line(alloc, text, "refused", &[Word::Number(u64::from(kind))])
        }
        Mark::Rejected { kind } => {
            push_line(alloc, text, "rejected", &[Word::Number(u64::from(kind))])
        }
        Mark::Answer => push_line(alloc, text, "answer", &[]),
        Mark::Ignored { why } => push_line(alloc, text, "ignored", &[Word::Number(u64::from(why))]),
    }
}

// A verdict, as a journal has it.
fn verdict_text(alloc: Global, verdict: &Mark) -> Result<Text, OutOfMemory>
    ensures { IfOk result (λ text. text ≡ verdict_text verdict.now) }
{
    let mut text = String::new(alloc);
    push_verdict(alloc, &mut text, verdict)?;
    Ok(Text::from_string(text))
}

// Appends a member after a space: SESSION/CONTEXT.
fn push_member(
    alloc: Global,
    text: &mut String,
    session: SessionId,
    context: u8,
) -> Result<(), OutOfMemory>
    ensures { IfOk result (λ _. string_bytes text.new ≡ string_bytes text.old ++ 32 ∷ member_word (session, context)) }
{
    text.push_str(" ")?;
    push_word(alloc, text, &Word::Number(u64::from(session.0)))?;
    text.push_str("/")?;
    push_word(alloc, text, &Word::Number(u64::from(context)))
}

// Appends the members for whom copies are, each after a space.
fn push_copies(alloc: Global, text: &mut String, copies: &[Marked]) -> Result<(), OutOfMemory>
    ensures { IfOk result (λ _. string_bytes text.new ≡ string_bytes text.old
        ++ flat_map (λ copy. 32 ∷ member_word (copy.session, copy.context)) copies.now) }
{
    for copy in copies {
        push_member(alloc, text, copy.session, copy.context)?;
    }
    Ok(())
}

// The members for whom copies are, as a journal has them.
fn copies_text(alloc: Global, copies: &[Marked]) -> Result<Text, OutOfMemory>
    ensures { IfOk result (λ text. text ≡ audience_text (members_of copies.now)) }
{
    let mut text = String::new(alloc);
    push_word(alloc, &mut text, &Word::Number(copies.len() as u64))?;
    push_copies(alloc, &mut text, copies)?;
    Ok(Text::from_string(text))
}

// Appends those who hear a packet, each after a space.
fn push_hearers(alloc: Global, text: &mut String, hearers: &[Hearer]) -> Result<(), OutOfMemory>
    ensures { IfOk result (λ _. string_bytes text.new ≡ string_bytes text.old
        ++ flat_map (λ hearer. 32 ∷ member_word (member_of hearer)) hearers.now) }
{
    for hearer in hearers {
        push_member(alloc, text, hearer.session, hearer.context)?;
    }
    Ok(())
}

// Those who hear a packet, as a journal has them.
fn hearers_text(alloc: Global, hearers: &[Hearer]) -> Result<Text, OutOfMemory>
    ensures { IfOk result (λ text. text ≡ audience_text (map member_of hearers.now)) }
{
    let mut text = String::new(alloc);
    push_word(alloc, &mut text, &Word::Number(hearers.len() as u64))?;
    push_hearers(alloc, &mut text, hearers)?;
    Ok(Text::from_string(text))
}

// A number is not the expected one.
pub(crate) fn numbers_differ(
    alloc: Global,
    given: u64,
    defined: u64,
) -> Result<Finding, OutOfMemory>
    ensures { IfOk result (λ finding. finding ≡ numbers_differ given defined) }
{
    Ok(Finding {
        given: word_text(alloc, &Word::Number(given))?,
        defined: word_text(alloc, &Word::Number(defined))?,
    })
}

// A verdict is not the expected one.
pub(crate) fn verdicts_differ(
    alloc: Global,
    given: &Mark,
    defined: &Mark,
) -> Result<Finding, OutOfMemory>
    ensures { IfOk result (λ finding. finding ≡ verdicts_differ given.now defined.now) }
{
    Ok(Finding {
        given: verdict_text(alloc, given)?,
        defined: verdict_text(alloc, defined)?,
    })
}

// A packet does not parse, for the fault of this number.
pub(crate) fn packet_is_faulty(
    alloc: Global,
    packet: &[u8],
    code: u8,
) -> Result<Finding, OutOfMemory>
    ensures { IfOk result (λ finding. finding ≡ packet_is_faulty packet.now code) }
{
    Ok(Finding {
        given: word_text(alloc, &Word::Digits(packet))?,
        defined: word_text(alloc, &Word::Number(u64::from(code)))?,
    })
}

// The copies are for others than those who hear the packet.
pub(crate) fn audiences_differ(
    alloc: Global,
    copies: &[Marked],
    hearers: &[Hearer],
) -> Result<Finding, OutOfMemory>
    ensures { IfOk result (λ finding. finding ≡ audiences_differ (members_of copies.now) (map member_of hearers.now)) }
{
    Ok(Finding {
        given: copies_text(alloc, copies)?,
        defined: hearers_text(alloc, hearers)?,
    })
}
