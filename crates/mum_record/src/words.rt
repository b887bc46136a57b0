//! The words of a line, separated by one space, and the numbers that words say.

ghost use Rattle.std.specs.Prelude.{◌≡◌, ◌∷◌, ◌<◌, [], length, IfSome, MatchOption, is_some};
ghost use Rattle.std.specs.Option.{option_copied};
ghost use Rattle.std.specs.List.{list_all};
ghost use Rattle.mum_record.specs.Words.{words_in, words_after, place_of, revision_of, byte_of, bytes_of, AreWords};
ghost use Rattle.std.specs.Prelude.{◌↔◌, IsTrue};
ghost use Rattle.mum_record.specs.Words as spec;
ghost use Rattle.mum_record.specs.Answers.{BeginsPlainly, Reads, is_lower_digit};

use crate::step::LineFault;
use mum_base::Octets;
use std::alloc::Global;

// The words of a line. No line of a recording has more than three.
#[derive(Clone, Copy)]
pub(crate) enum Words<'a> {
    One(&'a str),
    Two(&'a str, &'a str),
    Three(&'a str, &'a str, &'a str),
    More,
}

// The word before the first space, and what follows that space.
pub(crate) fn first_word(line: &str) -> (&str, Option<&str>)
    ensures words { words_in line.now ≡ result.0.now ∷ words_after (option_copied result.1) }
    ensures shorter { IfSome result.1 (λ rest. length rest.now < length line.now) }
{
    match line.split_once(' ') {
        Some((word, rest)) => (word, Some(rest)),
        None => (line, None),
    }
}

// The word before the first space and what follows that space, where there is one.
pub(crate) fn split_word(line: &str) -> Option<(&str, &str)>
    ensures { MatchOption result (words_in line.now ≡ line.now ∷ [])
        (λ parts. words_in line.now ≡ parts.0.now ∷ words_in parts.1.now) }
{
    let (word, rest) = first_word(line);
    match rest {
        Some(rest) => Some((word, rest)),
        None => None,
    }
}

// The words of a line. It reads no further than the third space.
pub(crate) fn words_in(line: &str) -> Words<'_>
    ensures { AreWords (words_in line.now) result }
{
    let (verb, rest) = first_word(line);
    let Some(rest) = rest else {
        return Words::One(verb);
    };
    let (name, rest) = first_word(rest);
    let Some(rest) = rest else {
        return Words::Two(verb, name);
    };
    match first_word(rest) {
        (word, None) => Words::Three(verb, name, word),
        (_, Some(_)) => Words::More,
    }
}

// The greatest number of a connection or a worker, which fits 32 bits.
const GREATEST_PLACE: u64 = 0xFFFF_FFFF;

// The greatest type, reason or context, which fits 8 bits.
const GREATEST_BYTE: u64 = 0xFF;

// Whether a word begins as a number does: with a digit, and with no zero before another one.
fn begins_plainly(word: &[u8]) -> bool
    ensures { IsTrue result ↔ BeginsPlainly word.now }
{
    matches!(word, [b'0'] | [b'1'..=b'9', ..])
}

// The number that a word says, in decimal and without leading zeros.
pub(crate) fn number_in(word: &str) -> Option<u64>
    ensures { result ≡ revision_of word.now }
{
    if !begins_plainly(word.as_bytes()) {
        return None;
    }
    word.parse().ok()
}

/// The number of a range that a word says, in decimal and without leading zeros.
pub fn number_within(least: u64, greatest: u64, word: &str) -> Option<u64>
    ensures { result ≡ spec.number_within least greatest word.now }
{
    let number = number_in(word)?;
    if number < least || number > greatest {
        return None;
    }
    Some(number)
}

// The connection or worker that a word says.
pub(crate) fn place_in(word: &str) -> Option<u32>
    ensures { result ≡ place_of word.now }
{
    let number = number_within(0, GREATEST_PLACE, word)?;
    Some(number as u32)
}

// The type, reason or context that a word says.
pub(crate) fn byte_in(word: &str) -> Option<u8>
    ensures { result ≡ byte_of word.now }
{
    let number = number_within(0, GREATEST_BYTE, word)?;
    Some(number as u8)
}

// Whether a word is digits 0 to 9 and a to f.
pub(crate) fn are_lower_digits(word: &[u8]) -> bool
    ensures { result ≡ list_all is_lower_digit word.now }
{
    word.iter().all(|letter| letter.is_ascii_hexdigit() && !letter.is_ascii_uppercase())
}

// Whether a word is the digits of bytes, of one at least. It takes no memory.
fn is_bytes(word: &[u8]) -> bool
    ensures { result ≡ is_some (bytes_of word.now) }
{
    if word.is_empty() {
        return false;
    }
    if word.len() % 2 != 0 {
        return false;
    }
    are_lower_digits(word)
}

// The bytes whose digits a word is, one at least. It takes memory only for such a word.
pub(crate) fn bytes_in(alloc: Global, word: &str) -> Result<Octets, LineFault>
    ensures { Reads result (bytes_of word.now) }
{
    if !is_bytes(word.as_bytes()) {
        return Err(LineFault::NotALine);
    }
    match hex::decode(alloc, word) {
        Ok(bytes) => Ok(Octets::from_vec(bytes)),
        Err(_) => Err(LineFault::OutOfMemory),
    }
}
