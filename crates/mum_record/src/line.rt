//! Writing a line from its words.

ghost use Rattle.std.specs.Prelude.{◌≡◌, ◌++◌, ◌∷◌, ◌<◌, ◌^◌, IfOk, map, string_bytes};
ghost use Rattle.std.specs.List.{flat_map};
ghost use Rattle.hex.specs.Hex.{encode_lower, IsBytes};
ghost use Rattle.mum_record.specs.Words.{spelled_word, behind_space, line_of_words};

use itoa::Buffer;
use mum_base::OutOfMemory;
use std::alloc::Global;

/// A word of a line.
#[derive(Clone, Copy)]
pub enum Word<'a> {
    /// A word as it is.
    Name(&'a str),
    /// A number in decimal.
    Number(u64),
    /// Bytes as digits 0 to 9 and a to f, two for each.
    Digits(&'a [u8]),
}

// The word of a number of 64 bits.
pub(crate) fn number_word(number: u64) -> Word<'static>
    ensures word { result ≡ Word.Number number }
    ensures fits { number < 2 ^ 64 }
{
    Word::Number(number)
}

// The word of a number of 32 bits.
pub(crate) fn place_word(number: u32) -> Word<'static>
    ensures word { result ≡ Word.Number number }
    ensures fits { number < 2 ^ 32 }
{
    Word::Number(u64::from(number))
}

// The word of a number of 8 bits.
pub(crate) fn byte_word(number: u8) -> Word<'static>
    ensures word { result ≡ Word.Number number }
    ensures fits { number < 2 ^ 8 }
{
    Word::Number(u64::from(number))
}

// The word of bytes.
pub(crate) fn digits_word(bytes: &[u8]) -> Word<'_>
    ensures word { spelled_word result ≡ encode_lower bytes.now }
    ensures fits { IsBytes bytes.now }
{
    Word::Digits(bytes)
}

/// Appends a word.
pub fn push_word(alloc: Global, text: &mut String, word: &Word<'_>) -> Result<(), OutOfMemory>
    ensures { IfOk result (λ _. string_bytes text.new ≡ string_bytes text.old ++ spelled_word word.now) }
{
    match *word {
        Word::Name(name) => text.push_str(name),
        Word::Number(number) => text.push_str(Buffer::new().format(number)),
        Word::Digits(bytes) => text.push_str(hex::encode(alloc, bytes)?.as_str()),
    }
}

/// Appends words, each after a space.
pub fn push_words(alloc: Global, text: &mut String, words: &[Word<'_>]) -> Result<(), OutOfMemory>
    ensures { IfOk result (λ _. string_bytes text.new ≡ string_bytes text.old ++ flat_map behind_space words.now) }
{
    for word in words {
        text.push_str(" ")?;
        push_word(alloc, text, word)?;
    }
    Ok(())
}

/// Appends the line of a first word and others, without a line feed.
pub fn push_line(
    alloc: Global,
    text: &mut String,
    first: &str,
    words: &[Word<'_>],
) -> Result<(), OutOfMemory>
    ensures { IfOk result
        (λ _. string_bytes text.new ≡ string_bytes text.old ++ line_of_words (first.now ∷ map spelled_word words.now)) }
{
    text.push_str(first)?;
    push_words(alloc, text, words)
}
