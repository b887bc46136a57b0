//! The variable length integers of voice packets, as the section "Variable length integer encoding" of
//! the Mumble protocol documentation has them. They encode 64-bit words, the highest byte first.

ghost use Rattle.std.specs.Prelude.{◌≡◌, ℕ, ◌+◌, ◌<◌, ◌≤◌, ◌^◌, ◌↔◌, ◌++◌, List, length, IsNone, IfSome, Some, None};
ghost use Rattle.arrayvec.specs.ArrayVec.{array_vec_len};
ghost use Rattle.mum_voice.specs.Varint.{BeginsWith, BeginsWithNone, IsClear, SpellsWord, number_by, number_at, word_at, shortest_number, shortest_word};

use arrayvec::ArrayVec;

/// The most bytes that `write_varint` gives.
pub const VARINT_LIMIT: usize = 9;

// The positive number of this first byte and the bytes after it, and how many bytes it takes.
fn number_after(first: u8, bytes: &[u8]) -> Option<(u64, usize)>
    ensures number { result ≡ number_by first bytes.now }
    ensures within { IfSome result (λ found. found.1 ≤ length bytes.now + 1) }
{
    match first {
        0x00..=0x7F => Some((u64::from(first), 1)),
        0x80..=0xBF => {
            let [a, ..] = *bytes else {
                return None;
            };
            Some((u64::from_be_bytes([0, 0, 0, 0, 0, 0, first - 0x80, a]), 2))
        }
        0xC0..=0xDF => {
            let [a, b, ..] = *bytes else {
                return None;
            };
            Some((u64::from_be_bytes([0, 0, 0, 0, 0, first - 0xC0, a, b]), 3))
        }
        0xE0..=0xEF => {
            let [a, b, c, ..] = *bytes else {
                return None;
            };
            Some((u64::from_be_bytes([0, 0, 0, 0, first - 0xE0, a, b, c]), 4))
        }
        0xF0..=0xF3 => {
            let [a, b, c, d, ..] = *bytes else {
                return None;
            };
            Some((u64::from_be_bytes([0, 0, 0, 0, a, b, c, d]), 5))
        }
        0xF4..=0xF7 => {
            let [a, b, c, d, e, f, g, h, ..] = *bytes else {
                return None;
            };
            Some((u64::from_be_bytes([a, b, c, d, e, f, g, h]), 9))
        }
        _ => None,
    }
}

// The positive number at the front, and how many bytes it takes.
#[tactic(auto, unfolding(crate::specs::Varint::number_at))]
fn read_number(bytes: &[u8]) -> Option<(u64, usize)>
    ensures number { result ≡ number_at bytes.now }
    ensures within { IfSome result (λ found. found.1 ≤ length bytes.now) }
{
    let [first, rest @ ..] = bytes else {
        return None;
    };
    number_after(*first, rest)
}

// The word at the front, and how many bytes it takes.
#[tactic(auto, unfolding(crate::specs::Varint::word_at))]
fn read_word(bytes: &[u8]) -> Option<(u64, usize)>
    ensures { result ≡ word_at bytes.now }
{
    let [first, rest @ ..] = bytes else {
        return None;
    };
    match *first {
        0xF8..=0xFB => {
            let (number, len) = read_number(rest)?;
            Some((!number, len + 1))
        }
        0xFC..=0xFF => Some((!u64::from(*first - 0xFC), 1)),
        _ => number_after(*first, rest),
    }
}

/// The word at the front of the bytes and how many of them encode it, or `None` where no encoding
/// begins them. Every encoding is taken, and not only the shortest. Bytes may follow.
pub fn read_varint(bytes: &[u8]) -> Option<(u64, usize)>
    ensures read { (word len : ℕ) → (result ≡ Some (word, len)) ↔ BeginsWith bytes.now word len }
    ensures none { IsNone result ↔ BeginsWithNone bytes.now }
    // The same as a function.
    ensures exact { result ≡ word_at bytes.now }
{
    read_word(bytes)
}

// Appends the shortest encoding of a positive number.
#[tactic(auto, unfolding(crate::specs::Varint::shortest_number))]
fn push_number(out: &mut ArrayVec<u8, VARINT_LIMIT>, number: u64)
    requires { array_vec_len out.old + length (shortest_number number) ≤ VARINT_LIMIT }
    ensures { out.new.items ≡ out.old.items ++ shortest_number number }
{
    if number < 1 << 7 {
        out.push(number as u8);
    } else if number < 1 << 14 {
        let bytes = (0x8000 + number as u16).to_be_bytes();
        out.try_extend_from_slice(&bytes).unwrap();
    } else if number < 1 << 21 {
        let bytes = (0xC0_0000 + number as u32).to_be_bytes();
        out.try_extend_from_slice(&bytes[1..]).unwrap();
    } else if number < 1 << 28 {
        let bytes = (0xE000_0000 + number as u32).to_be_bytes();
        out.try_extend_from_slice(&bytes).unwrap();
    } else if number < 1 << 32 {
        out.push(0xF0);
        out.try_extend_from_slice(&(number as u32).to_be_bytes())
            .unwrap();
    } else {
        out.push(0xF4);
        out.try_extend_from_slice(&number.to_be_bytes()).unwrap();
    }
}

/// The shortest encoding of a word, with the bits that a reader ignores 0.
#[tactic(auto, unfolding(crate::specs::Varint::shortest_word))]
pub fn write_varint(value: u64) -> ArrayVec<u8, VARINT_LIMIT>
    ensures bytes { result.items ≡ shortest_word value }
    // What follows does not change its reading.
    ensures read_again { (rest : List ℕ) →
        word_at (result.items ++ rest) ≡ Some (value, length result.items) }
{
    let inverse = !value;
    let mut out = ArrayVec::new();
    if inverse < 1 << 2 {
        out.push(0xFC + inverse as u8);
    } else if inverse < 1 << 32 {
        out.push(0xF8);
        push_number(&mut out, inverse);
    } else {
        push_number(&mut out, value);
    }
    out
}

/// What `write_varint` gives is an encoding of the word, and no encoding of it is shorter. It is the
/// only one of its length whose ignored bits are 0.
pub fn shortest_is_least()
    ensures spelled { (word : ℕ) → word < 2 ^ 64 → SpellsWord (shortest_word word) word }
    ensures least { (word : ℕ) (bytes : List ℕ) → SpellsWord bytes word →
        length (shortest_word word) ≤ length bytes }
    ensures clear { (word : ℕ) → word < 2 ^ 64 → IsClear (shortest_word word) }
    ensures only { (word : ℕ) (bytes : List ℕ) → SpellsWord bytes word → IsClear bytes →
        length bytes ≤ length (shortest_word word) → bytes ≡ shortest_word word }
{}
