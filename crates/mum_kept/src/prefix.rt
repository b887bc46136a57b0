//! Names that no kept channel has: three lowercase letters with which no name begins, and a number.

ghost use Rattle.std.specs.Prelude.{◌≡◌, ◌++◌, [], ◌∷◌, ℕ, ◌+◌, ◌<◌, ◌≤◌, ◌==◌, IfOk, OnOk, false, length, map, slice_index_or, string_bytes, true};
ghost use Rattle.std.specs.Fmt.{decimal};
ghost use Rattle.std.specs.List.{list_any};
ghost use Rattle.mum_base.specs.declared.number.TheConstants.{PLACES};
ghost use Rattle.mum_kept.specs.Prefix.{first_unused, free_prefix, is_letter, prefix, prefix_number};

use crate::rows::KeptChannel;
use mum_base::{ChannelId, OutOfMemory, Text};
use std::alloc::Global;

// How many prefixes there are.
const PREFIXES: usize = 17_576;

fn is_letter(byte: u8) -> bool
    ensures { result ≡ is_letter byte }
{
    b'a' <= byte && byte <= b'z'
}

// The number of the prefix with which the name begins; one more than the last where it begins with none.
fn prefix_number(name: &[u8]) -> usize
    ensures number { result ≡ prefix_number name.now }
    ensures within { result ≤ PREFIXES }
{
    let [first, second, third, ..] = *name else {
        return PREFIXES;
    };
    if is_letter(first) && is_letter(second) && is_letter(third) {
        (first - b'a') as usize * 676 + (second - b'a') as usize * 26 + (third - b'a') as usize
    } else {
        PREFIXES
    }
}

// Marks the prefixes with which names begin.
fn mark_prefixes(channels: &[KeptChannel], used: &mut [bool])
    requires whole { length used.old ≡ PREFIXES + 1 }
    requires none { (n : ℕ) → slice_index_or used.old n false ≡ false }
    ensures whole { length used.new ≡ PREFIXES + 1 }
    ensures marked { (n : ℕ) → slice_index_or used.new n false
        ≡ list_any (λ channel. prefix_number channel.name == n) channels.now }
{
    for channel in channels {
        let number = prefix_number(channel.name.as_slice());
        used[number] = true;
    }
}

// The first that is not marked; the length where all are.
fn first_false(used: &[bool]) -> usize
    ensures within { result ≤ length used.now }
    ensures marked { (n : ℕ) → n < result → slice_index_or used.now n false ≡ true }
    ensures free { slice_index_or used.now result false ≡ false }
{
    for at in 0..used.len() {
        if !used[at] {
            return at;
        }
    }
    used.len()
}

// The number of the first prefix with which no name begins.
fn first_unused(channels: &[KeptChannel], used: &mut [bool]) -> usize
    requires few { length channels.now ≤ PLACES }
    requires whole { length used.old ≡ PREFIXES + 1 }
    requires none { (n : ℕ) → slice_index_or used.old n false ≡ false }
    ensures number { result ≡ first_unused
        (map (λ channel. channel.name) channels.now) (length channels.now) 0 }
    ensures within { result < PREFIXES }
{
    mark_prefixes(channels, used);
    first_false(used)
}

fn free_number(alloc: Global, channels: &[KeptChannel]) -> Result<usize, OutOfMemory>
    requires { length channels.now ≤ PLACES }
    ensures number { IfOk result (λ number. number ≡ first_unused
        (map (λ channel. channel.name) channels.now) (length channels.now) 0) }
    ensures within { IfOk result (λ number. number < PREFIXES) }
{
    let mut used = vec![in alloc; false; PREFIXES + 1]?;
    Ok(first_unused(channels, &mut used))
}

// Adds the letter at a place of the alphabet, from 0.
fn push_letter(text: &mut String, place: usize) -> Result<(), OutOfMemory>
    requires { place < 26 }
    ensures { OnOk result (string_bytes text.new ≡ string_bytes text.old ++ (97 + place) ∷ []) }
{
    text.push((b'a' + place as u8) as char)
}

fn prefix_text(alloc: Global, number: usize) -> Result<String, OutOfMemory>
    requires { number < PREFIXES }
    ensures { IfOk result (λ text. string_bytes text ≡ prefix number) }
{
    let mut text = String::new(alloc);
    push_letter(&mut text, number / 676)?;
    push_letter(&mut text, number / 26 % 26)?;
    push_letter(&mut text, number % 26)?;
    Ok(text)
}

// The first prefix with which no name begins.
pub(crate) fn free_prefix(alloc: Global, channels: &[KeptChannel]) -> Result<String, OutOfMemory>
    requires { length channels.now ≤ PLACES }
    ensures { IfOk result (λ text. string_bytes text ≡ free_prefix channels.now) }
{
    let number = free_number(alloc, channels)?;
    prefix_text(alloc, number)
}

// The prefix and the number of a channel.
pub(crate) fn made_name(alloc: Global, prefix: &str, id: ChannelId) -> Result<Text, OutOfMemory>
    ensures { IfOk result (λ name. name ≡ prefix.now ++ decimal id.0) }
{
    Ok(Text::from_string(format!(in alloc; "{prefix}{}", id.0)?))
}
