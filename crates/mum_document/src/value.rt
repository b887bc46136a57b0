//! Values of a document by their kinds. These calls take no memory, and lend what they read.

ghost use Rattle.std.specs.Prelude.{◌≡◌, [], map, unwrap_or};
ghost use Rattle.serde_json.specs.View.{view};
ghost use Rattle.mum_document.specs.Reading.{Judges, JudgesList, JudgesText};
ghost use Rattle.mum_document.specs.Value.{digest_fault, digest_of, flag_fault, flag_of, name_fault, number_fault, number_of, signed_fault, signed_of, text_fault, text_of};

use crate::fault::ConfigFault;
use hex::FromHex;
use mum_base::{Text, check_name};
use serde_json::Value;
use std::alloc::Global;

/// A number from `low` to `high`. Errors: `OutOfRange` of another integer of 64 bits, `WrongKind` of
/// anything else, a number with a fraction or an exponent among it.
pub fn read_number(value: &Value, low: u32, high: u32) -> Result<u32, ConfigFault>
    ensures { Judges (number_fault low high (view value.now)) (number_of (view value.now)) result }
{
    match value.as_u64() {
        Some(number) if number >= u64::from(low) && number <= u64::from(high) => Ok(number as u32),
        Some(_) => Err(ConfigFault::OutOfRange),
        None if value.is_i64() => Err(ConfigFault::OutOfRange),
        None => Err(ConfigFault::WrongKind),
    }
}

/// A number of 32 bits with a sign. Errors: as of `read_number`.
pub fn read_signed(value: &Value) -> Result<i32, ConfigFault>
    ensures { Judges (signed_fault (view value.now)) (signed_of (view value.now)) result }
{
    match value.as_i64() {
        Some(number) => match i32::try_from(number) {
            Ok(number) => Ok(number),
            Err(_) => Err(ConfigFault::OutOfRange),
        },
        None if value.is_u64() => Err(ConfigFault::OutOfRange),
        None => Err(ConfigFault::WrongKind),
    }
}

/// True or false. Errors: `WrongKind` of anything else.
pub fn read_flag(value: &Value) -> Result<bool, ConfigFault>
    ensures { Judges (flag_fault (view value.now)) (flag_of (view value.now)) result }
{
    match value.as_bool() {
        Some(flag) => Ok(flag),
        None => Err(ConfigFault::WrongKind),
    }
}

/// A text of at most n bytes. Errors: `Limit` of a longer one, `WrongKind` of anything else.
pub fn read_text(value: &Value, limit: usize) -> Result<&str, ConfigFault>
    ensures { JudgesText (text_fault limit (view value.now)) (text_of (view value.now)) result }
{
    match value.as_str() {
        Some(text) if text.len() <= limit => Ok(text),
        Some(_) => Err(ConfigFault::Limit),
        None => Err(ConfigFault::WrongKind),
    }
}

/// The name of an account, a channel or a group. Errors: `BadName` of a text that `check_name` refuses,
/// `WrongKind` of anything else.
pub fn read_name(value: &Value) -> Result<&str, ConfigFault>
    ensures { JudgesText (name_fault (view value.now)) (text_of (view value.now)) result }
{
    match value.as_str() {
        Some(text) if check_name(text).is_ok() => Ok(text),
        Some(_) => Err(ConfigFault::BadName),
        None => Err(ConfigFault::WrongKind),
    }
}

/// The 32 bytes that 64 hexadecimal digits encode, in either case. Errors: `BadDigest` of another text,
/// `WrongKind` of anything else.
pub fn read_digest(value: &Value) -> Result<[u8; 32], ConfigFault>
    ensures { Judges (digest_fault (view value.now)) (digest_of (view value.now)) result }
{
    match value.as_str() {
        Some(text) => <[u8; 32] as FromHex>::from_hex(text).map_err(|_| ConfigFault::BadDigest),
        None => Err(ConfigFault::WrongKind),
    }
}

/// A list of at most n values. Errors: `Limit` of a longer one, `WrongKind` of anything else.
pub fn read_list(value: &Value, limit: usize) -> Result<&[Value], ConfigFault>
    ensures { JudgesList limit (view value.now) result }
{
    match value.as_array() {
        Some(values) if values.len() <= limit => Ok(values.as_slice()),
        Some(_) => Err(ConfigFault::Limit),
        None => Err(ConfigFault::WrongKind),
    }
}

/// The text, or one without a byte where none is given.
pub fn or_empty(alloc: Global, given: Option<Text>) -> Text
    ensures { result ≡ unwrap_or given [] }
{
    match given {
        Some(text) => text,
        None => Text::empty(alloc),
    }
}
