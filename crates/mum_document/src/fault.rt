//! Why a document is refused, and where in it.

ghost use Rattle.std.specs.Prelude.{◌≡◌, ◌++◌, IfOk, Ok, Option, Some};
ghost use Rattle.mum_document.specs.Fault.{Fault, fault_code, place_text, within};
ghost use Rattle.mum_document.specs.Reading.{Names, Reads};

use mum_base::{OutOfMemory, Text};
use std::alloc::{AllocFailed, Global};
use thiserror::Error;

/// What is wrong at a key of a document, in the order in which it is looked for at one key.
#[derive(Clone, Copy, Debug, Error)]
pub enum ConfigFault {
    /// The text is no JSON, nests deeper than 127, or is not UTF-8.
    #[error("it is no JSON")]
    NotJson,
    #[error("it is no object")]
    NotAnObject,
    #[error("there is no such key")]
    UnknownKey,
    /// Another JSON kind, a number that is no integer of 64 bits, or a key that is missing.
    #[error("it is of the wrong kind")]
    WrongKind,
    /// A number outside its range, or a channel's that is not above the one before.
    #[error("the number is out of range")]
    OutOfRange,
    #[error("it is no name")]
    BadName,
    #[error("it is not 64 hexadecimal digits")]
    BadDigest,
    /// A number or a name that another account, sibling or group has.
    #[error("it stands there twice")]
    Twice,
    #[error("there is no such channel")]
    NoSuch,
    #[error("it is above a limit")]
    Limit,
}

impl ConfigFault {
    /// The number of the fault, 60 to 69.
    pub fn code(self) -> u8
        ensures { result ≡ fault_code self }
    {
        match self {
            ConfigFault::NotJson => 60,
            ConfigFault::NotAnObject => 61,
            ConfigFault::UnknownKey => 62,
            ConfigFault::WrongKind => 63,
            ConfigFault::OutOfRange => 64,
            ConfigFault::BadName => 65,
            ConfigFault::BadDigest => 66,
            ConfigFault::Twice => 67,
            ConfigFault::NoSuch => 68,
            ConfigFault::Limit => 69,
        }
    }
}

/// Why no configuration was read.
#[derive(Debug, Drop, Error)]
pub enum DocumentError {
    /// The first fault of the document. The key is its whole way, as `channels[1].name` with places
    /// from 0, and `document` for the document as a whole.
    #[error("{cause}")]
    Fault { cause: ConfigFault, key: Text },
    #[error("memory ran out")]
    OutOfMemory,
}

impl From<OutOfMemory> for DocumentError {
    ghost use Rattle.std.specs.Prelude.{◌≡◌};
    ghost use Rattle.mum_document.specs.declared.fault.DocumentError.TheVariants.{OutOfMemory};

    ghost from_gives = { λ _ error. error ≡ OutOfMemory };

    fn from(_error: OutOfMemory) -> DocumentError {
        DocumentError::OutOfMemory
    }
}

impl<T: Drop> From<AllocFailed<T>> for DocumentError {
    ghost use Rattle.std.specs.Prelude.{◌≡◌};
    ghost use Rattle.mum_document.specs.declared.fault.DocumentError.TheVariants.{OutOfMemory};

    ghost from_gives = { λ _ error. error ≡ OutOfMemory };

    fn from(_error: AllocFailed<T>) -> DocumentError {
        DocumentError::OutOfMemory
    }
}

/// The fault at this key, unless memory runs out.
#[tactic(auto, unfolding(crate::specs::Reading::Names))]
pub fn fault_at(alloc: Global, cause: ConfigFault, key: &str) -> DocumentError
    ensures { Names result (Some (record { cause = cause; key = key.now })) }
{
    match Text::of(alloc, key) {
        Ok(key) => DocumentError::Fault { cause, key },
        Err(_) => DocumentError::OutOfMemory,
    }
}

// The text of two texts, unless memory runs out.
fn joined(alloc: Global, first: &str, second: &str) -> Result<Text, OutOfMemory>
    ensures { IfOk result (λ text. text ≡ first.now ++ second.now) }
{
    let mut text = String::from_str(alloc, first)?;
    text.push_str(second)?;
    Ok(Text::from_string(text))
}

// The same error, seen from the value that the way leads from.
pub(crate) fn seen_from(alloc: Global, way: &str, error: DocumentError) -> DocumentError
    ensures { (fault : Option Fault) → Names error fault → Names result (within way.now fault) }
{
    match error {
        DocumentError::Fault { cause, key } => match joined(alloc, way, key.as_str()) {
            Ok(key) => DocumentError::Fault { cause, key },
            Err(_) => DocumentError::OutOfMemory,
        },
        DocumentError::OutOfMemory => DocumentError::OutOfMemory,
    }
}

// The way to an element of a list, as `[3]`, unless memory runs out.
fn place_way(alloc: Global, place: usize) -> Result<Text, OutOfMemory>
    ensures { IfOk result (λ way. way ≡ place_text place) }
{
    Ok(Text::from_string(format!(in alloc; "[{place}]")?))
}

// The same error, seen from the list that has what it is about at this place.
fn seen_at(alloc: Global, place: usize, error: DocumentError) -> DocumentError
    ensures { (fault : Option Fault) → Names error fault →
        Names result (within (place_text place) fault) }
{
    match place_way(alloc, place) {
        Ok(way) => seen_from(alloc, way.as_str(), error),
        Err(_) => DocumentError::OutOfMemory,
    }
}

/// What was read of the element at a place of a list, seen from the list.
pub fn at_place<T: Drop>(
    alloc: Global,
    place: usize,
    read: Result<T, DocumentError>,
) -> Result<T, DocumentError>
    ensures reads { (fault : Option Fault) (value : T) → Reads fault value read →
        Reads (within (place_text place) fault) value result }
    ensures ok { IfOk result (λ value. read ≡ Ok value) }
{
    match read {
        Ok(value) => Ok(value),
        Err(error) => Err(seen_at(alloc, place, error)),
    }
}
