//! Lists that contracts see as lists, whatever holds them.

ghost use Rattle.std.specs.Prelude.{◌≡◌, ◌++◌, [], ◌∷◌, IfOk, OnOk, OnErr, string_bytes};
ghost use Rattle.std.specs.Option.{option_copied, unwrap_or};
ghost use Rattle.std.specs.Str.{IsUtf8};

use std::alloc::{AllocError, Global};
use std::marker::Model;
use std::sync::{ArcSlice, ArcStr};

/// Memory ran out. It is the one answer that no clause ties to a cause.
pub type OutOfMemory = AllocError;

// How bytes lie in memory: by themselves, or once for all who share them.
#[derive(Debug, Drop)]
enum Bytes {
    Own(Vec<u8>),
    Shared(ArcSlice<u8>),
}

/// A list of bytes.
#[derive(Debug, Drop)]
pub struct Octets {
    bytes: Bytes,
}

impl Model for Octets {
    ghost use Rattle.std.specs.Prelude.{ℕ, List};
    ghost use Rattle.mum_base.specs.Octets.{held_items};

    ghost Value = { List ℕ };

    ghost view = { λ o. held_items o.bytes };
}

impl Octets {
    /// A copy of these bytes.
    pub fn of(alloc: Global, bytes: &[u8]) -> Result<Octets, OutOfMemory>
        ensures { IfOk result (λ octets. octets ≡ bytes.now) }
    {
        Ok(Octets::from_vec(Vec::from_slice(alloc, bytes)?))
    }

    /// These bytes, without a copy.
    pub fn from_vec(bytes: Vec<u8>) -> Octets
        ensures { result ≡ bytes.items }
    {
        Octets {
            bytes: Bytes::Own(bytes),
        }
    }

    pub fn as_slice(&self) -> &[u8]
        ensures { result.now ≡ self.now }
    {
        match &self.bytes {
            Bytes::Own(bytes) => bytes.as_slice(),
            Bytes::Shared(bytes) => bytes.as_slice(),
        }
    }

    /// These bytes, without a copy, to be held once by all who share them.
    pub fn into_shared(self) -> Result<Octets, OutOfMemory>
        ensures { IfOk result (λ shared. shared ≡ self) }
    {
        let bytes = match self.bytes {
            Bytes::Own(bytes) => ArcSlice::from_vec(bytes)?,
            Bytes::Shared(bytes) => bytes,
        };
        Ok(Octets {
            bytes: Bytes::Shared(bytes),
        })
    }

    /// The same bytes once more. Of bytes that are held once for all it takes no memory, and copies
    /// nothing: the error stands for more holders than can be counted.
    pub fn share(&self) -> Result<Octets, OutOfMemory>
        ensures { IfOk result (λ shared. shared ≡ self.now) }
    {
        let bytes = match &self.bytes {
            Bytes::Own(bytes) => {
                let alloc = bytes.allocator().clone()?;
                Bytes::Own(Vec::from_slice(alloc, bytes.as_slice())?)
            }
            Bytes::Shared(bytes) => Bytes::Shared(bytes.clone()?),
        };
        Ok(Octets { bytes })
    }
}

// How a text lies in memory: by itself, or once for all who share it.
#[derive(Debug, Drop)]
enum Holding {
    Own(String),
    Shared(ArcStr),
}

/// A text: a list of bytes that are UTF-8. One that was copied from elsewhere is held once by all who
/// share it.
#[derive(Debug, Drop)]
pub struct Text {
    text: Holding,
}

impl Model for Text {
    ghost use Rattle.std.specs.Prelude.{ℕ, List};
    ghost use Rattle.mum_base.specs.Text.{held_bytes};

    ghost Value = { List ℕ };

    ghost view = { λ t. held_bytes t.text };
}

impl Text {
    /// A copy of this text.
    pub fn of(alloc: Global, text: &str) -> Result<Text, OutOfMemory>
        ensures { IfOk result (λ copy. copy ≡ text.now) }
    {
        Ok(Text {
            text: Holding::Shared(ArcStr::from_str(alloc, text)?),
        })
    }

    /// No text. It takes no memory.
    pub fn empty(alloc: Global) -> Text
        ensures { result ≡ [] }
    {
        Text {
            text: Holding::Own(String::new(alloc)),
        }
    }

    /// A copy of a text, if one is given.
    pub fn of_given(alloc: Global, given: Option<&str>) -> Result<Option<Text>, OutOfMemory>
        ensures { IfOk result (λ copy. copy ≡ option_copied given.entry) }
    {
        match given {
            Some(text) => Ok(Some(Text::of(alloc, text)?)),
            None => Ok(None),
        }
    }

    /// This text, without a copy. It takes no memory, and whoever wants to share the text gets a copy.
    pub fn from_string(text: String) -> Text
        ensures { result ≡ string_bytes text }
    {
        Text {
            text: Holding::Own(text),
        }
    }

    /// The bytes of the text.
    pub fn as_slice(&self) -> &[u8]
        ensures { result.now ≡ self.now }
    {
        self.as_str().as_bytes()
    }

    pub fn as_str(&self) -> &str
        ensures value { result.now ≡ self.now }
        ensures utf8 { IsUtf8 self.now }
    {
        match &self.text {
            Holding::Own(text) => text.as_str(),
            Holding::Shared(text) => text.as_str(),
        }
    }

    /// The same text once more. Of a text that is held once for all it takes no memory, and copies
    /// nothing: the error stands for more holders than can be counted.
    pub fn share(&self) -> Result<Text, OutOfMemory>
        ensures { IfOk result (λ shared. shared ≡ self.now) }
    {
        let text = match &self.text {
            Holding::Own(text) => Holding::Own(text.clone()?),
            Holding::Shared(text) => Holding::Shared(text.clone()?),
        };
        Ok(Text { text })
    }

    /// The text, or no byte where none is given.
    pub fn or_empty(given: &Option<Text>) -> &str
        ensures { result.now ≡ unwrap_or given.now [] }
    {
        match given {
            Some(text) => text.as_str(),
            None => "",
        }
    }

    /// The same text once more, or an empty one where none is given.
    pub fn share_or_empty(alloc: Global, given: &Option<Text>) -> Result<Text, OutOfMemory>
        ensures { IfOk result (λ shared. shared ≡ unwrap_or given.now []) }
    {
        match given {
            Some(text) => text.share(),
            None => Ok(Text::empty(alloc)),
        }
    }

    /// The same text once more, if one is given.
    pub fn share_given(given: Option<&Text>) -> Result<Option<Text>, OutOfMemory>
        ensures { IfOk result (λ shared. shared ≡ option_copied given.entry) }
    {
        match given {
            Some(text) => Ok(Some(text.share()?)),
            None => Ok(None),
        }
    }
}

/// A list of values.
#[derive(Debug, Drop)]
pub struct Items<T> {
    items: Vec<T>,
}

impl<T> Model for Items<T> {
    ghost use Rattle.std.specs.Prelude.{List};

    ghost Value = { List T };

    ghost view = { λ i. i.items.items };
}

impl<T> Items<T> {
    /// No value yet.
    pub fn new(alloc: Global) -> Items<T>
        ensures { result ≡ [] }
    {
        Items {
            items: Vec::new(alloc),
        }
    }

    /// These values, without a copy.
    pub fn from_vec(items: Vec<T>) -> Items<T>
        ensures { result ≡ items.items }
    {
        Items { items }
    }

    pub fn as_slice(&self) -> &[T]
        ensures { result.now ≡ self.now }
    {
        self.items.as_slice()
    }

    /// One value more, at the end.
    pub fn push(&mut self, value: T) -> Result<(), OutOfMemory>
    where
        T: Drop,
        ensures ok { OnOk result (self.new ≡ self.old ++ value ∷ []) }
        ensures err { OnErr result (self.new ≡ self.old) }
    {
        self.items.push(value)?;
        Ok(())
    }
}
