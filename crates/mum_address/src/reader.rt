//! A reader of headers, which keeps what has come of one.

ghost use Rattle.std.specs.Prelude.{◌≡◌, ℕ, ◌≤◌, ◌↔◌, ◌++◌, List, [], length, Option};
ghost use Rattle.mum_address.specs.Header.{IsHeader, BeginsNone, LacksBytes, reading, plain};
ghost use Rattle.mum_address.specs.Header.Reading.{needs, whole, refused};
ghost use Rattle.mum_address.specs.Reader.{wanted, IsRead};

use crate::proxy::{HEADER_LIMIT, Header, header_of};
use arrayvec::ArrayVec;
use std::marker::Model;

/// The bytes of a header that have come. They go no further than the header.
#[derive(Drop)]
pub struct HeaderReader {
    bytes: ArrayVec<u8, HEADER_LIMIT>,
}

impl Model for HeaderReader {
    ghost use Rattle.std.specs.Prelude.{ℕ, List};
    ghost use Rattle.mum_address.specs.Reader.{IsRead};

    ghost Value = { List ℕ };

    ghost view = { λ reader. reader.bytes.items };

    ghost invariant = { λ reader. IsRead reader.bytes.items };
}

impl HeaderReader {
    /// A reader to which no byte has come.
    pub fn new() -> HeaderReader
        ensures { result ≡ [] }
    {
        HeaderReader {
            bytes: ArrayVec::new(),
        }
    }

    /// How many bytes may be read next. 0: none is needed, since the header is whole or refused.
    pub fn wants(&self) -> usize
        ensures wanted { result ≡ wanted (reading self.now) }
        ensures most { result ≤ HEADER_LIMIT }
    {
        match self.header() {
            Header::Needs(count) => count,
            Header::Whole(_) | Header::Refused => 0,
        }
    }

    /// Keeps the bytes that came next.
    pub fn take(&mut self, bytes: &[u8])
        requires { length bytes.now ≤ wanted (reading self.old) }
        ensures { self.new ≡ self.old ++ bytes.now }
    {
        self.bytes.try_extend_from_slice(bytes).unwrap();
    }

    /// What has come.
    pub fn header(&self) -> Header
        ensures whole { (told : Option (List ℕ)) → (plain result ≡ whole told) ↔ IsHeader self.now told }
        ensures refused { (plain result ≡ refused) ↔ BeginsNone self.now }
        ensures needs { (count : ℕ) → plain result ≡ needs count → LacksBytes self.now count }
        ensures exact { plain result ≡ reading self.now }
        // It came piece by piece, and no piece was longer than what was wanted.
        ensures pieces { IsRead self.now }
    {
        header_of(&self.bytes)
    }
}

/// Of a connection that begins with a header a reader reads that and no byte after it: `bytes` are what it was given, put
/// together, and `more` is what the connection gives after them.
pub fn reads_no_further()
    ensures no_further { (bytes more header behind : List ℕ) (told : Option (List ℕ)) → IsRead bytes →
        IsHeader header told → bytes ++ more ≡ header ++ behind → length bytes ≤ length header }
    // Once it wants no more it has read the header.
    ensures all { (bytes more header behind : List ℕ) (told : Option (List ℕ)) → IsRead bytes →
        IsHeader header told → bytes ++ more ≡ header ++ behind → wanted (reading bytes) ≡ 0 →
        bytes ≡ header }
    // Whatever a connection begins with, it reads no more than n bytes.
    ensures limit { (bytes : List ℕ) → IsRead bytes → length bytes ≤ HEADER_LIMIT }
{}
