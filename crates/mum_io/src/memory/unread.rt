//! Bytes that are read from the front.

ghost use Rattle.std.specs.Prelude.{◌≡◌, ◌++◌, ◌==◌, length, min, take, drop};

use mum_base::Octets;
use std::marker::Model;

/// The bytes that are left of some bytes.
#[derive(Debug, Drop)]
pub struct Unread {
    bytes: Octets,
    given: usize,
}

impl Model for Unread {
    ghost use Rattle.std.specs.Prelude.{ℕ, ◌≤◌, List, drop, length};

    ghost Value = { List ℕ };

    ghost view = { λ u. drop u.given u.bytes };

    ghost invariant = { λ u. u.given ≤ length u.bytes };
}

// Copies a front of the bytes, as long as both allow.
fn copy_front(bytes: &[u8], buf: &mut [u8]) -> usize
    ensures count { result ≡ min (length buf.old) (length bytes.now) }
    ensures copied { take result buf.new ≡ take result bytes.now }
{
    let count = buf.len().min(bytes.len());
    buf[..count].copy_from_slice(&bytes[..count]);
    count
}

impl Unread {
    pub fn new(bytes: Octets) -> Unread
        ensures { result ≡ bytes }
    {
        Unread { bytes, given: 0 }
    }

    pub fn as_slice(&self) -> &[u8]
        ensures { result.now ≡ self.now }
    {
        &self.bytes.as_slice()[self.given..]
    }

    pub fn is_empty(&self) -> bool
        ensures { result ≡ (length self.now == 0) }
    {
        self.as_slice().is_empty()
    }

    /// Moves as many bytes as there are, or as there is room for, to the front of the slice.
    pub fn read(&mut self, buf: &mut [u8]) -> usize
        ensures count { result ≡ min (length buf.old) (length self.old) }
        ensures taken { self.old ≡ take result buf.new ++ self.new }
        ensures left { self.new ≡ drop result self.old }
    {
        let left = &self.bytes.as_slice()[self.given..];
        let count = copy_front(left, buf);
        self.given += count;
        count
    }
}
