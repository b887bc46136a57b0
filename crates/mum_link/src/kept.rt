//! Bytes that a link keeps back.

ghost use Rattle.std.specs.Prelude.{◌≡◌, ◌≤◌, ◌==◌, ◌++◌, [], IfOk, MatchResult, drop, length, take};

use std::alloc::{AllocError, Global};
use std::marker::Model;

/// The room for bytes that are kept to be sent in batches.
pub const KEPT_LIMIT: usize = 8192;

/// Bytes that a link took and has not sent yet, and the batch in which the first of them came.
#[derive(Drop)]
pub struct Kept {
    bytes: Vec<u8>,
    sent: usize,
    batch: u64,
}

impl Model for Kept {
    ghost use Rattle.std.specs.Prelude.{◌≤◌, ℕ, List, drop, length};
    ghost use Rattle.mum_link.specs.declared.kept.TheConstants.{KEPT_LIMIT};

    ghost Value = { List ℕ };

    ghost view = { λ k. drop k.sent k.bytes.items };

    ghost invariant = { λ k. (k.sent ≤ length k.bytes.items) × (length k.bytes.items ≤ KEPT_LIMIT) };
}

impl Kept {
    /// None, with room for as many as are ever kept.
    pub fn new(alloc: Global) -> Result<Kept, AllocError>
        ensures { IfOk result (λ kept. kept ≡ []) }
    {
        Ok(Kept {
            bytes: Vec::with_capacity(alloc, KEPT_LIMIT)?,
            sent: 0,
            batch: 0,
        })
    }

    pub fn is_empty(&self) -> bool
        ensures { result ≡ (length self.now == 0) }
    {
        self.sent == self.bytes.len()
    }

    /// The batch in which the first of them came.
    pub fn batch(&self) -> u64 {
        self.batch
    }

    pub fn as_slice(&self) -> &[u8]
        ensures { result.now ≡ self.now }
    {
        &self.bytes[self.sent..]
    }

    /// How many there are.
    pub fn len(&self) -> usize
        ensures count { result ≡ length self.now }
        ensures most { result ≤ KEPT_LIMIT }
    {
        self.bytes.len() - self.sent
    }

    /// How many more find room.
    pub fn room(&self) -> usize {
        KEPT_LIMIT.saturating_sub(self.bytes.len())
    }

    /// Takes a front of a piece that comes in this batch, as far as there is room. How many bytes it has; none, where
    /// there is no memory.
    pub fn put(&mut self, piece: &[u8], batch: u64) -> usize
        ensures fits { result ≤ length piece.now }
        ensures put { self.new ≡ self.old ++ take result piece.now }
    {
        let count = KEPT_LIMIT.saturating_sub(self.bytes.len()).min(piece.len());
        if self.is_empty() {
            self.batch = batch;
        }
        match self.bytes.extend_from_slice(&piece[..count]) {
            Ok(()) => count,
            Err(_) => 0,
        }
    }

    /// This many were sent.
    pub fn pass(&mut self, count: usize)
        requires { count ≤ length self.old }
        ensures { self.new ≡ drop count self.old }
    {
        self.sent += count;
        if self.sent == self.bytes.len() {
            self.bytes.clear();
            self.sent = 0;
        }
    }
}
