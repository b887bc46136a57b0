//! What is left of a text that is written piece by piece.

ghost use Rattle.std.specs.Prelude.{◌≡◌, ◌≤◌, ◌==◌, drop, length};

use mum_base::Octets;
use std::marker::Model;

// A text, and how many of its bytes are left, the last ones. Contracts see these bytes.
#[derive(Drop)]
pub(crate) struct Rest {
    text: Octets,
    left: usize,
}

impl Model for Rest {
    ghost use Rattle.std.specs.Prelude.{◌≤◌, ◌-◌, ℕ, List, drop, length};

    ghost Value = { List ℕ };

    ghost view = { λ r. drop (length r.text - r.left) r.text };

    ghost invariant = { λ r. r.left ≤ length r.text };
}

impl Rest {
    // The whole text is left.
    pub(crate) fn of(text: Octets) -> Rest
        ensures { result ≡ text }
    {
        let left = text.as_slice().len();
        Rest { text, left }
    }

    pub(crate) fn as_slice(&self) -> &[u8]
        ensures { result.now ≡ self.now }
    {
        let text = self.text.as_slice();
        &text[text.len() - self.left..]
    }

    pub(crate) fn is_empty(&self) -> bool
        ensures { result ≡ (length self.now == 0) }
    {
        self.as_slice().is_empty()
    }

    // The first bytes that were left are written.
    pub(crate) fn advance(&mut self, count: usize)
        requires { count ≤ length self.old }
        ensures { self.new ≡ drop count self.old }
    {
        self.left -= count;
    }
}
