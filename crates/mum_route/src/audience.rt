//! Who hears a packet, as a list of a fixed room.

ghost use Rattle.std.specs.Prelude.{◌≡◌, ◌==◌, ◌++◌, ◌∷◌, ◌<◌, ◌≤◌, [], length, map, slice_get, Some};
ghost use Rattle.std.specs.List.{All};
ghost use Rattle.mum_route.specs.Hearers.{member_of, IsInRange};

use crate::hearer::Hearer;
use arrayvec::ArrayVec;
use mum_base::{SLOTS, SessionId};
use std::marker::Model;

/// The sessions that hear a packet, in slot order, each with what its copy needs.
#[derive(Debug, Drop)]
pub struct Audience {
    hearers: ArrayVec<Hearer, SLOTS>,
}

impl Model for Audience {
    ghost use Rattle.std.specs.Prelude.{List};
    ghost use Rattle.std.specs.List.{All};
    ghost use Rattle.mum_route.specs.declared.hearer.Hearer.{Hearer};
    ghost use Rattle.mum_route.specs.Hearers.{IsInRange};

    ghost Value = { List Hearer };

    ghost view = { λ a. a.hearers.items };

    ghost invariant = { λ a. All IsInRange a.hearers.items };
}

impl Audience {
    /// Nobody.
    pub fn new() -> Audience
        ensures { result ≡ [] }
    {
        Audience {
            hearers: ArrayVec::new(),
        }
    }

    /// How many hear the packet.
    pub fn len(&self) -> usize
        ensures length { result ≡ length self.now }
        ensures few { result ≤ SLOTS }
    {
        self.hearers.len()
    }

    /// Whether nobody hears it.
    pub fn is_empty(&self) -> bool
        ensures { result ≡ (length self.now == 0) }
    {
        self.hearers.is_empty()
    }

    /// The session that n precede, and the number of its context.
    pub fn at(&self, i: usize) -> (SessionId, u8)
        requires { i < length self.now }
        ensures member { slice_get (map member_of self.now) i ≡ Some result }
        ensures below { result.1 < 4 }
    {
        let hearer = self.hearers.as_slice()[i];
        (hearer.session, hearer.context)
    }

    /// Those who hear the packet.
    pub fn as_slice(&self) -> &[Hearer]
        ensures all { result.now ≡ self.now }
        ensures few { length result.now ≤ SLOTS }
        ensures each { All IsInRange result.now }
    {
        self.hearers.as_slice()
    }

    /// The same sessions.
    pub fn copy(&self) -> Audience
        ensures { result ≡ self.now }
    {
        let mut hearers = ArrayVec::new();
        hearers
            .try_extend_from_slice(self.hearers.as_slice())
            .unwrap();
        Audience { hearers }
    }

    // Takes all out.
    pub(crate) fn clear(&mut self)
        ensures { self.new ≡ [] }
    {
        self.hearers.clear();
    }

    // One more after the others.
    pub(crate) fn push(&mut self, hearer: Hearer)
        requires room { length self.old < SLOTS }
        requires range { IsInRange hearer }
        ensures { self.new ≡ self.old ++ hearer ∷ [] }
    {
        self.hearers.push(hearer);
    }
}
