//! Room to mark channels in.

ghost use Rattle.std.specs.Prelude.{◌≡◌, ◌<◌, ◌↔◌, ◌++◌, ◌∷◌, [], IfOk, IsTrue, length, if◌then◌else◌};
ghost use Rattle.std.specs.List.{All, Contains};

use mum_base::{ChannelId, OutOfMemory, PLACES};
use std::alloc::Global;
use std::marker::Model;

/// Room to mark channels in, taken once and used again. A contract sees the channels that were
/// marked last, in order of number.
#[derive(Drop)]
pub struct Scratch {
    /// The marked channels in order of number, and room after them.
    marked: Vec<ChannelId>,
    count: usize,
}

impl Model for Scratch {
    ghost use Rattle.mum_base.specs.declared.number.TheConstants.{PLACES};
    ghost use Rattle.std.specs.Prelude.{◌≡◌, ◌<◌, ◌≤◌, List, length, take};
    ghost use Rattle.std.specs.List.{AllPairs};
    ghost use Rattle.mum_base.specs.declared.number.ChannelId.{ChannelId};

    ghost Value = { List ChannelId };

    ghost view = { λ s. take s.count s.marked.items };

    ghost invariant = { λ s. record {
      whole : length s.marked.items ≡ PLACES;
      within : s.count ≤ PLACES;
      rise : AllPairs (λ one later. one.0 < later.0) (take s.count s.marked.items);
    } };
}

impl Scratch {
    /// Room for a mark of every channel that a tree can have, with none marked.
    pub fn new(alloc: Global) -> Result<Scratch, OutOfMemory>
        ensures { IfOk result (λ scratch. scratch ≡ []) }
    {
        Ok(Scratch {
            marked: vec![in alloc; ChannelId::ROOT; PLACES]?,
            count: 0,
        })
    }

    /// Whether a channel was marked last.
    pub fn marked(&self, id: ChannelId) -> bool
        ensures { IsTrue result ↔ Contains self.now id }
    {
        let marked = &self.marked[..self.count];
        marked.binary_search_by_key(&id.0, |one| one.0).is_ok()
    }

    // Marks no channel.
    pub(crate) fn clear(&mut self)
        ensures { self.new ≡ [] }
    {
        self.count = 0;
    }

    // Marks a channel above all that are marked, if it holds.
    pub(crate) fn mark_if(&mut self, id: ChannelId, holds: bool)
        requires room { length self.old < PLACES }
        requires above { All (λ one. one.0 < id.0) self.old }
        ensures { self.new ≡ self.old ++ (if holds then id ∷ [] else []) }
    {
        if !holds {
            return;
        }
        self.marked[self.count] = id;
        self.count += 1;
    }
}
