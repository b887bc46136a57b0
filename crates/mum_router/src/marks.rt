//! What became of the copies of one packet.

ghost use Rattle.std.specs.Prelude.{◌≡◌, ◌<◌, ◌≤◌, ◌++◌, ◌∷◌, [], length, IfOk};

use mum_base::{OutOfMemory, SLOTS};
use mum_record::Marked;
use std::alloc::Global;
use std::marker::Model;

// What became of each copy of a packet, in room that is taken once.
#[derive(Drop)]
pub(crate) struct Marks {
    list: Vec<Marked>,
}

impl Model for Marks {
    ghost use Rattle.std.specs.Prelude.{◌≡◌, ◌≤◌, List, length, vec_capacity, vec_len};
    ghost use Rattle.mum_base.specs.declared.number.TheConstants.{SLOTS};
    ghost use Rattle.mum_record.specs.declared.journal.Marked.{Marked};

    ghost Value = { List Marked };

    ghost view = { λ m. m.list.items };

    ghost invariant = { λ m. (vec_len m.list ≡ length m.list.items) × (SLOTS ≤ vec_capacity m.list)
        × (length m.list.items ≤ SLOTS) };
}

impl Marks {
    // No copy, with room for one for each slot.
    pub(crate) fn new(alloc: Global) -> Result<Marks, OutOfMemory>
        ensures { IfOk result (λ marks. marks ≡ []) }
    {
        Ok(Marks {
            list: Vec::with_capacity(alloc, SLOTS)?,
        })
    }

    pub(crate) fn as_slice(&self) -> &[Marked]
        ensures all { result.now ≡ self.now }
        ensures few { length result.now ≤ SLOTS }
    {
        self.list.as_slice()
    }

    pub(crate) fn clear(&mut self)
        ensures { self.new ≡ [] }
    {
        self.list.clear();
    }

    pub(crate) fn push(&mut self, mark: Marked)
        requires { length self.old < SLOTS }
        ensures { self.new ≡ self.old ++ mark ∷ [] }
    {
        self.list.push_reserved(mark);
    }
}
