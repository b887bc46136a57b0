//! For whom an edit makes what was computed of a session out of date.

ghost use Rattle.std.specs.Prelude.{◌≡◌};
ghost use Rattle.mum_state.specs.Renewed.{is_renewed_slot};

use mum_base::{SLOTS, Slot};

// The slots of the sessions that join, that enter another channel, or whose tokens are set.
#[derive(Drop)]
pub(crate) enum Renewed {
    Nobody,
    One(Slot),
    /// Those whose slots are marked.
    Those([bool; SLOTS]),
}

impl Renewed {
    pub(crate) fn has(&self, slot: Slot) -> bool
        ensures { result ≡ is_renewed_slot self.now slot.0 }
    {
        match *self {
            Renewed::Nobody => false,
            Renewed::One(one) => one.0 == slot.0,
            Renewed::Those(ref marks) => match marks.get(slot.0 as usize) {
                Some(mark) => *mark,
                None => false,
            },
        }
    }
}
