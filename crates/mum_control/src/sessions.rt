//! What is asked of the sessions of a state.

ghost use Rattle.std.specs.Prelude.{◌≡◌, ◌<◌, IfSome};
ghost use Rattle.mum_base.specs.declared.number.TheConstants.{SLOTS};
ghost use Rattle.mum_state.specs.Proper.{IsProper};
ghost use Rattle.mum_control.specs.Kept.{is_there, next_slot, slot_of};

use mum_base::{SessionId, Slot};
use mum_state::State;

// Whether a session is in the state.
pub(crate) fn is_there(state: &State, session: SessionId) -> bool
    ensures there { result ≡ is_there state.now session }
    ensures proper { IsProper state.now }
{
    let roster = state.roster();
    roster.session(session).is_some()
}

// The slot of a session.
pub(crate) fn slot_of(state: &State, session: SessionId) -> Option<Slot>
    ensures slot { result ≡ slot_of state.now session }
    ensures below { IfSome result (λ slot. slot.0 < SLOTS) }
{
    let roster = state.roster();
    match roster.session(session) {
        Some(user) => Some(user.slot),
        None => None,
    }
}

// The slot that the next session that joins gets; none where no more may join.
pub(crate) fn next_slot(state: &State) -> Option<Slot>
    ensures { result ≡ next_slot state.now }
{
    let roster = state.roster();
    match roster.next_join() {
        Some((_, slot)) => Some(slot),
        None => None,
    }
}
