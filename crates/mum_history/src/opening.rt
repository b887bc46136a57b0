//! The state that a list of edits leaves.

ghost use Rattle.std.specs.Prelude.{◌≡◌, IfOk, IsTrue};
ghost use Rattle.mum_state.specs.After.{after, all_fit, led_to};
ghost use Rattle.mum_state.specs.State.{empty_state};

use mum_base::OutOfMemory;
use mum_state::{Edit, State};
use std::alloc::Global;
use std::mem::drop;

/// The state after edits of which each fits in its place, from this one on.
#[tactic(auto, using(crate::proofs::Fronts::read_fits, crate::proofs::Fronts::read_leads))]
pub fn state_from(mut state: State, edits: &[Edit]) -> Result<State, OutOfMemory>
    requires { IsTrue (all_fit state edits.now) }
    ensures { IfOk result (λ led. led ≡ led_to state edits.now) }
{
    for edit in edits {
        if let Err(error) = state.apply(edit) {
            drop(state);
            return Err(error);
        }
    }
    Ok(state)
}

/// The state after edits of which each fits in its place, from the empty state on.
pub fn state_after(alloc: Global, edits: &[Edit]) -> Result<State, OutOfMemory>
    requires { IsTrue (all_fit empty_state edits.now) }
    ensures { IfOk result (λ state. state ≡ after edits.now) }
{
    state_from(State::empty(alloc)?, edits)
}
