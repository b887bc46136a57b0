//! A state with a second one beside it, for the next edit.

ghost use Rattle.std.specs.Prelude.{◌≡◌, IfOk, IfSome, IsTrue, Some};
ghost use Rattle.std.specs.Option.{ForSome, option_copied, option_map};
ghost use Rattle.mum_state.specs.Applied.{applied};
ghost use Rattle.mum_state.specs.Fits.{fits};
ghost use Rattle.mum_history.specs.Twin.{LeadsTo};

use mum_base::OutOfMemory;
use mum_state::{Edit, State};
use std::alloc::Global;
use std::marker::Model;
use std::mem::{drop, replace};

/// A state, and a spare one that is equal to it. The spare one becomes the next state by one edit, and
/// the state that it replaces becomes the spare one by the same edit: an edit is applied twice, and no
/// state is copied. Only where memory ran out, or where a next state was given up, is there no spare one;
/// then the next edit copies the state. What is proved is the value; that no state is copied is not.
#[derive(Drop)]
pub struct Twin {
    alloc: Global,
    current: State,
    /// Equal to the current state.
    spare: Option<State>,
}

impl Model for Twin {
    ghost use Rattle.std.specs.Prelude.{◌≡◌, IfSome};
    ghost use Rattle.mum_state.specs.State.{StateValue};

    ghost Value = { StateValue };

    ghost view = { λ t. t.current };

    ghost invariant = { λ t. IfSome t.spare (λ state. state ≡ t.current) };
}

// The state to which an edit leads that fits.
fn after_edit(mut state: State, edit: &Edit) -> Result<State, OutOfMemory>
    requires { IsTrue (fits state edit.now) }
    ensures { IfOk result (λ next. next ≡ applied state edit.now) }
{
    match state.apply(edit) {
        Ok(()) => Ok(state),
        Err(error) => {
            drop(state);
            Err(error)
        }
    }
}

// The state to which an edit leads that fits; none where the edit is not known, or where memory ran
// out.
fn brought_up(state: State, edit: Option<&Edit>) -> Option<State>
    requires { ForSome (option_copied edit) (λ known. IsTrue (fits state known)) }
    ensures { IfSome result (λ next. option_map (applied state) (option_copied edit.entry) ≡ Some next) }
{
    match edit {
        Some(edit) => after_edit(state, edit).ok(),
        None => {
            drop(state);
            None
        }
    }
}

impl Twin {
    /// Takes a state, and copies it once.
    pub fn open(alloc: Global, state: State) -> Result<Twin, OutOfMemory>
        ensures { IfOk result (λ twin. twin ≡ state) }
    {
        match state.copy(alloc) {
            Ok(spare) => Ok(Twin {
                alloc,
                current: state,
                spare: Some(spare),
            }),
            Err(error) => {
                drop(state);
                Err(error)
            }
        }
    }

    /// The state.
    pub fn current(&self) -> &State
        ensures { result.now ≡ self.now }
    {
        &self.current
    }

    // The spare state, or else a copy of the current one.
    fn take_spare(&mut self) -> Result<State, OutOfMemory>
        ensures state { IfOk result (λ state. state ≡ self.old) }
        ensures same { self.new ≡ self.old }
    {
        match self.spare.take() {
            Some(state) => Ok(state),
            None => self.current.copy(self.alloc),
        }
    }

    /// The state to which an edit leads that fits, beside the current one: what `go_on` is given.
    pub fn next(&mut self, edit: &Edit) -> Result<State, OutOfMemory>
        requires { IsTrue (fits self.old edit.now) }
        ensures next { IfOk result (λ next. next ≡ applied self.old edit.now) }
        ensures same { self.new ≡ self.old }
    {
        let state = self.take_spare()?;
        after_edit(state, edit)
    }

    /// Goes on to the next state. The edit that leads there, where it is known, brings the state that was
    /// current up to it; without it, or where memory runs out, there is no spare state from here on.
    pub fn go_on(&mut self, edit: Option<&Edit>, next: State)
        requires { ForSome (option_copied edit) (LeadsTo next self.old) }
        ensures { self.new ≡ next }
    {
        let before = replace(&mut self.current, next);
        let spare = brought_up(before, edit);
        drop(replace(&mut self.spare, spare));
    }

    /// The state, of which nothing else is kept.
    pub fn into_state(self) -> State
        ensures { result ≡ self }
    {
        let Twin {
            alloc: _,
            current,
            spare,
        } = self;
        drop(spare);
        current
    }
}
