//! The list of accepted edits, and the state after all of them.

ghost use Rattle.std.specs.Prelude.{◌≡◌, ◌≤◌, IfOk, IsTrue, OnErr, OnOk, length};
ghost use Rattle.mum_state.specs.After.{all_fit};
ghost use Rattle.mum_state.specs.Applied.{applied};
ghost use Rattle.mum_state.specs.Fits.{fits};
ghost use Rattle.mum_history.specs.History.{begun, current, with_edit};

use crate::edit_list::EditList;
use crate::twin::Twin;
use mum_base::OutOfMemory;
use mum_state::{Edit, State};
use std::alloc::Global;
use std::marker::Model;
use std::mem::drop;

/// The edits that were accepted from an opening state on, and how many of them are published.
#[derive(Drop)]
pub struct History {
    opening: State,
    /// The state after all accepted edits.
    twin: Twin,
    accepted: Vec<Edit>,
    published: u64,
}

impl Model for History {
    ghost use Rattle.mum_history.specs.History.{HistoryValue};
    ghost use Rattle.mum_history.specs.Kept.{IsKept};

    ghost Value = { HistoryValue };

    ghost view = { λ h. record { opening = h.opening; accepted = h.accepted.items; published = h.published } };

    ghost invariant = { λ h. IsKept h.opening h.accepted.items h.published h.twin };
}

// A copy of a state, and a spare one of that.
fn twin_of(alloc: Global, state: &State) -> Result<Twin, OutOfMemory>
    ensures { IfOk result (λ twin. twin ≡ state.now) }
{
    Twin::open(alloc, state.copy(alloc)?)
}

impl History {
    /// The history of a state that no edit changed yet. It keeps two copies of it.
    pub fn open(alloc: Global, opening: State) -> Result<History, OutOfMemory>
        ensures { IfOk result (λ history. history ≡ begun opening) }
    {
        match twin_of(alloc, &opening) {
            Ok(twin) => Ok(History {
                opening,
                twin,
                accepted: Vec::new(alloc),
                published: 0,
            }),
            Err(error) => {
                drop(opening);
                Err(error)
            }
        }
    }

    /// The state before all accepted edits.
    pub fn opening(&self) -> &State
        ensures { result.now ≡ self.now.opening }
    {
        &self.opening
    }

    /// The state after all accepted edits.
    pub fn current(&self) -> &State
        ensures { result.now ≡ current self.now }
    {
        self.twin.current()
    }

    /// The accepted edits, the first of them first.
    pub fn accepted(&self) -> &[Edit]
        ensures edits { result.now ≡ self.now.accepted }
        ensures fit { IsTrue (all_fit self.now.opening self.now.accepted) }
    {
        self.accepted.as_slice()
    }

    /// How many edits were accepted.
    pub fn revision(&self) -> u64
        ensures { result ≡ length self.now.accepted }
    {
        self.accepted.len() as u64
    }

    /// How many of the accepted edits are published.
    pub fn published(&self) -> u64
        ensures value { result ≡ self.now.published }
        ensures accepted { result ≤ length self.now.accepted }
    {
        self.published
    }

    /// All accepted edits are published.
    pub fn publish(&mut self)
        ensures { self.new ≡ record self.old { published = length self.old.accepted } }
    {
        self.published = self.revision();
    }

    /// Accepts an edit that fits the current state. Where memory runs out all is as it was.
    pub fn accept(&mut self, edit: Edit) -> Result<(), OutOfMemory>
        requires { IsTrue (fits (current self.old) edit) }
        ensures ok { OnOk result (self.new ≡ with_edit self.old edit) }
        ensures err { OnErr result (self.new ≡ self.old) }
    {
        match self.next_state(&edit) {
            Ok(next) => self.append(edit, next),
            Err(error) => {
                drop(edit);
                Err(error)
            }
        }
    }
}

impl EditList for History {
    ghost latest = { current };

    ghost appends = { λ old edit new. new ≡ with_edit old edit };

    fn latest(&self) -> &State {
        self.twin.current()
    }

    /// That no state is copied for it, but where memory ran out or a next state was given up before, is not
    /// proved.
    fn next_state(&mut self, edit: &Edit) -> Result<State, OutOfMemory> {
        self.twin.next(edit)
    }

    fn append(&mut self, edit: Edit, next: State) -> Result<(), OutOfMemory> {
        match self.accepted.reserve(1) {
            Ok(()) => {
                self.twin.go_on(Some(&edit), next);
                self.accepted.push_reserved(edit);
                Ok(())
            }
            Err(error) => {
                drop(edit);
                drop(next);
                Err(error)
            }
        }
    }
}
