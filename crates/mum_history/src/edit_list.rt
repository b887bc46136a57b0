//! Where accepted edits are appended, with the state after all of them.

ghost use Rattle.std.specs.Prelude.{◌≡◌, IfOk, IsTrue, OnErr, OnOk};
ghost use Rattle.mum_state.specs.declared.edit.Edit.{Edit};
ghost use Rattle.mum_state.specs.Applied.{applied};
ghost use Rattle.mum_state.specs.Fits.{fits};
ghost use Rattle.mum_state.specs.State.{StateValue};

use mum_base::OutOfMemory;
use mum_state::{Edit, State};

/// A list of accepted edits, with the state after all of them.
pub trait EditList: Drop {
    /// The state after all edits.
    ghost latest: { Self → StateValue };

    /// One edit more is at the end of the list, and nothing else changed.
    ghost appends: { Self → Edit → Self → Type 0 };

    /// The state after all edits.
    fn latest(&self) -> &State
        ensures { result.now ≡ latest self.now };

    /// The state to which one edit more leads, beside the latest one, for `append`.
    fn next_state(&mut self, edit: &Edit) -> Result<State, OutOfMemory>
        requires { IsTrue (fits (latest self.old) edit.now) }
        ensures next { IfOk result (λ next. next ≡ applied (latest self.old) edit.now) }
        ensures same { self.new ≡ self.old };

    /// Appends an edit that leads to this state. After a refusal the edit is gone.
    fn append(&mut self, edit: Edit, next: State) -> Result<(), OutOfMemory>
        requires fits { IsTrue (fits (latest self.old) edit) }
        requires next { next ≡ applied (latest self.old) edit }
        ensures ok { OnOk result (appends self.old edit self.new) }
        ensures err { OnErr result (self.new ≡ self.old) };
}
