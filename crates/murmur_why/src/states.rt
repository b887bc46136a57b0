//! The states of a run: after the commands so far, and after the first of the accepted edits.

ghost use Rattle.std.specs.Prelude.{◌≡◌, IfSome, true};
ghost use Rattle.mum_frame.specs.Frame.{IsOneFrame};

use mum_audit::Past;
use mum_base::{Mark, OutOfMemory, SessionId};
use mum_frame::whole_frame;
use mum_history::{View, readers};
use mum_record::ControlEntry;
use mum_state::{Edit, State};
use std::alloc::{AllocError, Global};
use std::marker::Model;

// What the commands so far leave, and a state that goes along the accepted edits after them.
#[derive(Drop)]
pub(crate) struct States {
    past: Past,
    view: View,
    /// Memory ran out within a decision: what that left is not known.
    cut_short: bool,
}

impl Model for States {
    ghost use Rattle.std.specs.Prelude.{◌≡◌, false};
    ghost use Rattle.mum_history.specs.View.{IsViewOf};
    ghost use Rattle.murmur_why.specs.States.{Reached};

    ghost Value = { Reached };

    ghost view = { λ s. record { past = s.past; state = s.view.state } };

    ghost invariant = { λ s. s.cut_short ≡ false → IsViewOf s.past.opening s.past.accepted s.view };
}

// Whether an entry is a leave, or has one frame.
fn is_whole(entry: &ControlEntry) -> bool
    ensures { result ≡ true → IfSome entry.now.frame IsOneFrame }
{
    match &entry.frame {
        Some(frame) => whole_frame(frame.as_slice()).is_some(),
        None => true,
    }
}

impl States {
    ghost use Rattle.std.specs.Prelude.{◌≡◌, ◌≤◌, OnOk, length};
    ghost use Rattle.mum_state.specs.After.{at};

    // Before all commands, from an opening on.
    pub(crate) fn begin(alloc: Global, opening: State) -> Result<States, OutOfMemory> {
        let (history, mut views) = readers(alloc, 1, opening)?;
        let Some(view) = views.pop() else {
            unreachable!();
        };
        Ok(States {
            past: Past::new(alloc, history),
            view,
            cut_short: false,
        })
    }

    // The session that a connection got by its login.
    pub(crate) fn session(&self, connection: u32) -> Option<SessionId> {
        self.past.session(connection)
    }

    // The accepted edits.
    pub(crate) fn accepted(&self) -> &[Edit]
        ensures { result.now ≡ self.now.past.accepted }
    {
        self.past.history().accepted()
    }

    // How many edits were accepted.
    pub(crate) fn last_revision(&self) -> u64
        ensures { result ≡ length self.now.past.accepted }
    {
        self.past.history().revision()
    }

    // The state to which it went last.
    pub(crate) fn state(&self) -> &State
        ensures { result.now ≡ self.now.state }
    {
        self.view.state()
    }

    // Decides the next command. One that has neither a frame nor is a leave is passed over: no text has one.
    #[tactic(auto, using(crate::proofs::Behind::stays_behind))]
    pub(crate) fn decide(
        &mut self,
        alloc: Global,
        entry: &ControlEntry,
    ) -> Result<Mark, OutOfMemory> {
        if self.cut_short {
            return Err(AllocError);
        }
        if !is_whole(entry) {
            return Ok(entry.verdict);
        }
        self.cut_short = true;
        let mark = self.past.decide(alloc, entry)?;
        self.cut_short = false;
        Ok(mark)
    }

    // Goes to the state after the first accepted edits.
    pub(crate) fn go_to(&mut self, alloc: Global, revision: u64) -> Result<(), OutOfMemory>
        requires accepted { revision ≤ length self.old.past.accepted }
        ensures past { OnOk result (self.new.past ≡ self.old.past) }
        ensures state { OnOk result (self.new.state ≡ at self.old.past.opening self.old.past.accepted revision) }
    {
        if self.cut_short {
            return Err(AllocError);
        }
        self.view.go_to(alloc, self.past.history(), revision)
    }
}
