//! Where the copies come from that workers offer. These functions do nothing: each contract is a theorem.

ghost use Rattle.std.specs.Prelude.{◌≡◌, ◌++◌, ℕ, List};
ghost use Rattle.mum_state.specs.State.{StateValue};
ghost use Rattle.mum_record.specs.declared.head.Version.{Version};
ghost use Rattle.mum_record.specs.declared.step.Step.{Step};
ghost use Rattle.mum_core.specs.Core.{start, worker_at};
ghost use Rattle.mum_core.specs.Laws.{IsRun, gathered, ran};
ghost use Rattle.mum_laws.specs.Copies.{found, offered};

/// The copies that a worker offered, sent or not, and then those that it has left, are, in order, the copies of its looks:
/// one for each member of the route of the packet that it held, in the state after as many edits as the look says.
pub fn offers_are_what_looks_found()
    ensures { (version : Version) (opening : StateValue) (workers w : ℕ) (steps : List Step) →
        IsRun (start version opening workers) steps →
        gathered (offered w) (start version opening workers) steps
        ++ (worker_at (ran (start version opening workers) steps) w).copies
        ≡ gathered (found w) (start version opening workers) steps }
{}
