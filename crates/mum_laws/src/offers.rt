//! What becomes of the copies that workers offer. These functions do nothing: each contract is a theorem.

ghost use Rattle.std.specs.Prelude.{◌≡◌, ◌≤◌, ◌-◌, ◌^◌, ℕ, List, None, length, min};
ghost use Rattle.mum_state.specs.Proper.{IsProper};
ghost use Rattle.mum_state.specs.State.{StateValue};
ghost use Rattle.mum_record.specs.declared.head.Version.{Version};
ghost use Rattle.mum_record.specs.declared.step.Step.{Step};
ghost use Rattle.mum_record.specs.declared.step.Step.TheVariants.{Offer};
ghost use Rattle.mum_core.specs.Core.{outbox_at, start};
ghost use Rattle.mum_core.specs.Laws.{IsRun, gathered, ran};
ghost use Rattle.mum_core.specs.Step.{does, illegal};
ghost use Rattle.mum_laws.specs.Offers.{Offers, found_full, sent};

/// A copy that is offered is put at the back of the outbox of its slot, or 128 copies waited there; and no other
/// outbox changes.
pub fn offers_go_to_the_back()
    ensures offers { (version : Version) (opening : StateValue) (workers w : ℕ) (steps : List Step) →
        let core = ran (start version opening workers) steps in
        IsProper opening → IsRun (start version opening workers) steps → illegal core (Offer w) ≡ None →
        Offers core w (does core (Offer w)) }
    // No outbox has more copies than 128.
    ensures at_most { (version : Version) (opening : StateValue) (workers slot : ℕ) (steps : List Step) →
        length (outbox_at (ran (start version opening workers) steps) slot) ≤ 128 }
{}

/// `copies` counts exactly the copies that were put into an outbox, and `full` exactly those that found 128 there, until
/// a count is at the end of its type.
pub fn offers_are_counted()
    ensures copies { (version : Version) (opening : StateValue) (workers : ℕ) (steps : List Step) →
        (ran (start version opening workers) steps).totals.copies
        ≡ min (length (gathered sent (start version opening workers) steps)) (2 ^ 64 - 1) }
    ensures full { (version : Version) (opening : StateValue) (workers : ℕ) (steps : List Step) →
        (ran (start version opening workers) steps).totals.full
        ≡ min (length (gathered found_full (start version opening workers) steps)) (2 ^ 64 - 1) }
{}
