//! What a run accepts. These functions do nothing: each contract is a theorem.

ghost use Rattle.std.specs.Prelude.{◌≡◌, ◌≤◌, ◌+◌, ◌++◌, ◌∷◌, ℕ, List, [], None, Some, length, take};
ghost use Rattle.mum_state.specs.After.{led_to};
ghost use Rattle.mum_state.specs.State.{StateValue};
ghost use Rattle.mum_state.specs.declared.verdict.Verdict.{Verdict};
ghost use Rattle.mum_record.specs.Journal.{verdict_words};
ghost use Rattle.mum_record.specs.declared.head.Version.{Version};
ghost use Rattle.mum_record.specs.declared.step.Step.{Step};
ghost use Rattle.mum_record.specs.declared.step.Step.TheVariants.{Edit};
ghost use Rattle.mum_session.specs.Reply.{mark};
ghost use Rattle.mum_core.specs.Core.{CoreState, start};
ghost use Rattle.mum_core.specs.Laws.{gathered, ran};
ghost use Rattle.mum_core.specs.Line.{said_of};
ghost use Rattle.mum_core.specs.Step.{illegal, lines};
ghost use Rattle.mum_laws.specs.Edits.{accepted, verdict_on};

/// A run accepts, in order, the edits that its verdicts accept, and no other. Each verdict is at the state to which the
/// edits before it lead, and is what its line reports.
pub fn verdicts_are_the_list()
    ensures list { (core : CoreState) (steps : List Step) →
        (ran core steps).accepted ≡ core.accepted ++ gathered accepted core steps }
    ensures state { (version : Version) (opening : StateValue) (workers : ℕ) (steps : List Step) →
        let core = ran (start version opening workers) steps in
        led_to core.opening core.accepted ≡ led_to opening (gathered accepted (start version opening workers) steps) }
    ensures told { (core : CoreState) (c : ℕ) → illegal core (Edit c) ≡ None →
        (decided : Verdict) × (verdict_on core c ≡ Some decided)
        × (lines core (Edit c) ≡ said_of c (verdict_words (mark (length core.accepted + 1) decided)) ∷ []) }
{}

/// The state at a revision that a core has accepted is the same in every later core.
pub fn revisions_keep_their_state()
    ensures { (core : CoreState) (revision : ℕ) (steps : List Step) → revision ≤ length core.accepted →
        let later = ran core steps in
        led_to later.opening (take revision later.accepted) ≡ led_to core.opening (take revision core.accepted) }
{}
