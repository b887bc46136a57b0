//! What a connection takes out of the outbox of its slot. These functions do nothing: each contract is a theorem.

ghost use Rattle.std.specs.Prelude.{◌≡◌, ◌-◌, ◌^◌, ℕ, List, None, Some, length, min};
ghost use Rattle.mum_state.specs.State.{StateValue};
ghost use Rattle.mum_record.specs.declared.head.Version.{Version};
ghost use Rattle.mum_record.specs.declared.step.Step.{Step};
ghost use Rattle.mum_record.specs.declared.step.Step.TheVariants.{Drain};
ghost use Rattle.mum_core.specs.Core.{CoreState, connection_at, outbox_at, start};
ghost use Rattle.mum_core.specs.Laws.{gathered, ran};
ghost use Rattle.mum_core.specs.Step.{does, illegal};
ghost use Rattle.mum_core.specs.declared.connection.Seat.{Seat};
ghost use Rattle.mum_laws.specs.Drains.{Drains, dropped};

/// A drain takes the oldest copy out of the outbox of its connection's slot. It sends that copy exactly where this is
/// for the session of the connection; else it drops it, and counts it as stale.
pub fn drains_tell_their_own()
    ensures { (core : CoreState) (c : ℕ) → illegal core (Drain c) ≡ None →
        (seat : Seat) × ((connection_at core c).seat ≡ Some seat)
        × Drains core c seat (outbox_at core seat.slot.0) (does core (Drain c)) }
{}

/// `stale` counts exactly the copies and notices that were taken out of a slot by a connection of another session, until
/// the count is at the end of its type.
pub fn strangers_are_counted()
    ensures { (version : Version) (opening : StateValue) (workers : ℕ) (steps : List Step) →
        (ran (start version opening workers) steps).totals.stale
        ≡ min (length (gathered dropped (start version opening workers) steps)) (2 ^ 64 - 1) }
{}
