//! That an exercise takes each step that it comes to. These functions do nothing: each contract is a theorem.

ghost use Rattle.std.specs.Prelude.{◌≡◌, ◌<◌, ◌≤◌, ◌^◌, ℕ, Some};
ghost use Rattle.mum_base.specs.declared.number.Slot.{Slot};
ghost use Rattle.mum_core.specs.Core.{connection_at};
ghost use Rattle.mum_exercise.specs.Exercise.{exercised};
ghost use Rattle.mum_laws.specs.Exercises.{IsDone, exercised_whole};

/// No step of an exercise is left out: it is what it would be if each step were taken, allowed or not. The packet of a
/// round has its number, which has 64 bits.
pub fn exercises_leave_no_step_out()
    ensures { (seed rounds : ℕ) → rounds < 2 ^ 64 →
        exercised seed rounds ≡ exercised_whole seed rounds }
{}

/// The login of each of the 16 users is accepted, and to the end user i has session i.
pub fn users_have_their_sessions()
    ensures { (seed rounds i : ℕ) → rounds < 2 ^ 64 → 1 ≤ i → i ≤ 16 →
        (slot : Slot) × ((connection_at (exercised seed rounds).core i).seat
        ≡ Some (record { session = record { 0 = i }; slot = slot })) }
{}

/// At the end nothing is left to do: all that was accepted is published, each notice was posted and collected, each
/// packet was looked for, and each copy was offered.
pub fn exercises_come_to_rest()
    ensures { (seed rounds : ℕ) → rounds < 2 ^ 64 → IsDone (exercised seed rounds).core }
{}
