//! What holds of a view over any steps, and of the looks of a viewer. These functions do nothing: each
//! contract is a theorem.

ghost use Rattle.std.specs.Prelude.{◌≡◌, ◌↔◌, ◌⊎◌, ◌++◌, ◌∷◌, [], ℕ, IsTrue, List, Result, false, true};
ghost use Rattle.std.specs.List.{AllByRecursion, list_any};
ghost use Rattle.std.specs.declared.alloc.AllocError.{AllocError};
ghost use mathlib.Core.List.{IsPrefix};
ghost use Rattle.mum_io.specs.Counts.{Rose};
ghost use Rattle.mum_io.specs.Link.{Appends};
ghost use Rattle.mum_published.specs.Calls.{ask_at};
ghost use Rattle.mum_published.specs.Facts.{PassFacts};
ghost use Rattle.mum_state.specs.State.{StateValue};
ghost use Rattle.mum_viewer.specs.Laws.{AllStalled, HasSent, IsOpenView, StepsTo, is_finished};
ghost use Rattle.mum_viewer.specs.Look.{Looks, view_ask};
ghost use Rattle.mum_viewer.specs.Text.{view_text};
ghost use Rattle.mum_viewer.specs.View.{ViewFacts, ViewSteps, new_view};
ghost use Rattle.mum_viewer.specs.Views.{StepsViews, ViewsFacts};
ghost use Rattle.mum_viewer.specs.declared.view.Went.{Went};
ghost use Rattle.mum_viewer.specs.declared.view.Went.TheVariants.{Finished};

use mum_io::Link;

/// What a view has written since it came is a front of its text; it is all of it exactly where the view was
/// counted; and the link is shut uncounted only where it failed.
pub fn views_show_their_text<L: Link>()
    ensures front { (link : L) (text : List ℕ) (steps : List Went) (view : ViewFacts L) →
        StepsTo L.facts (new_view link text) steps view →
        HasSent L.facts link text view }
    ensures whole { (link : L) (text : List ℕ) (steps : List Went) (old new : ViewFacts L) →
        StepsTo L.facts (new_view link text) steps old → old.over ≡ false →
        ViewSteps L.facts old Finished new →
        Appends (L.facts link).written (L.facts new.link).written text }
    ensures exactly { (link : L) (state : StateValue) (steps : List Went) (view : ViewFacts L) →
        StepsTo L.facts (new_view link (view_text state)) steps view →
        (view.left ≡ []) ↔ IsTrue (list_any is_finished steps) }
    ensures uncounted { (went : Went) (old new : ViewFacts L) → old.over ≡ false → new.over ≡ true →
        ViewSteps L.facts old went new →
        (went ≡ Finished) ⊎ Rose (L.facts old.link).counts.faults (L.facts new.link).counts.faults }
{}

/// The list that a look sees begins with that of the look before, and is what the new ask is at.
pub fn looks_go_on()
    ensures { (old new : PassFacts) (found : Result (List ℕ) AllocError) → Looks view_text old found new →
        IsPrefix old.seen new.seen × (new.asks ≡ old.asks ++ ask_at new.seen view_ask ∷ []) }
{}

/// Where no view did anything in a turn, each of them found its link not ready.
pub fn idle_views_stall<L: Link>()
    ensures { (old new : ViewsFacts L) → AllByRecursion IsOpenView old.list →
        StepsViews L.facts old false new → AllStalled L.facts old.list new.list }
{}
