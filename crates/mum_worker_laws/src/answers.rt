//! What the answer of a turn shows, over any links and any gate. These functions do nothing: each contract is a
//! theorem.

ghost use Rattle.std.specs.Prelude.{◌≡◌, ◌↔◌, IsTrue, ℕ, List, Option};
ghost use Rattle.std.specs.List.{list_any};
ghost use Rattle.mum_crew.specs.Turns.{TurnsTo};
ghost use Rattle.mum_crew.specs.declared.role.Turn.{Turn};
ghost use Rattle.mum_crew.specs.declared.role.Turn.TheVariants.{Worked, Idle, Done};
ghost use Rattle.mum_published.specs.Facts.{Opening, PassFacts};
ghost use Rattle.mum_worker.specs.Facts.{WorkerFacts, is_done};
ghost use Rattle.mum_worker.specs.Opening.{HasOpened};
ghost use Rattle.mum_worker.specs.Turning.{Turned, WorkerTurned};
ghost use Rattle.mum_worker_laws.specs.Causes.{HasNothingToDo, HasWorked, is_no_more};

use mum_io::Link;

/// Each answer of a turn shows its cause.
pub fn answers_have_causes<L: Link>()
    // `Idle` only where the bell gave nothing, and no port did anything or found anything that it might do.
    ensures idle { (opening : Opening) (old new : WorkerFacts L) →
        Turned L.facts opening old new Idle →
        HasNothingToDo L.facts old new }
    // `Worked` only where the bell gave something, or the step of a port in this turn did something.
    ensures worked { (opening : Opening) (old new : WorkerFacts L) →
        Turned L.facts opening old new Worked →
        HasWorked L.facts opening old new }
    // `Done` exactly where no connection comes any more and no port is left.
    ensures done { (opening : Opening) (old new : WorkerFacts L) (answer : Turn) →
        Turned L.facts opening old new answer → (answer ≡ Done) ↔ IsTrue (is_done new) }
    // That no connection comes any more is known exactly where the bell gave that word.
    ensures ended { (opening : Opening) (number : ℕ) (pass : PassFacts) (journal : Option ℕ)
        (opened worker : WorkerFacts L) (turns : List Turn) → HasOpened number pass journal opened →
        TurnsTo (WorkerTurned L.facts opening) opened turns worker →
        worker.ended ≡ list_any is_no_more worker.bell.taken }
{}
