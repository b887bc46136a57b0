//! What follows from the definitions for every exercise. These functions do nothing: each contract is a theorem.

ghost use Rattle.std.specs.Prelude.{◌≡◌, ℕ, None};
ghost use Rattle.mum_core.specs.Core.{start};
ghost use Rattle.mum_core.specs.Laws.{IsRun, ran};
ghost use Rattle.mum_exercise.specs.Exercise.{document, exercised};
ghost use Rattle.mum_exercise.specs.declared.exercise.TheConstants.{WORKERS};
ghost use Rattle.mum_opening.specs.Opening.{opening};
ghost use Rattle.mum_record.specs.declared.head.Version.TheVariants.{One};

/// The steps of an exercise are a recording: each is allowed where it comes, and they lead to the core of
/// which the program reports.
pub fn exercises_are_runs()
    ensures allowed { (seed rounds : ℕ) → IsRun (start One (opening None document) WORKERS)
        (exercised seed rounds).steps }
    ensures led { (seed rounds : ℕ) → ran (start One (opening None document) WORKERS) (exercised seed rounds).steps
        ≡ (exercised seed rounds).core }
{}
