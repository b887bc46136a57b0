//! What was decided of the commands of a run.

ghost use Rattle.std.specs.Prelude.{◌≡◌};
ghost use Rattle.mum_exercise.specs.Exercise.{counted};

use mum_base::Mark;

/// How many commands were decided so. Each count stays at the end of its type.
#[derive(Clone, Copy)]
pub struct Tally {
    pub accepted: u64,
    pub lacks: u64,
    pub refused: u64,
    pub ignored: u64,
}

impl Tally {
    /// None.
    pub fn new() -> Tally
        ensures { result ≡ record { accepted = 0; lacks = 0; refused = 0; ignored = 0 } }
    {
        Tally {
            accepted: 0,
            lacks: 0,
            refused: 0,
            ignored: 0,
        }
    }

    /// One more, where something was decided.
    pub fn count(&mut self, mark: Option<Mark>)
        ensures { self.new ≡ counted self.old mark }
    {
        match mark {
            Some(Mark::Accepted { .. }) => self.accepted = self.accepted.saturating_add(1),
            Some(Mark::Lacks { .. }) => self.lacks = self.lacks.saturating_add(1),
            Some(Mark::Refused { .. }) => self.refused = self.refused.saturating_add(1),
            Some(Mark::Ignored { .. }) => self.ignored = self.ignored.saturating_add(1),
            _ => {}
        }
    }
}
