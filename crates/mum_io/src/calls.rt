//! The calls on an object in memory, some of which are to fail.

ghost use Rattle.std.specs.Prelude.{◌≡◌};
ghost use Rattle.mum_io.specs.Calls.{after_call, before_calls, next_fails};

use std::marker::Model;

/// Which calls fail, by their numbers from 1, and how many there were. The count stays at its last value,
/// `u64::MAX`.
#[derive(Debug, Drop)]
pub struct Calls {
    failing: Vec<u64>,
    made: u64,
}

impl Model for Calls {
    ghost use Rattle.mum_io.specs.Calls.{CallNumbers};

    ghost Value = { CallNumbers };

    ghost view = { λ c. record { failing = c.failing.items; made = c.made } };
}

impl Calls {
    pub fn new(failing: Vec<u64>) -> Calls
        ensures { result ≡ before_calls failing.items }
    {
        Calls { failing, made: 0 }
    }

    /// Counts a call, and says whether it is to fail.
    pub fn begin(&mut self) -> bool
        ensures fails { result ≡ next_fails self.old }
        ensures counted { self.new ≡ after_call self.old }
    {
        self.made = self.made.saturating_add(1);
        self.failing.contains(&self.made)
    }
}
