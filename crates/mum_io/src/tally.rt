//! The counts of a link or a door.

ghost use Rattle.std.specs.Prelude.{◌≡◌};
ghost use Rattle.mum_io.specs.Counts.{CountsEnd, CountsFault, CountsStall, next_count, no_counts};

use std::marker::Model;

/// How many calls failed, how many found nothing ready, and how many found the end. Each count stays at its
/// last value, `u64::MAX`.
#[derive(Clone, Copy, Debug)]
pub struct Tally {
    faults: u64,
    stalls: u64,
    ends: u64,
}

impl Model for Tally {
    ghost use Rattle.mum_io.specs.Counts.{Counts};

    ghost Value = { Counts };

    ghost view = { λ t. record { faults = t.faults; stalls = t.stalls; ends = t.ends } };

    ghost inverse = { λ c. record { faults = c.faults; stalls = c.stalls; ends = c.ends } };
}

impl Tally {
    /// No call yet.
    pub const fn new() -> Tally
        ensures { result ≡ no_counts }
    {
        Tally {
            faults: 0,
            stalls: 0,
            ends: 0,
        }
    }

    pub fn count_fault(&mut self)
        ensures value { self.new ≡ record self.old { faults = next_count self.old.faults } }
        ensures counts { CountsFault self.old self.new }
    {
        self.faults = self.faults.saturating_add(1);
    }

    pub fn count_stall(&mut self)
        ensures value { self.new ≡ record self.old { stalls = next_count self.old.stalls } }
        ensures counts { CountsStall self.old self.new }
    {
        self.stalls = self.stalls.saturating_add(1);
    }

    pub fn count_end(&mut self)
        ensures value { self.new ≡ record self.old { ends = next_count self.old.ends } }
        ensures counts { CountsEnd self.old self.new }
    {
        self.ends = self.ends.saturating_add(1);
    }
}
