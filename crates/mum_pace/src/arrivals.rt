//! How fast connections come in.

ghost use Rattle.std.specs.Prelude.{◌≡◌, nat_lt};
ghost use Rattle.mum_pace.specs.Arrivals.{arrivals_at, counts_one, no_arrivals, state_of};
ghost use Rattle.mum_pace.specs.Meters.{room};

use crate::pace::Rate;
use crate::used::Used;

/// The connections that came in of late, counted against a rate.
#[derive(Clone, Copy)]
pub struct Arrivals {
    rate: Rate,
    used: Used,
    milliseconds: u64,
}

impl Arrivals {
    /// None came yet.
    pub fn new(rate: Rate) -> Arrivals
        ensures rate { result.rate ≡ rate }
        ensures state { state_of result ≡ no_arrivals }
    {
        Arrivals {
            rate,
            used: Used::nothing(),
            milliseconds: 0,
        }
    }

    /// Whether one more may come in at this time, in milliseconds.
    pub fn have_room(&mut self, milliseconds: u64) -> bool
        ensures room { result ≡ nat_lt 0 (room self.old.rate (state_of self.new).used) }
        ensures state { state_of self.new ≡ arrivals_at self.old.rate (state_of self.old) milliseconds }
        ensures rate { self.new.rate ≡ self.old.rate }
    {
        let passed = milliseconds.saturating_sub(self.milliseconds);
        self.milliseconds = self.milliseconds.max(milliseconds);
        self.used.give_back(self.rate, passed);
        self.used.room(self.rate) > 0
    }

    /// One came in.
    pub fn count(&mut self)
        ensures state { state_of self.new ≡ counts_one (state_of self.old) }
        ensures rate { self.new.rate ≡ self.old.rate }
    {
        self.used.add_frames(1);
    }
}
