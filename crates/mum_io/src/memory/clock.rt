//! A clock in memory.

ghost use Rattle.std.specs.Prelude.{◌≡◌};
ghost use Rattle.mum_io.specs.Counts.{Rose};

use crate::clock::Clock;
use std::collections::VecDeque;
use std::marker::Model;

/// A clock that answers a list of moments, and then the last of them again. Without any it answers 0.
#[derive(Drop)]
pub struct MemClock {
    moments: VecDeque<u64>,
    last: u64,
    calls: u64,
}

impl Model for MemClock {
    ghost use Rattle.mum_io.specs.MemClock.{ClockState};

    ghost Value = { ClockState };

    ghost view = { λ c. record { moments = c.moments.items; last = c.last; calls = c.calls } };
}

impl MemClock {
    ghost use Rattle.mum_io.specs.MemClock.{new_clock};

    pub fn new(moments: Vec<u64>) -> MemClock
        ensures { result ≡ new_clock moments.items }
    {
        MemClock {
            moments: VecDeque::from_vec(moments),
            last: 0,
            calls: 0,
        }
    }
}

impl Clock for MemClock {
    ghost use Rattle.mum_io.specs.MemClock.{after_now};

    ghost last = { λ c. c.last };

    ghost calls = { λ c. c.calls };

    fn now(&mut self) -> u64
        ensures last { result ≡ self.new.last }
        ensures calls { Rose self.old.calls self.new.calls }

        ensures state { self.new ≡ after_now self.old }
    {
        if let Some(moment) = self.moments.pop_front() {
            self.last = moment;
        }
        self.calls = self.calls.saturating_add(1);
        self.last
    }
}
