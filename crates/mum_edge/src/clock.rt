//! The clock of the system.

ghost use Rattle.std.specs.Prelude.{◌≡◌};

use mum_io::Clock;
use std::time;
use std::time::SystemTime;

/// The seconds since 1970. Where the system's clock cannot be read, or is before that, the answer is the last one.
#[derive(Drop)]
pub struct SystemClock<X> {
    rt: X,
    last: u64,
    calls: u64,
}

impl<X> SystemClock<X> {
    /// A clock that was not asked yet.
    pub fn new(rt: X) -> SystemClock<X> {
        SystemClock {
            rt,
            last: 0,
            calls: 0,
        }
    }
}

impl<X: time::Clock + Drop> Clock for SystemClock<X> {
    ghost last = { λ c. c.last };

    ghost calls = { λ c. c.calls };

    fn now(&mut self) -> u64 {
        self.calls = self.calls.saturating_add(1);
        if let Ok(now) = SystemTime::now(&self.rt) {
            if let Ok(since) = now.duration_since(time::UNIX_EPOCH) {
                self.last = since.as_secs();
            }
        }
        self.last
    }
}
