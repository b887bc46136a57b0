//! What time it is.

ghost use Rattle.std.specs.Prelude.{◌≡◌, ℕ};
ghost use Rattle.mum_io.specs.Counts.{Rose};

/// A clock that counts seconds.
pub trait Clock: Drop {
    /// What the clock answered last, and 0 before its first answer.
    ghost last: { Self → ℕ };

    /// How often the clock was asked. The count is of 64 bits and stays at its last value, `u64::MAX`.
    ghost calls: { Self → ℕ };

    /// The time in seconds.
    fn now(&mut self) -> u64
        ensures last { result ≡ last self.new }
        ensures calls { Rose (calls self.old) (calls self.new) };
}
