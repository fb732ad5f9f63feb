// Moments.
ghost use Rattle.std.specs.Prelude.{◌≡◌, ◌≤◌, ℕ};

use std::marker::Model;

/// A clock: milliseconds from some moment of its own on, which never fall.
pub trait Clock {
    /// Its moment when it was made, which never changes.
    ghost first: { Self → ℕ };
    /// The moment that it told last; at first `first`.
    ghost last: { Self → ℕ };

    /// The moment now, in milliseconds. It takes no memory and cannot fail.
    fn now(&mut self) -> u64
        ensures first { first self.new ≡ first self.old }
        ensures rises { last self.old ≤ result }
        ensures last { last self.new ≡ result };
}

/// A clock in memory, which stands still.
#[derive(Drop)]
pub struct MemClock {
    moment: u64,
}

impl Model for MemClock {
    ghost use Rattle.std.specs.Prelude.{ℕ};

    ghost Value = { ℕ };

    ghost view = { λ c. c.moment };
}

impl MemClock {
    /// A clock that always tells this moment.
    pub fn new(now: u64) -> MemClock
        ensures moment { result ≡ now }
        ensures first { ⟦<MemClock as Clock>⟧.first result ≡ now }
        ensures last { ⟦<MemClock as Clock>⟧.last result ≡ now }
    {
        MemClock { moment: now }
    }
}

impl Clock for MemClock {
    ghost first = { λ c. c };

    ghost last = { λ c. c };

    /// Always the same moment.
    fn now(&mut self) -> u64
        ensures same { self.new ≡ self.old }
        ensures moment { result ≡ self.old }
    {
        self.moment
    }
}
