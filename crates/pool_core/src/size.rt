// When a pool grows and shrinks.
ghost use Rattle.std.specs.Prelude.{◌≡◌, ◌+◌, ◌-◌};
ghost use Rattle.pool_core.specs.Book.{decision};

use crate::PoolBook;

/// What a pool does next.
#[derive(Clone, Copy, Debug, PartialEq, Eq)]
pub enum Size {
    /// One more worker is started.
    More,
    /// One worker that holds no connection ends.
    Trim,
    /// Neither.
    Stay,
}

impl PoolBook {
    /// What the pool does next, by this project's own rule.
    ///
    /// `More` where there are fewer workers than `min`, or where more connections wait than workers and
    /// there may be more workers. Else `Trim` where there are more than `min`, no connection waits and a
    /// worker does. Else `Stay`.
    pub fn decide(&self) -> Size
        ensures { result ≡ decision self.now }
    {
        if self.spawned < self.min || (self.backlog > self.waiting && self.spawned < self.max) {
            Size::More
        } else if self.spawned > self.min && self.backlog == 0 && self.waiting > 0 {
            Size::Trim
        } else {
            Size::Stay
        }
    }

    /// How many connections more the pool could take at once: by the workers that wait, and by those
    /// that may still be started.
    pub fn capacity(&self) -> u32
        ensures { result ≡ self.now.waiting + self.now.max - self.now.spawned }
    {
        self.waiting + (self.max - self.spawned)
    }
}
