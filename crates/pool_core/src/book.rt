// What a slot's threads count of their pool.
ghost use Rattle.std.specs.Prelude.{◌≤◌};

/// What a slot's threads count of their pool. They share it under a lock, so of a book behind its lock
/// a proof knows only what stands of every book.
#[derive(Clone, Copy, Debug)]
pub struct PoolBook {
    /// The workers that there are always.
    pub min: u32,
    /// The workers that there may be.
    pub max: u32,
    /// The workers that were started and not yet trimmed, at most `max`.
    pub spawned: u32,
    /// Those of them that hold no connection.
    pub waiting: u32,
    /// The connections that were handed to the workers and that none has taken yet.
    pub backlog: u32,
    /// The connections that the slot took in and that neither ended nor were passed on.
    pub connections: u32,
    /// The runs of the application that were made.
    pub requests: u64,
    pub ghost waits: { waiting ≤ spawned },
    pub ghost fits: { spawned ≤ max },
}
