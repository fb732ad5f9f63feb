// What was seen of a slot.

/// What was seen of one slot, for the statistics.
#[derive(Clone, Copy, Debug, PartialEq, Eq)]
pub struct SlotSeen {
    /// The connections that wait for a thread.
    pub backlog: u32,
    /// The threads that there are.
    pub running: u32,
    /// The connections that could be taken up at once: threads that rest, and those that may still be
    /// started.
    pub pool_capacity: u32,
    /// The threads that there may be.
    pub max_threads: u32,
    /// The requests that were answered.
    pub requests: u64,
}
