// How a connection ended.

/// What an idle connection was ended by.
#[derive(Clone, Copy, Debug, PartialEq, Eq)]
pub enum IdleBy {
    /// Nothing was begun, and for 20,000 ms no byte was sent. Both are moments, in milliseconds.
    Clock {
        /// When the last reply was sent whole, or when the connection was opened.
        since: u64,
        /// When it was looked at.
        now: u64,
    },
    /// The server drains, and has answered all that came.
    Drain {
        /// The level that was told: 1 or more.
        level: u64,
    },
}

/// Why a connection ended. Moments are in milliseconds.
#[derive(Clone, Copy, Debug, PartialEq, Eq)]
pub enum Why {
    /// The last reply, which closes, was sent whole; or the one that names a refusal.
    Closed,
    /// The peer ended, and all that it asked was answered.
    PeerEnd,
    /// Nothing was asked, for a time or at a drain.
    Idle(IdleBy),
    /// A request was begun and did not become whole within 30,000 ms. The reply that says so was sent.
    TimedOut {
        /// When the request was begun.
        since: u64,
        /// When it was looked at.
        now: u64,
    },
    /// The peer took nothing for 10,000 ms.
    Stalled {
        /// When it last took something, or when there first was something to take, whichever is later.
        since: u64,
        /// When it was looked at.
        now: u64,
    },
    /// Nothing was ever read, and the server drains or stops.
    Unread {
        /// The level that was told: 1 or more.
        level: u64,
    },
    /// A read failed.
    ReadFailed,
    /// A write failed.
    WriteFailed,
    /// The server was halted.
    Halted {
        /// The level that was told: 2.
        level: u64,
    },
    /// Memory was refused.
    NoMemory,
    /// A hijacker took the connection over, and said all that it had to say.
    Hijacked,
}

/// The requests of a connection that one stack answers: from a number on, up to the next life.
#[derive(Clone, Copy, Debug, PartialEq, Eq)]
pub struct Life {
    /// The number of the first of them, counted from 0.
    pub first: u64,
    /// The phase of the stack, counted from 0.
    pub phase: u32,
}

/// A connection that ended, with its link.
#[derive(Drop)]
pub struct Ended<L> {
    /// The connection's number.
    pub number: u32,
    /// Its link, with all that it tells.
    pub link: L,
    /// Its lives, in order. Empty exactly where the connection could not be opened.
    pub lives: Vec<Life>,
    /// How many requests were run.
    pub calls: u64,
    /// The level of draining that it was last told since its opening or its last placing, 0 where none was.
    pub told: u64,
    /// The number of the request at whose run a drain had been told and no byte stood behind it, so that its reply closed,
    /// or it was the last one anyway; none where there was no such run.
    pub closing: Option<u64>,
    /// Why it ended.
    pub why: Why,
}
