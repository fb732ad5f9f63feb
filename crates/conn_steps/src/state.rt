// Where a connection is, as its owner sees it, and what it waits for.

/// What a connection can be asked for.
#[derive(Clone, Copy, Debug, PartialEq, Eq)]
pub enum State {
    /// Nothing stands and nothing is owed: it is to be fed.
    Reading,
    /// A whole request stands, or a refusal: it is to be turned.
    Ready,
    /// A reply is under way: it is to be flushed.
    Answering,
    /// A hijacker has it: it is to be flushed where it wants to write, as what the hijacker said last, and else
    /// to be fed.
    Hijacked,
    /// It ended: it is to be finished.
    Over,
}

/// What a call leaves a connection waiting for.
#[derive(Clone, Copy, Debug, PartialEq, Eq)]
pub enum Next {
    /// The link had to wait: for bytes of the peer, or until it takes some.
    Waiting,
    /// The call got on, and the connection goes on.
    More,
    /// A whole request stands, or a refusal, and no reply is under way.
    Ready,
    /// The call made its last run, read or write.
    TurnOver,
    /// The connection ended.
    Over,
}

/// What a tick left.
#[derive(Clone, Copy, Debug, PartialEq, Eq)]
pub enum Tick {
    /// No limit has passed, and nothing changed but the greatest moment.
    Still,
    /// A request took too long: the reply that says so is owed.
    Write,
    /// The connection ended, idle or stalled.
    Over,
}

/// What the telling of a drain left.
#[derive(Clone, Copy, Debug, PartialEq, Eq)]
pub enum Told {
    /// It goes on as it was.
    Stays,
    /// No byte of it was ever read: it may be placed anew, or ended unread.
    Unread,
    /// It was read, has answered all that it was asked, and nothing is begun: it may be placed anew, or ended idle.
    Idle,
    /// Bytes are owed: it is to be flushed.
    Write,
    /// It ended: it is to be finished.
    Over,
}
