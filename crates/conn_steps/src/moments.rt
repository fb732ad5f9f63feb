// The moments that a connection keeps, and what was told of its end.
ghost use Rattle.std.specs.Prelude.{◌≡◌, None};
ghost use Rattle.conn_steps.specs.Keeps.{filled_if};
ghost use Rattle.conn_steps.specs.Moments.{reached, quiet_since, stuck_since, ended_by};

use talk_core::Why;

/// The moments that a connection keeps, in milliseconds. Each is the one that was handed to the call named.
#[derive(Clone, Copy, Debug, PartialEq, Eq)]
pub struct Moments {
    /// The greatest that was handed to a call.
    pub last: u64,
    /// The opening.
    pub opened: u64,
    /// The call in which the link last took a byte, if it took any.
    pub took: Option<u64>,
    /// The call in which the request was begun that is being read, if one is.
    pub begun: Option<u64>,
    /// The call in which bytes first came into the ring after it was last empty.
    pub filled: u64,
}

/// Since when a request took too long, and when that was seen.
#[derive(Clone, Copy, Debug, PartialEq, Eq)]
pub struct Late {
    pub since: u64,
    pub now: u64,
}

/// What was told of a connection's end.
#[derive(Clone, Copy, Debug, PartialEq, Eq)]
pub struct Ending {
    /// The level of draining that it was last told since its opening or its last placing, 0 where none.
    pub told: u64,
    /// The number of the request whose reply closes it by draining, if one does.
    pub closing: Option<u64>,
    /// That its last request took too long, and the reply that says so was begun.
    pub late: Option<Late>,
    /// That a drain was told while a hijacker had it.
    pub dismissed: bool,
}

impl Moments {
    /// At the opening, with the moment at which a request was begun, if one was.
    pub fn new(now: u64, begun: Option<u64>) -> Moments
        ensures { result ≡ record { last = now; opened = now; took = None; begun = begun; filled = now } }
    {
        Moments {
            last: now,
            opened: now,
            took: None,
            begun,
            filled: now,
        }
    }

    /// A call was handed this moment.
    pub fn reach(&mut self, now: u64)
        ensures { self.new ≡ reached now self.old }
    {
        self.last = self.last.max(now);
    }

    /// Since when nothing was sent where nothing is owed: the call in which the link took the last byte of the last
    /// reply, or the opening.
    pub fn quiet(&self) -> u64
        ensures { result ≡ quiet_since self.now }
    {
        match self.took {
            Some(took) => took,
            None => self.opened,
        }
    }

    /// Since when the link took nothing of what is in the ring.
    pub fn stuck(&self) -> u64
        ensures { result ≡ stuck_since self.now }
    {
        match self.took {
            Some(took) => took.max(self.filled),
            None => self.filled,
        }
    }
}

/// How a connection ends behind the reply that names a refusal, or that a request took too long.
pub fn ended_by(late: Option<Late>) -> Why
    ensures { result ≡ ended_by late }
{
    match late {
        Some(late) => Why::TimedOut {
            since: late.since,
            now: late.now,
        },
        None => Why::Closed,
    }
}

/// The moment at which bytes came into an empty ring: now, or as before.
pub fn filled(came: bool, now: u64, before: u64) -> u64
    ensures { result ≡ filled_if came now before }
{
    if came { now } else { before }
}
