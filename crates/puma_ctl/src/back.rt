// The reader of a reply.
ghost use Rattle.std.specs.Prelude.{◌≡◌, ℕ, ◌<◌, ◌≤◌, ◌+◌, List, [], length, IfOk, Ok};
ghost use Rattle.puma_ctl.specs.Reply.{BeginsReply, AwaitsReply, body_limit};
ghost use Rattle.puma_ctl.specs.Back.{Feeds, FoundIn, HasHead};
ghost use Rattle.message_framing.specs.Request.{head_limit};

use crate::head::{head_end, prefix, read_head, skip, suffix};
use rack_types::NoMemory;
use std::alloc::Global;
use std::marker::Model;

// The bytes that a head may have.
const HEAD_LIMIT: usize = 32_768;

// The room that is made for a reply. Most need no more.
const ROOM: usize = 1_024;

/// What stands in the bytes of a reply so far.
#[derive(Clone, Copy, Debug, PartialEq, Eq)]
pub enum Got {
    /// A reply may still come of them.
    More,
    /// They begin with a reply that has this status.
    Whole { status: u32 },
    /// They never begin with a reply.
    Not,
}

// What was found in the bytes so far.
#[derive(Clone, Copy)]
enum Found {
    // The head is coming.
    Coming,
    // The head ends at `start`, and not all of the body came.
    Body {
        start: usize,
        length: usize,
        status: u32,
    },
    // The same, and all of it came.
    Whole {
        start: usize,
        length: usize,
        status: u32,
    },
    // This is no reply.
    Refused,
}

impl Found {
    ghost use Rattle.puma_ctl.specs.Back.{FoundIn, KeepsHead, got_of};

    // What is found in the bytes, which are those in which this was found and more behind them.
    fn behind(self, bytes: &[u8]) -> Found
        requires { KeepsHead self bytes.now }
        ensures { FoundIn result bytes.now }
    {
        match self {
            Found::Coming => found_in(bytes),
            Found::Body {
                start,
                length,
                status,
            } => body_in(start, length, status, bytes),
            Found::Whole {
                start,
                length,
                status,
            } => body_in(start, length, status, bytes),
            Found::Refused => Found::Refused,
        }
    }

    // What is answered.
    fn got(self) -> Got
        ensures { result ≡ got_of self }
    {
        match self {
            Found::Coming => Got::More,
            Found::Body { .. } => Got::More,
            Found::Whole { status, .. } => Got::Whole { status },
            Found::Refused => Got::Not,
        }
    }
}

// What is found in bytes in which no head was found yet.
fn found_in(bytes: &[u8]) -> Found
    ensures { FoundIn result bytes.now }
{
    let Some(end) = head_end(prefix(bytes, bytes.len().min(HEAD_LIMIT))) else {
        return if bytes.len() < HEAD_LIMIT {
            Found::Coming
        } else {
            Found::Refused
        };
    };
    let head = prefix(bytes, end);
    match read_head(suffix(head, skip(head))) {
        Some(head) => body_in(end, head.length, head.status, bytes),
        None => Found::Refused,
    }
}

// Whether the body of this length is whole, behind a head that ends at `start`.
fn body_in(start: usize, length: usize, status: u32, bytes: &[u8]) -> Found
    requires { HasHead bytes.now start status length }
    ensures { FoundIn result bytes.now }
{
    if bytes.len() - start < length {
        Found::Body {
            start,
            length,
            status,
        }
    } else {
        Found::Whole {
            start,
            length,
            status,
        }
    }
}

/// A reader of one reply, which is fed the bytes as they come. A contract sees it as the bytes that it took.
#[derive(Drop)]
pub struct Back {
    bytes: Vec<u8>,
    found: Found,
}

impl Model for Back {
    ghost use Rattle.std.specs.Prelude.{List, ℕ};
    ghost use Rattle.puma_ctl.specs.Back.{FoundIn};

    ghost Value = { List ℕ };

    ghost view = { λ b. b.bytes.items };

    ghost invariant = { λ b. FoundIn b.found b.bytes.items };
}

impl Back {
    /// A reader that took nothing. It takes memory for a reply of the usual size.
    pub fn new(alloc: Global) -> Result<Back, NoMemory>
        ensures { IfOk result (λ back. back ≡ []) }
    {
        Ok(Back {
            bytes: Vec::with_capacity(alloc, ROOM)?,
            found: Found::Coming,
        })
    }

    /// Takes one more piece of what came, and tells what stands.
    ///
    /// `Whole` comes exactly where the bytes begin with a reply, `Not` exactly where they never do, and else `More`.
    /// Behind `Whole` or `Not` nothing more is taken, and the answer is the same again. A refused call takes nothing,
    /// and the piece may be fed again.
    pub fn feed(&mut self, piece: &[u8]) -> Result<Got, NoMemory>
        ensures feeds { Feeds result self.old piece.now self.new }
        ensures bounded { result ≡ Ok Got.More → length self.new < head_limit + body_limit }
    {
        let got = self.found.got();
        let Got::More = got else {
            return Ok(got);
        };
        self.bytes.extend_from_slice(piece)?;
        let found = self.found.behind(&self.bytes);
        self.found = found;
        Ok(found.got())
    }

    /// The body of the reply, once the whole reply came; else nothing.
    pub fn body(&self) -> &[u8]
        ensures whole { (status : ℕ) (body : List ℕ) → BeginsReply self.now status body → result.now ≡ body }
        ensures none { AwaitsReply self.now → result.now ≡ [] }
    {
        match self.found {
            Found::Whole { start, length, .. } => prefix(suffix(&self.bytes, start), length),
            _ => &[],
        }
    }
}
