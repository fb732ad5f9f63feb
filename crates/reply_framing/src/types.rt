// What a framer is asked, and what it answers.
use rack_types::{BodyRule, Version};

/// What a reply has to know of its request and cannot see in the environment.
#[derive(Clone, Copy, Debug, PartialEq, Eq)]
pub struct Ask {
    /// The method is HEAD: the reply has no body (RFC 9110, section 9.3.2).
    pub head: bool,
    /// The version of the request: chunks are sent to HTTP/1.1 alone.
    pub version: Version,
    /// The request lets the connection persist (RFC 9112, section 9.3).
    pub persists: bool,
}

/// What becomes of the connection behind the reply.
#[derive(Clone, Copy, Debug, PartialEq, Eq)]
pub enum After {
    /// It takes the next request.
    Keep,
    /// It is closed.
    Close,
    /// It belongs to the hijacker that `Framer::finish` hands out.
    Hijack,
}

/// What a `fill` came to.
#[derive(Clone, Copy, Debug, PartialEq, Eq)]
pub enum Filled {
    /// The ring is full, and bytes remain.
    Full,
    /// The whole reply was appended.
    Done,
    /// The body broke this rule, 1 to 3 (docs/DEFINITIONS.md). The reply was appended up to the break, and
    /// no more of it comes.
    Broke(BodyRule),
}

/// How a reply tells the length of its body (RFC 9112, section 6).
#[derive(Clone, Copy, Debug, PartialEq, Eq)]
pub enum Form {
    /// The reply has no body.
    Bare,
    /// The application's `content-length` tells it.
    Stated,
    /// The body's length is known, and the framer tells it.
    Known,
    /// Chunks tell it.
    Chunked,
    /// The end of the connection tells it.
    Closing,
}
