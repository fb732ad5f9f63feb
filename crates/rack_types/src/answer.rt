// What an application answers.
use super::{Bytes, Headers};

/// What an application answers to a request: a reply, that it raised, or that it took the connection.
///
/// A contract sees an answer as data: the same with the body's content in the body's place, which
/// `told` gives. A body has no `Drop`, so an answer that may hold one is taken apart, and the body closed.
#[derive(Drop)]
pub enum Answer<B, H> {
    /// A reply.
    Reply {
        /// The status, of any value. What may be sent is told by the rules of answers.
        status: u32,
        /// The headers.
        headers: Headers,
        /// The body.
        body: B,
        /// Who takes the connection over behind the head (a partial hijack), if anybody does.
        part: Option<H>,
    },
    /// The application raised, with this text.
    Raised(Bytes),
    /// The application took the connection, and there is no reply (a full hijack).
    Taken(H),
}
