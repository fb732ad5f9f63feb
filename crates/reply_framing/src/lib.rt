//! Reply framing: an answer as the bytes of a reply (RFC 9112, sections 4 to 9), put into a ring as
//! there is room, while the body is pulled piece by piece.
#![tactic(auto)]

mod fault;
mod form;
mod framed;
mod framer;
mod head;
mod pull;
mod reason;
mod sending;
mod start;
mod types;

pub use fault::put_fault;
pub use framer::Framer;
pub use types::{After, Ask, Filled};
