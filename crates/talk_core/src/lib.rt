//! What one connection says in its life, from its first byte to its end: the talk on the bytes that came,
//! the text that answers them, and how a connection ends.
//!
//! These are definitions and laws. The connection itself is built on them.
#![tactic(auto)]

mod ended;
mod laws;
#[cfg(test)]
mod tests;

pub use ended::{Ended, IdleBy, Life, Why};
pub use laws::{
    chunks_are_read_again, no_bytes_are_without_a_talk, one_talk_is_on_the_bytes,
    talk_that_stopped_stays, what_was_sent_stands_for_the_talk,
};
