//! One connection, from its first byte to its end: what comes is read and fed to the reader of
//! requests, each request is run once, and its reply is framed and written, one behind the other.
#![tactic(auto)]

mod answers;
mod conn;
mod feed;
mod flush;
mod owner;
mod sending;
mod turn;

pub use conn::Conn;
pub use conn_steps::{Next, State, Tick, Told};
pub use talk_core::{Ended, IdleBy, Life, Why};
