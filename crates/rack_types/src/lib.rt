//! The values that the server's crates share: bytes, limits, faults, a request, its environment and
//! its body, and the names of a connection's two ends; and what an application answers: headers, a
//! body, an answer, the traits of an application and of what runs one, and the rules that they keep.
#![tactic(auto)]

mod answer;
mod body;
mod bytes;
mod endpoint;
mod env;
mod fault;
mod headers;
mod input;
mod limits;
mod name;
mod peer;
mod plain;
mod request;
mod rules;
mod runner;
mod sending;
mod table;

pub use answer::Answer;
pub use body::{Body, Kind, Step};
pub use bytes::Bytes;
pub use endpoint::Endpoint;
pub use env::Env;
pub use fault::Fault;
pub use headers::Headers;
pub use input::Input;
pub use limits::{Limits, Version};
pub use peer::{Local, Peer};
pub use plain::Plain;
pub use request::{Request, Spans};
pub use rules::{BodyRule, EnvRule, Rule, Set};
pub use runner::Runner;

/// A refused allocation.
///
/// It may come at any call whose signature names it, unless the call's contract says where. What a
/// contract says of other answers yields to it.
pub type NoMemory = std::alloc::AllocError;
