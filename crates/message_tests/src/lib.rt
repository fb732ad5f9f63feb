//! Tests that cross the crates of messages, over objects in memory: requests one behind the other, the environment of
//! a request, a long body that is framed and read again; and whole replies, which would cost `reply_framing` a second
//! proof there.
#![tactic(auto)]

#[cfg(test)]
mod environment;
#[cfg(test)]
mod long_body;
#[cfg(test)]
mod replies;
#[cfg(test)]
mod requests;
