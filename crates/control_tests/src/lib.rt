//! Tests alone: a control server behind a connection, over a link in memory.
#![tactic(auto)]

#[cfg(test)]
mod loads;
#[cfg(test)]
mod requests;
