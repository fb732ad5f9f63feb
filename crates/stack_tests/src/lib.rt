//! Tests alone, of what answers a request: endpoints, middleware, built stacks and stack files. They stand here, and not
//! in the crates that they try, since a crate that has tests is proved once more with them.
#![tactic(auto)]

#[cfg(test)]
mod endpoints;
#[cfg(test)]
mod files;
#[cfg(test)]
mod stacks;
#[cfg(test)]
mod wares;
