//! Tests alone, of what all crates share: short texts, values, the objects in memory of the outside, hijackers and lint.
//! They stand here, and not in the crates that they try, since a crate that has tests is proved once more with them.
#![tactic(auto)]

#[cfg(test)]
mod environments;
#[cfg(test)]
mod header_lists;
#[cfg(test)]
mod hijackers;
#[cfg(test)]
mod inputs;
#[cfg(test)]
mod links;
#[cfg(test)]
mod lints;
#[cfg(test)]
mod objects;
#[cfg(test)]
mod peers;
#[cfg(test)]
mod texts;
#[cfg(test)]
mod traits;
#[cfg(test)]
mod watchers;
