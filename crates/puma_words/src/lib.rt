//! The words of the command line, read by `clap`: which command they say, if they say one.
#![tactic(auto)]

mod command;
mod control;
mod program;
#[cfg(test)]
mod tests;

pub use command::{Command, command_of};
pub use control::{Control, control_of};
