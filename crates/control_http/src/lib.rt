//! The control server's answers: an operator asks by HTTP for statistics, or orders that the server
//! stop, halt, or replace its application slot by slot, and each answer is a status with a text in JSON.
#![tactic(auto)]

mod control;
mod field;
mod restart;
mod said;
mod seen;
mod serve;
mod stats;
#[cfg(test)]
mod tests;
mod token;
mod wish;

pub use control::Control;
pub use seen::SlotSeen;
