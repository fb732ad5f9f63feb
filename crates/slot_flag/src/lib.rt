//! A word that threads share and that only rises: it tells them to serve, to drain or to halt.
//!
//! Each thread has a [`Seat`]. The word is the greatest level that the seats show as raised, and no
//! seat saw more than the word, whatever the order of the threads' steps.
#![tactic(auto)]

mod flag;
mod steps;
mod view;

pub use flag::{DRAIN, Flag, HALT, SERVE, Seat};
pub use view::SeatView;

#[cfg(test)]
mod tests;
