//! The steps of one connection: one read, one run, one write, and what its owner does with it, each over all
//! of a connection but its link. What a call of several steps is stands above.
#![tactic(auto)]

mod answer;
mod at;
mod budget;
mod hijack;
mod inside;
mod moments;
mod open;
mod owner;
mod piece;
mod read;
mod say;
mod send;
mod state;
mod steps;

pub use at::{At, close, is_answering, is_over, is_saying, state_at};
pub use budget::{Budget, SayStep, Step};
pub use inside::Inside;
pub use moments::{Ending, Late, Moments};
pub use owner::has_place;
pub use state::{Next, State, Tick, Told};
