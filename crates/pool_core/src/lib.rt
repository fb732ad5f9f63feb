//! What the threads of a slot share besides its flag: the book of the pool, and lanes, through which
//! one owner hands a connection to the next, so that none is lost, doubled or made up.
#![tactic(auto)]

mod book;
mod handoff;
mod lane;
mod laws;
mod numbered;
mod size;
mod steps;
mod view;

pub use book::PoolBook;
pub use handoff::{Handoff, HandoffOver};
pub use lane::{Bench, Lane, LaneOver, Pass, PassOver};
pub use laws::lists_with_repeats;
pub use numbered::LaneRule;
pub use rack_outside::Numbered;
pub use size::Size;
pub use steps::OneLane;
pub use view::{Cargo, PassView, Stage};

#[cfg(test)]
mod tests;
