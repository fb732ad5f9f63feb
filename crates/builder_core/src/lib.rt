//! Stacks of applications: the steps of a stack, what they build, and how it answers (after Rack's
//! Builder, URLMap and Cascade; each detail is this project's own).
#![tactic(auto)]

mod building;
mod calling;
mod cascade;
mod counting;
mod places;
mod replies;
mod runner;
mod sending;
mod stack;
mod steps;

pub use building::to_app;
pub use runner::StackRunner;
pub use stack::Stack;
pub use steps::{BuildFault, Line, Steps};
