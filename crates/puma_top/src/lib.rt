//! The top calls of the server: what a command does, from its words to its status.
#![tactic(auto)]

mod check;
mod control;
mod drive;
mod laws;
mod once;
mod quiet;
mod stack;
mod status;

pub use control::run_control;
pub use laws::{one_answer_at_most, one_stack_at_most};
pub use puma_ctl::Dial;
pub use quiet::run_quiet;
pub use status::{FileWhy, Status};
