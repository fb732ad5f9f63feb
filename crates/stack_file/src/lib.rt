//! Stack files: the steps of a stack as text. `read` answers the steps or the first line that breaks a
//! rule, and `write` the canonical form, which is read again as the same steps. The format is this
//! project's own.
#![tactic(auto)]

mod blocks;
mod fault;
mod laws;
mod lines;
mod notes;
mod reading;
mod said;
mod texts;
mod wares;
mod writing;

pub use fault::{FileFault, ReadFault};
pub use laws::{what_is_read_is_built, written_steps_are_read_again};
pub use reading::read;
pub use writing::write;
