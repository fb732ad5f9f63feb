//! Lint: whether an environment, an answer and a body keep the rules that both sides of the interface
//! have to keep (after the Rack SPEC; the numbers are this project's own). Each call answers the rule of
//! the least number that is broken, and None exactly where none is. Nothing here takes memory.
#![tactic(auto)]

mod answer_rules;
mod env_rules;
mod found;
mod watch;

pub use answer_rules::{check_head, check_taken};
pub use env_rules::check_env;
pub use rack_types::{BodyRule, EnvRule, Rule, Set};
pub use watch::BodyWatch;
