//! The stock endpoints: small applications for trying a server, each a function of the environment's
//! pairs and the input's bytes. They and their names are this project's own.
#![tactic(auto)]

mod app;
mod bad;
mod bodies;
mod call;
mod headers;
mod laws;
mod lines;
mod sending;
mod texts;
mod words;

pub use app::App;
pub use laws::bad_breaks_its_rule;
pub use texts::Texts;
pub use words::WordsFault;
