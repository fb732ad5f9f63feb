//! The stock middleware: what stands around an application and changes its environment or its answer
//! (after Rack's Head, ContentLength, ContentType, MethodOverride and Lint; what each does is in every
//! detail this project's own).
#![tactic(auto)]

mod body;
mod form;
mod lint;
mod overriding;
mod reply;
mod sending;
mod undo;
mod ware;

pub use body::WareBody;
pub use undo::{Undo, put_back, set_saved};
pub use ware::Ware;
