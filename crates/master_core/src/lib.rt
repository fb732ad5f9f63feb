//! The master: which slot is replaced when. A small machine of orders and steps, without threads,
//! clock or memory of its own beyond its list of slots.
#![tactic(auto)]

mod laws;
mod loader;
mod master;
mod order;
mod slot;

pub use laws::{
    at_most_one_slot_is_away, finish_comes_behind_all_slots, halt_is_carried_out_once,
    no_slot_starts_behind_an_end, one_order_is_right, one_step_is_right, phase_never_falls,
    phased_order_ends, phases_are_one_apart,
};
pub use loader::{Load, Loader};
pub use master::Master;
pub use order::{Act, Order, Reply};
pub use slot::Slot;

/// A refused allocation. Of this crate's calls `Master::new` may answer it, and a `Loader`.
pub type NoMemory = std::alloc::AllocError;

#[cfg(test)]
mod tests;
