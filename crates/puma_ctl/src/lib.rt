//! An order for the control server of a running server, from the client's side: the request that says it, the
//! reader of the reply, and the call that dials, asks and prints.
#![tactic(auto)]

mod back;
mod dial;
mod head;
mod laws;
mod mem_dial;
mod order;
mod print;
mod talk;
#[cfg(test)]
mod tests;
mod wish;

pub use back::{Back, Got};
pub use dial::Dial;
pub use laws::{a_given_reply_is_printed, a_wish_is_a_request, one_reply_begins};
pub use mem_dial::MemDial;
pub use order::{Outcome, send_order};
pub use wish::{Wish, is_control_token, write_wish};
