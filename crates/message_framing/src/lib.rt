//! Message framing: where a request begins and ends in the bytes of a connection (RFC 9112).
#![tactic(auto)]

mod chunks;
mod fields;
mod head;
mod intake;
mod laws;
mod scan;
mod standing;
mod target;

pub use intake::{Feed, Intake};
pub use laws::{
    lacking_has_begun, one_answer_is_right, one_thing_stands, request_is_sound, waiting_is_bounded,
    what_stands, what_stands_stays,
};
