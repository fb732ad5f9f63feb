// Where a connection is between its steps.
ghost use Rattle.std.specs.Prelude.{◌≡◌, ◌↔◌, IsTrue};
ghost use Rattle.conn_steps.specs.At.{IsSaying, IsHanding, IsFraming, state_at};

use crate::state::State;
use rack_types::{Body, Fault};
use reply_framing::Framer;
use std::mem;
use talk_core::Why;

/// A place. One that owes a reply holds its body, which has to be closed.
#[derive(Drop)]
pub enum At<B: Body, H> {
    /// Nothing stands, is unfed or is owed.
    Reading,
    /// A whole request stands in the intake.
    Asked,
    /// The bytes are refused.
    Refused(Fault),
    /// A reply is under way: the ring and the rest of the framer are owed.
    Answering(Framer<B, H>),
    /// A reply is under way, and what is owed of it is in the ring. Whether the connection goes on behind it.
    Writing(bool),
    /// The head of a reply is in the ring, and the hijacker takes the connection over behind it.
    Handing(H),
    /// The reply that names a refusal is in the ring.
    Refusing,
    /// The hijacker has the connection, and nothing is unfed or owed.
    Listening(H),
    /// The same, and what it said is in the ring.
    Speaking(H),
    /// What a hijacker said last is in the ring.
    Parting,
    /// It ended.
    Over(Why),
}

/// Closes the reply that is under way, if there is one.
pub fn close<B: Body, H: Drop>(at: At<B, H>) {
    match at {
        At::Answering(framer) => {
            let _ = framer.finish();
        }
        At::Reading
        | At::Asked
        | At::Refused(_)
        | At::Writing(_)
        | At::Handing(_)
        | At::Refusing
        | At::Listening(_)
        | At::Speaking(_)
        | At::Parting
        | At::Over(_) => {}
    }
}

/// Goes to another place, and closes a reply that was under way. That there is none is told apart first, since what
/// was there is then not moved.
pub fn put<B: Body, H: Drop>(at: &mut At<B, H>, new: At<B, H>)
    ensures { at.new ≡ new }
{
    match at {
        At::Answering(_) => close(mem::replace(at, new)),
        _ => let_go(mem::replace(at, new)),
    }
}

// Lets a place go at which no reply is under way.
fn let_go<B: Body, H: Drop>(at: At<B, H>)
    requires { ¬ (IsFraming at) }
{
    match at {
        At::Answering(_) => unreachable!(),
        At::Reading
        | At::Asked
        | At::Refused(_)
        | At::Writing(_)
        | At::Handing(_)
        | At::Refusing
        | At::Listening(_)
        | At::Speaking(_)
        | At::Parting
        | At::Over(_) => {}
    }
}

/// The place as the owner sees it.
pub fn state_at<B: Body, H>(at: &At<B, H>) -> State
    ensures { result ≡ state_at at.now }
{
    match at {
        At::Reading => State::Reading,
        At::Asked | At::Refused(_) => State::Ready,
        At::Answering(_) | At::Writing(_) | At::Handing(_) | At::Refusing => State::Answering,
        At::Listening(_) | At::Speaking(_) | At::Parting => State::Hijacked,
        At::Over(_) => State::Over,
    }
}

/// Whether bytes are owed.
pub fn is_saying<B: Body, H>(at: &At<B, H>) -> bool
    ensures { IsTrue result ↔ IsSaying at.now }
{
    match at {
        At::Answering(_)
        | At::Writing(_)
        | At::Handing(_)
        | At::Refusing
        | At::Speaking(_)
        | At::Parting => true,
        At::Reading | At::Asked | At::Refused(_) | At::Listening(_) | At::Over(_) => false,
    }
}

/// Whether a hijacker takes the connection over.
pub fn is_handing<B: Body, H>(at: &At<B, H>) -> bool
    ensures { IsTrue result ↔ IsHanding at.now }
{
    match at {
        At::Handing(_) => true,
        At::Reading
        | At::Asked
        | At::Refused(_)
        | At::Answering(_)
        | At::Writing(_)
        | At::Refusing
        | At::Listening(_)
        | At::Speaking(_)
        | At::Parting
        | At::Over(_) => false,
    }
}

/// Whether a reply is under way.
pub fn is_answering<B: Body, H>(at: &At<B, H>) -> bool
    ensures { IsTrue result ↔ (state_at at.now ≡ State.Answering) }
{
    match state_at(at) {
        State::Answering => true,
        State::Reading | State::Ready | State::Hijacked | State::Over => false,
    }
}

/// Whether the connection ended.
pub fn is_over<B: Body, H>(at: &At<B, H>) -> bool
    ensures { IsTrue result ↔ (state_at at.now ≡ State.Over) }
{
    match state_at(at) {
        State::Over => true,
        State::Reading | State::Ready | State::Answering | State::Hijacked => false,
    }
}
