// The command that gives an order to a running server.
ghost use Rattle.std.specs.Prelude.{◌≡◌, [], None, Some, map, string_bytes};
ghost use Rattle.rack_outside.specs.Link.{Tells};
ghost use Rattle.puma_ctl.specs.Order.{out_seen};
ghost use Rattle.puma_words.specs.Control.{control_of};
ghost use Rattle.puma_words.specs.ControlSaid.{said_control};
ghost use Rattle.puma_top.specs.Control.{ControlDid, order_of, status_by, wish_named};

use crate::Status;
use puma_ctl::{Dial, Outcome, Wish, is_control_token, send_order};
use puma_words::{Control, control_of};
use rack_outside::Sink;
use std::alloc::Global;

/// Gives the order that the words behind the program's name say to a running server, and tells how it ended.
///
/// `control ADDRESS --token T ORDER` dials the control server at ADDRESS once, asks for `stats`, `phased-restart`, `stop`
/// or `halt` with this token, and prints the body of the reply and a line feed. The link is handed back before it returns.
/// Other words are Usage, and so are a token that isn't 1 to 64 letters and digits and an order that is none of the four.
///
/// It waits for nobody but the dial and its link, at most 3,000 times, and takes memory.
///
/// The dial took no link back yet, and nothing was written to the sink.
pub fn run_control<D: Dial, K: Sink>(
    alloc: Global,
    words: &[String],
    dial: &mut D,
    out: &mut K,
) -> Status
    requires back { (D.seen dial.old).back ≡ None }
    requires written { Tells (K.written out.old) [] }
    ensures { ControlDid result (order_of (control_of (map string_bytes words.now))) (D.seen dial.old) (D.seen dial.new)
        (out_seen K.written K.faults out.old) (out_seen K.written K.faults out.new) }
{
    match control_of(alloc, words) {
        Ok(Some(said)) => give(alloc, said, dial, out),
        Ok(None) => Status::Usage,
        Err(_) => Status::NoMemory,
    }
}

// Gives the order that was said, where its token and its name have their form.
fn give<D: Dial, K: Sink>(alloc: Global, said: Control<'_>, dial: &mut D, out: &mut K) -> Status
    requires back { (D.seen dial.old).back ≡ None }
    requires written { Tells (K.written out.old) [] }
    ensures { ControlDid result (order_of (Some (said_control said.entry))) (D.seen dial.old) (D.seen dial.new)
        (out_seen K.written K.faults out.old) (out_seen K.written K.faults out.new) }
{
    let token = said.token.as_bytes();
    if !is_control_token(token) {
        return Status::Usage;
    }
    let Some(wish) = wish_named(said.order.as_bytes()) else {
        return Status::Usage;
    };
    status_by(send_order(alloc, said.address, token, wish, dial, out))
}

// What the word asks for.
fn wish_named(word: &[u8]) -> Option<Wish>
    ensures { result ≡ wish_named word.now }
{
    if word == b"stats".as_slice() {
        Some(Wish::Stats)
    } else if word == b"phased-restart".as_slice() {
        Some(Wish::Phased)
    } else if word == b"stop".as_slice() {
        Some(Wish::Stop)
    } else if word == b"halt".as_slice() {
        Some(Wish::Halt)
    } else {
        None
    }
}

// The status of an order that ended so.
fn status_by(outcome: Outcome) -> Status
    ensures { result ≡ status_by outcome }
{
    match outcome {
        Outcome::Done => Status::Done,
        Outcome::Denied { status } => Status::Denied { status },
        Outcome::NoAnswer => Status::NoAnswer,
        Outcome::Dial => Status::Dial,
        Outcome::SinkFault => Status::SinkFault,
        Outcome::NoMemory => Status::NoMemory,
    }
}
