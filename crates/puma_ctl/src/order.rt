// One order: dialled, asked and printed.
ghost use Rattle.std.specs.Prelude.{◌≡◌, [], IfOk, IsTrue, None};
ghost use Rattle.rack_outside.specs.Link.{Tells};
ghost use Rattle.puma_ctl.specs.Order.{Ordered, out_seen, outcome_of};
ghost use Rattle.puma_ctl.specs.Dial.{IsFreshLink};
ghost use Rattle.puma_ctl.specs.Steps.{Hears, PrintsReply};
ghost use Rattle.puma_ctl.specs.Wish.{is_control_token, wish_bytes};

use crate::print::{Wrote, print};
use crate::talk::{Heard, hear, say};
use crate::{Back, Dial, Wish, write_wish};
use rack_outside::Sink;
use rack_types::NoMemory;
use std::alloc::Global;

/// How an order ended.
#[derive(Clone, Copy, Debug, PartialEq, Eq)]
pub enum Outcome {
    /// A reply of status 200 came, and its body was printed.
    Done,
    /// A reply of another status came, and its body was printed.
    Denied { status: u32 },
    /// No reply came.
    NoAnswer,
    /// The dial failed, or the link did.
    Dial,
    /// A write of what was to be printed failed.
    SinkFault,
    /// Memory was refused.
    NoMemory,
}

/// Gives one order: dials the address once, says the request with this token, reads the reply, hands the link back, and
/// prints the reply's body and a line feed.
///
/// It waits a little where the link has nothing yet, at most 3,000 times, and takes memory for the request and the reply.
pub fn send_order<D: Dial, K: Sink>(
    alloc: Global,
    address: &str,
    token: &[u8],
    wish: Wish,
    dial: &mut D,
    out: &mut K,
) -> Outcome
    requires token { IsTrue (is_control_token token.now) }
    requires back { (D.seen dial.old).back ≡ None }
    requires written { Tells (K.written out.old) [] }
    ensures { Ordered result (record { token = token.now; wish = wish }) (D.seen dial.old) (D.seen dial.new)
        (out_seen K.written K.faults out.old) (out_seen K.written K.faults out.new) }
{
    let Ok(text) = request(alloc, token, wish) else {
        return Outcome::NoMemory;
    };
    let Ok(mut back) = Back::new(alloc) else {
        return Outcome::NoMemory;
    };
    let Some(mut link) = dial.dial(address) else {
        return Outcome::Dial;
    };
    let heard = talk(dial, &mut link, &text, &mut back);
    dial.take_back(link);
    match heard {
        Heard::Reply(status) => print_reply(status, back.body(), out),
        Heard::NoAnswer => Outcome::NoAnswer,
        Heard::Failed => Outcome::Dial,
        Heard::NoMemory => Outcome::NoMemory,
    }
}

// The request that asks for this with this token.
fn request(alloc: Global, token: &[u8], wish: Wish) -> Result<Vec<u8>, NoMemory>
    requires { IsTrue (is_control_token token.now) }
    ensures { IfOk result (λ text. text.items ≡ wish_bytes token.now wish) }
{
    let mut text = Vec::new(alloc);
    write_wish(token, wish, &mut text)?;
    Ok(text)
}

// Says the request and hears the reply, on a link on which nothing happened yet.
fn talk<D: Dial>(dial: &mut D, link: &mut D::Link, text: &[u8], back: &mut Back) -> Heard
    requires fresh { IsFreshLink (D.Link.seen link.old) }
    requires none { back.old ≡ [] }
    ensures heard { Hears result text.now (D.Link.seen link.new) back.new }
    ensures same { D.seen dial.new ≡ D.seen dial.old }
{
    match say(dial, link, text) {
        Ok(waits) => hear(dial, link, back, waits, text),
        Err(heard) => heard,
    }
}

// Prints this body and a line feed.
fn print_reply<K: Sink>(status: u32, body: &[u8], out: &mut K) -> Outcome
    requires written { Tells (K.written out.old) [] }
    ensures { PrintsReply result status body.now (out_seen K.written K.faults out.old) (out_seen K.written K.faults out.new) }
{
    match print(body, out) {
        Wrote::All => match print(b"\n", out) {
            Wrote::All => outcome_of(status),
            Wrote::Failed => Outcome::SinkFault,
            Wrote::NoMemory => Outcome::NoMemory,
        },
        Wrote::Failed => Outcome::SinkFault,
        Wrote::NoMemory => Outcome::NoMemory,
    }
}

// How an order ends whose reply has this status.
fn outcome_of(status: u32) -> Outcome
    ensures { result ≡ outcome_of status }
{
    if status == 200 {
        Outcome::Done
    } else {
        Outcome::Denied { status }
    }
}
