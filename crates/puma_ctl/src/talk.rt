// What is said to the server, and what is heard of it.
ghost use Rattle.std.specs.Prelude.{◌≡◌, [], ◌<◌};
ghost use Rattle.puma_ctl.specs.Dial.{IsFreshLink};
ghost use Rattle.puma_ctl.specs.Order.{pauses_limit};
ghost use Rattle.puma_ctl.specs.Reply.{AwaitsReply};
ghost use Rattle.puma_ctl.specs.Steps.{IsTalked, Says, Hears, Takes};

use crate::head::{prefix, suffix};
use crate::{Back, Dial, Got};
use rack_outside::{Link, LinkRead, LinkWrite};

// How often it is waited for the server.
const PAUSES: u32 = 3_000;

// The room of one read.
const ROOM: usize = 4_096;

/// What came of a talk.
#[derive(Clone, Copy)]
pub(crate) enum Heard {
    /// A reply with this status.
    Reply(u32),
    /// No reply.
    NoAnswer,
    /// The link failed.
    Failed,
    /// Memory was refused.
    NoMemory,
}

/// Says the whole text on a link on which nothing happened yet. The answer is how often it waited.
pub(crate) fn say<D: Dial>(dial: &mut D, link: &mut D::Link, text: &[u8]) -> Result<u32, Heard>
    requires fresh { IsFreshLink (D.Link.seen link.old) }
    ensures says { Says result text.now (D.Link.seen link.new) }
    ensures same { D.seen dial.new ≡ D.seen dial.old }
{
    let mut waits = 0;
    let mut from = 0;
    while from < text.len() {
        match link.write(suffix(text, from)) {
            LinkWrite::Took(n) => from += n,
            LinkWrite::NotYet => {
                dial.pause();
                waits += 1;
                if waits >= PAUSES {
                    return Err(Heard::NoAnswer);
                }
            }
            LinkWrite::Failed => return Err(Heard::Failed),
            LinkWrite::NoMemory => return Err(Heard::NoMemory),
        }
    }
    Ok(waits)
}

/// Hears the reply, on a link on which the text was said and that waited so often.
pub(crate) fn hear<D: Dial>(
    dial: &mut D,
    link: &mut D::Link,
    back: &mut Back,
    waits: u32,
    text: &[u8],
) -> Heard
    requires talked { IsTalked (D.Link.seen link.old) text.now [] waits }
    requires few { waits < pauses_limit }
    requires none { back.old ≡ [] }
    ensures hears { Hears result text.now (D.Link.seen link.new) back.new }
    ensures same { D.seen dial.new ≡ D.seen dial.old }
{
    let mut room = [0u8; ROOM];
    let mut waits = waits;
    loop {
        match link.read(&mut room) {
            LinkRead::Bytes(n) => {
                if let Some(heard) = take(back, prefix(&room, n)) {
                    return heard;
                }
            }
            LinkRead::NotYet => {
                dial.pause();
                waits += 1;
                if waits >= PAUSES {
                    return Heard::NoAnswer;
                }
            }
            LinkRead::End => return Heard::NoAnswer,
            LinkRead::Failed => return Heard::Failed,
        }
    }
}

// Takes what was heard: what came of the talk, if it is over.
fn take(back: &mut Back, piece: &[u8]) -> Option<Heard>
    requires awaits { AwaitsReply back.old }
    ensures { Takes result back.old piece.now back.new }
{
    match back.feed(piece) {
        Ok(Got::More) => None,
        Ok(Got::Whole { status }) => Some(Heard::Reply(status)),
        Ok(Got::Not) => Some(Heard::NoAnswer),
        Err(_) => Some(Heard::NoMemory),
    }
}
