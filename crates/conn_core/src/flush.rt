// What is owed is written, as a call of its own.
ghost use Rattle.talk_core.specs.Tail.{voice_of};
ghost use Rattle.talk_core.specs.Teller.{Teller};
ghost use Rattle.conn_core.specs.Calls.{Flushes};
ghost use Rattle.conn_steps.specs.Holds.{HoldsBy};
ghost use Rattle.conn_steps.specs.At.{IsSaying};
ghost use Rattle.conn_steps.specs.Shown.{shows};

use crate::answers::flushed;
use conn_steps::{Inside, Next, SayStep, is_answering, is_saying};
use hijack_core::Hijack;
use rack_outside::Link;
use rack_types::Body;

// Fills and writes, at most 16 times.
pub(crate) fn flush<L: Link, B: Body, H: Hijack + Drop>(
    inside: &mut Inside<B, H>,
    link: &mut L,
    now: u64,
) -> Next
    requires { IsSaying inside.old.at }
    ensures holds { (T : Teller H) → HoldsBy (voice_of H.Hijack) T (L.seen link.old) inside.old → HoldsBy (voice_of H.Hijack) T (L.seen link.new) inside.new }
    ensures flushes { Flushes now result (shows inside.old) (shows inside.new) (L.seen link.old) (L.seen link.new) }
{
    let answering = is_answering(&inside.at);
    let mut writes = 0;
    loop {
        if writes == 16 || !is_saying(&inside.at) {
            return flushed(&inside.at, writes, answering);
        }
        match inside.say(link, now) {
            SayStep::Unwritten => return flushed(&inside.at, writes, answering),
            SayStep::Wrote => writes += 1,
            SayStep::Waits => return flushed(&inside.at, writes + 1, answering),
        }
    }
}
