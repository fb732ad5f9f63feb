// One read, as a call of its own.
ghost use Rattle.talk_core.specs.Tail.{voice_of};
ghost use Rattle.talk_core.specs.Teller.{Teller};
ghost use Rattle.conn_core.specs.Calls.{Feeds};
ghost use Rattle.conn_steps.specs.Holds.{HoldsBy};
ghost use Rattle.conn_steps.specs.At.{MayRead};
ghost use Rattle.conn_steps.specs.Shown.{shows};

use crate::answers::fed;
use conn_steps::{Inside, Next, State, state_at};
use hijack_core::Hijack;
use rack_outside::{Link, LinkRead};
use rack_types::Body;

// One read, and what it leaves.
pub(crate) fn feed<L: Link, B: Body, H: Hijack + Drop>(
    inside: &mut Inside<B, H>,
    link: &mut L,
    now: u64,
) -> Next
    requires { MayRead inside.old.at }
    ensures holds { (T : Teller H) → HoldsBy (voice_of H.Hijack) T (L.seen link.old) inside.old → HoldsBy (voice_of H.Hijack) T (L.seen link.new) inside.new }
    ensures feeds { Feeds now result (shows inside.old) (shows inside.new) (L.seen link.old) (L.seen link.new) }
{
    let read = match state_at(&inside.at) {
        State::Reading => inside.read(link, now),
        State::Ready | State::Answering | State::Hijacked | State::Over => inside.hear(link, now),
    };
    match read {
        LinkRead::NotYet => Next::Waiting,
        LinkRead::Bytes(_) | LinkRead::End => fed(&inside.at),
        LinkRead::Failed => Next::Over,
    }
}
