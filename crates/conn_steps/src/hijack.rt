// A hijacker is told what came.
ghost use Rattle.std.specs.Prelude.{◌≡◌, [], if◌then◌else◌};
ghost use Rattle.talk_core.specs.Tail.{voice_of};
ghost use Rattle.conn_steps.specs.At.{IsHearing, dismissed_at};
ghost use Rattle.conn_steps.specs.Steps.{Tells, TellsEnd, HandsOn, EndsOn};

use crate::at::{At, is_handing};
use crate::piece::Piece;
use circular_buffer::HeapCircularBuffer;
use hijack_core::Hijack;
use rack_types::Body;
use talk_core::Why;

/// Tells the hijacker at this place, which has the connection or takes it over, the unfed bytes.
pub fn hand_on<B: Body, H: Hijack + Drop>(
    at: At<B, H>,
    unfed: &mut Piece,
    ring: &mut HeapCircularBuffer<u8>,
) -> At<B, H>
    requires empty { ring.old.items ≡ [] }
    requires room { ring.old.capacity ≡ 65536 }
    ensures hands { HandsOn (voice_of H.Hijack) at unfed.old ring.old.items result ring.new.items unfed.new }
    ensures room { ring.new.capacity ≡ ring.old.capacity }
{
    match at {
        At::Handing(hijacker) | At::Listening(hijacker) => tell(hijacker, unfed, ring),
        at => at,
    }
}

/// The same of a place at which one takes the connection over, which is left as it is where none does.
pub fn hand_over<B: Body, H: Hijack + Drop>(
    at: At<B, H>,
    unfed: &mut Piece,
    ring: &mut HeapCircularBuffer<u8>,
) -> At<B, H>
    requires empty { ring.old.items ≡ [] }
    requires room { ring.old.capacity ≡ 65536 }
    requires untaken { ¬ (IsHearing at) }
    ensures hands { HandsOn (voice_of H.Hijack) at unfed.old ring.old.items result ring.new.items unfed.new }
    ensures room { ring.new.capacity ≡ ring.old.capacity }
{
    if is_handing(&at) {
        hand_on(at, unfed, ring)
    } else {
        at
    }
}

/// Tells the hijacker at this place, which has the connection, the peer's end.
pub fn end_on<B: Body, H: Hijack + Drop>(
    at: At<B, H>,
    ring: &mut HeapCircularBuffer<u8>,
) -> At<B, H>
    requires empty { ring.old.items ≡ [] }
    requires room { ring.old.capacity ≡ 65536 }
    ensures ends { EndsOn (voice_of H.Hijack) at result ring.new.items }
    ensures room { ring.new.capacity ≡ ring.old.capacity }
{
    match at {
        At::Listening(hijacker) => tell_end(hijacker, ring),
        at => at,
    }
}

/// Tells a hijacker the unfed bytes, and puts what it says into the ring.
pub fn tell<B: Body, H: Hijack + Drop>(
    mut hijacker: H,
    unfed: &mut Piece,
    ring: &mut HeapCircularBuffer<u8>,
) -> At<B, H>
    requires empty { ring.old.items ≡ [] }
    requires room { ring.old.capacity ≡ 65536 }
    ensures tells { Tells (voice_of H.Hijack) hijacker unfed.old result ring.new.items unfed.new }
    ensures room { ring.new.capacity ≡ ring.old.capacity }
{
    match hijacker.on_bytes(unfed.bytes()) {
        Ok(said) => {
            let _few = ring.fill_from_slice(said.bytes.get());
            let silent = ring.is_empty();
            if said.go_on {
                unfed.clear();
                if silent {
                    At::Listening(hijacker)
                } else {
                    At::Speaking(hijacker)
                }
            } else {
                part(silent)
            }
        }
        Err(_) => At::Over(Why::NoMemory),
    }
}

// Behind what a hijacker said last, which may be nothing.
fn part<B: Body, H>(silent: bool) -> At<B, H>
    ensures { result ≡ (if silent then At.Over Why.Hijacked else At.Parting) }
{
    if silent {
        At::Over(Why::Hijacked)
    } else {
        At::Parting
    }
}

/// Tells the hijacker at this place, which has the connection, that the server drains. It ends behind what it said.
pub fn let_leave<B: Body, H: Hijack + Drop>(at: At<B, H>) -> At<B, H>
    ensures { result ≡ dismissed_at at }
{
    match at {
        At::Listening(mut hijacker) => {
            hijacker.leave();
            At::Over(Why::Hijacked)
        }
        At::Speaking(mut hijacker) => {
            hijacker.leave();
            At::Parting
        }
        at => at,
    }
}

// Tells a hijacker the peer's end, and puts what it says into the ring.
fn tell_end<B: Body, H: Hijack + Drop>(
    mut hijacker: H,
    ring: &mut HeapCircularBuffer<u8>,
) -> At<B, H>
    requires empty { ring.old.items ≡ [] }
    requires room { ring.old.capacity ≡ 65536 }
    ensures tells { TellsEnd (voice_of H.Hijack) hijacker result ring.new.items }
    ensures room { ring.new.capacity ≡ ring.old.capacity }
{
    match hijacker.on_end() {
        Ok(said) => {
            let _few = ring.fill_from_slice(said.bytes.get());
            part(ring.is_empty())
        }
        Err(_) => At::Over(Why::NoMemory),
    }
}
