// A connection that never has to wait, driven to its end.
ghost use Rattle.std.specs.Prelude.{◌≡◌, ◌≢◌, ◌↔◌, [], ℕ, List, true, IsTrue};
ghost use Rattle.rack_types.specs.Env.{Pairs};
ghost use Rattle.talk_core.specs.Tail.{voice_of};
ghost use Rattle.talk_core.specs.Teller.{Stacks, last_phase};
ghost use Rattle.conn_steps.specs.Ends.{RestsBehind};
ghost use Rattle.conn_core.specs.Holds.{Holds};
ghost use Rattle.conn_steps.specs.Opened.{untold};
ghost use Rattle.conn_core.specs.Shown.{shown, link_of};
ghost use Rattle.puma_top.specs.Drive.{Drives, IsDriven, IsSaid};

use conn_core::{Conn, State};
use hijack_core::Hijack;
use rack_outside::Link;
use rack_types::{Body, Runner};

// The bytes that are taken of one connection.
const MOST: u64 = 1_099_511_627_776;

/// Drives a connection to its end, or until so many bytes came: 2^40.
pub(crate) fn drive<L: Link, B: Body, H: Hijack + Drop, R: Runner<B, H>>(
    conn: &mut Conn<L, B, H>,
    runner: &mut R,
)
    requires patient { (l : L) → (L.seen l).waits ≡ 0 }
    requires unrun { R.runs runner.old ≡ (shown conn.old).calls }
    requires live { (shown conn.old).state ≢ State.Over }
    requires untold { (shown conn.old).ending ≡ untold }
    ensures drives { Drives (shown conn.old) (shown conn.new) (L.seen (link_of conn.old)) (L.seen (link_of conn.new)) }
    ensures done { IsDriven (shown conn.new) }
    ensures holds { (S : Stacks H) → R.steady ≡ true
        → ((ps : Pairs) (input : List ℕ) → S (last_phase (shown conn.old).lives) ps input ≡ R.answer runner.old ps input)
        → Holds L.seen (voice_of H.Hijack) S conn.old → Holds L.seen (voice_of H.Hijack) S conn.new }
{
    loop {
        if conn.taken() >= MOST {
            return;
        }
        match conn.state() {
            State::Over => return,
            State::Reading => {
                let _next = conn.feed(0);
            }
            State::Ready => {
                let _next = conn.turn(runner, 0);
            }
            State::Answering => say_reply(conn),
            State::Hijacked => {
                if conn.wants_write() {
                    say_tail(conn);
                } else {
                    let _next = conn.feed(0);
                }
            }
        }
    }
}

/// Whether it ended.
pub(crate) fn is_over<L: Link, B: Body, H: Hijack + Drop>(conn: &Conn<L, B, H>) -> bool
    ensures { IsTrue result ↔ ((shown conn.now).state ≡ State.Over) }
{
    match conn.state() {
        State::Over => true,
        State::Reading => false,
        State::Ready => false,
        State::Answering => false,
        State::Hijacked => false,
    }
}

// Whether a reply is under way.
fn is_answering<L: Link, B: Body, H: Hijack + Drop>(conn: &Conn<L, B, H>) -> bool
    ensures { IsTrue result ↔ ((shown conn.now).state ≡ State.Answering) }
{
    match conn.state() {
        State::Over => false,
        State::Reading => false,
        State::Ready => false,
        State::Answering => true,
        State::Hijacked => false,
    }
}

// Says the rest of the reply that is under way.
fn say_reply<L: Link, B: Body, H: Hijack + Drop>(conn: &mut Conn<L, B, H>)
    requires patient { (l : L) → (L.seen l).waits ≡ 0 }
    requires answers { (shown conn.old).state ≡ State.Answering }
    requires untold { (shown conn.old).ending ≡ untold }
    ensures drives { Drives (shown conn.old) (shown conn.new) (L.seen (link_of conn.old)) (L.seen (link_of conn.new)) }
    ensures calls { (shown conn.new).calls ≡ (shown conn.old).calls }
    ensures rests { RestsBehind (shown conn.new).state (shown conn.old).replied (shown conn.new).replied }
    ensures said { (shown conn.new).state ≢ State.Answering }
    ensures holds { (S : Stacks H) → Holds L.seen (voice_of H.Hijack) S conn.old → Holds L.seen (voice_of H.Hijack) S conn.new }
{
    while is_answering(conn) {
        let _next = conn.flush(0);
    }
}

// Says the rest of what a hijacker said.
fn say_tail<L: Link, B: Body, H: Hijack + Drop>(conn: &mut Conn<L, B, H>)
    requires patient { (l : L) → (L.seen l).waits ≡ 0 }
    requires hijacked { (shown conn.old).state ≡ State.Hijacked }
    requires owes { (shown conn.old).owed ≢ [] }
    requires untold { (shown conn.old).ending ≡ untold }
    ensures drives { Drives (shown conn.old) (shown conn.new) (L.seen (link_of conn.old)) (L.seen (link_of conn.new)) }
    ensures calls { (shown conn.new).calls ≡ (shown conn.old).calls }
    ensures said { IsSaid (shown conn.old) (shown conn.new) }
    ensures holds { (S : Stacks H) → Holds L.seen (voice_of H.Hijack) S conn.old → Holds L.seen (voice_of H.Hijack) S conn.new }
{
    while conn.wants_write() {
        let _next = conn.flush(0);
    }
}
