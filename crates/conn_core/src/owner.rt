// What its owner does with a connection beside moving it on: it ends it, places it anew, tells it the time or a drain, or
// lends its link out.
ghost use Rattle.std.specs.Prelude.{◌≡◌, ◌≢◌, ◌<◌, ◌≤◌, ◌↔◌, IsTrue, false, Some, length, nat_le, vec_capacity};
ghost use Rattle.std.specs.List.{list_all};
ghost use Rattle.rack_outside.specs.Link.{Seen, IsTouched};
ghost use Rattle.rack_outside.specs.Told.{Rose};
ghost use Rattle.talk_core.specs.Lives.{lives_limit, placed_lives};
ghost use Rattle.talk_core.specs.Tail.{Voice, voice_of};
ghost use Rattle.talk_core.specs.Teller.{Stacks, Teller, last_phase};
ghost use Rattle.conn_core.specs.Holds.{Holds, HoldsWith};
ghost use Rattle.conn_steps.specs.Holds.{HoldsBy};
ghost use Rattle.conn_steps.specs.Keeps.{reaching};
ghost use Rattle.conn_steps.specs.Moments.{Passed};
ghost use Rattle.conn_steps.specs.Owner.{ended_as, EndsAnyTime, IsUnread, IsIdle, MayPlace, HasPlace, HasRoomFor, IsNoneAbove, placed, Ticks, drained, drained_in, DrainTells};
ghost use Rattle.conn_steps.specs.Shown.{shows};
ghost use Rattle.conn_core.specs.Shown.{shown, number_of, key_of, link_of};

use crate::conn::Conn;
use conn_steps::{Inside, State, Tick, Told, has_place, is_over, is_saying};
use hijack_core::Hijack;
use rack_outside::{Link, Touch, Watcher};
use rack_types::Body;
use talk_core::{IdleBy, Life, Why};

// The phase of the last life.
fn last_phase(lives: &[Life]) -> u32
    ensures { result ≡ last_phase lives.now }
{
    let count = lives.len();
    if count == 0 {
        0
    } else {
        lives[count - 1].phase
    }
}

impl<L: Link, B: Body, H: Hijack + Drop> Conn<L, B, H> {
    /// The phase of its last life, which is that of the stack that answers its next request.
    pub fn phase(&self) -> u32
        ensures { result ≡ last_phase (shown self.now).lives }
    {
        last_phase(&self.inside.lives)
    }

    /// Whether no byte was ever read, and it isn't over.
    pub fn unread(&self) -> bool
        ensures { IsTrue result ↔ IsUnread (shown self.now) }
    {
        self.inside.taken == 0 && !is_over(&self.inside.at)
    }

    /// Whether it was read before, all that it was asked is answered, and nothing is begun.
    pub fn idle(&self) -> bool
        ensures { IsTrue result ↔ IsIdle (shown self.now) }
    {
        self.inside.is_idle()
    }

    /// Whether it may be placed anew, in this phase.
    pub fn may_place(&self, phase: u32) -> bool
        ensures { IsTrue result ↔ (MayPlace (shown self.now) × HasRoomFor phase (shown self.now) × IsNoneAbove phase (shown self.now)) }
    {
        (self.unread() || self.inside.is_idle())
            && has_place(&self.inside.lives, phase, self.inside.calls)
    }

    /// Places it anew, in this phase: its next request is answered by the stack of that phase, and it was told no
    /// drain. It takes no memory.
    ///
    /// It needs that no byte was ever read, or that it is idle; that it has at most 64 lives then; and that none of them
    /// has a greater phase. Where its last life has the phase already, no life changes. Where nothing was run in that
    /// life, it gets the phase. Else a life is appended, which begins at its next request.
    pub fn place(&mut self, phase: u32)
        requires may { MayPlace (shown self.old) }
        requires room { HasRoomFor phase (shown self.old) }
        requires none_above { IsNoneAbove phase (shown self.old) }
        ensures number { number_of self.new ≡ number_of self.old }
        ensures key { key_of self.new ≡ key_of self.old }
        ensures link { link_of self.new ≡ link_of self.old }
        ensures placed { shown self.new ≡ placed phase (shown self.old) }
        ensures any { (V : Voice H) (T : Teller H) → HoldsWith L.seen V T self.old → HoldsWith L.seen V T self.new }
        ensures holds { (V : Voice H) (S : Stacks H) → Holds L.seen V S self.old → Holds L.seen V S self.new }
    {
        let inside: &mut Inside<B, H> = &mut self.inside;
        inside.place(phase);
    }

    /// Compares this moment, in milliseconds, with those that are kept, and answers what it left. It needs that the
    /// connection isn't over. It takes no memory.
    ///
    /// Where bytes are in the ring and for 10,000 ms the link took none, the connection ends stalled: since the call
    /// in which the link last took a byte, or in which bytes first came into the ring after it was last empty,
    /// whichever is later. A request that was begun and for 30,000 ms did not become whole is answered by 408
    /// (RFC 9110, section 15.5.9), which is then owed, and the connection ends behind it. One that reads and has
    /// begun nothing ends idle where for 20,000 ms nothing was sent: since the call in which the link took the last
    /// byte of the last reply, or since its opening.
    pub fn tick(&mut self, now: u64) -> Tick
        requires live { (shown self.old).state ≢ State.Over }
        ensures number { number_of self.new ≡ number_of self.old }
        ensures key { key_of self.new ≡ key_of self.old }
        ensures link { link_of self.new ≡ link_of self.old }
        ensures ticks { Ticks result now (reaching now (shown self.old)) (shown self.new) }
        ensures any { (V : Voice H) (T : Teller H) → HoldsWith L.seen V T self.old → HoldsWith L.seen V T self.new }
        ensures holds { (V : Voice H) (S : Stacks H) → Holds L.seen V S self.old → Holds L.seen V S self.new }
    {
        let inside: &mut Inside<B, H> = &mut self.inside;
        inside.moments.reach(now);
        inside.tick(now)
    }

    /// Tells it that the server drains, at this level, which is at least 1. It acts by where the connection is now, and
    /// may be told again. It takes no memory.
    ///
    /// One of which no byte was ever read stays as it is, for its owner to place it anew or to end it unread. So does one
    /// that was read and has begun nothing, where it has fewer than 64 lives; else it ends idle. One that a hijacker has ends, behind what is owed: the hijacker is told
    /// to leave. Any other answers what it was asked; the reply to a request that is run from now on closes it, unless
    /// bytes are unfed behind that request.
    pub fn tell_drain(&mut self, level: u64) -> Told
        requires level { 1 ≤ level }
        ensures number { number_of self.new ≡ number_of self.old }
        ensures key { key_of self.new ≡ key_of self.old }
        ensures link { link_of self.new ≡ link_of self.old }
        ensures leaves { shown self.new ≡ drained level (shown self.old) }
        ensures tells { DrainTells result (shown self.new) }
        ensures any { (T : Teller H) → HoldsWith L.seen (voice_of H.Hijack) T self.old → HoldsWith L.seen (voice_of H.Hijack) T self.new }
        ensures holds { (S : Stacks H) → Holds L.seen (voice_of H.Hijack) S self.old → Holds L.seen (voice_of H.Hijack) S self.new }
    {
        let inside: &mut Inside<B, H> = &mut self.inside;
        inside.tell_drain(level)
    }

    /// Ends it at once, where it has to be let go unread, by draining of this level. It needs that no byte was ever
    /// read, and a level of at least 1. It takes no memory.
    pub fn end_unread(&mut self, level: u64)
        requires unread { IsUnread (shown self.old) }
        requires level { 1 ≤ level }
        ensures number { number_of self.new ≡ number_of self.old }
        ensures key { key_of self.new ≡ key_of self.old }
        ensures link { link_of self.new ≡ link_of self.old }
        ensures ends { shown self.new ≡ ended_as (Why.Unread level) (shown self.old) }
        ensures any { (V : Voice H) (T : Teller H) → HoldsWith L.seen V T self.old → HoldsWith L.seen V T self.new }
        ensures holds { (V : Voice H) (S : Stacks H) → Holds L.seen V S self.old → Holds L.seen V S self.new }
    {
        let inside: &mut Inside<B, H> = &mut self.inside;
        inside.end_unread(level);
    }

    /// Ends it at once, where it has to be let go idle, by draining of this level. It needs that it was read before and
    /// has begun nothing, and a level of at least 1. It takes no memory.
    pub fn end_idle(&mut self, level: u64)
        requires idle { IsIdle (shown self.old) }
        requires level { 1 ≤ level }
        ensures number { number_of self.new ≡ number_of self.old }
        ensures link { link_of self.new ≡ link_of self.old }
        ensures ends { shown self.new ≡ ended_as (Why.Idle (IdleBy.Drain level)) (shown self.old) }
        ensures any { (V : Voice H) (T : Teller H) → HoldsWith L.seen V T self.old → HoldsWith L.seen V T self.new }
        ensures holds { (V : Voice H) (S : Stacks H) → Holds L.seen V S self.old → Holds L.seen V S self.new }
    {
        let inside: &mut Inside<B, H> = &mut self.inside;
        inside.end_idle(level);
    }

    /// Ends it at once, whatever it is doing, for a halt of this level, which is 2. One that is over stays as
    /// it is. The body of a reply that is under way is closed. It takes no memory.
    pub fn halt(&mut self, level: u64)
        requires level { level ≡ 2 }
        ensures number { number_of self.new ≡ number_of self.old }
        ensures key { key_of self.new ≡ key_of self.old }
        ensures link { link_of self.new ≡ link_of self.old }
        ensures over { (shown self.old).state ≡ State.Over → shown self.new ≡ shown self.old }
        ensures ends { (shown self.old).state ≢ State.Over → shown self.new ≡ ended_as (Why.Halted level) (shown self.old) }
        ensures any { (V : Voice H) (T : Teller H) → HoldsWith L.seen V T self.old → HoldsWith L.seen V T self.new }
        ensures holds { (V : Voice H) (S : Stacks H) → Holds L.seen V S self.old → Holds L.seen V S self.new }
    {
        let inside: &mut Inside<B, H> = &mut self.inside;
        if !is_over(&inside.at) {
            inside.end(Why::Halted { level });
        }
    }

    /// Ends it at once, where its owner lacks memory to go on with it. The body of a reply that is under way is
    /// closed. It takes no memory.
    pub fn end_for_memory(&mut self)
        requires live { (shown self.old).state ≢ State.Over }
        ensures number { number_of self.new ≡ number_of self.old }
        ensures key { key_of self.new ≡ key_of self.old }
        ensures link { link_of self.new ≡ link_of self.old }
        ensures ends { shown self.new ≡ ended_as Why.NoMemory (shown self.old) }
        ensures any { (V : Voice H) (T : Teller H) → HoldsWith L.seen V T self.old → HoldsWith L.seen V T self.new }
        ensures holds { (V : Voice H) (S : Stacks H) → Holds L.seen V S self.old → Holds L.seen V S self.new }
    {
        let inside: &mut Inside<B, H> = &mut self.inside;
        inside.end(Why::NoMemory);
    }

    /// Hands its link to a watcher once, to be watched under this key for reading, and for writing where bytes
    /// are owed, and answers what the watcher answers. It keeps the key, whatever that is. Nothing else of it changes.
    pub fn watch<W: Watcher<L>>(&mut self, watcher: &mut W, key: usize) -> bool
        ensures shown { shown self.new ≡ shown self.old }
        ensures number { number_of self.new ≡ number_of self.old }
        ensures key { key_of self.new ≡ Some key }
        ensures link { L.seen (link_of self.new) ≡ L.seen (link_of self.old) }
        ensures later { W.faults watcher.old ≤ W.faults watcher.new }
        ensures failed { result ≡ false → Rose (W.faults watcher.old) (W.faults watcher.new) }
        ensures named { W.named watcher.new ≡ W.named watcher.old }
        ensures any { (V : Voice H) (T : Teller H) → HoldsWith L.seen V T self.old → HoldsWith L.seen V T self.new }
        ensures holds { (V : Voice H) (S : Stacks H) → Holds L.seen V S self.old → Holds L.seen V S self.new }
    {
        self.watched = true;
        self.key = key;
        let write = is_saying(&self.inside.at);
        watcher.watch(key, &mut self.link, write)
    }

    /// Hands its link to a watcher once, to be watched under this key no longer. Nothing else of it changes.
    pub fn forget<W: Watcher<L>>(&mut self, watcher: &mut W, key: usize)
        ensures shown { shown self.new ≡ shown self.old }
        ensures number { number_of self.new ≡ number_of self.old }
        ensures key { key_of self.new ≡ key_of self.old }
        ensures link { L.seen (link_of self.new) ≡ L.seen (link_of self.old) }
        ensures later { W.faults watcher.old ≤ W.faults watcher.new }
        ensures named { W.named watcher.new ≡ W.named watcher.old }
        ensures any { (V : Voice H) (T : Teller H) → HoldsWith L.seen V T self.old → HoldsWith L.seen V T self.new }
        ensures holds { (V : Voice H) (S : Stacks H) → Holds L.seen V S self.old → Holds L.seen V S self.new }
    {
        watcher.forget(key, &mut self.link);
    }

    /// Hands its link to a touch once, and answers what that says. Nothing else of it changes.
    pub fn touch<T: Touch<L>>(&mut self, touch: &mut T) -> T::Said
        ensures shown { shown self.new ≡ shown self.old }
        ensures number { number_of self.new ≡ number_of self.old }
        ensures key { key_of self.new ≡ key_of self.old }
        ensures keeps { IsTouched (L.seen (link_of self.old)) (L.seen (link_of self.new)) }
        ensures relates { T.relates touch.old (link_of self.old) result (link_of self.new) }
        ensures any { (V : Voice H) (t : Teller H) → HoldsWith L.seen V t self.old → HoldsWith L.seen V t self.new }
        ensures holds { (V : Voice H) (S : Stacks H) → Holds L.seen V S self.old → Holds L.seen V S self.new }
    {
        touch.touch(&mut self.link)
    }
}
