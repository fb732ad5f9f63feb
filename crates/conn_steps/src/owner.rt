// What its owner does with a connection's parts beside moving it on: it ends it, places it anew, tells it the time or a drain.
ghost use Rattle.std.specs.Prelude.{◌≡◌, ◌≢◌, ◌<◌, ◌≤◌, ◌↔◌, IsTrue, false, Some, length, nat_le, vec_capacity};
ghost use Rattle.std.specs.List.{list_all};
ghost use Rattle.talk_core.specs.Lives.{lives_limit, placed_lives};
ghost use Rattle.talk_core.specs.Tail.{Voice, voice_of};
ghost use Rattle.talk_core.specs.Teller.{Teller};
ghost use Rattle.rack_outside.specs.Link.{Seen};
ghost use Rattle.conn_steps.specs.Holds.{HoldsBy};
ghost use Rattle.conn_steps.specs.Keeps.{reaching};
ghost use Rattle.conn_steps.specs.Moments.{Passed};
ghost use Rattle.conn_steps.specs.Owner.{ended_as, EndsAnyTime, IsUnread, IsIdle, MayPlace, HasPlace, HasRoomFor, IsNoneAbove, placed, Ticks, drained, drained_in, DrainTells};
ghost use Rattle.conn_steps.specs.Shown.{shows};

use crate::at::{At, is_over, is_saying, put, state_at};
use crate::hijack::let_leave;
use crate::inside::Inside;
use crate::moments::Late;
use crate::open::LIVES;
use crate::state::{State, Tick, Told};
use hijack_core::Hijack;
use rack_types::{Body, Fault};
use reply_framing::put_fault;
use std::mem;
use talk_core::{IdleBy, Life, Why};

// The limits of a connection that waits, in milliseconds.
const IDLE: u64 = 20_000;

const REQUEST: u64 = 30_000;

const WRITE: u64 = 10_000;

// Places a connection with these lives in this phase, behind so many runs. It takes no memory.
fn put_phase(lives: &mut Vec<Life>, phase: u32, calls: u64)
    requires room { length (placed_lives phase calls lives.old.items) ≤ lives_limit }
    requires reserved { lives_limit ≤ vec_capacity lives.old }
    ensures placed { lives.new.items ≡ placed_lives phase calls lives.old.items }
    ensures reserved { lives_limit ≤ vec_capacity lives.new }
{
    let count = lives.len();
    if count == 0 {
        return;
    }
    let last = count - 1;
    if lives[last].phase == phase {
        return;
    }
    if lives[last].first == calls {
        lives[last].phase = phase;
    } else {
        let life = Life {
            first: calls,
            phase,
        };
        lives.push(life).unwrap();
    }
}

// Whether none of these lives has a greater phase.
fn stay_below(lives: &[Life], phase: u32) -> bool
    ensures { result ≡ list_all (λ life. nat_le life.phase phase) lives.now }
{
    lives.iter().all(|life| life.phase <= phase)
}

/// Whether a connection with these lives may be placed in this phase, behind so many runs.
pub fn has_place(lives: &[Life], phase: u32, calls: u64) -> bool
    ensures { IsTrue result ↔ HasPlace phase calls lives.now }
{
    let Some((last, front)) = lives.split_last() else {
        return true;
    };
    if !stay_below(front, phase) {
        return false;
    }
    if last.phase == phase || last.first == calls {
        return lives.len() <= LIVES;
    }
    last.phase <= phase && lives.len() < LIVES
}

// Whether so long passed.
fn passed(since: u64, limit: u64, now: u64) -> bool
    ensures { IsTrue result ↔ Passed since limit now }
{
    now >= since && now - since >= limit
}

impl<B: Body, H: Drop> Inside<B, H> {
    /// Ends it at once, and closes the body of a reply that is under way.
    pub fn end(&mut self, why: Why)
        requires live { (shows self.old).state ≢ State.Over }
        requires any { EndsAnyTime why }
        ensures holds { (V : Voice H) (T : Teller H) (s : Seen) → HoldsBy V T s self.old → HoldsBy V T s self.new }
        ensures ends { shows self.new ≡ ended_as why (shows self.old) }
    {
        put(&mut self.at, At::Over(why));
    }

    /// Ends it unread.
    pub fn end_unread(&mut self, level: u64)
        requires unread { IsUnread (shows self.old) }
        requires level { 1 ≤ level }
        ensures holds { (V : Voice H) (T : Teller H) (s : Seen) → HoldsBy V T s self.old → HoldsBy V T s self.new }
        ensures ends { shows self.new ≡ ended_as (Why.Unread level) (shows self.old) }
    {
        put(&mut self.at, At::Over(Why::Unread { level }));
    }

    /// Ends it idle, by draining of this level.
    pub fn end_idle(&mut self, level: u64)
        requires idle { IsIdle (shows self.old) }
        requires level { 1 ≤ level }
        ensures holds { (V : Voice H) (T : Teller H) (s : Seen) → HoldsBy V T s self.old → HoldsBy V T s self.new }
        ensures ends { shows self.new ≡ ended_as (Why.Idle (IdleBy.Drain level)) (shows self.old) }
    {
        put(&mut self.at, At::Over(Why::Idle(IdleBy::Drain { level })));
    }

    /// Places it in this phase.
    pub fn place(&mut self, phase: u32)
        requires may { MayPlace (shows self.old) }
        requires room { HasRoomFor phase (shows self.old) }
        ensures holds { (V : Voice H) (T : Teller H) (s : Seen) → HoldsBy V T s self.old → HoldsBy V T s self.new }
        ensures placed { shows self.new ≡ placed phase (shows self.old) }
    {
        put_phase(&mut self.lives, phase, self.calls);
        self.ending.told = 0;
    }

    /// Whether it was read before, and has begun nothing.
    pub fn is_idle(&self) -> bool
        ensures { IsTrue result ↔ IsIdle (shows self.now) }
    {
        match self.at {
            At::Reading => self.taken > 0 && self.moments.begun.is_none(),
            _ => false,
        }
    }

    /// Compares a moment with those that are kept.
    pub fn tick(&mut self, now: u64) -> Tick
        requires live { (shows self.old).state ≢ State.Over }
        ensures holds { (V : Voice H) (T : Teller H) (s : Seen) → HoldsBy V T s self.old → HoldsBy V T s self.new }
        ensures ticks { Ticks result now (shows self.old) (shows self.new) }
    {
        match self.at {
            At::Reading => self.tick_reading(now),
            _ => self.tick_writing(now),
        }
    }

    // The same while requests are read.
    fn tick_reading(&mut self, now: u64) -> Tick
        requires { self.old.at ≡ At.Reading }
        ensures holds { (V : Voice H) (T : Teller H) (s : Seen) → HoldsBy V T s self.old → HoldsBy V T s self.new }
        ensures ticks { Ticks result now (shows self.old) (shows self.new) }
    {
        match self.moments.begun {
            Some(since) => if passed(since, REQUEST, now) {
                put_fault(Fault::T1, &mut self.ring);
                self.ending.late = Some(Late { since, now });
                self.moments.filled = now;
                put(&mut self.at, At::Refusing);
                Tick::Write
            } else {
                Tick::Still
            },
            None => {
                let since = self.moments.quiet();
                if passed(since, IDLE, now) {
                    put(
                        &mut self.at,
                        At::Over(Why::Idle(IdleBy::Clock { since, now })),
                    );
                    Tick::Over
                } else {
                    Tick::Still
                }
            }
        }
    }

    // And while bytes may be in the ring.
    fn tick_writing(&mut self, now: u64) -> Tick
        requires live { (shows self.old).state ≢ State.Over }
        requires writes { (shows self.old).state ≢ State.Reading }
        ensures holds { (V : Voice H) (T : Teller H) (s : Seen) → HoldsBy V T s self.old → HoldsBy V T s self.new }
        ensures ticks { Ticks result now (shows self.old) (shows self.new) }
    {
        let since = self.moments.stuck();
        if !self.ring.is_empty() && passed(since, WRITE, now) {
            put(&mut self.at, At::Over(Why::Stalled { since, now }));
            Tick::Over
        } else {
            Tick::Still
        }
    }
}

impl<B: Body, H: Hijack + Drop> Inside<B, H> {
    /// Tells it that the server drains.
    pub fn tell_drain(&mut self, level: u64) -> Told
        requires level { 1 ≤ level }
        ensures holds { (T : Teller H) (s : Seen) → HoldsBy (voice_of H.Hijack) T s self.old → HoldsBy (voice_of H.Hijack) T s self.new }
        ensures leaves { shows self.new ≡ drained level (shows self.old) }
        ensures tells { DrainTells result (shows self.new) }
    {
        self.ending.told = level;
        if self.taken > 0 {
            self.drain(level);
        }
        self.told()
    }

    // Ends it where it has begun nothing and has no room for one more life, or where a hijacker has it, by draining of
    // this level, which was told.
    fn drain(&mut self, level: u64)
        requires level { (1 ≤ level) × (self.old.ending.told ≡ level) }
        requires read { 0 < self.old.taken }
        ensures holds { (T : Teller H) (s : Seen) → HoldsBy (voice_of H.Hijack) T s self.old → HoldsBy (voice_of H.Hijack) T s self.new }
        ensures leaves { shows self.new ≡ drained_in (shows self.old).state level (shows self.old) }
        ensures taken { self.new.taken ≡ self.old.taken }
    {
        match state_at(&self.at) {
            State::Reading => match self.moments.begun {
                Some(_) => {}
                None => if self.lives.len() >= LIVES {
                    put(&mut self.at, At::Over(Why::Idle(IdleBy::Drain { level })))
                },
            },
            State::Hijacked => {
                self.ending.dismissed = true;
                let at = let_leave(mem::replace(&mut self.at, At::Refusing));
                put(&mut self.at, at);
            }
            State::Ready | State::Answering | State::Over => {}
        }
    }

    // What the telling of a drain left.
    fn told(&self) -> Told
        requires room { IsIdle (shows self.now) → length self.now.lives.items < lives_limit }
        ensures { DrainTells result (shows self.now) }
    {
        if is_over(&self.at) {
            Told::Over
        } else if self.taken == 0 {
            Told::Unread
        } else if self.is_idle() {
            Told::Idle
        } else if is_saying(&self.at) {
            Told::Write
        } else {
            Told::Stays
        }
    }
}
