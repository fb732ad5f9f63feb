// A connection.
ghost use Rattle.std.specs.Prelude.{◌≡◌, ◌≢◌, ◌<◌, ◌+◌, ◌-◌, ◌^◌, ◌≤◌, ◌↔◌, [], ◌∷◌, ℕ, List, true, false, None, Some, is_some, IfOk, IfErr, IsTrue};
ghost use Rattle.rack_types.specs.Env.{Pairs};
ghost use Rattle.rack_types.specs.Runner.{Becomes};
ghost use Rattle.rack_types.specs.Limits.{stock_limits};
ghost use Rattle.talk_core.specs.Ended.{Shows, IsEnded, StandsForTalk};
ghost use Rattle.talk_core.specs.Tail.{voice_of};
ghost use Rattle.talk_core.specs.Teller.{Stacks, Teller, last_phase};
ghost use Rattle.conn_steps.specs.Answered.{HasAnswered};
ghost use Rattle.conn_core.specs.Calls.{Feeds, Turns, TurnsRightly, Flushes};
ghost use Rattle.conn_steps.specs.Ends.{MayFeed};
ghost use Rattle.conn_core.specs.Holds.{Holds, HoldsWith};
ghost use Rattle.conn_steps.specs.Keeps.{reaching};
ghost use Rattle.conn_steps.specs.Moves.{IsOwing};
ghost use Rattle.conn_steps.specs.Owner.{BeginsRightly, MayPlace};
ghost use Rattle.conn_steps.specs.Plain.{IsPlainEnd, EndsByReplies};
ghost use Rattle.conn_steps.specs.Ran.{Ran};
ghost use Rattle.conn_core.specs.Shown.{shown, number_of, key_of, link_of};
ghost use Rattle.conn_steps.specs.Opened.{opened, IsUnopened};

use crate::feed::feed;
use crate::flush::flush;
use crate::turn::turn;
use conn_steps::{At, Inside, Next, State, close, is_saying, state_at};
use hijack_core::Hijack;
use rack_outside::{Link, Numbered};
use rack_types::{Body, Limits, Local, Peer, Runner};
use std::alloc::Global;
use talk_core::{Ended, Why};

/// A connection, from its opening to its end. It is spent by `finish`.
///
/// It is small, and moved by value: its large parts lie in one block that `open` makes.
///
/// Of the bytes that came it runs each request once, one behind the other, and sends the replies in their
/// order (RFC 9112, section 9.3). What it sent is always a part of the text of the talk on those bytes, and
/// is all of it at an orderly end: that is `Holds`, which its owner carries from `open` to `finish`.
#[derive(Drop)]
pub struct Conn<L, B: Body, H> {
    pub(crate) number: u32,
    // Whether it was handed to a watcher, and the key under which it was last. As an `Option` they would take 8 bytes
    // more.
    pub(crate) watched: bool,
    pub(crate) key: usize,
    pub(crate) link: L,
    pub(crate) inside: Box<Inside<B, H>>,
}

impl<L: Link, B: Body, H> Numbered for Conn<L, B, H> {
    ghost tag = { λ c. (L.seen (link_of c)).tag };

    ghost number_of = { λ c. number_of c };

    fn number(&self) -> u32 {
        self.number
    }
}

impl<L: Link, B: Body, H: Hijack + Drop> Conn<L, B, H> {
    /// A connection on this link, of which nothing was read or sent yet.
    ///
    /// It reserves all the room that it needs: a head, the output ring of 65,536 bytes, one piece of
    /// 16,384 bytes, and 64 lives. Where that is refused it answers the ended connection, with its link.
    ///
    /// `now` is the moment, in milliseconds.
    pub fn open(
        alloc: Global,
        number: u32,
        link: L,
        peer: Peer,
        local: Local,
        limits: Limits,
        phase: u32,
        now: u64,
    ) -> Result<Conn<L, B, H>, Ended<L>>
        requires limits { limits ≡ stock_limits }
        requires fresh { Shows (L.seen link) peer [] [] false }
        ensures opened { IfOk result (λ c. (shown c ≡ opened peer local phase now) × (number_of c ≡ number) × (link_of c ≡ link)) }
        ensures unwatched { IfOk result (λ c. key_of c ≡ None) }
        ensures holds { IfOk result (λ c. (S : Stacks H) → Holds L.seen (voice_of H.Hijack) S c) }
        ensures refused { IfErr result (λ e. IsUnopened number link e) }
        ensures ended { IfErr result (λ e. (S : Stacks H) → IsEnded L L.seen (voice_of H.Hijack) S local peer e) }
    {
        match Inside::new(alloc, peer, local, limits, phase, now) {
            Ok(inside) => Ok(Conn {
                number,
                watched: false,
                key: 0,
                link,
                inside,
            }),
            Err(_) => Err(Ended {
                number,
                link,
                lives: Vec::new(alloc),
                calls: 0,
                told: 0,
                closing: None,
                why: Why::NoMemory,
            }),
        }
    }

    /// Its number, by which its owner knows it.
    pub fn number(&self) -> u32
        ensures { result ≡ number_of self.now }
    {
        self.number
    }

    /// Where it is.
    pub fn state(&self) -> State
        ensures { result ≡ (shown self.now).state }
    {
        state_at(&self.inside.at)
    }

    /// How many requests were run.
    pub fn calls(&self) -> u64
        ensures { result ≡ (shown self.now).calls }
    {
        self.inside.calls
    }

    /// How many bytes were read, up to 2^64 - 1.
    pub fn taken(&self) -> u64
        ensures { result ≡ (shown self.now).taken }
    {
        self.inside.taken
    }

    /// The greatest moment that was handed to a call, in milliseconds.
    pub fn moment(&self) -> u64
        ensures { result ≡ (shown self.now).moments.last }
    {
        self.inside.moments.last
    }

    /// Whether bytes are owed, of a reply or of what a hijacker said.
    pub fn wants_write(&self) -> bool
        ensures bytes { IsTrue result ↔ ((shown self.now).owed ≢ []) }
        ensures state { IsTrue result ↔ IsOwing (shown self.now) }
    {
        is_saying(&self.inside.at)
    }

    /// The key under which it was handed to a watcher last; none before that.
    pub fn key(&self) -> Option<usize>
        ensures { result ≡ key_of self.now }
    {
        if self.watched { Some(self.key) } else { None }
    }

    /// Whether the last read of its link had to wait, so that one more at once would find nothing. False
    /// before the first read. It saves such a read, and no clause speaks of it.
    pub fn read_waited(&self) -> bool {
        self.inside.unfed.waited()
    }

    /// Its link, lent.
    pub fn link(&self) -> &L
        ensures { result.now ≡ link_of self.now }
    {
        &self.link
    }

    /// Makes one read, which offers room for 16,384 bytes, and feeds what came to the reader of requests, or
    /// tells it, as the peer's end, to the hijacker that has the connection.
    ///
    /// Where memory is refused for what came, the connection is over. `now` is the moment, in milliseconds.
    pub fn feed(&mut self, now: u64) -> Next
        requires reading { MayFeed (shown self.old) }
        ensures number { number_of self.new ≡ number_of self.old }
        ensures key { key_of self.new ≡ key_of self.old }
        ensures feeds { Feeds now result (reaching now (shown self.old)) (shown self.new) (L.seen (link_of self.old)) (L.seen (link_of self.new)) }
        ensures any { (T : Teller H) → HoldsWith L.seen (voice_of H.Hijack) T self.old → HoldsWith L.seen (voice_of H.Hijack) T self.new }
        ensures holds { (S : Stacks H) → Holds L.seen (voice_of H.Hijack) S self.old → Holds L.seen (voice_of H.Hijack) S self.new }
    {
        let inside: &mut Inside<B, H> = &mut self.inside;
        inside.moments.reach(now);
        feed(inside, &mut self.link, now)
    }

    /// Answers requests one behind the other: each is run once, its reply is framed into the ring and
    /// written, and the unfed bytes are fed before any are read.
    ///
    /// What stands is taken up before anything is read, and what is owed is written before anything is taken
    /// up. A read offers room for 16,384 bytes, and a write the front of what is owed, up to 65,536 bytes.
    ///
    /// Where a reply hands the connection to a hijacker, that one is told the unfed bytes, and what it
    /// says is written; nothing is read for it.
    ///
    /// It makes at most 10 runs, 160 reads and 160 writes. Behind its tenth run it still writes that run's
    /// reply, and what a hijacker says behind it; behind its 160th read or write it makes no further move, nor
    /// behind a read or a write that had to wait. It stops only there, where a hijacker has the connection and
    /// nothing is owed, or where the connection is over, as where memory is refused.
    ///
    /// Whatever the runner answers, each run belongs to the next request. Where it is steady, the connection goes on
    /// standing for its talk over the runner's answers. Where it isn't, or may not be, it does so over the answers that
    /// came, one to each request by its number; and what the runner tells grew by these answers, in order, and by the
    /// environments of the requests that were run. Only the last run may have been refused: then no byte of a reply to
    /// it was sent, and the connection is over for want of memory. Where the connection held before and its link tells
    /// what it gave, the unfed bytes at each run are all that stand behind its request then.
    pub fn turn<R: Runner<B, H>>(&mut self, runner: &mut R, now: u64) -> Next
        requires ready { (shown self.old).state ≡ State.Ready }
        requires room { R.runs runner.old ≤ 2 ^ 64 - 11 }
        ensures number { number_of self.new ≡ number_of self.old }
        ensures key { key_of self.new ≡ key_of self.old }
        ensures turns { Turns now result (reaching now (shown self.old)) (shown self.new) (L.seen (link_of self.old)) (L.seen (link_of self.new)) }
        ensures rightly { (T : Teller H) → HoldsWith L.seen (voice_of H.Hijack) T self.old → TurnsRightly now result (reaching now (shown self.old)) (shown self.new) (L.seen (link_of self.old)) (L.seen (link_of self.new)) }
        ensures runs { R.runs runner.new + (shown self.old).calls ≡ R.runs runner.old + (shown self.new).calls }
        ensures becomes { Becomes R.becomes runner.old runner.new }
        ensures steady { R.steady ≡ true → (ps : Pairs) (input : List ℕ) → R.answer runner.new ps input ≡ R.answer runner.old ps input }
        ensures any { (T : Teller H) → HoldsWith L.seen (voice_of H.Hijack) T self.old
            → Ran (λ U. HoldsWith L.seen (voice_of H.Hijack) U self.new) T R.answer (shown self.old).calls (L.seen (link_of self.old)) (L.seen (link_of self.new)) (shown self.new)
            (R.answered runner.old) (R.answered runner.new) (R.asked runner.old) (R.asked runner.new) }
        ensures holds { (S : Stacks H) → R.steady ≡ true
            → ((ps : Pairs) (input : List ℕ) → S (last_phase (shown self.old).lives) ps input ≡ R.answer runner.old ps input)
            → Holds L.seen (voice_of H.Hijack) S self.old → Holds L.seen (voice_of H.Hijack) S self.new }
    {
        let inside: &mut Inside<B, H> = &mut self.inside;
        inside.moments.reach(now);
        turn(inside, &mut self.link, runner, now)
    }

    /// Fills the ring from the reply that is under way and writes all of it, at most 16 times. Where the
    /// link took all of the reply and the connection goes on, the unfed bytes are fed, or a hijacker
    /// that takes the connection over is told them. What a hijacker said is written in the same way.
    ///
    /// Memory is taken only where a body is asked for more, where unfed bytes are fed, by a hijacker, and
    /// by a link in memory.
    ///
    /// It stops only where the link had to wait, where nothing is owed, or behind its 16th write. Where memory
    /// is refused the connection is over. `now` is the moment, in milliseconds.
    pub fn flush(&mut self, now: u64) -> Next
        requires owes { IsOwing (shown self.old) }
        ensures number { number_of self.new ≡ number_of self.old }
        ensures key { key_of self.new ≡ key_of self.old }
        ensures flushes { Flushes now result (reaching now (shown self.old)) (shown self.new) (L.seen (link_of self.old)) (L.seen (link_of self.new)) }
        ensures any { (T : Teller H) → HoldsWith L.seen (voice_of H.Hijack) T self.old → HoldsWith L.seen (voice_of H.Hijack) T self.new }
        ensures holds { (S : Stacks H) → Holds L.seen (voice_of H.Hijack) S self.old → Holds L.seen (voice_of H.Hijack) S self.new }
    {
        let inside: &mut Inside<B, H> = &mut self.inside;
        inside.moments.reach(now);
        flush(inside, &mut self.link, now)
    }

    /// Hands back what the connection was.
    pub fn finish(self) -> Ended<L>
        requires over { (shown self).state ≡ State.Over }
        ensures why { (shown self).why ≡ Some result.why }
        ensures given { (result.number ≡ number_of self) × (result.link ≡ link_of self) × (result.calls ≡ (shown self).calls)
            × (result.lives.items ≡ (shown self).lives) }
        ensures rest { (result.told ≡ (shown self).ending.told) × (result.closing ≡ (shown self).ending.closing) }
        ensures ended { (S : Stacks H) → Holds L.seen (voice_of H.Hijack) S self → IsEnded L L.seen (voice_of H.Hijack) S (shown self).local (shown self).peer result }
        ensures plainly { (S : Stacks H) → Holds L.seen (voice_of H.Hijack) S self → IsPlainEnd L L.seen (voice_of H.Hijack) S (shown self).local (shown self).peer (shown self).ending result }
        ensures any { (T : Teller H) → HoldsWith L.seen (voice_of H.Hijack) T self → EndsByReplies L L.seen (voice_of H.Hijack) T (shown self).peer (shown self).ending result }
    {
        let Conn {
            number,
            watched: _,
            key: _,
            link,
            inside,
        } = self;
        let Inside {
            alloc: _,
            peer: _,
            local: _,
            lives,
            intake: _,
            unfed: _,
            env: _,
            ring: _,
            calls,
            taken: _,
            ending,
            moments: _,
            at,
        } = Box::into_inner(inside);
        match at {
            At::Over(why) => Ended {
                number,
                link,
                lives,
                calls,
                told: ending.told,
                closing: ending.closing,
                why,
            },
            at => {
                close(at);
                unreachable!()
            }
        }
    }

    /// Lets it go as it is, and hands back its link.
    pub fn abandon(self) -> L
        ensures { result ≡ link_of self }
    {
        let Conn {
            number: _,
            watched: _,
            key: _,
            link,
            inside,
        } = self;
        Box::into_inner(inside).let_go();
        link
    }

    /// Laws: while it is carried that it stands for its talk, a connection that isn't over does. Where more of a
    /// request is to be read, all requests in the bytes that came were run, and a moment is kept exactly where one is
    /// begun behind them; where a request stands, those before it were run, and the unfed bytes are all that stand behind
    /// it; and where a refusal stands, all before it were run. One that may be placed anew has answered all that it was
    /// asked.
    pub fn stands(&self)
        ensures talk { (S : Stacks H) → (shown self.now).state ≢ State.Over → Holds L.seen (voice_of H.Hijack) S self.now
            → StandsForTalk (L.seen (link_of self.now)) (voice_of H.Hijack) S (shown self.now).local (shown self.now).peer (shown self.now).lives (shown self.now).calls
            (shown self.now).ending.closing (is_some (shown self.now).ending.late) }
        ensures begun { (T : Teller H) → HoldsWith L.seen (voice_of H.Hijack) T self.now → BeginsRightly (L.seen (link_of self.now)) (shown self.now) }
        ensures answered { (T : Teller H) → MayPlace (shown self.now) → HoldsWith L.seen (voice_of H.Hijack) T self.now → HasAnswered (L.seen (link_of self.now)) T (shown self.now) }
    {
        let _state = self.state();
    }
}
