// A request is run, or a refusal is named, and a reply begins.
ghost use Rattle.std.specs.Prelude.{◌≡◌, ◌<◌, ◌≤◌, ◌+◌, ◌-◌, ◌^◌, ℕ, List, true, Some, if◌then◌else◌};
ghost use Rattle.rack_types.specs.Env.{Pairs};
ghost use Rattle.rack_types.specs.Runner.{Becomes};
ghost use Rattle.rack_outside.specs.Link.{Seen};
ghost use Rattle.talk_core.specs.Tail.{voice_of};
ghost use Rattle.talk_core.specs.Teller.{Teller, is_last};
ghost use Rattle.conn_steps.specs.Holds.{HoldsBy};
ghost use Rattle.conn_steps.specs.Inner.{runs_of, TellsFrom, RunsOnce, TakesUp, work};
ghost use Rattle.conn_steps.specs.Keeps.{Keeps, Refusal, drains_now};
ghost use Rattle.conn_steps.specs.Moves.{NamesFault};
ghost use Rattle.conn_steps.specs.At.{state_at};
ghost use Rattle.conn_steps.specs.Ran.{Ran};
ghost use Rattle.conn_steps.specs.Shown.{shows};

use crate::at::{At, put};
use crate::budget::Budget;
use crate::hijack::hand_over;
use crate::inside::Inside;
use crate::moments::filled;
use crate::piece::Piece;
use crate::state::State;
use crate::steps::{prepare, run};
use hijack_core::Hijack;
use rack_types::{Body, Fault, Runner};
use reply_framing::put_fault;
use talk_core::Why;

// The number of the last request, counted from 0.
const LAST: u64 = 9_999;

// Whether the reply to the request that stands closes by draining: that was told, and no byte is unfed behind it.
fn drains(told: u64, unfed: &Piece) -> bool
    ensures { result ≡ drains_now told unfed.now }
{
    told > 0 && unfed.bytes().is_empty()
}

// The number of the request whose reply closes by draining: this one, or as before.
fn closing(drains: bool, calls: u64, before: Option<u64>) -> Option<u64>
    ensures { result ≡ (if drains then Some calls else before) }
{
    if drains { Some(calls) } else { before }
}

// Whether this request is the last one.
fn is_last(closing: Option<u64>, calls: u64) -> bool
    ensures { result ≡ is_last closing calls }
{
    match closing {
        Some(last) => (calls == LAST) | (calls == last),
        None => calls == LAST,
    }
}

impl<B: Body, H: Hijack + Drop> Inside<B, H> {
    // Runs the request that stands, and begins its reply, or hands the connection to a hijacker. It tells whether the run
    // was made.
    #[tactic(auto, using(crate::proofs::RanLemmas::becomes_none, crate::proofs::RanLemmas::becomes_once))]
    fn answer<R: Runner<B, H>>(&mut self, runner: &mut R, now: u64) -> bool
        requires at { self.old.at ≡ At.Asked }
        requires room { R.runs runner.old < 2 ^ 64 - 1 }
        ensures holds { R.steady ≡ true → (T : Teller H) (s : Seen)
            → TellsFrom T (R.answer runner.old) self.old.local self.old.peer self.new.ending.closing self.old.calls self.new.calls
            → HoldsBy (voice_of H.Hijack) T s self.old → HoldsBy (voice_of H.Hijack) T s self.new }
        ensures any { (T : Teller H) (s : Seen) → HoldsBy (voice_of H.Hijack) T s self.old
            → Ran (λ U. HoldsBy (voice_of H.Hijack) U s self.new) T R.answer self.old.calls s s (shows self.new) (R.answered runner.old) (R.answered runner.new) (R.asked runner.old) (R.asked runner.new) }
        ensures runs { RunsOnce now result (shows self.old) (shows self.new) }
        ensures counts { R.runs runner.new ≡ R.runs runner.old + runs_of result }
        ensures becomes { Becomes R.becomes runner.old runner.new }
        ensures steady { R.steady ≡ true → (ps : Pairs) (input : List ℕ) → R.answer runner.new ps input ≡ R.answer runner.old ps input }
    {
        match prepare(&mut self.intake, &mut self.env, &self.peer, &self.local) {
            Ok(ask) => {
                let drains = drains(self.ending.told, &self.unfed);
                self.ending.closing = closing(drains, self.calls, self.ending.closing);
                let last = is_last(self.ending.closing, self.calls);
                let at = run(self.alloc, runner, &mut self.env, ask, last);
                self.calls += 1;
                let at = hand_over(at, &mut self.unfed, &mut self.ring);
                put(&mut self.at, at);
                self.moments.filled = filled(!self.ring.is_empty(), now, self.moments.filled);
                true
            }
            Err(_) => {
                put(&mut self.at, At::Over(Why::NoMemory));
                false
            }
        }
    }

    // Begins the reply that names a refusal.
    fn refuse(&mut self, fault: Fault, now: u64)
        requires { self.old.at ≡ At.Refused fault }
        ensures holds { (T : Teller H) (s : Seen) → HoldsBy (voice_of H.Hijack) T s self.old → HoldsBy (voice_of H.Hijack) T s self.new }
        ensures names { NamesFault fault (shows self.old) (shows self.new) }
        ensures keeps { Keeps now (Refusal fault) (shows self.old) (shows self.new) }
    {
        put_fault(fault, &mut self.ring);
        self.moments.filled = now;
        put(&mut self.at, At::Refusing);
    }

    /// Takes up the request or the refusal that stands.
    #[tactic(auto, using(crate::proofs::RanLemmas::becomes_none))]
    pub fn start<R: Runner<B, H>>(&mut self, runner: &mut R, budget: &mut Budget, now: u64)
        requires ready { state_at self.old.at ≡ State.Ready }
        requires budget { 0 < budget.old.runs }
        requires room { R.runs runner.old < 2 ^ 64 - 1 }
        ensures holds { R.steady ≡ true → (T : Teller H) (s : Seen)
            → TellsFrom T (R.answer runner.old) self.old.local self.old.peer self.new.ending.closing self.old.calls self.new.calls
            → HoldsBy (voice_of H.Hijack) T s self.old → HoldsBy (voice_of H.Hijack) T s self.new }
        ensures any { (T : Teller H) (s : Seen) → HoldsBy (voice_of H.Hijack) T s self.old
            → Ran (λ U. HoldsBy (voice_of H.Hijack) U s self.new) T R.answer self.old.calls s s (shows self.new) (R.answered runner.old) (R.answered runner.new) (R.asked runner.old) (R.asked runner.new) }
        ensures takes { TakesUp now (budget.old.runs - budget.new.runs) (shows self.old) (shows self.new) }
        ensures budget { budget.new ≡ record budget.old { runs = budget.new.runs } }
        ensures few { budget.new.runs ≤ budget.old.runs }
        ensures falls { work budget.new self.new.at < work budget.old self.old.at }
        ensures counts { R.runs runner.new + budget.new.runs ≡ R.runs runner.old + budget.old.runs }
        ensures becomes { Becomes R.becomes runner.old runner.new }
        ensures steady { R.steady ≡ true → (ps : Pairs) (input : List ℕ) → R.answer runner.new ps input ≡ R.answer runner.old ps input }
    {
        match &self.at {
            At::Refused(fault) => {
                let fault = *fault;
                self.refuse(fault, now);
            }
            _ => {
                if self.answer(runner, now) {
                    budget.runs -= 1;
                }
            }
        }
    }
}
