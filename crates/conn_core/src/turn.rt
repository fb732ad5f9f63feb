// Requests are answered, one behind the other.
ghost use Rattle.std.specs.Prelude.{◌≡◌, ◌<◌, ◌≤◌, ◌+◌, ◌-◌, ◌^◌, ℕ, List, true};
ghost use Rattle.rack_types.specs.Env.{Pairs};
ghost use Rattle.rack_types.specs.Runner.{Becomes};
ghost use Rattle.talk_core.specs.Tail.{voice_of};
ghost use Rattle.talk_core.specs.Teller.{Teller};
ghost use Rattle.conn_core.specs.Calls.{Turns, TurnsRightly};
ghost use Rattle.conn_steps.specs.Holds.{HoldsBy};
ghost use Rattle.conn_steps.specs.Inner.{TellsFrom, Steps, StepLeaves, StepMoves};
ghost use Rattle.conn_steps.specs.At.{IsSaying, state_at as place_as};
ghost use Rattle.conn_steps.specs.Ran.{Ran};
ghost use Rattle.conn_steps.specs.Shown.{shows};

use crate::answers::{replied_at, turned};
use conn_steps::{Budget, Inside, Next, SayStep, State, Step, is_saying, state_at};
use hijack_core::Hijack;
use rack_outside::{Link, LinkRead};
use rack_types::{Body, Runner};

// One write, where one is left. None is made behind the last read.
fn speak<L: Link, B: Body, H: Hijack + Drop>(
    inside: &mut Inside<B, H>,
    link: &mut L,
    budget: &mut Budget,
    now: u64,
) -> Step
    requires says { IsSaying inside.old.at }
    ensures holds { (T : Teller H) → HoldsBy (voice_of H.Hijack) T (L.seen link.old) inside.old → HoldsBy (voice_of H.Hijack) T (L.seen link.new) inside.new }
    ensures steps { Steps (shows inside.old) (shows inside.new) (L.seen link.old) (L.seen link.new) budget.old budget.new }
    ensures moves { StepMoves now result (shows inside.old) (shows inside.new) (L.seen link.old) (L.seen link.new) budget.old budget.new }
    ensures leaves { StepLeaves result budget.old budget.new inside.old.at inside.new.at (L.seen link.old) (L.seen link.new) }
    ensures runs { budget.new.runs ≡ budget.old.runs }
{
    if budget.reads == 0 || budget.writes == 0 {
        return Step::Stops;
    }
    match inside.say(link, now) {
        SayStep::Unwritten => Step::GoesOn,
        SayStep::Wrote => {
            budget.writes -= 1;
            Step::GoesOn
        }
        SayStep::Waits => {
            budget.writes -= 1;
            Step::Waits
        }
    }
}

// One run, read or write, where one is left.
#[tactic(auto, using(conn_steps::proofs::CallerLemmas::becomes_none))]
fn step<L: Link, B: Body, H: Hijack + Drop, R: Runner<B, H>>(
    inside: &mut Inside<B, H>,
    link: &mut L,
    runner: &mut R,
    budget: &mut Budget,
    now: u64,
) -> Step
    requires room { R.runs runner.old + budget.old.runs < 2 ^ 64 }
    ensures holds { R.steady ≡ true → (T : Teller H)
        → TellsFrom T (R.answer runner.old) inside.old.local inside.old.peer inside.new.ending.closing inside.old.calls inside.new.calls
        → HoldsBy (voice_of H.Hijack) T (L.seen link.old) inside.old → HoldsBy (voice_of H.Hijack) T (L.seen link.new) inside.new }
    ensures any { (T : Teller H) → HoldsBy (voice_of H.Hijack) T (L.seen link.old) inside.old
        → Ran (λ U. HoldsBy (voice_of H.Hijack) U (L.seen link.new) inside.new) T R.answer inside.old.calls (L.seen link.old) (L.seen link.new) (shows inside.new)
        (R.answered runner.old) (R.answered runner.new) (R.asked runner.old) (R.asked runner.new) }
    ensures steps { Steps (shows inside.old) (shows inside.new) (L.seen link.old) (L.seen link.new) budget.old budget.new }
    ensures moves { StepMoves now result (shows inside.old) (shows inside.new) (L.seen link.old) (L.seen link.new) budget.old budget.new }
    ensures leaves { StepLeaves result budget.old budget.new inside.old.at inside.new.at (L.seen link.old) (L.seen link.new) }
    ensures counts { R.runs runner.new + budget.new.runs ≡ R.runs runner.old + budget.old.runs }
    ensures becomes { Becomes R.becomes runner.old runner.new }
    ensures steady { R.steady ≡ true → (ps : Pairs) (input : List ℕ) → R.answer runner.new ps input ≡ R.answer runner.old ps input }
{
    match state_at(&inside.at) {
        State::Over => Step::Stops,
        State::Hijacked => if is_saying(&inside.at) {
            speak(inside, link, budget, now)
        } else {
            Step::Stops
        },
        State::Reading => {
            if budget.is_spent() {
                return Step::Stops;
            }
            budget.reads -= 1;
            match inside.read(link, now) {
                LinkRead::NotYet => Step::Waits,
                LinkRead::Bytes(n) => {
                    budget.came = budget.came.saturating_add(n as u64);
                    Step::GoesOn
                }
                LinkRead::End | LinkRead::Failed => Step::GoesOn,
            }
        }
        State::Ready => {
            if budget.is_spent() {
                return Step::Stops;
            }
            inside.start(runner, budget, now);
            Step::GoesOn
        }
        State::Answering => speak(inside, link, budget, now),
    }
}

// Answers requests one behind the other.
pub(crate) fn turn<L: Link, B: Body, H: Hijack + Drop, R: Runner<B, H>>(
    inside: &mut Inside<B, H>,
    link: &mut L,
    runner: &mut R,
    now: u64,
) -> Next
    requires ready { place_as inside.old.at ≡ State.Ready }
    requires room { R.runs runner.old ≤ 2 ^ 64 - 11 }
    ensures holds { R.steady ≡ true → (T : Teller H)
        → TellsFrom T (R.answer runner.old) inside.old.local inside.old.peer inside.new.ending.closing inside.old.calls inside.new.calls
        → HoldsBy (voice_of H.Hijack) T (L.seen link.old) inside.old → HoldsBy (voice_of H.Hijack) T (L.seen link.new) inside.new }
    ensures any { (T : Teller H) → HoldsBy (voice_of H.Hijack) T (L.seen link.old) inside.old
        → Ran (λ U. HoldsBy (voice_of H.Hijack) U (L.seen link.new) inside.new) T R.answer inside.old.calls (L.seen link.old) (L.seen link.new) (shows inside.new)
        (R.answered runner.old) (R.answered runner.new) (R.asked runner.old) (R.asked runner.new) }
    ensures turns { Turns now result (shows inside.old) (shows inside.new) (L.seen link.old) (L.seen link.new) }
    ensures rightly { (T : Teller H) → HoldsBy (voice_of H.Hijack) T (L.seen link.old) inside.old → TurnsRightly now result (shows inside.old) (shows inside.new) (L.seen link.old) (L.seen link.new) }
    ensures counts { R.runs runner.new + inside.old.calls ≡ R.runs runner.old + inside.new.calls }
    ensures becomes { Becomes R.becomes runner.old runner.new }
    ensures steady { R.steady ≡ true → (ps : Pairs) (input : List ℕ) → R.answer runner.new ps input ≡ R.answer runner.old ps input }
{
    let replied = replied_at(&inside.at, inside.calls);
    let mut budget = Budget::new();
    inside.start(runner, &mut budget, now);
    loop {
        match step(inside, link, runner, &mut budget, now) {
            Step::GoesOn => {}
            Step::Waits | Step::Stops => {
                let more = replied_at(&inside.at, inside.calls) > replied;
                return turned(&inside.at, &budget, more);
            }
        }
    }
}
