// The steps of a connection, each over the parts that it changes.
ghost use Rattle.std.specs.Prelude.{◌≡◌, [], ◌<◌, ◌+◌, ◌-◌, ◌^◌, ◌↔◌, ℕ, List, true, IsTrue, IfOk};
ghost use Rattle.rack_types.specs.Answer.{told};
ghost use Rattle.rack_types.specs.Env.{Pairs};
ghost use Rattle.rack_types.specs.Request.{Parts};
ghost use Rattle.rack_env.specs.Environment.{environment};
ghost use Rattle.message_framing.specs.Intake.{Fed, StandsWhole};
ghost use Rattle.message_framing.specs.Request.{IsRequest};
ghost use Rattle.talk_core.specs.Tail.{voice_of};
ghost use Rattle.talk_core.specs.Teller.{ask_of};
ghost use Rattle.conn_steps.specs.At.{IsFraming};
ghost use Rattle.conn_steps.specs.RunOnce.{RunsTo};
ghost use Rattle.conn_steps.specs.Steps.{FeedsHeld, BeginsAs, TakesAll, BeginsTaken, BeginsAt, IsWrittenAt, IsHanded, FillsTo, HasRequest, CompletesTo};

use crate::at::{At, put};
use crate::hijack::tell;
use crate::moments::{Late, ended_by};
use crate::piece::Piece;
use circular_buffer::HeapCircularBuffer;
use hijack_core::Hijack;
use message_framing::{Feed, Intake};
use rack_env::refill;
use rack_types::{Answer, Body, Env, Local, NoMemory, Peer, Runner};
use reply_framing::{After, Ask, Filled, Framer};
use std::alloc::Global;
use std::mem;
use talk_core::Why;

/// Feeds the unfed bytes to the intake, and goes on holding those behind a whole request.
pub fn feed_held<B: Body, H>(intake: &mut Intake, unfed: &mut Piece) -> At<B, H>
    ensures { FeedsHeld intake.old unfed.old intake.new unfed.new result }
{
    match intake.feed(unfed.bytes()) {
        Ok(Feed::More) => {
            unfed.clear();
            At::Reading
        }
        Ok(Feed::Whole(n)) => {
            unfed.skip(n);
            At::Asked
        }
        Ok(Feed::Refused(fault)) => {
            unfed.clear();
            At::Refused(fault)
        }
        Err(_) => At::Over(Why::NoMemory),
    }
}

/// The moment at which the request was begun that is to be read at this place: the one kept, or now.
pub fn begins<B: Body, H>(
    at: &At<B, H>,
    intake: &Intake,
    kept: Option<u64>,
    now: u64,
) -> Option<u64>
    ensures { BeginsAs at.now intake.now now kept result }
{
    match at {
        At::Reading => if intake.begun() {
            Some(kept.unwrap_or(now))
        } else {
            None
        },
        At::Asked | At::Refused(_) => None,
        At::Answering(_)
        | At::Writing(_)
        | At::Handing(_)
        | At::Refusing
        | At::Listening(_)
        | At::Speaking(_)
        | At::Parting
        | At::Over(_) => kept,
    }
}

/// Makes the environment of the request that stands, which takes its body over, and tells what the framer asks of it.
pub fn prepare(
    intake: &mut Intake,
    env: &mut Env,
    peer: &Peer,
    local: &Local,
) -> Result<Ask, NoMemory>
    requires { StandsWhole intake.old }
    ensures whole { StandsWhole intake.new }
    ensures asks { (b : List ℕ) (r : Parts) → Fed intake.old b → IsRequest b r
        → IfOk result (λ ask. (ask ≡ ask_of r) × (env.new ≡ environment r peer.now local.now)) }
{
    let input = intake.take_input();
    let request = intake.request().unwrap();
    refill(env, request, input, peer, local)?;
    Ok(Ask {
        head: request.method() == b"HEAD".as_slice(),
        version: request.version(),
        persists: request.persists(),
    })
}

/// Runs the request, and begins its reply.
pub fn run<B: Body, H: Drop, R: Runner<B, H>>(
    alloc: Global,
    runner: &mut R,
    env: &mut Env,
    ask: Ask,
    last: bool,
) -> At<B, H>
    requires { R.runs runner.old < 2 ^ 64 - 1 }
    ensures runs { RunsTo R.steady (R.answer runner.old env.old.pairs env.old.input.bytes) ask (env.old.pairs, env.old.input.bytes) last (R.answered runner.old) (R.answered runner.new) (R.asked runner.old) (R.asked runner.new) result }
    ensures counts { R.runs runner.new ≡ R.runs runner.old + 1 }
    ensures becomes { R.becomes runner.old runner.new }
    ensures steady { R.steady ≡ true → (ps : Pairs) (input : List ℕ) → R.answer runner.new ps input ≡ R.answer runner.old ps input }
{
    match runner.run(env) {
        Ok(answer) => begin(alloc, ask, env, answer, last),
        Err(_) => At::Over(Why::NoMemory),
    }
}

// Begins the reply to a request, by its answer.
fn begin<B: Body, H: Drop>(
    alloc: Global,
    ask: Ask,
    env: &Env,
    answer: Answer<B, H>,
    last: bool,
) -> At<B, H>
    ensures { BeginsAt ask env.now.pairs (told B.content answer) last result }
{
    let taken = takes_all(&answer);
    match Framer::start(alloc, ask, env, answer, last) {
        Ok(framer) => if taken {
            begin_taken(framer)
        } else {
            At::Answering(framer)
        },
        Err(_) => At::Over(Why::NoMemory),
    }
}

// Whether the answer hands the whole reply to a hijacker.
fn takes_all<B: Body, H>(answer: &Answer<B, H>) -> bool
    ensures { IsTrue result ↔ TakesAll (told B.content answer.now) }
{
    match answer {
        Answer::Taken(_) => true,
        Answer::Reply { .. } | Answer::Raised(_) => false,
    }
}

// Begins the reply to an answer that hands the whole of it to a hijacker. One that breaks a rule is a reply of its own.
fn begin_taken<B: Body, H: Drop>(framer: Framer<B, H>) -> At<B, H>
    ensures { BeginsTaken framer result }
{
    match framer.after() {
        After::Hijack => match framer.finish() {
            Some(hijacker) => At::Handing(hijacker),
            None => unreachable!(),
        },
        After::Keep | After::Close => At::Answering(framer),
    }
}

/// Fills the ring from the reply that is under way, if there is one. Behind its last byte goes to what becomes of the
/// connection then; a reply that remains isn't moved.
pub fn fill<B: Body, H: Drop>(at: &mut At<B, H>, ring: &mut HeapCircularBuffer<u8>)
    ensures { FillsTo at.old ring.old at.new ring.new }
{
    match at {
        At::Answering(framer) => match framer.fill(ring) {
            Ok(Filled::Full) => {}
            Ok(Filled::Done) => written(at),
            Ok(Filled::Broke(_)) => written(at),
            Err(_) => put(at, At::Over(Why::NoMemory)),
        },
        At::Reading
        | At::Asked
        | At::Refused(_)
        | At::Writing(_)
        | At::Handing(_)
        | At::Refusing
        | At::Listening(_)
        | At::Speaking(_)
        | At::Parting
        | At::Over(_) => {}
    }
}

// Goes to what is behind a framer that has no more to append: the connection goes on or closes, or a hijacker takes it
// over.
fn written<B: Body, H: Drop>(at: &mut At<B, H>)
    requires { IsFraming at.old }
    ensures { IsWrittenAt at.old at.new }
{
    match at {
        At::Answering(framer) => match framer.after() {
            After::Keep => put(at, At::Writing(true)),
            After::Close => put(at, At::Writing(false)),
            After::Hijack => {
                let new = hand(mem::replace(at, At::Refusing));
                put(at, new);
            }
        },
        _ => unreachable!(),
    }
}

// The place of a connection that a framer hands to its hijacker.
fn hand<B: Body, H: Drop>(at: At<B, H>) -> At<B, H>
    requires { IsHanded at }
    ensures { IsWrittenAt at result }
{
    match at {
        At::Answering(framer) => match framer.finish() {
            Some(hijacker) => At::Handing(hijacker),
            None => unreachable!(),
        },
        _ => unreachable!(),
    }
}

/// Where the link took all of the ring: goes on with the unfed bytes, hands the connection over, or ends; or more of the
/// reply comes. The answer is the place that it goes to, which is to be put there. A reply that was sent whole isn't
/// moved.
pub fn complete<B: Body, H: Hijack + Drop>(
    at: &mut At<B, H>,
    intake: &mut Intake,
    unfed: &mut Piece,
    ring: &mut HeapCircularBuffer<u8>,
    late: Option<Late>,
) -> At<B, H>
    requires stands { HasRequest at.old intake.old }
    requires empty { ring.old.items ≡ [] }
    requires room { ring.old.capacity ≡ 65536 }
    ensures completes { CompletesTo late (voice_of H.Hijack) at.old intake.old unfed.old result intake.new unfed.new ring.new.items }
    ensures room { ring.new.capacity ≡ ring.old.capacity }
{
    match at {
        At::Writing(keeps) => if *keeps {
            intake.advance();
            feed_held(intake, unfed)
        } else {
            At::Over(Why::Closed)
        },
        _ => match mem::replace(at, At::Refusing) {
            At::Writing(_) => unreachable!(),
            At::Handing(hijacker) => tell(hijacker, unfed, ring),
            At::Refusing => At::Over(ended_by(late)),
            At::Speaking(hijacker) => At::Listening(hijacker),
            At::Parting => At::Over(Why::Hijacked),
            at => at,
        },
    }
}
