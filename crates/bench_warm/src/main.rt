// Turns requests over and over, on kept objects, so that `bench/figures.py` can count what one of them
// costs warm. The words say what is made of a request, and how many turns there are; a turn takes in all
// requests of standard input. Or they say what is done with a connection that waits, whose peer gave what
// standard input has; a turn does it once.
#![tactic(auto)]

mod parked;

use crate::parked::{Does, stays};
use message_framing::{Feed, Intake};
use rack_env::{env_of, refill};
use rack_types::{Bytes, Env, Input, Limits, Local, NoMemory, Peer};
use std::alloc::Global;
use std::io::Read;
use std::process::ExitCode;
use std::{env, io};

// How many requests standard input may have.
const REQUESTS: usize = 16;

/// What is made of a request.
#[derive(Clone, Copy)]
enum Makes {
    /// Nothing: it is taken in alone.
    Nothing,
    /// A new environment.
    New,
    /// The kept environment, filled anew.
    Kept,
}

/// What is turned.
#[derive(Clone, Copy)]
enum Turned {
    /// Requests.
    Requests(Makes),
    /// A connection that waits.
    Parked(Does),
}

/// What stays from one request to the next.
#[derive(Drop)]
struct Kept {
    intake: Intake,
    env: Env,
    peer: Peer,
    local: Local,
}

fn main(rt: HostRuntime) -> ExitCode {
    let Ok(Some((turned, turns))) = words(&rt) else {
        return ExitCode::from(2);
    };
    let mut text = Vec::new(rt.alloc());
    if rt.stdin().read_to_end(&mut text).is_err() {
        return ExitCode::from(3);
    }
    let went = match turned {
        Turned::Requests(makes) => requests(rt.alloc(), makes, &text, turns),
        Turned::Parked(does) => stays(rt.alloc(), does, &text, turns),
    };
    match went {
        Ok(true) => ExitCode::from(0),
        Ok(false) => ExitCode::from(5),
        Err(_) => ExitCode::from(4),
    }
}

/// Turns the requests of the text so often. False where they don't end with it.
fn requests(alloc: Global, makes: Makes, text: &[u8], turns: u32) -> Result<bool, NoMemory> {
    let Some(mut kept) = begin(alloc)? else {
        return Ok(false);
    };
    for _ in 0..turns {
        if !turn(alloc, makes, text, &mut kept)? {
            return Ok(false);
        }
    }
    Ok(true)
}

/// What is turned, and how many turns there are.
fn words<R: std::rt::Env + AllocGlobal>(rt: &R) -> io::Result<Option<(Turned, u32)>> {
    let mut words = Vec::new(rt.alloc());
    for word in env::args(rt)?.skip(1) {
        words.push(word)?;
    }
    let (Some(what), Some(turns)) = (words.get(0), words.get(1)) else {
        return Ok(None);
    };
    let turned = match what.as_str() {
        "intake" => Turned::Requests(Makes::Nothing),
        "new" => Turned::Requests(Makes::New),
        "kept" => Turned::Requests(Makes::Kept),
        "tick" => Turned::Parked(Does::Tick),
        "tell" => Turned::Parked(Does::Tell),
        "watch" => Turned::Parked(Does::Watch),
        _ => return Ok(None),
    };
    match turns.parse() {
        Ok(turns) => Ok(Some((turned, turns))),
        Err(_) => Ok(None),
    }
}

fn begin(alloc: Global) -> Result<Option<Kept>, NoMemory> {
    let Some(peer) = Peer::new(b"127.0.0.1") else {
        return Ok(None);
    };
    let Some(name) = Peer::new(b"localhost") else {
        return Ok(None);
    };
    let intake = Intake::new(alloc, Limits::stock())?;
    Ok(Some(Kept {
        intake,
        env: Env::new(alloc, Input::new(Bytes::new(Vec::new(alloc)))),
        peer,
        local: Local {
            name,
            port: 9292,
            https: false,
            hijack: false,
        },
    }))
}

/// Takes the requests of the text in, one behind the other. False where they don't end with it.
fn turn(alloc: Global, makes: Makes, text: &[u8], kept: &mut Kept) -> Result<bool, NoMemory> {
    let mut rest = text;
    for _ in 0..REQUESTS {
        let Feed::Whole(n) = kept.intake.feed(rest)? else {
            return Ok(false);
        };
        if !make(alloc, makes, kept)? {
            return Ok(false);
        }
        match rest.get(n..) {
            Some(behind) if !behind.is_empty() => rest = behind,
            _ => return Ok(true),
        }
    }
    Ok(false)
}

/// Makes what is wanted of the request that stands, and starts the next. False where none stands.
fn make(alloc: Global, makes: Makes, kept: &mut Kept) -> Result<bool, NoMemory> {
    if kept.intake.request().is_none() {
        return Ok(false);
    }
    let input = kept.intake.take_input();
    let Some(request) = kept.intake.request() else {
        return Ok(false);
    };
    match makes {
        Makes::Nothing => {}
        Makes::New => {
            let _env = env_of(alloc, request, input, &kept.peer, &kept.local)?;
        }
        Makes::Kept => refill(&mut kept.env, request, input, &kept.peer, &kept.local)?,
    }
    kept.intake.advance();
    Ok(true)
}
