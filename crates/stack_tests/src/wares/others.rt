// What becomes of other answers and of a broken environment, and pairs that are put back.
use super::{
    Said, Which, after, after_text, bytes_of, env_of, headers_of, no_pairs, put, put_number, reply,
    reply_of, shown, ware_of, with,
};
use rack_types::{Answer, Env, Kind, NoMemory, Plain};
use std::alloc::Global;
use stock_middleware::{WareBody, put_back, set_saved};

// An answer that was raised, one that was taken, and a reply that would be taken over behind its head.
enum Kept {
    Raised,
    Taken,
    Part,
}

const REFUSED: &str = "500\nx-lint: L9\ncontent-length: 0\nend of 0";

// A middleware, whether a connection may be taken over, an answer, and what comes of it: an answer that
// was raised or taken passes, except that Lint refuses what may not be taken.
const OTHERS: [(Which, &str, Kept, &str); 15] = [
    (Which::Lint, "true", Kept::Raised, "oops"),
    (Which::Lint, "true", Kept::Taken, "taken"),
    (Which::Lint, "false", Kept::Raised, "oops"),
    (Which::Lint, "false", Kept::Taken, REFUSED),
    (Which::Lint, "false", Kept::Part, REFUSED),
    (Which::Head, "false", Kept::Raised, "oops"),
    (Which::Head, "false", Kept::Taken, "taken"),
    (Which::ContentLength, "false", Kept::Raised, "oops"),
    (Which::ContentLength, "false", Kept::Taken, "taken"),
    (Which::ContentType, "false", Kept::Raised, "oops"),
    (Which::ContentType, "false", Kept::Taken, "taken"),
    (Which::MethodOverride, "false", Kept::Raised, "oops"),
    (Which::MethodOverride, "false", Kept::Taken, "taken"),
    (Which::SetHeader, "false", Kept::Raised, "oops"),
    (Which::SetHeader, "false", Kept::Taken, "taken"),
];

fn answer_of(alloc: Global, kept: &Kept) -> Result<Said, NoMemory> {
    match kept {
        Kept::Raised => Ok(Answer::Raised(bytes_of(alloc, b"oops")?)),
        Kept::Taken => Ok(Answer::Taken(7)),
        Kept::Part => reply_of(alloc, 200, "", false),
    }
}

fn env_where(alloc: Global, may: &str) -> Result<Env, NoMemory> {
    with(env_of(alloc, "HEAD", "")?, "rack.hijack?", may)
}

fn other_text(alloc: Global, which: &Which, may: &str, kept: &Kept) -> Result<Vec<u8>, NoMemory> {
    let env = env_where(alloc, may)?;
    other_in(alloc, which, &env, kept)
}

fn other_in(alloc: Global, which: &Which, env: &Env, kept: &Kept) -> Result<Vec<u8>, NoMemory> {
    let answer = answer_of(alloc, kept)?;
    after_text(alloc, which, env, answer)
}

fn passes(
    alloc: Global,
    which: &Which,
    may: &str,
    kept: &Kept,
    wanted: &str,
) -> Result<bool, NoMemory> {
    let text = other_text(alloc, which, may, kept)?;
    Ok(text.as_slice() == wanted.as_bytes())
}

fn first_wrong(
    alloc: Global,
    rows: &[(Which, &str, Kept, &str)],
) -> Result<Option<usize>, NoMemory> {
    for (i, (which, may, kept, wanted)) in rows.iter().enumerate() {
        if !passes(alloc, which, may, kept, wanted)? {
            return Ok(Some(i));
        }
    }
    Ok(None)
}

#[test]
fn lets_the_others_pass(rt: HostRuntime) -> Result<(), NoMemory> {
    assert_eq!(rt; first_wrong(rt.alloc(), &OTHERS)?, None);
    Ok(())
}

// A middleware, the name that is missing, and the answer in place of the application's.
const BROKEN: [(Which, &str, &str); 4] = [
    (Which::Lint, "SCRIPT_NAME", ""),
    (
        Which::Lint,
        "QUERY_STRING",
        "500\nx-lint: E3\ncontent-length: 0\nend of 0",
    ),
    (
        Which::Lint,
        "REQUEST_METHOD",
        "500\nx-lint: E1\ncontent-length: 0\nend of 0",
    ),
    (Which::Head, "REQUEST_METHOD", ""),
];

fn without(env: Env, name: &str) -> Env {
    let mut env = env;
    env.remove(name.as_bytes());
    env
}

fn refusal(alloc: Global, which: &Which, env: &Env) -> Result<Option<Said>, NoMemory> {
    let ware = ware_of(alloc, which)?;
    ware.refuses(alloc, env)
}

fn refusal_text(alloc: Global, which: &Which, env: &Env) -> Result<Vec<u8>, NoMemory> {
    match refusal(alloc, which, env)? {
        Some(answer) => shown(alloc, answer),
        None => Ok(Vec::new(alloc)),
    }
}

// The answer, where the application isn't called.
fn refusal_without(alloc: Global, which: &Which, name: &str) -> Result<Vec<u8>, NoMemory> {
    let env = without(env_of(alloc, "GET", "")?, name);
    refusal_text(alloc, which, &env)
}

fn refuses(alloc: Global, which: &Which, name: &str, wanted: &str) -> Result<bool, NoMemory> {
    let text = refusal_without(alloc, which, name)?;
    Ok(text.as_slice() == wanted.as_bytes())
}

fn first_let_in(alloc: Global, rows: &[(Which, &str, &str)]) -> Result<Option<usize>, NoMemory> {
    for (i, (which, name, wanted)) in rows.iter().enumerate() {
        if !refuses(alloc, which, name, wanted)? {
            return Ok(Some(i));
        }
    }
    Ok(None)
}

#[test]
fn refuses_a_broken_environment(rt: HostRuntime) -> Result<(), NoMemory> {
    assert_eq!(rt; first_let_in(rt.alloc(), &BROKEN)?, None);
    Ok(())
}

fn empty_body(alloc: Global) -> WareBody<Plain> {
    WareBody::App(Plain::new(Vec::new(alloc), false, true, Kind::Enumerable))
}

// An answer that sets a cookie, and whose body is empty.
fn cookies(alloc: Global) -> Result<Said, NoMemory> {
    let headers = headers_of(alloc, "set-cookie=a=1")?;
    Ok(reply(200, headers, empty_body(alloc), None))
}

// What two middleware around it make of it.
fn wrapped_in(alloc: Global, env: &Env) -> Result<Vec<u8>, NoMemory> {
    let typed = after(alloc, &Which::ContentType, env, cookies(alloc)?)?;
    after_text(alloc, &Which::ContentLength, env, typed)
}

fn wrapped(alloc: Global) -> Result<Vec<u8>, NoMemory> {
    let env = no_pairs(alloc, "")?;
    wrapped_in(alloc, &env)
}

#[test]
fn adds_headers_one_by_one(rt: HostRuntime) -> Result<(), NoMemory> {
    assert_eq!(rt;
        wrapped(rt.alloc())?.as_slice(),
        "200\nset-cookie: a=1\ncontent-type: text/html\ncontent-length: 0\nend of 0".as_bytes()
    );
    Ok(())
}

// The number of pairs, and the value of the second.
fn put_second(env: &Env, said: &mut Vec<u8>) -> Result<(), NoMemory> {
    put_number(said, env.len() as u64)?;
    if env.len() > 1 {
        put(said, env.value(1))?;
    }
    put(said, b"|")
}

// What a set value leaves, and what that is once it was put back.
fn put_saved(
    alloc: Global,
    env: &mut Env,
    name: &[u8],
    value: &[u8],
    said: &mut Vec<u8>,
) -> Result<(), NoMemory> {
    let was = set_saved(alloc, env, name, value)?;
    let put = put_second(env, said);
    put_back(env, name, was);
    put?;
    put_second(env, said)
}

fn put_both(alloc: Global, env: &mut Env, said: &mut Vec<u8>) -> Result<(), NoMemory> {
    put_saved(alloc, env, b"SCRIPT_NAME", b"/foo", said)?;
    put_saved(alloc, env, b"PATH_INFO", b"", said)
}

fn saved_and_put_back(alloc: Global, env: Env) -> Result<Vec<u8>, NoMemory> {
    let mut env = env;
    let mut said = Vec::new(alloc);
    match put_both(alloc, &mut env, &mut said) {
        Ok(()) => Ok(said),
        Err(refused) => Err(refused),
    }
}

#[test]
fn puts_pairs_back(rt: HostRuntime) -> Result<(), NoMemory> {
    let said = saved_and_put_back(rt.alloc(), env_of(rt.alloc(), "GET", "")?)?;
    assert_eq!(rt; said.as_slice(), b"9/|8/|8|8/|".as_slice());
    Ok(())
}
