// What stacks answer, as tables, and which have a fault. Expected values are worked from the rules by hand.
//
// What these functions hold when they end early is dropped there, and each such end has to be proved. So
// hardly anything is held where one may end: each thing is made, changed and read by a function of its
// own, and a test asks one: the first row at which something else comes.
mod apps;

ghost use Rattle.std.specs.Prelude.{◌≡◌, ◌+◌, ◌<◌, IfOk};

use apps::{Counted, Says, steps};
use builder_core::{BuildFault, Line, Stack, StackRunner, Steps, to_app};
use rack_types::{Answer, Body, Bytes, Endpoint, Env, Headers, Input, NoMemory, Runner, Step};
use std::alloc::Global;
use std::cell::Cell;
use std::rc::Rc;
use std::sync::Arc;
use stock_middleware::{Ware, WareBody};

type Said = Answer<WareBody<Counted>, u8>;

fn set(env: &mut Env, name: &str, value: &str) -> Result<(), NoMemory> {
    env.set(name.as_bytes(), value.as_bytes())
}

fn with(env: Env, name: &str, value: &str) -> Result<Env, NoMemory> {
    let mut env = env;
    match set(&mut env, name, value) {
        Ok(()) => Ok(env),
        Err(refused) => Err(refused),
    }
}

fn no_pairs(alloc: Global) -> Env {
    Env::new(alloc, Input::new(Bytes::new(Vec::new(alloc))))
}

fn env_of(alloc: Global, path: &str) -> Result<Env, NoMemory> {
    let env = with(no_pairs(alloc), "REQUEST_METHOD", "GET")?;
    with(env, "PATH_INFO", path)
}

fn put(out: &mut Vec<u8>, text: &[u8]) -> Result<(), NoMemory> {
    out.extend_from_slice(text)
}

// The names of the headers, each behind a `+`.
fn put_headers(headers: &Headers, out: &mut Vec<u8>) -> Result<(), NoMemory> {
    for i in 0..headers.len() {
        put(out, b"+")?;
        put(out, headers.name(i))?;
    }
    Ok(())
}

// The first piece of a body.
fn put_piece(body: &mut WareBody<Counted>, out: &mut Vec<u8>) -> Result<(), NoMemory> {
    match body.next()? {
        Step::Piece => put(out, body.piece()),
        Step::End => put(out, b"-"),
        Step::Raised => put(out, b"!"),
    }
}

fn close(body: WareBody<Counted>) {
    body.close();
}

// The names of the headers and the first piece of the body, which is closed.
fn put_reply(
    headers: &Headers,
    body: WareBody<Counted>,
    out: &mut Vec<u8>,
) -> Result<(), NoMemory> {
    let mut body = body;
    let named = put_headers(headers, out);
    let put = put_piece(&mut body, out);
    close(body);
    named?;
    put
}

fn put_raised(text: &Bytes, out: &mut Vec<u8>) -> Result<(), NoMemory> {
    put(out, b"raised ")?;
    put(out, text.get())
}

fn put_answer(answer: Said, out: &mut Vec<u8>) -> Result<(), NoMemory> {
    match answer {
        Answer::Reply {
            status: _status,
            headers,
            body,
            part: _part,
        } => put_reply(&headers, body, out),
        Answer::Raised(text) => put_raised(&text, out),
        Answer::Taken(_) => put(out, b"taken"),
    }
}

// An answer as text: the names of its headers and its body. Others are named.
fn shown(alloc: Global, answer: Said) -> Result<Vec<u8>, NoMemory> {
    let mut out = Vec::new(alloc);
    match put_answer(answer, &mut out) {
        Ok(()) => Ok(out),
        Err(refused) => Err(refused),
    }
}

fn call(stack: &Stack<Says>, env: &mut Env) -> Result<Said, NoMemory> {
    stack.call(env)
}

fn is_as_before(env: &Env, path: &str) -> bool {
    env.len() == 2 && env.get(b"PATH_INFO") == Some(path.as_bytes())
}

fn joined(text: Vec<u8>, more: &[u8]) -> Result<Vec<u8>, NoMemory> {
    let mut text = text;
    match put(&mut text, more) {
        Ok(()) => Ok(text),
        Err(refused) => Err(refused),
    }
}

// What a stack answers, and whether the pairs are then others than before.
fn text_in(
    alloc: Global,
    stack: &Stack<Says>,
    env: &mut Env,
    path: &str,
) -> Result<Vec<u8>, NoMemory> {
    let text = shown(alloc, call(stack, env)?)?;
    match is_as_before(env, path) {
        true => Ok(text),
        false => joined(text, b" changed"),
    }
}

fn answer_text(alloc: Global, stack: &Stack<Says>, path: &str) -> Result<Vec<u8>, NoMemory> {
    let mut env = env_of(alloc, path)?;
    text_in(alloc, stack, &mut env, path)
}

fn build(alloc: Global, steps: Steps<Says>) -> Option<Stack<Says>> {
    to_app(alloc, steps).ok()
}

fn asked(
    alloc: Global,
    text: &str,
    path: &str,
    closed: &Rc<Cell<u32>>,
) -> Result<Vec<u8>, NoMemory> {
    match build(alloc, steps(alloc, text, closed)?) {
        Some(stack) => answer_text(alloc, &stack, path),
        None => Ok(Vec::new(alloc)),
    }
}

// The same, and the number of bodies that were closed.
fn asked_counting(
    alloc: Global,
    text: &str,
    path: &str,
    closed: &Rc<Cell<u32>>,
) -> Result<(Vec<u8>, u32), NoMemory> {
    let said = asked(alloc, text, path, closed)?;
    Ok((said, closed.get()))
}

fn asked_closing(alloc: Global, text: &str, path: &str) -> Result<(Vec<u8>, u32), NoMemory> {
    let closed = Rc::new(alloc, Cell::new(0))?;
    asked_counting(alloc, text, path, &closed)
}

fn says(alloc: Global, text: &str, path: &str, wanted: &str) -> Result<bool, NoMemory> {
    let (said, _) = asked_closing(alloc, text, path)?;
    Ok(said.as_slice() == wanted.as_bytes())
}

// The first stack that answers otherwise at its path.
fn first_wrong(alloc: Global, rows: &[(&str, &str, &str)]) -> Result<Option<usize>, NoMemory> {
    for (i, (text, path, wanted)) in rows.iter().enumerate() {
        if !says(alloc, text, path, wanted)? {
            return Ok(Some(i));
        }
    }
    Ok(None)
}

const PLACES: [(&str, &str, &str); 21] = [
    // a place ends where a segment does
    ("m/foo ra e", "/foo", "a/foo:"),
    ("m/foo ra e", "/foo/", "a/foo:/"),
    (
        "m/foo ra e",
        "/foobar",
        "+content-type+x-cascadeNot Found: /foobar",
    ),
    // places nest, and a block's default is the one around it
    ("m/a m/b rb e e rout", "/a/b", "b/a/b:"),
    ("m/a m/b rb e e rout", "/a/c", "out/a:/c"),
    ("m/a m/b rb e e rout", "/x", "out:/x"),
    (
        "m/a m/b rb e e m/x rx e",
        "/a/c",
        "+content-type+x-cascadeNot Found: /c",
    ),
    // the longest wins, and the earlier line at a tie
    ("m/a r1 e m/a/b r2 e", "/a/b/c", "2/a/b:/c"),
    ("m/a/b r1 e m/a r2 e", "/a/b/c", "1/a/b:/c"),
    ("m/a r1 e m/a r2 e", "/a", "1/a:"),
    // places that end in `/`, `/` alone, and the empty one
    ("m/a/ r1 e", "/a/", "1/a/:"),
    ("m/a/ r1 e", "/a//x", "1/a/:/x"),
    ("m/a/ r1 e r2", "/a/x", "2:/a/x"),
    ("m/a/ r1 e r2", "/a", "2:/a"),
    ("m/ r1 e", "/", "1/:"),
    ("m/ r1 e", "//x", "1/:/x"),
    ("m/ r1 e r2", "/x", "2:/x"),
    ("m r1 e", "/x", "1:/x"),
    ("m r1 e", "", "1:"),
    // the path of `OPTIONS *` fits no place, the default's neither
    ("m/a r1 e r2", "*", "+content-type+x-cascadeNot Found: *"),
    ("r2", "*", "2:*"),
];

#[test]
fn places_answer(rt: HostRuntime) -> Result<(), NoMemory> {
    assert_eq!(rt; first_wrong(rt.alloc(), &PLACES)?, None);
    Ok(())
}

const AROUND: [(&str, &str, &str); 13] = [
    // the first one is outermost, so that its header comes last
    ("ub ua r1", "/", "+a+b1:/"),
    // one behind a map wraps only what follows it, which is the default of the map's block
    ("m/x r1 e ua r2", "/x", "1/x:"),
    ("m/x r1 e ua r2", "/y", "+a2:/y"),
    ("m/x e ua r2", "/x", "+a2/x:"),
    ("m/x e ua m/y r1 e r2", "/x/y", "+a1/x/y:"),
    ("m/x ua r1 e r2", "/x", "+a1/x:"),
    ("m/x ua e r2", "/x", "+a2/x:"),
    ("m/x ua e r2", "/y", "2:/y"),
    // the last `run` or `cascade` answers, wherever it stands
    ("r1 ua r2", "/", "+a2:/"),
    ("r1 c2,3", "/", "2:/"),
    ("c1 m/x r3 e r2 m/y e ua", "/y", "+a2/y:"),
    ("r2 c", "/", "-"),
    // Lint doesn't call the application where the environment breaks a rule
    ("ulint r1", "/", "+x-lint+content-length-"),
];

#[test]
fn middleware_stands_around_what_follows(rt: HostRuntime) -> Result<(), NoMemory> {
    assert_eq!(rt; first_wrong(rt.alloc(), &AROUND)?, None);
    Ok(())
}

// One body of those that are closed is that of the answer.
const CASCADES: [(&str, &str, u32); 8] = [
    ("c", "-", 0),
    ("c1", "1:/", 1),
    ("c404", "404:/", 1),
    ("c404,405", "405:/", 2),
    ("c404,1,2", "1:/", 2),
    ("c500,1", "500:/", 1),
    ("c405,raise,1", "raised raise", 1),
    ("c404,405,take,1", "taken", 2),
];

fn says_closing(alloc: Global, text: &str, wanted: &str, bodies: u32) -> Result<bool, NoMemory> {
    let (said, closed) = asked_closing(alloc, text, "/")?;
    Ok(said.as_slice() == wanted.as_bytes() && closed == bodies)
}

fn first_wrong_cascade(
    alloc: Global,
    rows: &[(&str, &str, u32)],
) -> Result<Option<usize>, NoMemory> {
    for (i, (text, wanted, bodies)) in rows.iter().enumerate() {
        if !says_closing(alloc, text, wanted, *bodies)? {
            return Ok(Some(i));
        }
    }
    Ok(None)
}

#[test]
fn cascades_answer(rt: HostRuntime) -> Result<(), NoMemory> {
    assert_eq!(rt; first_wrong_cascade(rt.alloc(), &CASCADES)?, None);
    Ok(())
}

// The name of the fault of these steps, or `built`.
fn fault_of(alloc: Global, steps: Steps<Says>) -> &'static str {
    match to_app(alloc, steps) {
        Ok(_) => "built",
        Err(BuildFault::NoRun) => "no run",
        Err(BuildFault::TooDeep) => "too deep",
        Err(BuildFault::TooMany) => "too many",
        Err(BuildFault::NoMemory) => "no memory",
    }
}

fn mapped(alloc: Global, steps: Steps<Says>) -> Result<Steps<Says>, NoMemory> {
    let mut lines = Vec::new(alloc);
    lines.push(Line::Map(Bytes::new(Vec::new(alloc)), steps))?;
    Ok(Steps { lines })
}

// So many maps, one in the other, around these steps.
fn inside(alloc: Global, maps: u32, steps: Steps<Says>) -> Result<Steps<Says>, NoMemory> {
    let mut steps = steps;
    for _ in 0..maps {
        steps = mapped(alloc, steps)?;
    }
    Ok(steps)
}

fn put_line(lines: &mut Vec<Line<Says>>, line: Line<Says>) -> Result<(), NoMemory> {
    Ok(lines.push(line)?)
}

fn put_wares(lines: &mut Vec<Line<Says>>, wares: u32) -> Result<(), NoMemory> {
    for _ in 0..wares {
        put_line(lines, Line::Use(Ware::Head))?;
    }
    Ok(())
}

fn put_lines(lines: &mut Vec<Line<Says>>, others: Vec<Line<Says>>) -> Result<(), NoMemory> {
    for line in others {
        put_line(lines, line)?;
    }
    Ok(())
}

fn put_behind(lines: &mut Vec<Line<Says>>, wares: u32, steps: Steps<Says>) -> Result<(), NoMemory> {
    let put = put_wares(lines, wares);
    let Steps { lines: others } = steps;
    let behind = put_lines(lines, others);
    put?;
    behind
}

// So many middleware in front of these steps.
fn behind(alloc: Global, wares: u32, steps: Steps<Says>) -> Result<Steps<Says>, NoMemory> {
    let mut lines = Vec::new(alloc);
    match put_behind(&mut lines, wares, steps) {
        Ok(()) => Ok(Steps { lines }),
        Err(refused) => Err(refused),
    }
}

// The steps that the words say, so many maps around them, and so many middleware in front.
fn steps_of(
    alloc: Global,
    text: &str,
    maps: u32,
    wares: u32,
    closed: &Rc<Cell<u32>>,
) -> Result<Steps<Says>, NoMemory> {
    let steps = inside(alloc, maps, steps(alloc, text, closed)?)?;
    behind(alloc, wares, steps)
}

fn wide_and_deep(
    alloc: Global,
    text: &str,
    maps: u32,
    wares: u32,
) -> Result<Steps<Says>, NoMemory> {
    let closed = Rc::new(alloc, Cell::new(0))?;
    steps_of(alloc, text, maps, wares, &closed)
}

const FAULTS: [(&str, u32, u32, &str); 21] = [
    ("", 0, 0, "no run"),
    ("ua", 0, 0, "no run"),
    ("m/a e", 0, 0, "no run"),
    ("m/a e r1", 0, 0, "built"),
    ("m/a r1 e ua m/b e", 0, 0, "no run"),
    ("m/a e c", 0, 0, "built"),
    // 256 steps, and one more
    ("r1", 0, 255, "built"),
    ("r1", 0, 256, "too many"),
    ("c1,2", 0, 253, "built"),
    ("c1,2", 0, 254, "too many"),
    ("r1 r2", 0, 255, "too many"),
    // the depth 32, and one more, also of what holds nothing
    ("r1", 32, 0, "built"),
    ("r1", 33, 0, "too deep"),
    ("c1", 31, 0, "built"),
    ("c", 32, 0, "too deep"),
    ("m/a e r1", 31, 0, "built"),
    ("m/a e r1", 32, 0, "too deep"),
    // where several stand
    ("", 33, 0, "too deep"),
    ("r1", 33, 255, "too many"),
    ("", 33, 256, "too many"),
    ("", 0, 257, "too many"),
];

fn is_fault(
    alloc: Global,
    text: &str,
    maps: u32,
    wares: u32,
    wanted: &str,
) -> Result<bool, NoMemory> {
    let steps = wide_and_deep(alloc, text, maps, wares)?;
    Ok(fault_of(alloc, steps) == wanted)
}

fn first_wrong_fault(
    alloc: Global,
    rows: &[(&str, u32, u32, &str)],
) -> Result<Option<usize>, NoMemory> {
    for (i, (text, maps, wares, wanted)) in rows.iter().enumerate() {
        if !is_fault(alloc, text, *maps, *wares, wanted)? {
            return Ok(Some(i));
        }
    }
    Ok(None)
}

#[test]
fn faults_come_in_order(rt: HostRuntime) -> Result<(), NoMemory> {
    assert_eq!(rt; first_wrong_fault(rt.alloc(), &FAULTS)?, None);
    Ok(())
}

fn runner_of(alloc: Global, stack: Stack<Says>) -> Result<StackRunner<Says>, NoMemory>
    ensures { IfOk result (λ r. r.runs ≡ 0) }
{
    Ok(StackRunner::new(Arc::new(alloc, stack)?))
}

fn run(runner: &mut StackRunner<Says>, env: &mut Env) -> Result<Said, NoMemory>
    requires { runner.old.runs < 9 }
    ensures { runner.new.runs ≡ runner.old.runs + 1 }
{
    runner.run(env)
}

// What a stack answers through a runner, twice.
fn run_in(alloc: Global, runner: &mut StackRunner<Says>, env: &mut Env) -> Result<Vec<u8>, NoMemory>
    requires { runner.old.runs ≡ 0 }
{
    let said = shown(alloc, run(runner, env)?)?;
    let Ok(answer) = run(runner, env) else {
        return Ok(said);
    };
    put_more(said, answer)
}

fn put_more(text: Vec<u8>, answer: Said) -> Result<Vec<u8>, NoMemory> {
    let mut text = text;
    match put_answer(answer, &mut text) {
        Ok(()) => Ok(text),
        Err(refused) => Err(refused),
    }
}

fn run_twice(alloc: Global, runner: &mut StackRunner<Says>) -> Result<Vec<u8>, NoMemory>
    requires { runner.old.runs ≡ 0 }
{
    let mut env = env_of(alloc, "/x")?;
    run_in(alloc, runner, &mut env)
}

fn run_stack(alloc: Global, stack: Stack<Says>) -> Result<Vec<u8>, NoMemory> {
    let mut runner = runner_of(alloc, stack)?;
    run_twice(alloc, &mut runner)
}

fn run_wide_and_deep(alloc: Global, maps: u32, wares: u32) -> Result<Vec<u8>, NoMemory> {
    match build(alloc, wide_and_deep(alloc, "r1", maps, wares)?) {
        Some(stack) => run_stack(alloc, stack),
        None => Ok(Vec::new(alloc)),
    }
}

// What the largest and the deepest stack answer.
#[test]
fn runner_serves_the_largest_stack(rt: HostRuntime) -> Result<(), NoMemory> {
    for (maps, wares) in [(0, 255), (32, 223), (32, 0)] {
        let said = run_wide_and_deep(rt.alloc(), maps, wares)?;
        assert_eq!(rt; said.as_slice(), b"1:/x1:/x".as_slice());
    }
    Ok(())
}
