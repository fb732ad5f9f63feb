// The six middleware as tables: what becomes of an answer, which method a request gets, and what Lint
// refuses. Expected values come from the tables of middleware and of rules, not from the program.
//
// What these functions hold when they end early is dropped there, and each such end has to be proved. So
// hardly anything is held where one may end: each thing is made, changed and read by a function of its
// own, and a test asks one: the first row at which something else comes.
mod methods;
mod others;
mod replies;

use rack_text::write_decimal;
use rack_types::{Answer, Body, Bytes, Env, Headers, Input, Kind, NoMemory, Plain, Step};
use std::alloc::Global;
use stock_middleware::{Ware, WareBody};

type Said = Answer<WareBody<Plain>, u8>;

// Which middleware.
enum Which {
    Head,
    ContentLength,
    ContentType,
    MethodOverride,
    SetHeader,
    Lint,
}

fn bytes_of(alloc: Global, text: &[u8]) -> Result<Bytes, NoMemory> {
    Ok(Bytes::new(Vec::from_slice(alloc, text)?))
}

// The pairs that stand behind the method.
const PAIRS: [(&str, &str); 7] = [
    ("PATH_INFO", "/"),
    ("QUERY_STRING", ""),
    ("SERVER_NAME", "a"),
    ("SERVER_PROTOCOL", "HTTP/1.1"),
    ("rack.url_scheme", "http"),
    ("rack.errors", "discard"),
    ("rack.hijack?", "true"),
];

fn set(env: &mut Env, name: &str, value: &str) -> Result<(), NoMemory> {
    env.set(name.as_bytes(), value.as_bytes())
}

fn set_pairs(env: &mut Env, pairs: &[(&str, &str)]) -> Result<(), NoMemory> {
    for (name, value) in pairs {
        set(env, name, value)?;
    }
    Ok(())
}

fn with(env: Env, name: &str, value: &str) -> Result<Env, NoMemory> {
    let mut env = env;
    match set(&mut env, name, value) {
        Ok(()) => Ok(env),
        Err(refused) => Err(refused),
    }
}

fn with_pairs(env: Env, pairs: &[(&str, &str)]) -> Result<Env, NoMemory> {
    let mut env = env;
    match set_pairs(&mut env, pairs) {
        Ok(()) => Ok(env),
        Err(refused) => Err(refused),
    }
}

fn no_pairs(alloc: Global, input: &str) -> Result<Env, NoMemory> {
    let input = bytes_of(alloc, input.as_bytes())?;
    Ok(Env::new(alloc, Input::new(input)))
}

// An environment that breaks no rule, in which a connection may be taken over.
fn env_of(alloc: Global, method: &str, input: &str) -> Result<Env, NoMemory> {
    let env = with(no_pairs(alloc, input)?, "REQUEST_METHOD", method)?;
    with_pairs(env, &PAIRS)
}

// Adds the header that a text says, with `=` between the name and the value.
fn add(headers: &mut Headers, said: &[u8]) -> Result<(), NoMemory> {
    match said.iter().position(|byte| *byte == b'=') {
        Some(at) => headers.add(&said[..at], &said[at + 1..]),
        None => Ok(()),
    }
}

fn add_all(headers: &mut Headers, said: &[u8]) -> Result<(), NoMemory> {
    for one in said.split(|byte| *byte == b'|') {
        add(headers, one)?;
    }
    Ok(())
}

// The headers that a text says, with bars between them.
fn headers_of(alloc: Global, said: &str) -> Result<Headers, NoMemory> {
    let mut headers = Headers::new(alloc);
    match add_all(&mut headers, said.as_bytes()) {
        Ok(()) => Ok(headers),
        Err(refused) => Err(refused),
    }
}

// A body of these bytes, whose number is known or not.
fn body_of(alloc: Global, text: &str, known: bool) -> Result<WareBody<Plain>, NoMemory> {
    let mut pieces = Vec::new(alloc);
    pieces.push(bytes_of(alloc, text.as_bytes())?)?;
    Ok(WareBody::App(Plain::new(pieces, false, known, Kind::Enumerable)))
}

fn reply(status: u32, headers: Headers, body: WareBody<Plain>, part: Option<u8>) -> Said {
    Answer::Reply {
        status,
        headers,
        body,
        part,
    }
}

// A reply with these headers, and five bytes whose number is known or not.
fn reply_of(alloc: Global, status: u32, said: &str, known: bool) -> Result<Said, NoMemory> {
    let headers = headers_of(alloc, said)?;
    match body_of(alloc, "hello", known) {
        Ok(body) => Ok(reply(status, headers, body, Some(7))),
        Err(refused) => Err(refused),
    }
}

fn put(out: &mut Vec<u8>, text: &[u8]) -> Result<(), NoMemory> {
    out.extend_from_slice(text)
}

fn put_number(out: &mut Vec<u8>, number: u64) -> Result<(), NoMemory> {
    write_decimal(u128::from(number), out)
}

fn put_header(out: &mut Vec<u8>, name: &[u8], value: &[u8]) -> Result<(), NoMemory> {
    put(out, name)?;
    put(out, b": ")?;
    put(out, value)?;
    put(out, b"\n")
}

fn put_headers(headers: &Headers, out: &mut Vec<u8>) -> Result<(), NoMemory> {
    for i in 0..headers.len() {
        for j in 0..headers.value_count(i) {
            put_header(out, headers.name(i), headers.value(i, j))?;
        }
    }
    Ok(())
}

// What the first `next` of a body tells.
fn put_step(body: &mut WareBody<Plain>, out: &mut Vec<u8>) -> Result<(), NoMemory> {
    match body.next()? {
        Step::Piece => put(out, body.piece()),
        Step::End => put(out, b"end"),
        Step::Raised => put(out, b"raised"),
    }
}

fn known_length(body: &WareBody<Plain>) -> Option<u64> {
    body.known_length()
}

// The same, and the length where it is known. The body is spent.
fn put_body(body: WareBody<Plain>, out: &mut Vec<u8>) -> Result<(), NoMemory> {
    let mut body = body;
    let known = known_length(&body);
    let put = put_step(&mut body, out);
    body.close();
    put?;
    put_length(out, known)
}

fn put_length(out: &mut Vec<u8>, length: Option<u64>) -> Result<(), NoMemory> {
    match length {
        Some(n) => {
            put(out, b" of ")?;
            put_number(out, n)
        }
        None => Ok(()),
    }
}

// A line for the status, and one for each value of a header.
fn put_head(
    out: &mut Vec<u8>,
    status: u32,
    headers: &Headers,
    has_part: bool,
) -> Result<(), NoMemory> {
    put_number(out, u64::from(status))?;
    put(out, if has_part { b" part\n" } else { b"\n" })?;
    put_headers(headers, out)
}

fn put_reply(
    out: &mut Vec<u8>,
    status: u32,
    headers: &Headers,
    body: WareBody<Plain>,
    has_part: bool,
) -> Result<(), NoMemory> {
    let head = put_head(out, status, headers, has_part);
    let body = put_body(body, out);
    head?;
    body
}

fn put_answer(out: &mut Vec<u8>, answer: Said) -> Result<(), NoMemory> {
    match answer {
        Answer::Reply {
            status,
            headers,
            body,
            part,
        } => put_reply(out, status, &headers, body, part.is_some()),
        Answer::Raised(text) => put(out, text.get()),
        Answer::Taken(_) => put(out, b"taken"),
    }
}

// An answer as text.
fn shown(alloc: Global, answer: Said) -> Result<Vec<u8>, NoMemory> {
    let mut out = Vec::new(alloc);
    match put_answer(&mut out, answer) {
        Ok(()) => Ok(out),
        Err(refused) => Err(refused),
    }
}

fn set_header_of(alloc: Global) -> Result<Ware, NoMemory> {
    let name = bytes_of(alloc, b"x-a")?;
    match bytes_of(alloc, b"new") {
        Ok(value) => Ok(Ware::SetHeader(name, value)),
        Err(refused) => Err(refused),
    }
}

fn ware_of(alloc: Global, which: &Which) -> Result<Ware, NoMemory> {
    match which {
        Which::Head => Ok(Ware::Head),
        Which::ContentLength => Ok(Ware::ContentLength),
        Which::ContentType => Ok(Ware::ContentType(bytes_of(alloc, b"text/html")?)),
        Which::MethodOverride => Ok(Ware::MethodOverride),
        Which::SetHeader => set_header_of(alloc),
        Which::Lint => Ok(Ware::Lint),
    }
}

// What a middleware makes of an answer.
fn after(alloc: Global, which: &Which, env: &Env, answer: Said) -> Result<Said, NoMemory> {
    let ware = ware_of(alloc, which)?;
    ware.after(alloc, env, answer)
}

fn after_text(alloc: Global, which: &Which, env: &Env, answer: Said) -> Result<Vec<u8>, NoMemory> {
    shown(alloc, after(alloc, which, env, answer)?)
}
