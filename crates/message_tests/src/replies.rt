// Whole replies by way of small rings.
//
// What these functions hold when they end early is dropped there, and each such end has to be proved. So
// hardly anything is held where one may end: each thing is made, changed and read by a function of its
// own, and a test asks one.
use circular_buffer::HeapCircularBuffer;
use rack_types::{
    Answer, BodyRule, Bytes, Env, Fault, Headers, Input, Kind, NoMemory, Plain, Version,
};
use reply_framing::{After, Ask, Filled, Framer, put_fault};
use std::alloc::Global;

type Said = Answer<Plain, u8>;

type Framing = Framer<Plain, u8>;

fn crosses<T: Send + Drop>(_value: T) {}

fn bytes_of(alloc: Global, text: &str) -> Result<Bytes, NoMemory> {
    Ok(Bytes::new(Vec::from_slice(alloc, text.as_bytes())?))
}

fn put_header(headers: &mut Headers, header: (&str, &str)) -> Result<(), NoMemory> {
    match header.0.is_empty() {
        true => Ok(()),
        false => headers.set(header.0.as_bytes(), header.1.as_bytes()),
    }
}

// A header, or none where its name is empty.
fn headers_of(alloc: Global, header: (&str, &str)) -> Result<Headers, NoMemory> {
    let mut headers = Headers::new(alloc);
    match put_header(&mut headers, header) {
        Ok(()) => Ok(headers),
        Err(refused) => Err(refused),
    }
}

fn put_piece(alloc: Global, pieces: &mut Vec<Bytes>, text: &str) -> Result<(), NoMemory> {
    Ok(pieces.push(bytes_of(alloc, text)?)?)
}

fn put_pieces(alloc: Global, pieces: &mut Vec<Bytes>, texts: &[&str]) -> Result<(), NoMemory> {
    for text in texts {
        put_piece(alloc, pieces, text)?;
    }
    Ok(())
}

fn body_of(alloc: Global, texts: &[&str], raises: bool, known: bool) -> Result<Plain, NoMemory> {
    let mut pieces = Vec::new(alloc);
    match put_pieces(alloc, &mut pieces, texts) {
        Ok(()) => Ok(Plain::new(pieces, raises, known, Kind::Enumerable)),
        Err(refused) => Err(refused),
    }
}

fn reply(status: u32, headers: Headers, body: Plain, part: Option<u8>) -> Said {
    Answer::Reply {
        status,
        headers,
        body,
        part,
    }
}

// A reply with one header at most, and a body whose length is told or not.
fn answer_of(alloc: Global, row: &Row) -> Result<Said, NoMemory> {
    let headers = headers_of(alloc, row.header)?;
    match body_of(alloc, row.pieces, row.raises, row.known) {
        Ok(body) => Ok(reply(row.status, headers, body, None)),
        Err(refused) => Err(refused),
    }
}

fn with(env: Env, name: &str, value: &str) -> Result<Env, NoMemory> {
    let mut env = env;
    match env.set(name.as_bytes(), value.as_bytes()) {
        Ok(()) => Ok(env),
        Err(refused) => Err(refused),
    }
}

fn no_pairs(alloc: Global) -> Env {
    Env::new(alloc, Input::new(Bytes::new(Vec::new(alloc))))
}

// An environment in which a connection may be taken over.
fn env_of(alloc: Global) -> Result<Env, NoMemory> {
    let env = with(no_pairs(alloc), "REQUEST_METHOD", "GET")?;
    with(env, "rack.hijack?", "true")
}

const ASK: Ask = Ask {
    head: false,
    version: Version::Http11,
    persists: true,
};

fn framer_of(
    alloc: Global,
    ask: Ask,
    env: &Env,
    answer: Said,
    last: bool,
) -> Result<Framing, NoMemory> {
    Framer::start(alloc, ask, env, answer, last)
}

fn fill(framer: &mut Framing, ring: &mut HeapCircularBuffer<u8>) -> Result<Filled, NoMemory> {
    framer.fill(ring)
}

// Takes all that the ring has.
fn drain(ring: &mut HeapCircularBuffer<u8>, text: &mut Vec<u8>) -> Result<(), NoMemory> {
    let (front, back) = ring.as_slices();
    text.extend_from_slice(front)?;
    text.extend_from_slice(back)?;
    ring.clear();
    Ok(())
}

// All that is to come, by way of a ring, and what the last fill told.
fn pour_by(
    framer: &mut Framing,
    ring: &mut HeapCircularBuffer<u8>,
    text: &mut Vec<u8>,
) -> Result<Filled, NoMemory> {
    for _ in 0..1000 {
        let filled = fill(framer, ring)?;
        drain(ring, text)?;
        if filled != Filled::Full {
            return Ok(filled);
        }
    }
    Ok(Filled::Full)
}

// The same by a ring of so many bytes.
fn pour(
    alloc: Global,
    framer: &mut Framing,
    room: usize,
    text: &mut Vec<u8>,
) -> Result<Filled, NoMemory> {
    let mut ring = HeapCircularBuffer::with_capacity(alloc, room)?;
    pour_by(framer, &mut ring, text)
}

// How a framer ends: what becomes of the connection, and who takes it over.
fn finish(framer: Framing) -> (After, Option<u8>) {
    let after = framer.after();
    (after, framer.finish())
}

// The whole reply, what the last fill told, and what comes behind.
#[derive(Drop)]
struct Ended {
    text: Vec<u8>,
    told: Filled,
    after: After,
    hijacker: Option<u8>,
}

fn ended_with(text: Vec<u8>, told: Filled, framer: Framing) -> Ended {
    let (after, hijacker) = finish(framer);
    Ended {
        text,
        told,
        after,
        hijacker,
    }
}

fn poured(alloc: Global, framer: Framing, room: usize) -> Result<Ended, NoMemory> {
    let mut framer = framer;
    let mut text = Vec::new(alloc);
    match pour(alloc, &mut framer, room, &mut text) {
        Ok(told) => Ok(ended_with(text, told, framer)),
        Err(refused) => Err(refused),
    }
}

fn reply_of(alloc: Global, env: &Env, answer: Said, room: usize) -> Result<Ended, NoMemory> {
    let framer = framer_of(alloc, ASK, env, answer, false)?;
    poured(alloc, framer, room)
}

// An answer, its reply, and how that ends.
struct Row {
    status: u32,
    header: (&'static str, &'static str),
    pieces: &'static [&'static str],
    raises: bool,
    known: bool,
    reply: &'static str,
    told: Filled,
    after: After,
}

const ROWS: [Row; 8] = [
    Row {
        status: 200,
        header: ("content-type", "text/plain"),
        pieces: &["hello"],
        raises: false,
        known: true,
        reply: "HTTP/1.1 200 OK\r\ncontent-type: text/plain\r\ncontent-length: 5\r\n\r\nhello",
        told: Filled::Done,
        after: After::Keep,
    },
    Row {
        status: 200,
        header: ("content-type", "text/plain"),
        pieces: &["ab", "", "c"],
        raises: false,
        known: false,
        reply: "HTTP/1.1 200 OK\r\ncontent-type: text/plain\r\ntransfer-encoding: chunked\r\n\r\n2\r\nab\r\n1\r\nc\r\n0\r\n\r\n",
        told: Filled::Done,
        after: After::Keep,
    },
    Row {
        status: 200,
        header: ("content-length", "5"),
        pieces: &["abc", "defg"],
        raises: false,
        known: false,
        reply: "HTTP/1.1 200 OK\r\ncontent-length: 5\r\n\r\nabc",
        told: Filled::Broke(BodyRule(1)),
        after: After::Close,
    },
    Row {
        status: 200,
        header: ("content-length", "5"),
        pieces: &["abc"],
        raises: false,
        known: false,
        reply: "HTTP/1.1 200 OK\r\ncontent-length: 5\r\n\r\nabc",
        told: Filled::Broke(BodyRule(2)),
        after: After::Close,
    },
    Row {
        status: 200,
        header: ("content-length", "3"),
        pieces: &["ab"],
        raises: true,
        known: false,
        reply: "HTTP/1.1 200 OK\r\ncontent-length: 3\r\n\r\nab",
        told: Filled::Broke(BodyRule(3)),
        after: After::Close,
    },
    Row {
        status: 599,
        header: ("x-any", "\u{e9}"),
        pieces: &[],
        raises: true,
        known: false,
        reply: "HTTP/1.1 599 \r\nx-any: \u{e9}\r\ntransfer-encoding: chunked\r\n\r\n",
        told: Filled::Broke(BodyRule(3)),
        after: After::Close,
    },
    Row {
        status: 204,
        header: ("connection", "Close"),
        pieces: &["never sent"],
        raises: true,
        known: false,
        reply: "HTTP/1.1 204 No Content\r\nconnection: close\r\n\r\n",
        told: Filled::Done,
        after: After::Close,
    },
    Row {
        status: 4_294_967_295,
        header: ("connection", "close"),
        pieces: &["never sent"],
        raises: false,
        known: true,
        reply: "HTTP/1.1 500 Internal Server Error\r\nx-puma-fault: L1\r\ncontent-length: 0\r\n\r\n",
        told: Filled::Done,
        after: After::Keep,
    },
];

fn is_like(ended: &Ended, row: &Row) -> bool {
    let is_told = ended.told == row.told && ended.after == row.after && ended.hijacker.is_none();
    is_told && ended.text.as_slice() == row.reply.as_bytes()
}

fn is_framed(alloc: Global, env: &Env, row: &Row, room: usize) -> Result<bool, NoMemory> {
    let ended = reply_of(alloc, env, answer_of(alloc, row)?, room)?;
    Ok(is_like(&ended, row))
}

fn first_wrong_in(
    alloc: Global,
    env: &Env,
    rows: &[Row],
    room: usize,
) -> Result<Option<usize>, NoMemory> {
    for (i, row) in rows.iter().enumerate() {
        if !is_framed(alloc, env, row, room)? {
            return Ok(Some(i));
        }
    }
    Ok(None)
}

// The first row that is framed otherwise in a ring of so many bytes.
fn first_wrong(alloc: Global, rows: &[Row], room: usize) -> Result<Option<usize>, NoMemory> {
    let env = env_of(alloc)?;
    first_wrong_in(alloc, &env, rows, room)
}

fn all_framed(alloc: Global, rows: &[Row]) -> Result<bool, NoMemory> {
    for room in [1, 7, 4096] {
        if first_wrong(alloc, rows, room)?.is_some() {
            return Ok(false);
        }
    }
    Ok(true)
}

#[test]
fn frames_replies_in_any_room(rt: HostRuntime) -> Result<(), NoMemory> {
    assert!(rt; all_framed(rt.alloc(), &ROWS)?);
    Ok(())
}

// An answer that hands the connection over behind its head.
fn partial(alloc: Global) -> Said {
    let body = Plain::new(Vec::new(alloc), false, false, Kind::Enumerable);
    reply(200, Headers::new(alloc), body, Some(7))
}

fn is_handed(ended: &Ended, text: &str) -> bool {
    let is_told = ended.told == Filled::Done && ended.after == After::Hijack;
    is_told && ended.hijacker == Some(7) && ended.text.as_slice() == text.as_bytes()
}

// Whether the reply is this text, and the connection is handed over.
fn hands_out(
    alloc: Global,
    env: &Env,
    answer: Said,
    room: usize,
    text: &str,
) -> Result<bool, NoMemory> {
    let ended = reply_of(alloc, env, answer, room)?;
    Ok(is_handed(&ended, text))
}

fn hands_both_out(alloc: Global, env: &Env) -> Result<bool, NoMemory> {
    let taken = hands_out(alloc, env, Answer::Taken(7), 1, "")?;
    let partial = hands_out(alloc, env, partial(alloc), 5, "HTTP/1.1 200 OK\r\n\r\n")?;
    Ok(taken && partial)
}

#[test]
fn hands_out_the_hijacker(rt: HostRuntime) -> Result<(), NoMemory> {
    let env = env_of(rt.alloc())?;
    assert!(rt; hands_both_out(rt.alloc(), &env)?);
    Ok(())
}

fn fault_text(alloc: Global) -> Result<Vec<u8>, NoMemory> {
    let mut ring = HeapCircularBuffer::with_capacity(alloc, 512)?;
    put_fault(Fault::F(10), &mut ring);
    Ok(ring.to_vec(alloc)?)
}

#[test]
fn puts_faults(rt: HostRuntime) -> Result<(), NoMemory> {
    assert_eq!(rt;
        fault_text(rt.alloc())?.as_slice(),
        "HTTP/1.1 501 Not Implemented\r\nx-puma-fault: F10\r\ncontent-length: 0\r\nconnection: close\r\n\r\n".as_bytes()
    );
    Ok(())
}

const LAST: Ask = Ask {
    head: true,
    version: Version::Http10,
    persists: false,
};

fn last_framer(alloc: Global, env: &Env) -> Result<Framing, NoMemory> {
    framer_of(alloc, LAST, env, Answer::Taken(7), true)
}

// A framer goes into a connection, which goes from one thread to another.
#[test]
fn framers_cross(rt: HostRuntime) -> Result<(), NoMemory> {
    let env = env_of(rt.alloc())?;
    crosses(last_framer(rt.alloc(), &env)?);
    Ok(())
}
