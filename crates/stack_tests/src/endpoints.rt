// What each endpoint answers, written down; what the clauses say of it is worked beside the definitions.
use hijack_core::{Hijack, StockHijack};
use rack_text::write_decimal;
use rack_types::{Answer, Body, Bytes, Endpoint, Env, Headers, Input, Kind, NoMemory, Plain, Step};
use std::alloc::Global;
use std::test::Fail;
use stock_apps::{App, Texts, WordsFault};

// The request that is asked: a few pairs, and this input.
fn asked(alloc: Global, input: &[u8]) -> Result<Env, NoMemory> {
    let input = Input::new(Bytes::new(Vec::from_slice(alloc, input)?));
    let mut env = Env::with_room(alloc, 3, input)?;
    env.set(b"REQUEST_METHOD", b"GET")?;
    env.set(b"SCRIPT_NAME", b"")?;
    env.set(b"HTTP_X_A", b"1, 2")?;
    Ok(env)
}

// What an endpoint answers to the request.
fn answer<E: Endpoint<Body = Plain, Take = StockHijack>>(
    alloc: Global,
    endpoint: &E,
    input: &[u8],
) -> Result<Vec<u8>, NoMemory> {
    let mut env = asked(alloc, input)?;
    let answer = endpoint.call(&mut env)?;
    written(alloc, answer)
}

fn written(alloc: Global, answer: Answer<Plain, StockHijack>) -> Result<Vec<u8>, NoMemory> {
    match answer {
        Answer::Reply {
            status,
            headers,
            body,
            part,
        } => reply_text(alloc, status, headers, body, part),
        Answer::Raised(raised) => raised_text(alloc, raised),
        Answer::Taken(hijacker) => taken_text(alloc, hijacker),
    }
}

fn reply_text(
    alloc: Global,
    status: u32,
    headers: Headers,
    body: Plain,
    part: Option<StockHijack>,
) -> Result<Vec<u8>, NoMemory> {
    let mut text = Vec::new(alloc);
    put_head(&mut text, status, &headers)?;
    put_body(&mut text, body)?;
    match part {
        Some(hijacker) => put(&mut text, " ", &taken_text(alloc, hijacker)?)?,
        None => {}
    }
    Ok(text)
}

fn raised_text(alloc: Global, raised: Bytes) -> Result<Vec<u8>, NoMemory> {
    let mut text = Vec::new(alloc);
    put(&mut text, "raised ", raised.get())?;
    Ok(text)
}

// What the hijacker says to two letters.
fn taken_text(alloc: Global, mut hijacker: StockHijack) -> Result<Vec<u8>, NoMemory> {
    let mut text = Vec::new(alloc);
    let said = hijacker.on_bytes(b"aB")?;
    put(&mut text, "taken ", said.bytes.get())?;
    Ok(text)
}

fn put(text: &mut Vec<u8>, before: &str, bytes: &[u8]) -> Result<(), NoMemory> {
    text.extend_from_slice(before.as_bytes())?;
    text.extend_from_slice(bytes)
}

// The status, and each value behind its name.
fn put_head(text: &mut Vec<u8>, status: u32, headers: &Headers) -> Result<(), NoMemory> {
    write_decimal(u128::from(status), text)?;
    for i in 0..headers.len() {
        for j in 0..headers.value_count(i) {
            put(text, " ", headers.name(i))?;
            put(text, ":", headers.value(i, j))?;
        }
    }
    Ok(())
}

// The kind of a body, its length where it is known, each piece behind a bar, and `!` where it raises.
fn put_body(text: &mut Vec<u8>, mut body: Plain) -> Result<(), NoMemory> {
    match body.kind() {
        Kind::Enumerable => put(text, " ", b"each")?,
        Kind::Streaming => put(text, " ", b"stream")?,
    }
    if let Some(length) = body.known_length() {
        put(text, " ", b"")?;
        write_decimal(u128::from(length), text)?;
    }
    for _ in 0..9 {
        match body.next()? {
            Step::Piece => put(text, "|", body.piece())?,
            Step::End => return Ok(()),
            Step::Raised => return put(text, "!", b""),
        }
    }
    Ok(())
}

fn texts(alloc: Global, words: &[&str]) -> Result<Vec<Bytes>, NoMemory> {
    let mut texts = Vec::new(alloc);
    for word in words {
        texts.push(Bytes::new(Vec::from_slice(alloc, word.as_bytes())?))?;
    }
    Ok(texts)
}

// What the endpoint that a name and its arguments say answers, or what is wrong with them.
fn said(alloc: Global, name: &str, words: &[&str]) -> Result<Vec<u8>, NoMemory> {
    let arguments = texts(alloc, words)?;
    match App::from_words(alloc, name.as_bytes(), &arguments)? {
        Ok(app) => answer(alloc, &app, b"in\n"),
        Err(WordsFault::Unknown) => Vec::from_slice(alloc, b"unknown"),
        Err(WordsFault::Count) => Vec::from_slice(alloc, b"count"),
        Err(WordsFault::Form) => Vec::from_slice(alloc, b"form"),
    }
}

// What no words say: a cookie list of none, and numbers that stand for no rule.
fn unsaid(alloc: Global) -> Result<Vec<u8>, NoMemory> {
    let none = App::Cookies(Texts::new(Vec::new(alloc)));
    let mut text = answer(alloc, &none, b"")?;
    let other = App::Bad(Bytes::new(Vec::from_slice(alloc, &[0, 9, 255])?));
    put(&mut text, ", ", &answer(alloc, &other, b"")?)?;
    put(&mut text, ", ", &answer(alloc, &App::Echo, b"")?)?;
    Ok(text)
}

const ROWS: &[(&str, &[&str], &str)] = &[
    (
        "text",
        &["200", "text/plain", "hello"],
        "200 content-type:text/plain each 5|hello",
    ),
    ("text", &["204", "", ""], "204 content-type: each 0|"),
    ("echo", &[], "200 content-type:text/plain each 3|in\n"),
    (
        "env",
        &[],
        "200 content-type:text/plain each 49|REQUEST_METHOD=GET\nSCRIPT_NAME=\\e\nHTTP_X_A=1,\\s2\n",
    ),
    (
        "pieces",
        &["200", "ab", "", "c"],
        "200 content-type:text/plain each|ab||c",
    ),
    ("pieces", &["404"], "404 content-type:text/plain each"),
    (
        "stream",
        &["ab", "c"],
        "200 content-type:text/plain stream|ab|c",
    ),
    ("stream", &[], "200 content-type:text/plain stream"),
    (
        "cookies",
        &["a=1", "b=2"],
        "200 set-cookie:a=1 set-cookie:b=2 each 0",
    ),
    ("bad", &["1"], "99 each 2|ok"),
    ("bad", &["2"], "200 a b:x each 2|ok"),
    ("bad", &["3"], "200 status:x each 2|ok"),
    ("bad", &["4"], "200 X-Upper:x each 2|ok"),
    ("bad", &["5"], "200 x-five:a\u{1} each 2|ok"),
    ("bad", &["6"], "204 content-type:text/plain each 2|ok"),
    ("bad", &["7"], "204 content-length:2 each 2|ok"),
    ("bad", &["8"], "200 content-length:5x each 2|ok"),
    ("bad", &["10"], "200 content-length:3 each 2|ok"),
    (
        "bad",
        &["10", "8", "7", "6", "5", "4", "3", "2"],
        "204 content-length:3 content-length:5x content-length:2 content-type:text/plain x-five:a\u{1} X-Upper:x status:x a b:x each 2|ok",
    ),
    ("raise", &[""], "raised "),
    ("raise", &["oops"], "raised oops"),
    (
        "late",
        &["5", "abc", "defg"],
        "200 content-length:5 each|abc|defg",
    ),
    ("late", &["003", "ab", "!"], "200 content-length:3 each|ab!"),
    ("late", &["3", "!"], "200 content-length:3 each!"),
    ("late", &["0", "!", ""], "200 content-length:0 each|!|"),
    ("late", &["1000000"], "200 content-length:1000000 each"),
    ("take", &["echo"], "taken aB"),
    ("take", &["upper"], "taken AB"),
    ("part", &["200", "upper"], "200 each taken AB"),
    ("part", &["0999", "echo"], "999 each taken aB"),
    ("boil", &["eggs"], "unknown"),
    ("echo", &[""], "count"),
    ("text", &["99", "text/plain"], "count"),
    ("cookies", &[], "count"),
    (
        "bad",
        &["1", "2", "3", "4", "5", "6", "7", "8", "9"],
        "count",
    ),
    ("take", &[], "count"),
    ("take", &["echo", "upper"], "count"),
    ("part", &["echo"], "count"),
    ("part", &["99", "echo", ""], "count"),
    ("text", &["99", "text/plain", "a"], "form"),
    ("pieces", &["1000"], "form"),
    ("bad", &["9"], "form"),
    ("late", &["1000001"], "form"),
    ("take", &["Echo"], "form"),
    ("part", &["99", "echo"], "form"),
    ("part", &["1000", "upper"], "form"),
    ("part", &["200", ""], "form"),
];

#[test]
fn endpoints_answer(rt: HostRuntime) -> Result<(), Fail> {
    for (name, words, wanted) in ROWS {
        let said = said(rt.alloc(), name, words)?;
        assert_eq!(rt; said.as_slice(), wanted.as_bytes(), "{name} {wanted}");
    }
    assert_eq!(rt;
        unsaid(rt.alloc())?.as_slice(),
        b"200 each 0, 200 each 2|ok, 200 content-type:text/plain each 0|".as_slice()
    );
    Ok(())
}
