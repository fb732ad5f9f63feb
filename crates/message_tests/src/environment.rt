// The environment of a request that was taken, kept from the request before.
use message_framing::Intake;
use rack_env::refill;
use rack_types::{Bytes, Env, Input, Limits, Local, NoMemory, Peer, Request};
use std::alloc::Global;
use std::test::Fail;

// Fills the environment anew from the request that stands, if one does.
fn fill(env: &mut Env, intake: &mut Intake, https: bool) -> Result<(), NoMemory> {
    if intake.request().is_none() {
        return Ok(());
    }
    let input = intake.take_input();
    match intake.request() {
        Some(request) => put(env, request, input, https),
        None => Ok(()),
    }
}

fn put(env: &mut Env, request: &Request, input: Input, https: bool) -> Result<(), NoMemory> {
    let local = Local {
        name: Peer::new(b"localhost").unwrap(),
        port: 9292,
        https,
        hijack: !https,
    };
    let peer = Peer::new(b"127.0.0.1").unwrap();
    refill(env, request, input, &peer, &local)
}

// The pairs of an environment, each as a line, and its input.
fn written(alloc: Global, env: &mut Env) -> Result<Vec<u8>, NoMemory> {
    let mut lines = Vec::new(alloc);
    for i in 0..env.len() {
        lines.extend_from_slice(env.name(i))?;
        lines.extend_from_slice(b"=")?;
        lines.extend_from_slice(env.value(i))?;
        lines.extend_from_slice(b"\n")?;
    }
    lines.extend_from_slice(env.input().rest())?;
    Ok(lines)
}

// The same of the request that this text is. The environment is kept from the request before.
fn lines_of(alloc: Global, env: &mut Env, text: &[u8], https: bool) -> Result<Vec<u8>, NoMemory> {
    let mut intake = Intake::new(alloc, Limits::stock())?;
    put_request(env, &mut intake, text, https)?;
    written(alloc, env)
}

fn put_request(
    env: &mut Env,
    intake: &mut Intake,
    text: &[u8],
    https: bool,
) -> Result<(), NoMemory> {
    intake.feed(text)?;
    fill(env, intake, https)
}

// A request, whether it comes by https, and its lines.
const PAIRS: &[(&str, bool, &str)] = &[
    (
        "GET /p?q=1 HTTP/1.1\r\nHost: h:81\r\nX-A: 1\r\nx-a: 2\r\nX_B: 3\r\n\r\n",
        false,
        PLAIN,
    ),
    (
        "POST http://[::1]:080/%41 HTTP/1.1\r\nAccept: a\r\nhost: h\r\ncontent-TYPE: text/plain\r\ntransfer-encoding: chunked\r\naccept: b\r\n\r\n7\r\ntwelve \r\n5\r\nbytes\r\n0\r\n\r\n",
        true,
        ABSOLUTE,
    ),
    (
        "POST http://h:/* HTTP/1.0\r\nContent-Length: 0002\r\nX:\r\n\r\nab",
        true,
        OLD,
    ),
    ("GET / HTTP/1.1\r\nHost:\r\n\r\n", false, LOCAL),
];

#[test]
fn lists_the_pairs(rt: HostRuntime) -> Result<(), Fail> {
    let mut env = Env::new(rt.alloc(), Input::new(Bytes::new(Vec::new(rt.alloc()))));
    for (text, https, lines) in PAIRS {
        let found = lines_of(rt.alloc(), &mut env, text.as_bytes(), *https)?;
        assert!(rt; found.as_slice() == lines.as_bytes());
    }
    Ok(())
}

const PLAIN: &str = "REQUEST_METHOD=GET
SCRIPT_NAME=
PATH_INFO=/p
QUERY_STRING=q=1
SERVER_NAME=h
SERVER_PORT=81
SERVER_PROTOCOL=HTTP/1.1
REMOTE_ADDR=127.0.0.1
rack.url_scheme=http
rack.errors=discard
rack.hijack?=true
HTTP_HOST=h:81
HTTP_X_A=1, 2
";

const ABSOLUTE: &str = "REQUEST_METHOD=POST
SCRIPT_NAME=
PATH_INFO=/%41
QUERY_STRING=
SERVER_NAME=[::1]
SERVER_PORT=80
SERVER_PROTOCOL=HTTP/1.1
REMOTE_ADDR=127.0.0.1
rack.url_scheme=https
rack.errors=discard
rack.hijack?=false
CONTENT_TYPE=text/plain
CONTENT_LENGTH=12
HTTP_ACCEPT=a, b
HTTP_HOST=[::1]:080
twelve bytes";

const OLD: &str = "REQUEST_METHOD=POST
SCRIPT_NAME=
PATH_INFO=/*
QUERY_STRING=
SERVER_NAME=h
SERVER_PORT=443
SERVER_PROTOCOL=HTTP/1.0
REMOTE_ADDR=127.0.0.1
rack.url_scheme=https
rack.errors=discard
rack.hijack?=false
CONTENT_LENGTH=0002
HTTP_X=
HTTP_HOST=h:
ab";

const LOCAL: &str = "REQUEST_METHOD=GET
SCRIPT_NAME=
PATH_INFO=/
QUERY_STRING=
SERVER_NAME=localhost
SERVER_PORT=9292
SERVER_PROTOCOL=HTTP/1.1
REMOTE_ADDR=127.0.0.1
rack.url_scheme=http
rack.errors=discard
rack.hijack?=true
HTTP_HOST=
";
