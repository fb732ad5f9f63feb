// A runner that isn't steady and tells: what it was asked and what it answered, beside what was sent.
ghost use Rattle.std.specs.Prelude.{◌≡◌, ◌+◌, ◌%◌, ◌<◌, [], ◌∷◌, map, None, Some, IfOk, true, false};
ghost use Rattle.conn_core.specs.Shown.{shown};
ghost use Rattle.rack_types.specs.Answer.{told};
ghost use Rattle.rack_types.specs.Plain.{plain_content};
ghost use Rattle.rack_types.specs.declared.answer.Answer.TheVariants.{Reply};
ghost use Rattle.rack_types.specs.declared.body.Kind.TheVariants.{Enumerable};

use crate::peers::Peers;
use crate::rows::{is_joined, opened};
use crate::texts::{GET, HALF, LAST, POST, REFUSAL, REFUSED, REST};
use conn_core::{Conn, State};
use hijack_core::Never;
use http_server::Log;
use rack_outside::MemLink;
use rack_types::{Answer, Bytes, Env, Headers, Kind, NoMemory, Plain, Runner};
use std::alloc::Global;

type NeverConn = Conn<MemLink, Plain, Never>;

// Answers a request with the number of its call, counted from 0, and its body, and notes that body with a bar behind it.
#[derive(Drop)]
struct Counted {
    alloc: Global,
    runs: u64,
    bodies: Vec<u8>,
    answered: Log<Answer<Plain, Never>, ()>,
    asked: Log<Env, bool>,
}

impl Runner<Plain, Never> for Counted {
    ghost runs = { λ r. r.runs };

    ghost answer = { λ r ps input. Reply 200 [] (plain_content (((48 + r.runs % 10) ∷ []) ∷ input ∷ []) false true Enumerable) None };

    ghost steady = { false };

    ghost answered = { λ r. Some (map (λ p. told (λ b. b.content) p.0) r.answered.items) };

    ghost asked = { λ r. Some (map (λ p. ((p.0.pairs, p.0.input.bytes), p.1)) r.asked.items) };

    fn run(&mut self, env: &mut Env) -> Result<Answer<Plain, Never>, NoMemory> {
        let well = self.asked.and(&*env, &true);
        let refused = self.asked.and(&*env, &false);
        let digit = b'0' + (self.runs % 10) as u8;
        self.runs += 1;
        match answer_with(self.alloc, digit, env.input().all(), &mut self.bodies) {
            Ok(answer) => {
                self.asked = well;
                self.answered = self.answered.and(&answer, &());
                Ok(answer)
            }
            Err(e) => {
                self.asked = refused;
                Err(e)
            }
        }
    }
}

fn answer_with(
    alloc: Global,
    digit: u8,
    body: &[u8],
    bodies: &mut Vec<u8>,
) -> Result<Answer<Plain, Never>, NoMemory>
    ensures { IfOk result (λ a. told (λ b. b.content) a ≡ Reply 200 [] (plain_content ((digit ∷ []) ∷ body.now ∷ []) false true Enumerable) None) }
{
    bodies.extend_from_slice(body)?;
    bodies.push(b'|')?;
    let mut pieces = Vec::with_capacity(alloc, 2)?;
    pieces.push(Bytes::new(Vec::from_slice(alloc, &[digit])?))?;
    pieces.push(Bytes::new(Vec::from_slice(alloc, body)?))?;
    Ok(Answer::Reply {
        status: 200,
        headers: Headers::new(alloc),
        body: Plain::new(pieces, false, true, Kind::Enumerable),
        part: None,
    })
}

// A row: what the peer gives, piece by piece; what is sent, in parts; and the bodies that the runner was asked for.
#[derive(Clone, Copy)]
struct Told {
    name: &'static str,
    gives: &'static [&'static str],
    sent: &'static [&'static str],
    bodies: &'static str,
    runs: u64,
}

const FIRST: &str = "HTTP/1.1 200 OK\r\ncontent-length: 3\r\n\r\n0ok";

const SECOND: &str = "HTTP/1.1 200 OK\r\ncontent-length: 1\r\n\r\n1";

const THIRD: &str = "HTTP/1.1 200 OK\r\ncontent-length: 1\r\nconnection: close\r\n\r\n2";

const THREE: &str =
    "POST / HTTP/1.1\r\nHost: a\r\nContent-Length: 2\r\n\r\nokGET / HTTP/1.1\r\nHost: a\r\n\r\nGET / HTTP/1.0\r\n\r\n";

const ROWS: &[Told] = &[
    Told {
        name: "one request behind the other",
        gives: &[POST, GET, LAST],
        sent: &[FIRST, SECOND, THIRD],
        bodies: "ok|||",
        runs: 3,
    },
    Told {
        name: "all in one piece",
        gives: &[THREE],
        sent: &[FIRST, SECOND, THIRD],
        bodies: "ok|||",
        runs: 3,
    },
    Told {
        name: "one that is cut",
        gives: &[POST, HALF, REST, LAST],
        sent: &[FIRST, SECOND, THIRD],
        bodies: "ok|||",
        runs: 3,
    },
    Told {
        name: "one that is refused behind another",
        gives: &[POST, REFUSED],
        sent: &[FIRST, REFUSAL],
        bodies: "ok|",
        runs: 1,
    },
    Told {
        name: "bytes behind the last one, which is not run",
        gives: &[THREE, GET],
        sent: &[FIRST, SECOND, THIRD],
        bodies: "ok|||",
        runs: 3,
    },
];

#[test]
fn tells_what_is_sent(rt: HostRuntime) {
    for row in ROWS {
        assert!(rt; is_told(rt.alloc(), row), "{}", row.name);
    }
}

fn is_told(alloc: Global, row: &Told) -> bool {
    let mut runner = Counted {
        alloc,
        runs: 0,
        bodies: Vec::new(alloc),
        answered: Log::new(),
        asked: Log::new(),
    };
    let conn: Option<NeverConn> = opened(alloc);
    match conn {
        Some(mut conn) => {
            for piece in row.gives {
                serve(&mut conn, &mut runner, piece);
            }
            let calls = conn.calls();
            let link = conn.abandon();
            is_joined(link.sent(), row.sent)
                && runner.bodies.as_slice() == row.bodies.as_bytes()
                && runner.runs == row.runs
                && calls == row.runs
        }
        None => false,
    }
}

// The peer gives this piece, which is read and answered.
fn serve(conn: &mut NeverConn, runner: &mut Counted, piece: &'static str) {
    conn.touch(&mut Peers::Gives(piece));
    match conn.state() {
        State::Reading => {
            conn.feed(200);
        }
        State::Ready | State::Answering | State::Hijacked | State::Over => {}
    }
    match conn.state() {
        State::Ready => turn(conn, runner),
        State::Reading | State::Answering | State::Hijacked | State::Over => {}
    }
}

fn turn(conn: &mut NeverConn, runner: &mut Counted)
    requires { (shown conn.old).state ≡ State.Ready }
{
    if runner.runs < 1000 {
        conn.turn(runner, 300);
    }
}
