// What an operator's client sends, piece by piece, and what comes back.
ghost use Rattle.std.specs.Prelude.{◌≡◌, ⊤};
ghost use Rattle.conn_core.specs.Shown.{shown};

use crate::loads::SameLoad;
use conn_core::{Conn, State};
use control_http::{Control, SlotSeen};
use hijack_core::Never;
use master_core::{Load, Master};
use rack_outside::{MemLink, Touch};
use rack_types::{Bytes, Limits, Local, NoMemory, Peer, Plain};
use std::alloc::Global;
use std::test::Fail;

type ControlConn = Conn<MemLink, Plain, Never>;

// The peer gives these bytes.
#[derive(Drop)]
struct Gives(&'static str);

impl Touch<MemLink> for Gives {
    type Said = bool;

    ghost relates = { λ gives before said after. ⊤ };

    fn touch(&mut self, link: &mut MemLink) -> bool {
        link.give(self.0.as_bytes()).is_ok()
    }
}

// A row: what the peer gives, piece by piece; what is loaded, and how often; how many requests were run; and the bodies of
// the replies with their statuses, in order.
#[derive(Clone, Copy)]
struct Row {
    name: &'static str,
    gives: &'static [&'static str],
    load: Load,
    loads: u64,
    runs: u64,
    sent: &'static [&'static str],
}

const OK: &str =
    "HTTP/1.1 200 OK\r\ncontent-type: application/json\r\ncontent-length: 15\r\n\r\n{\"status\":\"ok\"}";

const OK_CLOSE: &str =
    "HTTP/1.1 200 OK\r\ncontent-type: application/json\r\ncontent-length: 15\r\nconnection: close\r\n\r\n{\"status\":\"ok\"}";

const FORBIDDEN: &str =
    "HTTP/1.1 403 Forbidden\r\ncontent-type: application/json\r\ncontent-length: 22\r\n\r\n{\"status\":\"forbidden\"}";

const METHOD: &str =
    "HTTP/1.1 405 Method Not Allowed\r\ncontent-type: application/json\r\ncontent-length: 19\r\n\r\n{\"status\":\"method\"}";

// A reply to HEAD has no length line.
const METHOD_HEAD: &str =
    "HTTP/1.1 405 Method Not Allowed\r\ncontent-type: application/json\r\n\r\n";

const BUSY: &str =
    "HTTP/1.1 409 Conflict\r\ncontent-type: application/json\r\ncontent-length: 38\r\n\r\n{\"phase\":0,\"status\":\"busy\",\"target\":1}";

const ABSENT: &str =
    "HTTP/1.1 422 Unprocessable Content\r\ncontent-type: application/json\r\ncontent-length: 36\r\n\r\n{\"file\":\"absent\",\"status\":\"refused\"}";

const RESTART: &str = "GET /phased-restart?token=t HTTP/1.1\r\nHost: a\r\n\r\n";

const WRONG: &str = "GET /stop?token=x HTTP/1.1\r\nHost: a\r\n\r\n";

fn rows() -> [Row; 8] {
    [
        Row {
            name: "a restart that is taken, and one while it is pending",
            gives: &[RESTART, RESTART],
            load: Load::Read,
            loads: 1,
            runs: 2,
            sent: &[OK, BUSY],
        },
        Row {
            name: "the same in one piece",
            gives: &[
                "GET /phased-restart?token=t HTTP/1.1\r\nHost: a\r\n\r\nGET /phased-restart?token=t HTTP/1.1\r\nHost: a\r\n\r\n",
            ],
            load: Load::Read,
            loads: 1,
            runs: 2,
            sent: &[OK, BUSY],
        },
        Row {
            name: "a restart that is refused leaves the master idle",
            gives: &[RESTART, RESTART],
            load: Load::Absent,
            loads: 2,
            runs: 2,
            sent: &[ABSENT, ABSENT],
        },
        Row {
            name: "a stop in the middle of three pipelined requests",
            gives: &[
                "GET /stop?token=x HTTP/1.1\r\nHost: a\r\n\r\nGET /stop?token=t HTTP/1.1\r\nHost: a\r\n\r\nGET /phased-restart?token=t HTTP/1.1\r\nHost: a\r\n\r\n",
            ],
            load: Load::Read,
            loads: 0,
            runs: 3,
            sent: &[FORBIDDEN, OK, BUSY_STOPPED],
        },
        Row {
            name: "other methods",
            gives: &[
                "POST /stop?token=t HTTP/1.1\r\nHost: a\r\nContent-Length: 2\r\n\r\nok",
                "HEAD /stop?token=t HTTP/1.1\r\nHost: a\r\n\r\n",
            ],
            load: Load::Read,
            loads: 0,
            runs: 2,
            sent: &[METHOD, METHOD_HEAD],
        },
        Row {
            name: "a token that is spelled, and one behind another",
            gives: &[
                "GET /stop?%74oken=%74 HTTP/1.1\r\nHost: a\r\n\r\n",
                "GET /stop?token=x&token=t HTTP/1.1\r\nHost: a\r\n\r\n",
            ],
            load: Load::Read,
            loads: 0,
            runs: 2,
            sent: &[OK, FORBIDDEN],
        },
        Row {
            name: "a token with a space and a zero byte",
            gives: &[
                "GET /stop?token=t+ HTTP/1.1\r\nHost: a\r\n\r\n",
                "GET /stop?token=t%00 HTTP/1.1\r\nHost: a\r\n\r\n",
            ],
            load: Load::Read,
            loads: 0,
            runs: 2,
            sent: &[FORBIDDEN, FORBIDDEN],
        },
        Row {
            name: "a request that is cut, and one that closes",
            gives: &[
                WRONG,
                "GET /stop?tok",
                "en=t HTTP/1.1\r\nHost: a\r\nConnection: close\r\n\r\n",
            ],
            load: Load::Read,
            loads: 0,
            runs: 2,
            sent: &[FORBIDDEN, OK_CLOSE],
        },
    ]
}

const BUSY_STOPPED: &str =
    "HTTP/1.1 409 Conflict\r\ncontent-type: application/json\r\ncontent-length: 38\r\n\r\n{\"phase\":0,\"status\":\"busy\",\"target\":0}";

// What was seen of a slot at rest.
const AT_REST: SlotSeen = SlotSeen {
    backlog: 0,
    running: 0,
    pool_capacity: 4,
    max_threads: 4,
    requests: 0,
};

#[test]
fn a_client_is_answered(rt: HostRuntime) -> Result<(), Fail> {
    for row in rows() {
        assert!(rt; is_answered(rt.alloc(), &row)?, "{}", row.name);
    }
    Ok(())
}

fn is_answered(alloc: Global, row: &Row) -> Result<bool, NoMemory> {
    let mut master = Master::new(alloc, 1)?;
    let mut loader = SameLoad {
        load: row.load,
        answered: None,
        loads: 0,
        faults: 0,
    };
    if master.slots().len() != 1 {
        return Ok(false);
    }
    let seen = [AT_REST];
    let mut control = Control::new(alloc, &mut master, &mut loader, b"t", &seen);
    let link = MemLink::new(alloc, 3, Bytes::new(Vec::new(alloc)));
    let local = Local {
        name: Peer::new(b"localhost").unwrap(),
        port: 9293,
        https: false,
        hijack: true,
    };
    let peer = Peer::new(b"127.0.0.1").unwrap();
    match ControlConn::open(alloc, 7, link, peer, local, Limits::stock(), 0, 100) {
        Ok(mut conn) => {
            for piece in row.gives {
                serve(&mut conn, &mut control, piece);
            }
            let runs = control.runs;
            let loads = control.loader.loads;
            let calls = conn.calls();
            let link = conn.abandon();
            Ok(
                is_joined(link.sent(), row.sent)
                    && runs == row.runs
                    && calls == runs
                    && loads == row.loads,
            )
        }
        Err(_) => Ok(false),
    }
}

// Whether these are the parts, one behind the other.
fn is_joined(sent: &[u8], parts: &[&str]) -> bool {
    let mut rest = sent;
    for part in parts {
        match rest.strip_prefix(part.as_bytes()) {
            Some(behind) => rest = behind,
            None => return false,
        }
    }
    rest.is_empty()
}

// The peer gives this piece, which is read and answered.
fn serve(conn: &mut ControlConn, control: &mut Control<'_, SameLoad>, piece: &'static str) {
    conn.touch(&mut Gives(piece));
    match conn.state() {
        State::Reading => {
            conn.feed(200);
        }
        State::Ready | State::Answering | State::Hijacked | State::Over => {}
    }
    match conn.state() {
        State::Ready => turn(conn, control),
        State::Reading | State::Answering | State::Hijacked | State::Over => {}
    }
}

fn turn(conn: &mut ControlConn, control: &mut Control<'_, SameLoad>)
    requires { (shown conn.old).state ≡ State.Ready }
{
    if control.runs < 1000 {
        conn.turn(control, 300);
    }
}
