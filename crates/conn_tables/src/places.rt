// When a connection may be placed, and what that leaves; and the other whys, each once.
use crate::apps::App;
use crate::rows::{Row, wrong_at};
use crate::steps::Step::{
    Drain, EndUnread, Ends, FailsRead, FailsWrite, Feed, Flush, Gives, Halt, Is, LackMemory, Phase,
    Place, Takes, Ticks, Turn, Unread,
};
use crate::texts::{CLOSED, GET, HEAD, KEPT, LAST, ONE_AND_HALF, ONE_AND_WORD, REFUSAL, REFUSED};
use conn_core::{IdleBy, Next, State, Tick, Told, Why};

// It is unread up to its first byte.
const PLACES: &[Row] = &[
    Row {
        name: "it is placed, more than once",
        app: App::Echoes,
        steps: &[
            Phase(0),
            Place(3),
            Phase(3),
            Unread(true),
            Place(5),
            Phase(5),
            Is(State::Reading),
            EndUnread(1),
            Phase(5),
        ],
        sent: &[],
        why: Why::Unread { level: 1 },
        told: 0,
        closing: None,
    },
    Row {
        name: "a read that gave nothing leaves it unread",
        app: App::Echoes,
        steps: &[
            Feed(200, Next::Waiting),
            Unread(true),
            Place(3),
            Phase(3),
            Halt,
            Unread(false),
        ],
        sent: &[],
        why: Why::Halted { level: 2 },
        told: 0,
        closing: None,
    },
    Row {
        name: "what the peer gave wasn't read",
        app: App::Echoes,
        steps: &[
            Gives(GET),
            Unread(true),
            Place(3),
            Feed(200, Next::Ready),
            Unread(false),
            Phase(3),
            Turn(300, Next::More),
            Unread(false),
            Phase(3),
            Ticks(20_300, Tick::Over),
        ],
        sent: &[KEPT],
        why: Why::Idle(IdleBy::Clock {
            since: 300,
            now: 20_300,
        }),
        told: 0,
        closing: None,
    },
    Row {
        name: "a byte was read",
        app: App::Echoes,
        steps: &[Gives("\r"), Feed(200, Next::More), Unread(false), Halt],
        sent: &[],
        why: Why::Halted { level: 2 },
        told: 0,
        closing: None,
    },
    Row {
        name: "what was told is told no more",
        app: App::Echoes,
        steps: &[
            Drain(2, Told::Unread),
            Place(3),
            Unread(true),
            Drain(1, Told::Unread),
            Place(4),
            Gives(GET),
            Feed(200, Next::Ready),
            Turn(300, Next::More),
            Halt,
        ],
        sent: &[KEPT],
        why: Why::Halted { level: 2 },
        told: 0,
        closing: None,
    },
    Row {
        name: "one that is over isn't unread",
        app: App::Echoes,
        steps: &[LackMemory, Unread(false)],
        sent: &[],
        why: Why::NoMemory,
        told: 0,
        closing: None,
    },
];
// How it ends without ticks, drains and halts.
const WHYS: &[Row] = &[
    Row {
        name: "the reply closes",
        app: App::Echoes,
        steps: &[Gives(LAST), Feed(200, Next::Ready), Turn(300, Next::Over)],
        sent: &[CLOSED],
        why: Why::Closed,
        told: 0,
        closing: None,
    },
    Row {
        name: "it is refused",
        app: App::Echoes,
        steps: &[
            Gives(REFUSED),
            Feed(200, Next::Ready),
            Turn(300, Next::Over),
        ],
        sent: &[REFUSAL],
        why: Why::Closed,
        told: 0,
        closing: None,
    },
    Row {
        name: "the peer ends, with nothing asked",
        app: App::Echoes,
        steps: &[Ends, Feed(200, Next::Over)],
        sent: &[],
        why: Why::PeerEnd,
        told: 0,
        closing: None,
    },
    Row {
        name: "the peer ends in the middle of a request",
        app: App::Echoes,
        steps: &[
            Gives(ONE_AND_HALF),
            Feed(200, Next::Ready),
            Turn(300, Next::More),
            Ends,
            Feed(400, Next::Over),
        ],
        sent: &[KEPT],
        why: Why::PeerEnd,
        told: 0,
        closing: None,
    },
    Row {
        name: "a read fails",
        app: App::Echoes,
        steps: &[
            Gives(GET),
            Feed(200, Next::Ready),
            Turn(300, Next::More),
            FailsRead,
            Feed(400, Next::Over),
        ],
        sent: &[KEPT],
        why: Why::ReadFailed,
        told: 0,
        closing: None,
    },
    Row {
        name: "a write fails",
        app: App::Echoes,
        steps: &[
            Takes(8),
            Gives(GET),
            Feed(200, Next::Ready),
            Turn(300, Next::Waiting),
            FailsWrite,
            Flush(400, Next::Over),
        ],
        sent: &["HTTP/1.1"],
        why: Why::WriteFailed,
        told: 0,
        closing: None,
    },
    Row {
        name: "the hijacker closes",
        app: App::Hands,
        steps: &[
            Gives(ONE_AND_WORD),
            Feed(200, Next::Ready),
            Turn(300, Next::More),
            Gives("c\u{4}d"),
            Feed(400, Next::More),
            Flush(500, Next::Over),
        ],
        sent: &["ABC"],
        why: Why::Hijacked,
        told: 0,
        closing: None,
    },
    Row {
        name: "the peer ends behind a hijack",
        app: App::Parts,
        steps: &[
            Gives(ONE_AND_WORD),
            Feed(200, Next::Ready),
            Turn(300, Next::More),
            Ends,
            Feed(400, Next::Over),
        ],
        sent: &[HEAD, "AB"],
        why: Why::Hijacked,
        told: 0,
        closing: None,
    },
    Row {
        name: "its owner lacks memory",
        app: App::Echoes,
        steps: &[
            Takes(8),
            Gives(GET),
            Feed(200, Next::Ready),
            Turn(300, Next::Waiting),
            LackMemory,
        ],
        sent: &["HTTP/1.1"],
        why: Why::NoMemory,
        told: 0,
        closing: None,
    },
];

#[test]
fn is_placed(rt: HostRuntime) {
    for row in PLACES {
        assert_eq!(rt; wrong_at(rt.alloc(), row), None, "{}", row.name);
    }
}

#[test]
fn ends_otherwise(rt: HostRuntime) {
    for row in WHYS {
        assert_eq!(rt; wrong_at(rt.alloc(), row), None, "{}", row.name);
    }
}
