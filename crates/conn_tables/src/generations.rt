// Connections that go on in a newer generation: when one is idle, where it may be placed, and who answers it then.
use crate::apps::App;
use crate::rows::{Row, ended, opened, wrong_at};
use crate::steps::Step::{
    Drain, EndIdle, EndUnread, Ends, Feed, Fits, Flush, Gives, Halt, Idle, Is, Owes, Phase, Place,
    Takes, Ticks, Turn, Unread,
};
use crate::steps::{MemConn, Step, goes};
use crate::texts::{CLOSED, GET, HALF, KEPT, LAST, ONE_AND_LINE, POST, POST_CLOSED, REST};
use conn_core::{IdleBy, Life, Next, State, Tick, Told, Why};
use std::alloc::Global;

const LAST_11: &str = "GET / HTTP/1.1\r\nHost: a\r\nConnection: close\r\n\r\n";

const OLD: &str = "HTTP/1.1 200 OK\r\ncontent-length: 3\r\n\r\nold";

const NEW: &str = "HTTP/1.1 200 OK\r\ncontent-length: 3\r\n\r\nnew";

const NEW_CLOSED: &str = "HTTP/1.1 200 OK\r\ncontent-length: 3\r\nconnection: close\r\n\r\nnew";

// When it is idle, and what a drain leaves of it.
const IDLE: &[Row] = &[
    Row {
        name: "at no other moment of a request",
        app: App::Echoes,
        steps: &[
            Idle(false),
            Gives(HALF),
            Feed(200, Next::More),
            Idle(false),
            Fits(1, false),
            Takes(0),
            Gives(REST),
            Feed(300, Next::Ready),
            Idle(false),
            Fits(1, false),
            Turn(400, Next::Waiting),
            Idle(false),
            Fits(1, false),
            Takes(1_000),
            Flush(500, Next::More),
            Idle(true),
            Fits(1, true),
            Halt,
            Idle(false),
            Fits(1, false),
        ],
        sent: &[KEPT],
        why: Why::Halted { level: 2 },
        told: 0,
        closing: None,
    },
    Row {
        name: "nor where a hijacker has it",
        app: App::Hands,
        steps: &[
            Gives(GET),
            Feed(200, Next::Ready),
            Turn(300, Next::More),
            Is(State::Hijacked),
            Owes(false),
            Idle(false),
            Fits(1, false),
            Drain(1, Told::Over),
        ],
        sent: &[],
        why: Why::Hijacked,
        told: 1,
        closing: None,
    },
    Row {
        name: "it stays at each telling, and may be told otherwise behind it",
        app: App::Echoes,
        steps: &[
            Gives(GET),
            Feed(200, Next::Ready),
            Turn(300, Next::More),
            Drain(1, Told::Idle),
            Drain(2, Told::Idle),
            Is(State::Reading),
            Gives(HALF),
            Feed(400, Next::More),
            Drain(1, Told::Stays),
            Idle(false),
            Gives(REST),
            Feed(500, Next::Ready),
            Turn(600, Next::Over),
        ],
        sent: &[KEPT, CLOSED],
        why: Why::Closed,
        told: 1,
        closing: Some(1),
    },
    Row {
        name: "an empty line behind the request begins nothing",
        app: App::Echoes,
        steps: &[
            Gives(ONE_AND_LINE),
            Feed(200, Next::Ready),
            Turn(300, Next::More),
            Idle(true),
            Drain(2, Told::Idle),
            EndIdle(1),
        ],
        sent: &[KEPT],
        why: Why::Idle(IdleBy::Drain { level: 1 }),
        told: 2,
        closing: None,
    },
    Row {
        name: "it ends though nothing was told",
        app: App::Echoes,
        steps: &[
            Gives(GET),
            Feed(200, Next::Ready),
            Turn(300, Next::More),
            Unread(false),
            EndIdle(2),
            Is(State::Over),
        ],
        sent: &[KEPT],
        why: Why::Idle(IdleBy::Drain { level: 2 }),
        told: 0,
        closing: None,
    },
    Row {
        name: "told, it is idle for too long",
        app: App::Echoes,
        steps: &[
            Gives(GET),
            Feed(200, Next::Ready),
            Turn(300, Next::More),
            Drain(1, Told::Idle),
            Ticks(20_299, Tick::Still),
            Ticks(20_300, Tick::Over),
        ],
        sent: &[KEPT],
        why: Why::Idle(IdleBy::Clock {
            since: 300,
            now: 20_300,
        }),
        told: 1,
        closing: None,
    },
    Row {
        name: "placed, it was told nothing",
        app: App::Echoes,
        steps: &[
            Gives(GET),
            Feed(200, Next::Ready),
            Turn(300, Next::More),
            Drain(1, Told::Idle),
            Place(1),
            Idle(true),
            Gives(GET),
            Feed(400, Next::Ready),
            Turn(500, Next::More),
            Drain(1, Told::Idle),
            Gives(POST),
            Feed(600, Next::Ready),
            Turn(700, Next::Over),
        ],
        sent: &[KEPT, KEPT, POST_CLOSED],
        why: Why::Closed,
        told: 1,
        closing: Some(2),
    },
    Row {
        name: "no life that stays has a greater phase",
        app: App::Echoes,
        steps: &[
            Place(3),
            Fits(2, true),
            Gives(GET),
            Feed(200, Next::Ready),
            Turn(300, Next::More),
            Fits(2, false),
            Fits(3, true),
            Place(5),
            Fits(2, false),
            Fits(3, true),
            Place(3),
            Phase(3),
            Halt,
        ],
        sent: &[KEPT],
        why: Why::Halted { level: 2 },
        told: 0,
        closing: None,
    },
];

// What is done, and the lives behind it.
struct Lived {
    row: Row,
    lives: &'static [Life],
}

const LIVES: &[Lived] = &[
    Lived {
        row: Row {
            name: "two generations: a slot of its own phase, and then the next one",
            app: App::Names,
            steps: &[
                Gives(GET),
                Feed(200, Next::Ready),
                Turn(300, Next::More),
                Drain(1, Told::Idle),
                Place(0),
                Phase(0),
                Drain(1, Told::Idle),
                Place(1),
                Phase(1),
                Gives(LAST_11),
                Feed(400, Next::Ready),
                Turn(500, Next::Over),
            ],
            sent: &[OLD, NEW_CLOSED],
            why: Why::Closed,
            told: 0,
            closing: None,
        },
        lives: &[Life { first: 0, phase: 0 }, Life { first: 1, phase: 1 }],
    },
    Lived {
        row: Row {
            name: "the peer ends in the next one: with a request begun",
            app: App::Names,
            steps: &[
                Gives(GET),
                Feed(200, Next::Ready),
                Turn(300, Next::More),
                Drain(1, Told::Idle),
                Place(1),
                Gives("GET"),
                Ends,
                Feed(400, Next::More),
                Feed(500, Next::Over),
            ],
            sent: &[OLD],
            why: Why::PeerEnd,
            told: 0,
            closing: None,
        },
        lives: &[Life { first: 0, phase: 0 }, Life { first: 1, phase: 1 }],
    },
    Lived {
        row: Row {
            name: "unread: its one life has each phase",
            app: App::Names,
            steps: &[Place(4), Place(2), Place(7), EndUnread(1)],
            sent: &[],
            why: Why::Unread { level: 1 },
            told: 0,
            closing: None,
        },
        lives: &[Life { first: 0, phase: 7 }],
    },
    Lived {
        row: Row {
            name: "an empty line was read: nothing was run, so it has one life",
            app: App::Names,
            steps: &[
                Gives("\r\n"),
                Feed(200, Next::More),
                Idle(true),
                Drain(1, Told::Idle),
                Place(2),
                Gives(GET),
                Feed(300, Next::Ready),
                Turn(400, Next::More),
                EndIdle(1),
            ],
            sent: &[NEW],
            why: Why::Idle(IdleBy::Drain { level: 1 }),
            told: 0,
            closing: None,
        },
        lives: &[Life { first: 0, phase: 2 }],
    },
    Lived {
        row: Row {
            name: "placed twice: the life in which nothing was run has the last phase",
            app: App::Names,
            steps: &[
                Gives(GET),
                Feed(200, Next::Ready),
                Turn(300, Next::More),
                Place(1),
                Place(3),
                Place(3),
                Gives(LAST),
                Feed(400, Next::Ready),
                Turn(500, Next::Over),
            ],
            sent: &[OLD, NEW_CLOSED],
            why: Why::Closed,
            told: 0,
            closing: None,
        },
        lives: &[Life { first: 0, phase: 0 }, Life { first: 1, phase: 3 }],
    },
];

// Whether it ends with these lives.
fn has_lives(alloc: Global, lived: &Lived) -> bool {
    match opened(alloc) {
        Some(conn) => lives_are(alloc, lived, conn),
        None => false,
    }
}

fn lives_are(alloc: Global, lived: &Lived, mut conn: MemConn) -> bool {
    for step in lived.row.steps {
        if !goes(alloc, lived.row.app, &mut conn, *step) {
            return false;
        }
    }
    match ended(conn) {
        Some(end) => end.lives.as_slice() == lived.lives,
        None => false,
    }
}

// Answers one request, and is placed in this phase.
fn goes_on(alloc: Global, conn: &mut MemConn, phase: u32) -> bool {
    let steps = [
        Gives(GET),
        Feed(200, Next::Ready),
        Turn(300, Next::More),
        Drain(1, Told::Idle),
        Fits(phase, true),
        Place(phase),
        Phase(phase),
    ];
    all_go(alloc, conn, &steps)
}

fn all_go(alloc: Global, conn: &mut MemConn, steps: &[Step]) -> bool {
    for step in steps {
        if !goes(alloc, App::Echoes, conn, *step) {
            return false;
        }
    }
    true
}

// Lives 64 times, and is not placed once more.
fn lives_64_times(alloc: Global, mut conn: MemConn) -> Option<(usize, Why)> {
    for phase in 1..64 {
        if !goes_on(alloc, &mut conn, phase) {
            return None;
        }
    }
    let steps = [
        Gives(GET),
        Feed(200, Next::Ready),
        Turn(300, Next::More),
        Idle(true),
        Fits(63, true),
        Fits(64, false),
        Drain(1, Told::Over),
    ];
    if !all_go(alloc, &mut conn, &steps) {
        return None;
    }
    let end = ended(conn)?;
    Some((end.lives.len(), end.why))
}

#[test]
fn is_idle(rt: HostRuntime) {
    for row in IDLE {
        assert_eq!(rt; wrong_at(rt.alloc(), row), None, "{}", row.name);
    }
}

#[test]
fn goes_on_in_a_newer_generation(rt: HostRuntime) {
    for lived in LIVES {
        assert_eq!(rt;
            wrong_at(rt.alloc(), &lived.row),
            None,
            "{}",
            lived.row.name
        );
        assert!(rt; has_lives(rt.alloc(), lived), "{}", lived.row.name);
    }
}

#[test]
fn lives_at_most_64_times(rt: HostRuntime) {
    let end = match opened(rt.alloc()) {
        Some(conn) => lives_64_times(rt.alloc(), conn),
        None => None,
    };
    assert_eq!(rt; end, Some((64, Why::Idle(IdleBy::Drain { level: 1 }))));
}
