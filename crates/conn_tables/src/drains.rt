// What the telling of a drain leaves, up to the run of a request.
use crate::apps::App;
use crate::rows::{Row, wrong_at};
use crate::steps::Step::{
    Drain, EndIdle, EndUnread, Ends, Feed, Flush, Gives, Is, Phase, Place, Takes, Ticks, Turn,
    Unread,
};
use crate::texts::{
    CLOSED, GET, HALF, KEPT, LAST, LATE, POST, POST_CLOSED, REFUSAL, REFUSED, REST,
};
use conn_core::{IdleBy, Next, State, Tick, Told, Why};

// No byte was read, or no byte of a request.
const UNREAD: &[Row] = &[
    Row {
        name: "it may be let go",
        app: App::Echoes,
        steps: &[
            Drain(1, Told::Unread),
            Is(State::Reading),
            Unread(true),
            EndUnread(1),
        ],
        sent: &[],
        why: Why::Unread { level: 1 },
        told: 1,
        closing: None,
    },
    Row {
        name: "at each level",
        app: App::Echoes,
        steps: &[Drain(2, Told::Unread), EndUnread(2)],
        sent: &[],
        why: Why::Unread { level: 2 },
        told: 2,
        closing: None,
    },
    Row {
        name: "told twice",
        app: App::Echoes,
        steps: &[Drain(1, Told::Unread), Drain(2, Told::Unread), EndUnread(1)],
        sent: &[],
        why: Why::Unread { level: 1 },
        told: 2,
        closing: None,
    },
    Row {
        name: "though nothing was told",
        app: App::Echoes,
        steps: &[EndUnread(1)],
        sent: &[],
        why: Why::Unread { level: 1 },
        told: 0,
        closing: None,
    },
    Row {
        name: "what the peer gave wasn't read yet",
        app: App::Echoes,
        steps: &[
            Gives(GET),
            Drain(1, Told::Unread),
            Feed(200, Next::Ready),
            Unread(false),
            Turn(300, Next::Over),
        ],
        sent: &[CLOSED],
        why: Why::Closed,
        told: 1,
        closing: Some(0),
    },
    Row {
        name: "it is read on",
        app: App::Echoes,
        steps: &[
            Drain(1, Told::Unread),
            Gives(HALF),
            Feed(200, Next::More),
            Gives(REST),
            Feed(300, Next::Ready),
            Turn(400, Next::Over),
        ],
        sent: &[CLOSED],
        why: Why::Closed,
        told: 1,
        closing: Some(0),
    },
    Row {
        name: "it may be idle",
        app: App::Echoes,
        steps: &[
            Drain(1, Told::Unread),
            Ticks(20_099, Tick::Still),
            Ticks(20_100, Tick::Over),
        ],
        sent: &[],
        why: Why::Idle(IdleBy::Clock {
            since: 100,
            now: 20_100,
        }),
        told: 1,
        closing: None,
    },
    Row {
        name: "it is placed, and was told nothing",
        app: App::Echoes,
        steps: &[Drain(1, Told::Unread), Place(3), Phase(3), EndUnread(1)],
        sent: &[],
        why: Why::Unread { level: 1 },
        told: 0,
        closing: None,
    },
    Row {
        name: "it is placed, and serves on",
        app: App::Echoes,
        steps: &[
            Drain(1, Told::Unread),
            Place(3),
            Gives(GET),
            Feed(200, Next::Ready),
            Turn(300, Next::More),
            Is(State::Reading),
            Ticks(20_300, Tick::Over),
        ],
        sent: &[KEPT],
        why: Why::Idle(IdleBy::Clock {
            since: 300,
            now: 20_300,
        }),
        told: 0,
        closing: None,
    },
    Row {
        name: "an empty line was read",
        app: App::Echoes,
        steps: &[
            Gives("\r\n"),
            Feed(200, Next::More),
            Unread(false),
            Drain(1, Told::Idle),
            EndIdle(1),
        ],
        sent: &[],
        why: Why::Idle(IdleBy::Drain { level: 1 }),
        told: 1,
        closing: None,
    },
];
// A request was begun.
const BEGUN: &[Row] = &[
    Row {
        name: "it is answered, and closes",
        app: App::Echoes,
        steps: &[
            Gives(HALF),
            Feed(200, Next::More),
            Drain(1, Told::Stays),
            Is(State::Reading),
            Gives(REST),
            Feed(300, Next::Ready),
            Turn(400, Next::Over),
        ],
        sent: &[CLOSED],
        why: Why::Closed,
        told: 1,
        closing: Some(0),
    },
    Row {
        name: "a body is on its way",
        app: App::Echoes,
        steps: &[
            Gives("POST / HTTP/1.1\r\nHost: a\r\nContent-Length: 2\r\n\r\no"),
            Feed(200, Next::More),
            Drain(1, Told::Stays),
            Gives("k"),
            Feed(300, Next::Ready),
            Turn(400, Next::Over),
        ],
        sent: &[POST_CLOSED],
        why: Why::Closed,
        told: 1,
        closing: Some(0),
    },
    Row {
        name: "told twice",
        app: App::Echoes,
        steps: &[
            Gives(HALF),
            Feed(200, Next::More),
            Drain(1, Told::Stays),
            Drain(2, Told::Stays),
            Gives(REST),
            Feed(300, Next::Ready),
            Turn(400, Next::Over),
        ],
        sent: &[CLOSED],
        why: Why::Closed,
        told: 2,
        closing: Some(0),
    },
    Row {
        name: "it takes too long",
        app: App::Echoes,
        steps: &[
            Gives(HALF),
            Feed(200, Next::More),
            Drain(1, Told::Stays),
            Ticks(30_199, Tick::Still),
            Ticks(30_200, Tick::Write),
            Flush(30_300, Next::Over),
        ],
        sent: &[LATE],
        why: Why::TimedOut {
            since: 200,
            now: 30_200,
        },
        told: 1,
        closing: None,
    },
    Row {
        name: "told while the reply that says so is owed",
        app: App::Echoes,
        steps: &[
            Takes(0),
            Gives(HALF),
            Feed(200, Next::More),
            Ticks(30_200, Tick::Write),
            Drain(1, Told::Write),
            Is(State::Answering),
            Drain(2, Told::Write),
            Takes(1_000),
            Flush(30_300, Next::Over),
        ],
        sent: &[LATE],
        why: Why::TimedOut {
            since: 200,
            now: 30_200,
        },
        told: 2,
        closing: None,
    },
    Row {
        name: "the peer ends",
        app: App::Echoes,
        steps: &[
            Gives(HALF),
            Feed(200, Next::More),
            Drain(1, Told::Stays),
            Ends,
            Feed(300, Next::Over),
        ],
        sent: &[],
        why: Why::PeerEnd,
        told: 1,
        closing: None,
    },
    Row {
        name: "a lone carriage return, and its line feed; then it is told again",
        app: App::Echoes,
        steps: &[
            Gives("\r"),
            Feed(200, Next::More),
            Drain(1, Told::Stays),
            Gives("\n"),
            Feed(300, Next::More),
            Is(State::Reading),
            Drain(1, Told::Idle),
            EndIdle(1),
        ],
        sent: &[],
        why: Why::Idle(IdleBy::Drain { level: 1 }),
        told: 1,
        closing: None,
    },
    Row {
        name: "it is refused",
        app: App::Echoes,
        steps: &[
            Gives("GET / HTTP/1.1\r\n"),
            Feed(200, Next::More),
            Drain(1, Told::Stays),
            Gives("\r\n"),
            Feed(300, Next::Ready),
            Turn(400, Next::Over),
        ],
        sent: &[REFUSAL],
        why: Why::Closed,
        told: 1,
        closing: None,
    },
];
// It stands whole.
const WHOLE: &[Row] = &[
    Row {
        name: "it waits for its turn",
        app: App::Echoes,
        steps: &[
            Gives(GET),
            Feed(200, Next::Ready),
            Drain(1, Told::Stays),
            Is(State::Ready),
            Turn(300, Next::Over),
        ],
        sent: &[CLOSED],
        why: Why::Closed,
        told: 1,
        closing: Some(0),
    },
    Row {
        name: "told twice",
        app: App::Echoes,
        steps: &[
            Gives(POST),
            Feed(200, Next::Ready),
            Drain(1, Told::Stays),
            Drain(2, Told::Stays),
            Turn(300, Next::Over),
        ],
        sent: &[POST_CLOSED],
        why: Why::Closed,
        told: 2,
        closing: Some(0),
    },
    Row {
        name: "its reply closes anyway",
        app: App::Echoes,
        steps: &[
            Gives(LAST),
            Feed(200, Next::Ready),
            Drain(1, Told::Stays),
            Turn(300, Next::Over),
        ],
        sent: &[CLOSED],
        why: Why::Closed,
        told: 1,
        closing: Some(0),
    },
    Row {
        name: "a refusal waits",
        app: App::Echoes,
        steps: &[
            Gives(REFUSED),
            Feed(200, Next::Ready),
            Drain(1, Told::Stays),
            Is(State::Ready),
            Turn(300, Next::Over),
        ],
        sent: &[REFUSAL],
        why: Why::Closed,
        told: 1,
        closing: None,
    },
    Row {
        name: "its reply finds no room",
        app: App::Echoes,
        steps: &[
            Takes(0),
            Gives(GET),
            Feed(200, Next::Ready),
            Drain(1, Told::Stays),
            Turn(300, Next::Waiting),
            Drain(1, Told::Write),
            Takes(3),
            Flush(400, Next::Waiting),
            Takes(1_000),
            Flush(500, Next::Over),
        ],
        sent: &[CLOSED],
        why: Why::Closed,
        told: 1,
        closing: Some(0),
    },
    Row {
        name: "a second one isn't read yet",
        app: App::Echoes,
        steps: &[
            Drain(1, Told::Unread),
            Gives(GET),
            Feed(200, Next::Ready),
            Gives(POST),
            Turn(300, Next::Over),
        ],
        sent: &[CLOSED],
        why: Why::Closed,
        told: 1,
        closing: Some(0),
    },
];

#[test]
fn drains_the_unread(rt: HostRuntime) {
    for row in UNREAD {
        assert_eq!(rt; wrong_at(rt.alloc(), row), None, "{}", row.name);
    }
}

#[test]
fn drains_the_begun(rt: HostRuntime) {
    for row in BEGUN {
        assert_eq!(rt; wrong_at(rt.alloc(), row), None, "{}", row.name);
    }
}

#[test]
fn drains_the_whole(rt: HostRuntime) {
    for row in WHOLE {
        assert_eq!(rt; wrong_at(rt.alloc(), row), None, "{}", row.name);
    }
}
