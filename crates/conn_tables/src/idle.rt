// When a connection is idle: nothing is begun, and for 20,000 ms nothing was sent.
use crate::apps::App;
use crate::rows::{Row, wrong_at};
use crate::steps::Step::{Ends, Feed, Flush, Gives, Is, Moment, Owes, Place, Takes, Ticks, Turn};
use crate::texts::{GET, KEPT, POST, POST_KEPT};
use conn_core::{IdleBy, Next, State, Tick, Why};

// Opened at 100.
const ROWS: &[Row] = &[
    Row {
        name: "since the opening",
        app: App::Echoes,
        steps: &[
            Moment(100),
            Ticks(20_099, Tick::Still),
            Ticks(20_100, Tick::Over),
            Moment(20_100),
        ],
        sent: &[],
        why: Why::Idle(IdleBy::Clock {
            since: 100,
            now: 20_100,
        }),
        told: 0,
        closing: None,
    },
    Row {
        name: "a read that gave nothing doesn't count",
        app: App::Echoes,
        steps: &[
            Feed(15_000, Next::Waiting),
            Ticks(20_099, Tick::Still),
            Ticks(20_100, Tick::Over),
        ],
        sent: &[],
        why: Why::Idle(IdleBy::Clock {
            since: 100,
            now: 20_100,
        }),
        told: 0,
        closing: None,
    },
    Row {
        name: "nor do empty lines",
        app: App::Echoes,
        steps: &[
            Gives("\r\n"),
            Feed(9_000, Next::More),
            Ticks(20_099, Tick::Still),
            Ticks(20_100, Tick::Over),
        ],
        sent: &[],
        why: Why::Idle(IdleBy::Clock {
            since: 100,
            now: 20_100,
        }),
        told: 0,
        closing: None,
    },
    Row {
        name: "nor a placing",
        app: App::Echoes,
        steps: &[
            Place(3),
            Ticks(20_099, Tick::Still),
            Ticks(20_100, Tick::Over),
        ],
        sent: &[],
        why: Why::Idle(IdleBy::Clock {
            since: 100,
            now: 20_100,
        }),
        told: 0,
        closing: None,
    },
    Row {
        name: "since the last byte of a reply",
        app: App::Echoes,
        steps: &[
            Gives(GET),
            Feed(200, Next::Ready),
            Turn(5_000, Next::More),
            Is(State::Reading),
            Ticks(24_999, Tick::Still),
            Ticks(25_000, Tick::Over),
        ],
        sent: &[KEPT],
        why: Why::Idle(IdleBy::Clock {
            since: 5_000,
            now: 25_000,
        }),
        told: 0,
        closing: None,
    },
    Row {
        name: "that was written in parts",
        app: App::Echoes,
        steps: &[
            Takes(10),
            Gives(GET),
            Feed(200, Next::Ready),
            Turn(1_000, Next::Waiting),
            Takes(10),
            Flush(4_000, Next::Waiting),
            Takes(100),
            Flush(7_000, Next::More),
            Ticks(26_999, Tick::Still),
            Ticks(27_000, Tick::Over),
        ],
        sent: &[KEPT],
        why: Why::Idle(IdleBy::Clock {
            since: 7_000,
            now: 27_000,
        }),
        told: 0,
        closing: None,
    },
    Row {
        name: "since the last of two replies",
        app: App::Echoes,
        steps: &[
            Gives(GET),
            Feed(200, Next::Ready),
            Turn(5_000, Next::More),
            Gives(POST),
            Feed(6_000, Next::Ready),
            Turn(8_000, Next::More),
            Feed(27_000, Next::Waiting),
            Ticks(27_999, Tick::Still),
            Ticks(28_000, Tick::Over),
        ],
        sent: &[KEPT, POST_KEPT],
        why: Why::Idle(IdleBy::Clock {
            since: 8_000,
            now: 28_000,
        }),
        told: 0,
        closing: None,
    },
    Row {
        name: "a lone carriage return is no empty line, and its line feed makes it one",
        app: App::Echoes,
        steps: &[
            Gives("\r"),
            Feed(1_000, Next::More),
            Ticks(20_100, Tick::Still),
            Gives("\n"),
            Feed(20_200, Next::More),
            Ticks(20_200, Tick::Over),
        ],
        sent: &[],
        why: Why::Idle(IdleBy::Clock {
            since: 100,
            now: 20_200,
        }),
        told: 0,
        closing: None,
    },
    Row {
        name: "a request that stands waits for its turn",
        app: App::Echoes,
        steps: &[
            Gives(GET),
            Feed(200, Next::Ready),
            Ticks(1_000_000, Tick::Still),
            Turn(1_000_001, Next::More),
            Ticks(1_020_000, Tick::Still),
            Ticks(1_020_001, Tick::Over),
        ],
        sent: &[KEPT],
        why: Why::Idle(IdleBy::Clock {
            since: 1_000_001,
            now: 1_020_001,
        }),
        told: 0,
        closing: None,
    },
    Row {
        name: "a hijacked one is never idle",
        app: App::Hands,
        steps: &[
            Gives(GET),
            Feed(200, Next::Ready),
            Turn(300, Next::More),
            Is(State::Hijacked),
            Owes(false),
            Ticks(1_000_000, Tick::Still),
            Ends,
            Feed(1_000_001, Next::Over),
        ],
        sent: &[],
        why: Why::Hijacked,
        told: 0,
        closing: None,
    },
];

#[test]
fn is_idle_in_time(rt: HostRuntime) {
    for row in ROWS {
        assert_eq!(rt; wrong_at(rt.alloc(), row), None, "{}", row.name);
    }
}
