// The greatest moment that was handed to a call.
use crate::apps::App;
use crate::rows::{Row, wrong_at};
use crate::steps::Step::{
    Drain, EndUnread, Feed, Flush, Gives, Halt, Moment, Place, Takes, Ticks, Turn,
};
use crate::texts::{GET, KEPT, LATE};
use conn_core::{IdleBy, Next, Tick, Told, Why};

// Opened at 100.
const ROWS: &[Row] = &[
    Row {
        name: "it is the greatest of all",
        app: App::Echoes,
        steps: &[
            Moment(100),
            Feed(50, Next::Waiting),
            Moment(100),
            Ticks(70, Tick::Still),
            Moment(100),
            Feed(500, Next::Waiting),
            Moment(500),
            Ticks(400, Tick::Still),
            Moment(500),
            Ticks(600, Tick::Still),
            Moment(600),
            Drain(1, Told::Unread),
            Place(3),
            Moment(600),
            EndUnread(1),
            Moment(600),
        ],
        sent: &[],
        why: Why::Unread { level: 1 },
        told: 0,
        closing: None,
    },
    Row {
        name: "through turn and flush too",
        app: App::Echoes,
        steps: &[
            Takes(0),
            Gives(GET),
            Feed(200, Next::Ready),
            Turn(150, Next::Waiting),
            Moment(200),
            Flush(180, Next::Waiting),
            Moment(200),
            Flush(300, Next::Waiting),
            Moment(300),
            Takes(100),
            Flush(250, Next::More),
            Moment(300),
            Gives(GET),
            Feed(350, Next::Ready),
            Turn(400, Next::More),
            Moment(400),
            Halt,
            Moment(400),
        ],
        sent: &[KEPT, KEPT],
        why: Why::Halted { level: 2 },
        told: 0,
        closing: None,
    },
    Row {
        name: "what is kept is what was handed in, though it be smaller",
        app: App::Echoes,
        steps: &[
            Gives("G"),
            Feed(50, Next::More),
            Moment(100),
            Ticks(30_049, Tick::Still),
            Ticks(30_050, Tick::Write),
            Flush(7, Next::Over),
        ],
        sent: &[LATE],
        why: Why::TimedOut {
            since: 50,
            now: 30_050,
        },
        told: 0,
        closing: None,
    },
    Row {
        name: "an idle one too",
        app: App::Echoes,
        steps: &[
            Gives(GET),
            Feed(200, Next::Ready),
            Turn(90, Next::More),
            Moment(200),
            Ticks(20_089, Tick::Still),
            Ticks(20_090, Tick::Over),
        ],
        sent: &[KEPT],
        why: Why::Idle(IdleBy::Clock {
            since: 90,
            now: 20_090,
        }),
        told: 0,
        closing: None,
    },
    Row {
        name: "a stalled one too",
        app: App::Echoes,
        steps: &[
            Takes(0),
            Gives(GET),
            Feed(200, Next::Ready),
            Turn(90, Next::Waiting),
            Ticks(10_089, Tick::Still),
            Ticks(10_090, Tick::Over),
        ],
        sent: &[],
        why: Why::Stalled {
            since: 90,
            now: 10_090,
        },
        told: 0,
        closing: None,
    },
    Row {
        name: "a tick before what is kept does nothing",
        app: App::Echoes,
        steps: &[
            Gives("G"),
            Feed(40_000, Next::More),
            Ticks(100, Tick::Still),
            Ticks(0, Tick::Still),
            Moment(40_000),
            Ticks(69_999, Tick::Still),
            Ticks(70_000, Tick::Write),
            Flush(70_000, Next::Over),
        ],
        sent: &[LATE],
        why: Why::TimedOut {
            since: 40_000,
            now: 70_000,
        },
        told: 0,
        closing: None,
    },
];

#[test]
fn keeps_moments(rt: HostRuntime) {
    for row in ROWS {
        assert_eq!(rt; wrong_at(rt.alloc(), row), None, "{}", row.name);
    }
}
