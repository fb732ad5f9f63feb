// Requests are answered in order, and what a hijacker says goes out as the link has room.
use crate::apps::App;
use crate::rows::{Row, opened, wrong_at};
use crate::steps::Step::{Feed, Flush, Gives, Halt, Is, Owes, Takes, Turn};
use crate::steps::{MemConn, goes};
use crate::texts::{CLOSED, LAST, ONE_AND_LAST_WORD, POST, POST_KEPT};
use conn_core::{Next, State, Why};

const ROWS: &[Row] = &[
    Row {
        name: "two requests in one read",
        app: App::Echoes,
        steps: &[
            Gives(POST),
            Gives(LAST),
            Feed(200, Next::Ready),
            Turn(300, Next::Over),
            Owes(false),
        ],
        sent: &[POST_KEPT, CLOSED],
        why: Why::Closed,
        told: 0,
        closing: None,
    },
    Row {
        name: "two requests, and a link that takes the replies in parts",
        app: App::Echoes,
        steps: &[
            Takes(1),
            Gives(POST),
            Gives(LAST),
            Feed(200, Next::Ready),
            Turn(300, Next::Waiting),
            Takes(38),
            Flush(400, Next::Waiting),
            Owes(true),
            Takes(1),
            Flush(500, Next::Ready),
            Owes(false),
            Takes(56),
            Turn(600, Next::Waiting),
            Takes(1),
            Flush(700, Next::Over),
        ],
        sent: &[POST_KEPT, CLOSED],
        why: Why::Closed,
        told: 0,
        closing: None,
    },
    Row {
        name: "a hijacker, and no room for what it says",
        app: App::Hands,
        steps: &[
            Takes(0),
            Gives(ONE_AND_LAST_WORD),
            Feed(200, Next::Ready),
            Turn(300, Next::More),
            Is(State::Hijacked),
            Flush(400, Next::Waiting),
            Owes(true),
            Halt,
        ],
        sent: &[],
        why: Why::Halted { level: 2 },
        told: 0,
        closing: None,
    },
    Row {
        name: "a hijacker, and room for one byte, and for ten",
        app: App::Hands,
        steps: &[
            Takes(1),
            Gives(ONE_AND_LAST_WORD),
            Feed(200, Next::Ready),
            Turn(300, Next::More),
            Is(State::Hijacked),
            Takes(1),
            Flush(400, Next::Waiting),
            Owes(true),
            Takes(10),
            Flush(500, Next::Over),
            Owes(false),
        ],
        sent: &["ABCDEFGHIJKL"],
        why: Why::Hijacked,
        told: 0,
        closing: None,
    },
];

#[test]
fn is_served(rt: HostRuntime) {
    for row in ROWS {
        assert_eq!(rt; wrong_at(rt.alloc(), row), None, "{}", row.name);
    }
}

// Its number, how many requests were run, and how many bytes came.
fn tells(conn: &MemConn) -> (u32, u64, u64) {
    (conn.number(), conn.calls(), conn.taken())
}

#[test]
fn tells_what_came_and_was_run(rt: HostRuntime) {
    let alloc = rt.alloc();
    let conn: Option<MemConn> = opened(alloc);
    match conn {
        Some(mut conn) => {
            assert_eq!(rt; tells(&conn), (7, 0, 0));
            for step in [Gives(POST), Gives(LAST), Feed(200, Next::Ready)] {
                assert!(rt; goes(alloc, App::Echoes, &mut conn, step));
            }
            assert_eq!(rt; tells(&conn), (7, 0, 67));
            assert!(rt; goes(alloc, App::Echoes, &mut conn, Turn(300, Next::Over)));
            assert_eq!(rt; tells(&conn), (7, 2, 67));
            assert_eq!(rt; conn.link().sent().len(), 97);
        }
        None => assert!(rt; false),
    }
}

// What its link sent, handed back at any moment.
fn left(conn: MemConn) -> usize {
    conn.abandon().sent().len()
}

#[test]
fn hands_its_link_back_at_any_moment(rt: HostRuntime) {
    let alloc = rt.alloc();
    for (steps, sent) in [
        (&[Is(State::Reading)][..], 0),
        (&[Gives(POST), Feed(200, Next::Ready)][..], 0),
        (
            &[
                Takes(1),
                Gives(POST),
                Feed(200, Next::Ready),
                Turn(300, Next::Waiting),
            ][..],
            1,
        ),
    ] {
        let conn: Option<MemConn> = opened(alloc);
        match conn {
            Some(mut conn) => {
                for step in steps {
                    assert!(rt; goes(alloc, App::Echoes, &mut conn, *step));
                }
                assert_eq!(rt; left(conn), sent);
            }
            None => assert!(rt; false),
        }
    }
}
