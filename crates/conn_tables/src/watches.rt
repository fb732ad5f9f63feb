// A connection hands its link to a watcher once, and asks for writing exactly where bytes are owed.
use crate::apps::App;
use crate::notes::{Call, Notes};
use crate::rows::opened;
use crate::steps::Step::{Feed, Flush, Gives, Is, LackMemory, Takes, Turn};
use crate::steps::{MemConn, Step, goes};
use crate::texts::{GET, ONE_AND_WORD};
use conn_core::{Next, State};
use std::alloc::Global;

// A connection, and whether it is then watched for writing too.
#[derive(Clone, Copy)]
struct Row {
    name: &'static str,
    app: App,
    steps: &'static [Step],
    write: bool,
}

const ROWS: &[Row] = &[
    Row {
        name: "it is fresh",
        app: App::Echoes,
        steps: &[Is(State::Reading)],
        write: false,
    },
    Row {
        name: "a request waits for its turn",
        app: App::Echoes,
        steps: &[Gives(GET), Feed(200, Next::Ready)],
        write: false,
    },
    Row {
        name: "a reply is owed",
        app: App::Echoes,
        steps: &[
            Takes(0),
            Gives(GET),
            Feed(200, Next::Ready),
            Turn(300, Next::Waiting),
            Is(State::Answering),
        ],
        write: true,
    },
    Row {
        name: "the reply was sent",
        app: App::Echoes,
        steps: &[
            Takes(0),
            Gives(GET),
            Feed(200, Next::Ready),
            Turn(300, Next::Waiting),
            Takes(1_000),
            Flush(400, Next::More),
            Is(State::Reading),
        ],
        write: false,
    },
    Row {
        name: "a hijacker hears",
        app: App::Hands,
        steps: &[
            Gives(GET),
            Feed(200, Next::Ready),
            Turn(300, Next::More),
            Is(State::Hijacked),
        ],
        write: false,
    },
    Row {
        name: "what a hijacker said is owed",
        app: App::Hands,
        steps: &[
            Takes(0),
            Gives(ONE_AND_WORD),
            Feed(200, Next::Ready),
            Turn(300, Next::More),
            Is(State::Hijacked),
        ],
        write: true,
    },
    Row {
        name: "it is over",
        app: App::Echoes,
        steps: &[LackMemory, Is(State::Over)],
        write: false,
    },
];

// The connection behind its steps, where they go as they are to go.
fn stepped(alloc: Global, row: &Row) -> Option<MemConn> {
    let mut conn = opened(alloc)?;
    for step in row.steps {
        if !goes(alloc, row.app, &mut conn, *step) {
            return None;
        }
    }
    Some(conn)
}

fn fresh(answers: bool) -> Notes {
    Notes {
        calls: 0,
        last: None,
        answers,
    }
}

// Whether it is handed to the watcher so, whatever that answers.
fn is_watched(conn: &mut MemConn, write: bool, answers: bool) -> bool {
    let mut notes = fresh(answers);
    let key = 5;
    conn.watch(&mut notes, key) == answers
        && notes.calls == 1
        && notes.last == Some(Call::Watch { key, write })
}

fn is_forgotten(conn: &mut MemConn) -> bool {
    let mut notes = fresh(true);
    let key = 6;
    conn.forget(&mut notes, key);
    notes.calls == 1 && notes.last == Some(Call::Forget { key })
}

#[test]
fn is_watched_for_writing_where_bytes_are_owed(rt: HostRuntime) {
    for row in ROWS {
        match stepped(rt.alloc(), row) {
            Some(mut conn) => {
                assert!(rt; is_watched(&mut conn, row.write, true), "{}", row.name);
                assert!(rt; is_watched(&mut conn, row.write, false), "{}", row.name);
                assert!(rt; is_forgotten(&mut conn), "{}", row.name);
            }
            None => assert!(rt; false, "{}", row.name),
        }
    }
}
