// The key under which a connection was handed to a watcher last, its number, and whether its link's last read had to
// wait.
use crate::apps::App;
use crate::notes::Notes;
use crate::rows::opened;
use crate::steps::Step::{Ends, Feed, Flush, Gives, Takes, Ticks, Turn};
use crate::steps::{MemConn, Step, goes};
use crate::texts::GET;
use conn_core::{Next, Tick};
use rack_outside::{MemLink, Numbered};
use std::alloc::Global;
use std::mem;

// What is done to a connection, and whether behind it the last read had to wait.
#[derive(Clone, Copy)]
struct Row {
    name: &'static str,
    steps: &'static [Step],
    waited: bool,
}

const ROWS: &[Row] = &[
    Row {
        name: "nothing was read",
        steps: &[],
        waited: false,
    },
    Row {
        name: "there was nothing to read",
        steps: &[Feed(200, Next::Waiting), Ticks(300, Tick::Still)],
        waited: true,
    },
    Row {
        name: "bytes came behind a wait",
        steps: &[Feed(200, Next::Waiting), Gives(GET), Feed(300, Next::Ready)],
        waited: false,
    },
    Row {
        name: "a turn reads on behind its reply",
        steps: &[Gives(GET), Feed(200, Next::Ready), Turn(300, Next::More)],
        waited: true,
    },
    Row {
        name: "a write had to wait, and no read was made",
        steps: &[
            Takes(0),
            Gives(GET),
            Feed(200, Next::Ready),
            Turn(300, Next::Waiting),
        ],
        waited: false,
    },
    Row {
        name: "a flush reads nothing",
        steps: &[
            Takes(0),
            Gives(GET),
            Feed(200, Next::Ready),
            Turn(300, Next::Waiting),
            Takes(1_000),
            Flush(400, Next::More),
        ],
        waited: false,
    },
    Row {
        name: "the peer ended",
        steps: &[Feed(200, Next::Waiting), Ends, Feed(300, Next::Over)],
        waited: false,
    },
];

// Whether the steps go as they are to go, and the key stays through each.
fn keeps_key(alloc: Global, conn: &mut MemConn, steps: &[Step], key: Option<usize>) -> bool {
    for step in steps {
        if !goes(alloc, App::Echoes, conn, *step) || conn.key() != key {
            return false;
        }
    }
    true
}

// Whether it is watched under this key, and forgotten, and keeps the key, whatever the watcher answers.
fn takes_key(conn: &mut MemConn, key: usize, answers: bool) -> bool {
    let mut notes = Notes {
        calls: 0,
        last: None,
        answers,
    };
    let watched = conn.watch(&mut notes, key) == answers && conn.key() == Some(key);
    conn.forget(&mut notes, key);
    watched && conn.key() == Some(key)
}

fn known_by<T: Numbered>(item: &T) -> u32 {
    item.number()
}

#[test]
fn tells_whether_the_last_read_had_to_wait(rt: HostRuntime) {
    for row in ROWS {
        match opened(rt.alloc()) {
            Some(mut conn) => {
                assert!(rt;
                    keeps_key(rt.alloc(), &mut conn, row.steps, None),
                    "{}",
                    row.name
                );
                assert!(rt; conn.read_waited() == row.waited, "{}", row.name);
            }
            None => assert!(rt; false, "{}", row.name),
        }
    }
}

#[test]
fn keeps_the_key_under_which_it_was_watched_last(rt: HostRuntime) {
    for row in ROWS {
        match opened(rt.alloc()) {
            Some(mut conn) => {
                assert!(rt; takes_key(&mut conn, 5, true), "{}", row.name);
                assert!(rt;
                    keeps_key(rt.alloc(), &mut conn, row.steps, Some(5)),
                    "{}",
                    row.name
                );
                assert!(rt; takes_key(&mut conn, 6, false), "{}", row.name);
                assert!(rt; known_by(&conn) == 7, "{}", row.name);
            }
            None => assert!(rt; false, "{}", row.name),
        }
    }
}

#[test]
fn is_small_beside_its_link(rt: HostRuntime) {
    let link = mem::size_of::<MemLink>();
    let conn = mem::size_of::<MemConn>();
    assert!(rt; conn <= link + 24);
}
