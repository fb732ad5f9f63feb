// Links that fail, at each of their first calls in turn.
use crate::apps::App;
use crate::peers::Peers;
use crate::rows::{ended, is_joined, opened_failing};
use crate::steps::{MemConn, feed, flush, turn};
use crate::texts::{GET, KEPT, POST_KEPT, TWO};
use conn_core::{State, Why};
use rack_types::Bytes;
use std::alloc::Global;

/// A row: which calls a link sees where none fails, its first 40.
#[derive(Clone, Copy)]
struct Row {
    name: &'static str,
    app: App,
    /// What the peer gives, a piece before each read. Behind them it ends.
    pieces: &'static [&'static str],
    /// How many bytes the link takes, before each turn and each flush. Behind them a write has to wait.
    room: u64,
    /// A read is `r`, also one that has to wait, a write that takes bytes `w`, and one that has to wait `x`.
    calls: &'static str,
    /// What each write takes.
    sent: &'static [&'static str],
}

const ROWS: &[Row] = &[
    Row {
        name: "two requests in each read, whose replies are taken whole",
        app: App::Echoes,
        pieces: &[TWO; 10],
        room: 1000,
        calls: "rwwrrwwrrwwrrwwrrwwrrwwrrwwrrwwrrwwrrwwr",
        sent: &[
            KEPT, POST_KEPT, KEPT, POST_KEPT, KEPT, POST_KEPT, KEPT, POST_KEPT, KEPT, POST_KEPT,
            KEPT, POST_KEPT, KEPT, POST_KEPT, KEPT, POST_KEPT, KEPT, POST_KEPT, KEPT, POST_KEPT,
        ],
    },
    Row {
        name: "a request that is read byte by byte, whose reply is taken by threes",
        app: App::Echoes,
        pieces: &[
            "G", "E", "T", " ", "/", " ", "H", "T", "T", "P", "/", "1", ".", "0", "\r", "\n", "\r",
            "\n",
        ],
        room: 3,
        calls: "rrrrrrrrrrrrrrrrrrwxwxwxwxwxwxwxwxwxwxwx",
        sent: &[
            "HTT", "P/1", ".1 ", "200", " OK", "\r\nc", "ont", "ent", "-le", "ngt", "h: ",
        ],
    },
    Row {
        name: "a hijacker that is told letters, one by one",
        app: App::Hands,
        pieces: &[
            GET, "a", "b", "c", "d", "e", "f", "g", "h", "i", "j", "k", "l", "m", "n", "o", "p",
            "q", "r", "s", "t",
        ],
        room: 1000,
        calls: "rrwrwrwrwrwrwrwrwrwrwrwrwrwrwrwrwrwrwrwr",
        sent: &[
            "A", "B", "C", "D", "E", "F", "G", "H", "I", "J", "K", "L", "M", "N", "O", "P", "Q",
            "R", "S",
        ],
    },
];

#[test]
fn what_was_sent_before_a_failure_stays(rt: HostRuntime) {
    for row in ROWS {
        assert_eq!(rt; row.calls.len(), 40);
        assert_eq!(rt; wrong_at(rt.alloc(), row), None, "{}", row.name);
    }
}

// The first call whose failure ends it otherwise than it is to end, by its place, counted from 1.
fn wrong_at(alloc: Global, row: &Row) -> Option<u8> {
    let mut place: u8 = 0;
    let mut writes: usize = 0;
    for call in row.calls.as_bytes() {
        place = place.saturating_add(1);
        if !ends_so(alloc, row, place, *call, writes) {
            return Some(place);
        }
        if *call == b'w' {
            writes = writes.saturating_add(1);
        }
    }
    None
}

// Whether a connection on whose link this call fails ends for that call, behind so many writes.
fn ends_so(alloc: Global, row: &Row, place: u8, call: u8, writes: usize) -> bool {
    let why = if call == b'r' {
        Why::ReadFailed
    } else {
        Why::WriteFailed
    };
    match (failing(alloc, row, place), row.sent.get(..writes)) {
        (Some(conn), Some(sent)) => match ended(conn) {
            Some(end) => end.why == why && is_joined(end.link.sent(), sent),
            None => false,
        },
        _ => false,
    }
}

// A connection whose link fails at this place, served to its end.
fn failing(alloc: Global, row: &Row, place: u8) -> Option<MemConn> {
    let mut fails = Vec::with_capacity(alloc, 1).ok()?;
    fails.push(place).ok()?;
    let mut conn: MemConn = opened_failing(alloc, Bytes::new(fails))?;
    let mut pieces = row.pieces.iter();
    for _step in 0..100 {
        if conn.state() == State::Ready {
            conn.touch(&mut Peers::Takes(row.room));
            turn(alloc, row.app, &mut conn, 0);
        } else if conn.wants_write() {
            conn.touch(&mut Peers::Takes(row.room));
            flush(&mut conn, 0);
        } else {
            match pieces.next() {
                Some(piece) => conn.touch(&mut Peers::Gives(piece)),
                None => conn.touch(&mut Peers::Ends),
            };
            feed(&mut conn, 0);
        }
    }
    Some(conn)
}
