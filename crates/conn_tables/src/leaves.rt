// A hijacker that has the connection is told to leave, once, before the connection lets it go.
use crate::counts::{Counts, HandsOut};
use crate::peers::Peers;
use crate::rows::opened;
use crate::texts::ONE_AND_WORD;
use conn_core::{Conn, Next, State, Told};
use rack_outside::MemLink;
use rack_types::Plain;
use std::alloc::Global;
use std::cell::Cell;

type Counted<'a> = Conn<MemLink, Plain, Counts<'a>>;

// A connection that is told of a drain.
#[derive(Clone, Copy)]
struct Row {
    name: &'static str,
    // How many bytes its link takes.
    room: u64,
    // What the telling leaves, and how often the hijacker was then told to leave.
    told: Told,
    left: u8,
    // Whether the request had its turn before.
    turned: bool,
}

const ROWS: &[Row] = &[
    Row {
        name: "nothing is owed",
        room: 1_000,
        told: Told::Over,
        left: 1,
        turned: true,
    },
    Row {
        name: "what it said is owed",
        room: 0,
        told: Told::Write,
        left: 1,
        turned: true,
    },
    Row {
        name: "it has the connection not yet",
        room: 1_000,
        told: Told::Stays,
        left: 0,
        turned: false,
    },
];

// What the telling leaves, where it comes so far.
fn told<'a>(alloc: Global, row: &Row, left: &'a Cell<u8>) -> Option<Told> {
    let mut conn = asked(alloc, row.room)?;
    if row.turned && !hands(alloc, &mut conn, left) {
        return None;
    }
    Some(conn.tell_drain(1))
}

fn asked<'a>(alloc: Global, room: u64) -> Option<Counted<'a>> {
    let mut conn: Counted<'a> = opened(alloc)?;
    let given = conn.touch(&mut Peers::Gives(ONE_AND_WORD)) && conn.touch(&mut Peers::Takes(room));
    match conn.state() {
        State::Reading if given => {
            conn.feed(200);
            Some(conn)
        }
        _ => None,
    }
}

// Whether the hijacker has the connection behind its turn.
fn hands<'a>(alloc: Global, conn: &mut Counted<'a>, left: &'a Cell<u8>) -> bool {
    match conn.state() {
        State::Ready => {
            let mut runner = HandsOut {
                alloc,
                left,
                runs: 0,
            };
            conn.turn(&mut runner, 300) == Next::More && conn.state() == State::Hijacked
        }
        _ => false,
    }
}

#[test]
fn is_told_to_leave(rt: HostRuntime) {
    for row in ROWS {
        let left = Cell::new(0);
        assert_eq!(rt;
            told(rt.alloc(), row, &left),
            Some(row.told),
            "{}",
            row.name
        );
        assert_eq!(rt; left.get(), row.left, "{}", row.name);
    }
}
