// A connection that waits for its peer, and what its owner does with it over and over.
use conn_core::{Conn, State, Tick, Told};
use hijack_core::Never;
use rack_outside::{MemLink, MemWatcher};
use rack_types::{Bytes, Limits, Local, NoMemory, Peer, Plain};
use std::alloc::Global;

type Parked = Conn<MemLink, Plain, Never>;

/// What is done with it.
#[derive(Clone, Copy)]
pub(crate) enum Does {
    /// It is told the time.
    Tick,
    /// It is told that the server drains.
    Tell,
    /// Its link is handed to a watcher.
    Watch,
}

// The peer gave this text, which was read, and nothing more.
fn parked(alloc: Global, text: &[u8]) -> Option<Parked> {
    let mut link = MemLink::new(alloc, 1, Bytes::new(Vec::new(alloc)));
    if link.give(text).is_err() {
        return None;
    }
    let local = Local {
        name: Peer::new(b"localhost").unwrap(),
        port: 9292,
        https: false,
        hijack: false,
    };
    let peer = Peer::new(b"127.0.0.1").unwrap();
    let mut conn = Conn::open(alloc, 1, link, peer, local, Limits::stock(), 0, 0).ok()?;
    read(&mut conn);
    Some(conn)
}

fn read(conn: &mut Parked) {
    match conn.state() {
        State::Reading => {
            conn.feed(0);
        }
        State::Ready | State::Answering | State::Hijacked | State::Over => {}
    }
}

// Whether it stays as it was. It is called each time, so that nothing is taken out of the loop.
#[inline(never)]
fn once(does: Does, conn: &mut Parked, watcher: &mut MemWatcher, now: u64) -> bool {
    match does {
        Does::Tick => match conn.state() {
            State::Over => false,
            State::Reading | State::Ready | State::Answering | State::Hijacked => conn.tick(now)
                == Tick::Still,
        },
        Does::Tell => match conn.tell_drain(1) {
            Told::Stays | Told::Unread | Told::Idle => true,
            Told::Write | Told::Over => false,
        },
        Does::Watch => conn.watch(watcher, 1),
    }
}

fn all(does: Does, conn: &mut Parked, watcher: &mut MemWatcher, turns: u32) -> bool {
    for turn in 0..turns {
        if !once(does, conn, watcher, turn as u64) {
            return false;
        }
    }
    true
}

/// Does it so often with a connection whose peer gave this text, a millisecond after the other. False where the
/// connection did not stay as it was.
pub(crate) fn stays(alloc: Global, does: Does, text: &[u8], turns: u32) -> Result<bool, NoMemory> {
    let mut watcher = MemWatcher::new(alloc)?;
    match parked(alloc, text) {
        Some(mut conn) => Ok(all(does, &mut conn, &mut watcher, turns)),
        None => Ok(false),
    }
}
