// Rows of a table: what is done to a fresh connection, and how it ends.
use crate::apps::App;
use crate::steps::{MemConn, Step, goes};
use conn_core::{Conn, Ended, State, Why};
use hijack_core::Hijack;
use rack_outside::MemLink;
use rack_types::{Bytes, Limits, Local, Peer, Plain};
use std::alloc::Global;

/// The moment at which each connection is opened.
pub(crate) const OPENED: u64 = 100;

/// A row. Behind its last step the connection is over.
#[derive(Clone, Copy)]
pub(crate) struct Row {
    pub(crate) name: &'static str,
    pub(crate) app: App,
    pub(crate) steps: &'static [Step],
    /// What was sent, in parts.
    pub(crate) sent: &'static [&'static str],
    pub(crate) why: Why,
    /// The level of draining that was last told, and the number of the request whose reply closed by draining.
    pub(crate) told: u64,
    pub(crate) closing: Option<u64>,
}

/// Where it goes otherwise than it is to go: the number of the step, counted from 0; behind the steps that of its end.
pub(crate) fn wrong_at(alloc: Global, row: &Row) -> Option<usize> {
    match opened(alloc) {
        Some(conn) => wrong_from(alloc, row, conn),
        None => Some(0),
    }
}

fn wrong_from(alloc: Global, row: &Row, mut conn: MemConn) -> Option<usize> {
    for (i, step) in row.steps.iter().enumerate() {
        if !goes(alloc, row.app, &mut conn, *step) {
            return Some(i);
        }
    }
    match ended(conn) {
        Some(end) if is_so(row, &end) => None,
        _ => Some(row.steps.len()),
    }
}

/// A fresh connection, on a link that has given nothing.
pub(crate) fn opened<H: Hijack + Drop>(alloc: Global) -> Option<Conn<MemLink, Plain, H>> {
    opened_failing(alloc, Bytes::new(Vec::new(alloc)))
}

/// The same, on a link whose reads and writes at these places fail, counted from 1.
pub(crate) fn opened_failing<H: Hijack + Drop>(
    alloc: Global,
    fails: Bytes,
) -> Option<Conn<MemLink, Plain, H>> {
    let link = MemLink::new(alloc, 3, fails);
    let local = Local {
        name: Peer::new(b"localhost").unwrap(),
        port: 9292,
        https: false,
        hijack: true,
    };
    let peer = Peer::new(b"127.0.0.1").unwrap();
    Conn::open(alloc, 7, link, peer, local, Limits::stock(), 0, OPENED).ok()
}

/// Its end, where it is over.
pub(crate) fn ended(conn: MemConn) -> Option<Ended<MemLink>> {
    match conn.state() {
        State::Over => Some(conn.finish()),
        State::Reading | State::Ready | State::Answering | State::Hijacked => None,
    }
}

fn is_so(row: &Row, end: &Ended<MemLink>) -> bool {
    end.why == row.why
        && end.told == row.told
        && end.closing == row.closing
        && is_joined(end.link.sent(), row.sent)
}

/// Whether the text is these parts, joined.
pub(crate) fn is_joined(text: &[u8], parts: &[&str]) -> bool {
    let mut rest = text;
    for part in parts {
        match rest.strip_prefix(part.as_bytes()) {
            Some(behind) => rest = behind,
            None => return false,
        }
    }
    rest.is_empty()
}
