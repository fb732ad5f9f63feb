//! Orders over a link in memory, and a reply that is read however it is cut. The replies are the control server's own.
ghost use Rattle.std.specs.Prelude.{◌≡◌, None, IfOk};

use crate::{Back, Got, MemDial, Outcome, Wish, send_order, write_wish};
use rack_outside::{MemLink, MemSink};
use rack_types::{Bytes, NoMemory};
use std::alloc::Global;
use std::test::Fail;

const OK: &[u8] =
    b"HTTP/1.1 200 OK\r\ncontent-type: application/json\r\ncontent-length: 15\r\nconnection: close\r\n\r\n{\"status\":\"ok\"}";

const FORBIDDEN: &[u8] =
    b"HTTP/1.1 403 Forbidden\r\ncontent-type: application/json\r\ncontent-length: 22\r\nconnection: close\r\n\r\n{\"status\":\"forbidden\"}";

const STOP: &[u8] = b"GET /stop?token=t HTTP/1.1\r\nHost: localhost\r\nConnection: close\r\n\r\n";

fn none(alloc: Global) -> Bytes {
    Bytes::new(Vec::new(alloc))
}

// A dial whose link gives this text and, if so, ends.
fn giving(alloc: Global, text: &[u8], ends: bool) -> Result<MemDial, NoMemory>
    ensures { IfOk result (λ dial. dial.back ≡ None) }
{
    let mut link = MemLink::new(alloc, 0, none(alloc));
    link.give(text)?;
    if ends {
        link.end();
    }
    Ok(MemDial::new(link))
}

// Whether a stop order on this dial ends so and prints this.
fn stops(alloc: Global, dial: MemDial, outcome: Outcome, printed: &[u8]) -> bool
    requires { dial.back ≡ None }
{
    let mut dial = dial;
    let mut out = MemSink::new(alloc, none(alloc));
    let ended = send_order(
        alloc,
        "127.0.0.1:9293",
        b"t",
        Wish::Stop,
        &mut dial,
        &mut out,
    );
    ended == outcome && out.written() == printed
}

#[test]
fn replies_are_printed(rt: HostRuntime) -> Result<(), Fail> {
    let alloc = rt.alloc();
    let ok = b"{\"status\":\"ok\"}\n";
    let forbidden = b"{\"status\":\"forbidden\"}\n";
    let denied = Outcome::Denied { status: 403 };
    assert!(rt; stops(alloc, giving(alloc, OK, true)?, Outcome::Done, ok));
    assert!(rt; stops(alloc, giving(alloc, OK, false)?, Outcome::Done, ok));
    assert!(rt; stops(alloc, giving(alloc, FORBIDDEN, true)?, denied, forbidden));
    let cut = b"HTTP/1.1 200 OK\r\n";
    assert!(rt; stops(alloc, giving(alloc, cut, true)?, Outcome::NoAnswer, b""));
    assert!(rt; stops(alloc, giving(alloc, cut, false)?, Outcome::NoAnswer, b""));
    assert!(rt; stops(alloc, MemDial::failing(), Outcome::Dial, b""));
    Ok(())
}

#[test]
fn replies_are_read_however_they_are_cut(rt: HostRuntime) -> Result<(), Fail> {
    let alloc = rt.alloc();
    let mut back = Back::new(alloc)?;
    for i in 0..OK.len() {
        let got = back.feed(&OK[i..i + 1])?;
        let whole = i + 1 == OK.len();
        assert_eq!(rt; got == Got::More, !whole);
    }
    assert_eq!(rt; back.feed(b"more")?, Got::Whole { status: 200 });
    assert_eq!(rt; back.body(), b"{\"status\":\"ok\"}".as_slice());
    let mut other = Back::new(alloc)?;
    assert_eq!(rt; other.feed(b"HTTP/1.1 200 OK\r\n\r\n")?, Got::Not);
    let mut text = Vec::new(alloc);
    write_wish(b"t", Wish::Stop, &mut text)?;
    assert_eq!(rt; text.as_slice(), STOP);
    Ok(())
}
