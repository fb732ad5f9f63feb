// Requests one behind the other, in pieces of several sizes, and what stands in front of a text.
use message_framing::{Feed, Intake, what_stands};
use rack_text::write_decimal;
use rack_types::{Fault, Limits, NoMemory};
use std::alloc::Global;
use std::test::Fail;

// Tells of the request that stands its method, whether it came in chunks, its body, and how many bytes the piece
// gave it that it ended in. Then it goes on to the next one.
fn tell(intake: &mut Intake, taken: usize, told: &mut Vec<u8>) -> Result<(), NoMemory> {
    let Some(request) = intake.request() else {
        return Ok(());
    };
    told.extend_from_slice(request.method())?;
    told.extend_from_slice(if request.chunked() {
        b" chunked "
    } else {
        b" "
    })?;
    let done = tell_body(intake.take_input().all(), taken, told);
    intake.advance();
    done
}

fn tell_body(body: &[u8], taken: usize, told: &mut Vec<u8>) -> Result<(), NoMemory> {
    told.extend_from_slice(body)?;
    told.push(b' ')?;
    write_decimal(taken as u128, told)?;
    told.push(b'\n')?;
    Ok(())
}

// Feeds an intake a piece, and tells of the request that it makes whole, or of the refusal. How many bytes were
// taken; none where it is refused.
fn fed(intake: &mut Intake, piece: &[u8], told: &mut Vec<u8>) -> Result<Option<usize>, NoMemory> {
    match intake.feed(piece)? {
        Feed::More => Ok(Some(piece.len())),
        Feed::Whole(n) => {
            tell(intake, n, told)?;
            Ok(Some(n))
        }
        Feed::Refused(_) => {
            told.extend_from_slice(b"refused")?;
            Ok(None)
        }
    }
}

// Feeds an intake the text in pieces of this size, and tells of each request; behind them whether a further one has
// begun.
fn taken(alloc: Global, text: &[u8], size: usize) -> Result<Vec<u8>, NoMemory> {
    let mut intake = Intake::new(alloc, Limits::stock())?;
    let mut told = Vec::new(alloc);
    take(&mut intake, text, size, &mut told)?;
    Ok(told)
}

fn take(intake: &mut Intake, text: &[u8], size: usize, told: &mut Vec<u8>) -> Result<(), NoMemory> {
    let mut rest = text;
    // Each answer here takes a byte at least, so there are no more pieces than bytes.
    for _ in 0..text.len() {
        let Some(n) = fed(intake, first_of(rest, size), told)? else {
            return Ok(());
        };
        rest = rest.get(n..).unwrap_or(b"");
    }
    told.extend_from_slice(if intake.begun() {
        b"begun"
    } else {
        b"not begun"
    })
}

// The first piece of this size, or all where there is no more.
fn first_of(text: &[u8], size: usize) -> &[u8] {
    text.get(..size).unwrap_or(text)
}

// Three requests one behind the other.
const THREE: &str =
    "\r\nPOST / HTTP/1.1\r\nHost: a\r\nTransfer-Encoding: chunked\r\n\r\n5\r\nhello\r\n0\r\nT: 1\r\n\r\nPUT / HTTP/1.1\r\nHost: a\r\nContent-Length: 2\r\n\r\nokGET / HTTP/1.1\r\nHost: a\r\n\r\n";

// A text, the size of its pieces, and what is told of it.
const TAKEN: &[(&str, usize, &str)] = &[
    (
        THREE,
        1,
        "POST chunked hello 1\nPUT ok 1\nGET  1\nnot begun",
    ),
    (
        THREE,
        2,
        "POST chunked hello 1\nPUT ok 2\nGET  1\nnot begun",
    ),
    (
        THREE,
        7,
        "POST chunked hello 2\nPUT ok 6\nGET  6\nnot begun",
    ),
    (
        THREE,
        1000,
        "POST chunked hello 79\nPUT ok 48\nGET  27\nnot begun",
    ),
    ("\r\n\n", 1, "not begun"),
    ("\r\n\n\r", 1, "begun"),
    ("\r\n\n\r\n", 1, "not begun"),
    ("\r\n\nG", 1, "begun"),
    ("GET / HTTP/1.1\r\n\r\n", 7, "refused"),
];

#[test]
fn takes_requests_one_behind_the_other(rt: HostRuntime) -> Result<(), Fail> {
    for (text, size, told) in TAKEN {
        assert!(rt; taken(rt.alloc(), text.as_bytes(), *size)?.as_slice() == told.as_bytes());
    }
    Ok(())
}

// What stands in front of a text that a fresh intake is fed.
fn standing_in(alloc: Global, text: &str) -> Result<Feed, NoMemory> {
    what_stands(Intake::new(alloc, Limits::stock())?, text.as_bytes())
}

#[test]
fn tells_what_stands(rt: HostRuntime) -> Result<(), Fail> {
    let alloc = rt.alloc();
    assert!(rt; standing_in(alloc, "GET / HTTP/1.1\r\nHost: a\r\n")? == Feed::More);
    assert!(rt; standing_in(alloc, "GET / HTTP/1.1\r\nHost: a\r\n\r\n")? == Feed::Whole(27));
    assert!(rt; standing_in(alloc, "GET / HTTP/1.1\r\n\r\n")? == Feed::Refused(Fault::F(6)));
    Ok(())
}
