// A long body that is framed, and read again.
use circular_buffer::HeapCircularBuffer;
use message_framing::Intake;
use rack_types::{Answer, Bytes, Env, Headers, Input, Kind, Limits, NoMemory, Plain, Version};
use reply_framing::{Ask, Filled, Framer};
use std::alloc::Global;
use std::convert::Infallible;
use std::test::Fail;

const PIECE: usize = 65_536;

// `10000`, CR LF, the piece, CR LF
const FRAMED: usize = 65_545;

const HEAD: &[u8] = b"HTTP/1.1 200 OK\r\ntransfer-encoding: chunked\r\n\r\n";

fn long_answer(alloc: Global) -> Result<Answer<Plain, Infallible>, NoMemory> {
    let mut pieces = Vec::with_capacity(alloc, 1_024)?;
    for _ in 0..1_024 {
        pieces.push(Bytes::new(vec![in alloc; b'x'; PIECE]?))?;
    }
    Ok(Answer::Reply {
        status: 200,
        headers: Headers::new(alloc),
        body: Plain::new(pieces, false, false, Kind::Streaming),
        part: None,
    })
}

// Fills a ring that is emptied each time: how many bytes came, the first of them, and the last answer.
fn frame(
    alloc: Global,
    mut framer: Framer<Plain, Infallible>,
) -> Result<(u64, Vec<u8>, Filled), NoMemory> {
    let mut ring = HeapCircularBuffer::with_capacity(alloc, PIECE)?;
    let mut first = Vec::new(alloc);
    let mut sent: u64 = 0;
    let mut told = Filled::Full;
    for _ in 0..2_000 {
        told = framer.fill(&mut ring)?;
        sent = sent.wrapping_add(ring.len() as u64);
        if first.len() < 1_200_000 {
            first.extend_from_slice(ring.make_contiguous())?;
        }
        ring.clear();
        if told != Filled::Full {
            break;
        }
    }
    Ok((sent, first, told))
}

// How many bytes of body an intake takes of these chunks and a last one.
fn taken_of_chunks(alloc: Global, chunks: &[u8]) -> Result<Option<usize>, NoMemory> {
    let mut intake = Intake::new(alloc, Limits::stock())?;
    feed_chunks(&mut intake, chunks)?;
    Ok(intake.request().map(|request| request.body().len()))
}

fn feed_chunks(intake: &mut Intake, chunks: &[u8]) -> Result<(), NoMemory> {
    intake.feed(b"POST / HTTP/1.1\r\nHost: a\r\nTransfer-Encoding: chunked\r\n\r\n")?;
    intake.feed(chunks)?;
    intake.feed(b"0\r\n\r\n")?;
    Ok(())
}

// The framer of that answer, to a request of HTTP/1.1.
fn long_framer(alloc: Global) -> Result<Framer<Plain, Infallible>, NoMemory> {
    let answer = long_answer(alloc)?;
    let ask = Ask {
        head: false,
        version: Version::Http11,
        persists: true,
    };
    let env = Env::new(alloc, Input::new(Bytes::new(Vec::new(alloc))));
    Framer::start(alloc, ask, &env, answer, false)
}

// The first sixteen chunks.
fn chunks_of(first: &[u8]) -> &[u8] {
    first.get(47..1_048_767).unwrap_or(b"")
}

// Each chunk has its size line in front and its line end behind.
fn are_framed(chunks: &[u8]) -> bool {
    for chunk in chunks.chunks_exact(FRAMED) {
        if !chunk.starts_with(b"10000\r\nx") || !chunk.ends_with(b"x\r\n") {
            return false;
        }
    }
    true
}

#[test]
fn long_body_is_framed_and_read_again(rt: HostRuntime) -> Result<(), Fail> {
    let alloc = rt.alloc();
    let (sent, first, told) = frame(alloc, long_framer(alloc)?)?;
    assert!(rt; told == Filled::Done);
    assert!(rt; sent == 67_118_132);
    assert!(rt; first.starts_with(HEAD));
    assert!(rt; are_framed(chunks_of(&first)));
    assert!(rt; taken_of_chunks(alloc, chunks_of(&first))? == Some(1_048_576));
    Ok(())
}
