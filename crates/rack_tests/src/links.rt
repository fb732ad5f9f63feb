// Each link, through its trait. What a call gave is written down, with a bar behind it.
use rack_outside::{Link, LinkRead, LinkWrite, MemLink, PairLink, SureLink, SureSink, SureSource};
use rack_types::{Bytes, NoMemory};
use std::alloc::Global;
use std::test::Fail;

fn bytes(alloc: Global, text: &[u8]) -> Result<Bytes, NoMemory> {
    Ok(Bytes::new(text.to_vec(alloc)?))
}

// Reads once, four bytes at most.
fn hear<L: Link>(link: &mut L, said: &mut Vec<u8>) -> Result<(), NoMemory> {
    let mut room = [0u8; 4];
    match link.read(&mut room) {
        LinkRead::Bytes(n) => said.extend_from_slice(&room[..n])?,
        LinkRead::NotYet => said.extend_from_slice(b"wait")?,
        LinkRead::End => said.extend_from_slice(b"end")?,
        LinkRead::Failed => said.extend_from_slice(b"failed")?,
    }
    said.push(b'|')?;
    Ok(())
}

// Writes five bytes, and notes how many were taken.
fn tell<L: Link>(link: &mut L, said: &mut Vec<u8>) -> Result<(), NoMemory> {
    match link.write(b"12345") {
        LinkWrite::Took(n) => said.extend_from_slice(&b"12345"[..n.min(5)])?,
        LinkWrite::NotYet => said.extend_from_slice(b"wait")?,
        LinkWrite::Failed => said.extend_from_slice(b"failed")?,
        LinkWrite::NoMemory => said.extend_from_slice(b"memory")?,
    }
    said.push(b'|')?;
    Ok(())
}

// What is done with a link.
enum Act {
    Hear,
    Tell,
    Give,
    Room(u64),
    End,
    FailRead,
    FailWrite,
}

use Act::{End, FailRead, FailWrite, Give, Hear, Room, Tell};

const SURE_ACTS: [Act; 10] = [Hear, Give, Hear, Tell, Room(2), Tell, Tell, End, Hear, Hear];

fn act_sure(link: &mut SureLink, act: &Act, said: &mut Vec<u8>) -> Result<(), NoMemory> {
    match act {
        Hear => hear(link, said)?,
        Tell => tell(link, said)?,
        Give => link.give(b"abcdef")?,
        Room(n) => link.room(*n),
        End => link.end(),
        FailRead | FailWrite => {}
    }
    Ok(())
}

fn put(said: &mut Vec<u8>, text: &[u8]) -> Result<(), NoMemory> {
    said.extend_from_slice(text)
}

// What was given and sent, with a bar between them.
fn put_both(said: &mut Vec<u8>, given: &[u8], sent: &[u8]) -> Result<(), NoMemory> {
    put(said, given)?;
    put(said, b"|")?;
    put(said, sent)
}

fn put_sure(link: &mut SureLink, acts: &[Act], said: &mut Vec<u8>) -> Result<(), NoMemory> {
    for act in acts {
        act_sure(link, act, said)?;
    }
    put_both(said, link.given(), link.sent())
}

fn use_sure_link(alloc: Global, acts: &[Act]) -> Result<Vec<u8>, NoMemory> {
    let mut said = Vec::new(alloc);
    let mut link = SureLink::new(alloc, 7);
    match put_sure(&mut link, acts, &mut said) {
        Ok(()) => Ok(said),
        Err(refused) => Err(refused),
    }
}

#[test]
fn a_sure_link_gives_and_takes_what_there_is_room_for(rt: HostRuntime) -> Result<(), Fail> {
    let said = use_sure_link(rt.alloc(), &SURE_ACTS)?;
    assert_eq!(rt;
        said.as_slice(),
        b"wait|abcd|12345|12|wait|ef|end|abcdef|1234512".as_slice()
    );
    Ok(())
}

const MEM_ACTS: [Act; 15] = [
    Give,
    Hear,
    Tell,
    Hear,
    FailRead,
    FailRead,
    FailWrite,
    Hear,
    Hear,
    Tell,
    Room(6),
    Tell,
    Tell,
    End,
    Hear,
];

fn act_mem(link: &mut MemLink, act: &Act, said: &mut Vec<u8>) -> Result<(), NoMemory> {
    match act {
        Hear => hear(link, said)?,
        Tell => tell(link, said)?,
        Give => link.give(b"abcdef")?,
        Room(n) => link.room(*n),
        End => link.end(),
        FailRead => link.fail_read(),
        FailWrite => link.fail_write(),
    }
    Ok(())
}

fn put_mem(link: &mut MemLink, acts: &[Act], said: &mut Vec<u8>) -> Result<(), NoMemory> {
    for act in acts {
        act_mem(link, act, said)?;
    }
    put_both(said, link.given(), link.sent())
}

fn use_mem_link(alloc: Global, acts: &[Act]) -> Result<Vec<u8>, NoMemory> {
    let mut link = MemLink::new(alloc, 7, bytes(alloc, &[2, 3])?);
    let mut said = Vec::new(alloc);
    match put_mem(&mut link, acts, &mut said) {
        Ok(()) => Ok(said),
        Err(refused) => Err(refused),
    }
}

#[test]
fn a_link_fails_where_it_was_told(rt: HostRuntime) -> Result<(), Fail> {
    let said = use_mem_link(rt.alloc(), &MEM_ACTS)?;
    let wanted = b"abcd|failed|failed|failed|ef|failed|12345|1|end|abcdef|123451";
    assert_eq!(rt; said.as_slice(), wanted.as_slice());
    Ok(())
}

// Hears once, tells, and hears so often as four bytes need.
fn hear_and_tell<L: Link>(link: &mut L, said: &mut Vec<u8>) -> Result<(), NoMemory> {
    hear(link, said)?;
    tell(link, said)?;
    for _ in 0..3u8 {
        hear(link, said)?;
    }
    Ok(())
}

fn hear_pair(
    input: Bytes,
    cuts: Bytes,
    sink: &mut SureSink,
    said: &mut Vec<u8>,
) -> Result<(), NoMemory> {
    let mut source = SureSource::new(input, cuts);
    hear_and_tell(&mut PairLink::new(&mut source, sink), said)
}

fn put_pair(
    input: Bytes,
    cuts: Bytes,
    sink: &mut SureSink,
    said: &mut Vec<u8>,
) -> Result<(), NoMemory> {
    hear_pair(input, cuts, sink, said)?;
    put(said, sink.written())
}

fn use_pair(alloc: Global, input: Bytes, cuts: Bytes) -> Result<Vec<u8>, NoMemory> {
    let mut said = Vec::new(alloc);
    let mut sink = SureSink::new(alloc);
    match put_pair(input, cuts, &mut sink, &mut said) {
        Ok(()) => Ok(said),
        Err(refused) => Err(refused),
    }
}

fn use_pair_link(alloc: Global) -> Result<Vec<u8>, NoMemory> {
    let input = bytes(alloc, b"abcdef")?;
    let cuts = bytes(alloc, &[1])?;
    use_pair(alloc, input, cuts)
}

#[test]
fn a_pair_of_source_and_sink_is_a_link(rt: HostRuntime) -> Result<(), Fail> {
    let said = use_pair_link(rt.alloc())?;
    assert_eq!(rt; said.as_slice(), b"a|12345|bcde|f|end|12345".as_slice());
    Ok(())
}

fn sends<T: Send>() {}

#[test]
fn links_in_memory_may_cross_threads() {
    sends::<SureLink>();
    sends::<MemLink>();
}
