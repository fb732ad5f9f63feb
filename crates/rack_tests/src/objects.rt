// Each object in memory, through its trait. What a call gave is written down, with a bar behind it.
use rack_outside::{
    FileRead, Files, MemFiles, MemSink, MemSource, Sink, SinkWrite, Source, SourceRead, SureSink,
    SureSource,
};
use rack_types::{Bytes, NoMemory};
use std::alloc::Global;
use std::test::Fail;

fn bytes(alloc: Global, text: &[u8]) -> Result<Bytes, NoMemory> {
    Ok(Bytes::new(text.to_vec(alloc)?))
}

fn put(said: &mut Vec<u8>, text: &[u8]) -> Result<(), NoMemory> {
    said.extend_from_slice(text)
}

// Reads to the end, at most sixteen times.
fn put_all<S: Source>(source: &mut S, said: &mut Vec<u8>) -> Result<(), NoMemory> {
    for _ in 0..16u8 {
        let mut room = [0u8; 4];
        match source.read(&mut room) {
            SourceRead::Bytes(n) => put(said, &room[..n])?,
            SourceRead::End => break,
            SourceRead::Failed => put(said, b"failed")?,
        }
        put(said, b"|")?;
    }
    Ok(())
}

fn drain<S: Source>(alloc: Global, source: &mut S) -> Result<Vec<u8>, NoMemory> {
    let mut said = Vec::new(alloc);
    match put_all(source, &mut said) {
        Ok(()) => Ok(said),
        Err(refused) => Err(refused),
    }
}

fn sure_source(alloc: Global, input: Bytes) -> Result<SureSource, NoMemory> {
    Ok(SureSource::new(input, bytes(alloc, &[0, 3, 2])?))
}

fn drain_sure(alloc: Global) -> Result<Vec<u8>, NoMemory> {
    let mut source = sure_source(alloc, bytes(alloc, b"abcdefgh")?)?;
    drain(alloc, &mut source)
}

fn mem_source(alloc: Global, input: Bytes, cuts: Bytes) -> Result<MemSource, NoMemory> {
    Ok(MemSource::new(input, cuts, bytes(alloc, &[2, 4])?))
}

fn cut_source(alloc: Global, input: Bytes) -> Result<MemSource, NoMemory> {
    mem_source(alloc, input, bytes(alloc, &[0, 3])?)
}

fn drain_mem(alloc: Global) -> Result<Vec<u8>, NoMemory> {
    let mut source = cut_source(alloc, bytes(alloc, b"abcdefgh")?)?;
    drain(alloc, &mut source)
}

#[test]
fn sources_give_their_input_in_pieces(rt: HostRuntime) -> Result<(), Fail> {
    assert_eq!(rt;
        drain_sure(rt.alloc())?.as_slice(),
        b"a|bcd|ef|gh|".as_slice()
    );
    assert_eq!(rt;
        drain_mem(rt.alloc())?.as_slice(),
        b"a|failed|bcd|failed|efgh|".as_slice()
    );
    Ok(())
}

// Writes three pieces: how many answers were that all of the piece was taken.
fn pour<K: Sink>(sink: &mut K) -> u8 {
    let first = u8::from(sink.write(b"ab") == SinkWrite::Took(2));
    let second = u8::from(sink.write(b"cd") == SinkWrite::Took(2));
    let third = u8::from(sink.write(b"e") == SinkWrite::Took(1));
    first + second + third
}

#[test]
fn a_sure_sink_takes_whole_pieces(rt: HostRuntime) {
    let mut sink = SureSink::new(rt.alloc());
    assert_eq!(rt; pour(&mut sink), 3);
    assert_eq!(rt; sink.written(), b"abcde".as_slice());
}

#[test]
fn a_sink_fails_where_it_was_told(rt: HostRuntime) -> Result<(), Fail> {
    let mut sink = MemSink::new(rt.alloc(), bytes(rt.alloc(), &[2])?);
    assert_eq!(rt; pour(&mut sink), 2);
    assert_eq!(rt; sink.written(), b"abe".as_slice());
    Ok(())
}

fn put_read(read: FileRead, said: &mut Vec<u8>) -> Result<(), NoMemory> {
    match read {
        FileRead::Text(text) => put(said, text.get())?,
        FileRead::Absent => put(said, b"absent")?,
        FileRead::Long => put(said, b"long")?,
        FileRead::Failed => put(said, b"failed")?,
    }
    put(said, b"|")
}

fn look<F: Files>(
    files: &mut F,
    name: &str,
    limit: usize,
    said: &mut Vec<u8>,
) -> Result<(), NoMemory> {
    put_read(files.read(name, limit)?, said)
}

// The texts that stand there, each with its name, and what is looked for, with its limit.
const TEXTS: [(&str, &str); 3] = [("a", "one"), ("b", "two"), ("a", "three")];

const LOOKS: [(&str, usize); 5] = [("a", 3), ("a", 4), ("b", 2), ("c", 9), ("a", 5)];

fn add_file(alloc: Global, files: &mut MemFiles, name: &str, text: &str) -> Result<(), NoMemory> {
    let text = bytes(alloc, text.as_bytes())?;
    files.add(name, text)
}

fn add_files(alloc: Global, files: &mut MemFiles, texts: &[(&str, &str)]) -> Result<(), NoMemory> {
    for (name, text) in texts {
        add_file(alloc, files, name, text)?;
    }
    Ok(())
}

fn look_at(
    files: &mut MemFiles,
    looks: &[(&str, usize)],
    said: &mut Vec<u8>,
) -> Result<(), NoMemory> {
    for (name, limit) in looks {
        look(files, name, *limit, said)?;
    }
    Ok(())
}

fn add_and_look(alloc: Global, files: &mut MemFiles, said: &mut Vec<u8>) -> Result<(), NoMemory> {
    add_files(alloc, files, &TEXTS)?;
    look_at(files, &LOOKS, said)
}

fn look_round(alloc: Global) -> Result<Vec<u8>, NoMemory> {
    let mut files = MemFiles::new(alloc);
    let mut said = Vec::new(alloc);
    match add_and_look(alloc, &mut files, &mut said) {
        Ok(()) => Ok(said),
        Err(refused) => Err(refused),
    }
}

#[test]
fn files_answer_their_texts_in_turn(rt: HostRuntime) -> Result<(), Fail> {
    let said = look_round(rt.alloc())?;
    assert_eq!(rt; said.as_slice(), b"one|long|long|absent|three|".as_slice());
    Ok(())
}
