// The chunks of a body and the trailer behind them, read piece by piece.
ghost use Rattle.std.specs.Prelude.{◌≡◌, ◌<◌, ◌≤◌, ℕ, List, [], length, Ok, IfSome, IfNone, MatchBool};
ghost use Rattle.message_framing.specs.Chunks.{NamesSize, NamesNone, IsTrailer, IsNoTrailer, has_too_many_fields};
ghost use Rattle.message_framing.specs.Decoding.{HasRead, FeedsChunks, Steps, OpensChunk, TrailerFault};

use crate::Feed;
use crate::scan::{Line, count_line_feeds, prefix, suffix};
use httparse::spans::{EMPTY_HEADER_SPAN, parse_headers};
use httparse::{Status, parse_chunk_size};
use memchr::memchr;
use rack_types::{Fault, NoMemory};
use std::alloc::Global;

// The bytes of all data.
const BODY_LIMIT: usize = 1_048_576;

// The bytes of a size line, with its line feed.
const SIZE_LINE_LIMIT: usize = 1_024;

// The bytes of a trailer, with the empty line that ends it.
const TRAILER_LIMIT: usize = 8_192;

// The field lines of a trailer.
const LINES_LIMIT: usize = 64;

/// What the reader is inside of.
#[derive(Clone, Copy, Debug)]
pub(crate) enum Place {
    /// A size line.
    Size,
    /// The data of a chunk, of which so many bytes are to come. Where none is, a carriage return is.
    Data(usize),
    /// Behind that carriage return.
    Return,
    /// The trailer, whose last line is this.
    Trailer(Line),
}

/// What one step came to.
#[derive(Clone, Copy, Debug)]
pub(crate) enum Step {
    /// So many bytes were taken, one or more, and the body goes on.
    On(usize),
    /// So many bytes were taken, and the body is whole.
    Whole(usize),
    /// The bytes are refused.
    Refused(Fault),
}

/// A reader of chunks: it is fed the bytes behind a head in pieces, cut in any way.
#[derive(Drop)]
pub(crate) struct Chunks {
    // The data of the chunks so far.
    bytes: Vec<u8>,
    // What came of a size line or of the trailer.
    text: Vec<u8>,
    place: Place,
}

impl Chunks {
    /// A reader that was fed nothing. It takes no memory.
    pub(crate) fn new(alloc: Global) -> Chunks
        ensures { HasRead result [] }
    {
        Chunks {
            bytes: Vec::new(alloc),
            text: Vec::new(alloc),
            place: Place::Size,
        }
    }

    /// The data of all chunks, joined.
    pub(crate) fn into_bytes(self) -> Vec<u8>
        ensures { result ≡ self.bytes }
    {
        self.bytes
    }

    /// Adds a piece to the bytes so far, and tells what stands then, as `Intake::feed` does, until
    /// something stands.
    pub(crate) fn feed(&mut self, piece: &[u8]) -> Result<Feed, NoMemory>
        ensures { FeedsChunks self.old piece.now result self.new }
    {
        let mut at = 0;
        while at < piece.len() {
            match self.step(suffix(piece, at))? {
                Step::On(n) => at += n,
                Step::Whole(n) => return Ok(Feed::Whole(at + n)),
                Step::Refused(fault) => return Ok(Feed::Refused(fault)),
            }
        }
        Ok(Feed::More)
    }

    // Takes what the place that it is at can take.
    fn step(&mut self, piece: &[u8]) -> Result<Step, NoMemory>
        requires { 0 < length piece.now }
        ensures { Steps self.old piece.now result self.new }
    {
        match self.place {
            Place::Size => self.read_size(piece),
            Place::Data(left) => {
                if left == 0 {
                    Ok(self.read_return(piece))
                } else {
                    self.read_data(left, piece)
                }
            }
            Place::Return => Ok(self.read_feed(piece)),
            Place::Trailer(line) => self.read_trailer(line, piece),
        }
    }

    // Inside a size line.
    fn read_size(&mut self, piece: &[u8]) -> Result<Step, NoMemory>
        requires place { self.old.place ≡ Place.Size }
        requires some { 0 < length piece.now }
        ensures { Steps self.old piece.now result self.new }
    {
        let room = SIZE_LINE_LIMIT.saturating_sub(self.text.len());
        let near = prefix(piece, room.min(piece.len()));
        match memchr(b'\n', near) {
            Some(k) => {
                self.text.extend_from_slice(prefix(near, k + 1))?;
                self.begin_chunk(k + 1)
            }
            None if near.len() < room => {
                self.text.extend_from_slice(near)?;
                Ok(Step::On(near.len()))
            }
            None => Ok(Step::Refused(Fault::F(15))),
        }
    }

    // The size line is whole, and its last byte is byte n of the piece.
    fn begin_chunk(&mut self, n: usize) -> Result<Step, NoMemory>
        ensures { OpensChunk self.old n result self.new }
    {
        let Some(size) = read_size_line(&self.text) else {
            return Ok(Step::Refused(Fault::F(13)));
        };
        let left = BODY_LIMIT.saturating_sub(self.bytes.len());
        if size > left as u64 {
            return Ok(Step::Refused(Fault::F(14)));
        }
        self.text.clear();
        if size == 0 {
            self.place = Place::Trailer(Line::Start);
        } else {
            self.bytes.reserve(size as usize)?;
            self.place = Place::Data(size as usize);
        }
        Ok(Step::On(n))
    }

    // Inside the data of a chunk.
    fn read_data(&mut self, left: usize, piece: &[u8]) -> Result<Step, NoMemory>
        requires place { self.old.place ≡ Place.Data left }
        requires left { 0 < left }
        requires some { 0 < length piece.now }
        ensures { Steps self.old piece.now result self.new }
    {
        let n = left.min(piece.len());
        self.bytes.extend_from_slice(prefix(piece, n))?;
        self.place = Place::Data(left - n);
        Ok(Step::On(n))
    }

    // Behind the data of a chunk, where a carriage return is to come.
    fn read_return(&mut self, piece: &[u8]) -> Step
        requires place { self.old.place ≡ Place.Data 0 }
        requires some { 0 < length piece.now }
        ensures { Steps self.old piece.now (Ok result) self.new }
    {
        if piece[0] != b'\r' {
            return Step::Refused(Fault::F(13));
        }
        self.place = Place::Return;
        Step::On(1)
    }

    // Behind that carriage return, where a line feed is to come.
    fn read_feed(&mut self, piece: &[u8]) -> Step
        requires place { self.old.place ≡ Place.Return }
        requires some { 0 < length piece.now }
        ensures { Steps self.old piece.now (Ok result) self.new }
    {
        if piece[0] != b'\n' {
            return Step::Refused(Fault::F(13));
        }
        self.place = Place::Size;
        Step::On(1)
    }

    // Inside the trailer.
    fn read_trailer(&mut self, line: Line, piece: &[u8]) -> Result<Step, NoMemory>
        requires place { self.old.place ≡ Place.Trailer line }
        requires some { 0 < length piece.now }
        ensures { Steps self.old piece.now result self.new }
    {
        let room = TRAILER_LIMIT.saturating_sub(self.text.len());
        let (near, beyond) = piece.split_at(room.min(piece.len()));
        let mut line = line;
        match line.scan(near) {
            Some(n) => {
                self.text.extend_from_slice(prefix(near, n))?;
                Ok(match trailer_fault(&self.text) {
                    None => Step::Whole(n),
                    Some(fault) => Step::Refused(fault),
                })
            }
            None if beyond.is_empty() => {
                self.text.extend_from_slice(near)?;
                self.place = Place::Trailer(line);
                Ok(Step::On(near.len()))
            }
            None => Ok(Step::Refused(Fault::F(16))),
        }
    }
}

// The size that a whole size line names, where it is one.
fn read_size_line(line: &[u8]) -> Option<u64>
    ensures names { IfSome result (λ size. NamesSize line.now size) }
    ensures none { IfNone result (NamesNone line.now) }
{
    match parse_chunk_size(line) {
        Ok(Status::Complete((len, size))) => { if len == line.len() { Some(size) } else { None } }
        _ => None,
    }
}

// The refusal of a whole trailer's text, none where it is a trailer.
fn trailer_fault(text: &[u8]) -> Option<Fault>
    ensures { TrailerFault result text.now }
{
    if has_too_many_fields(text) {
        return Some(Fault::F(16));
    }
    if is_trailer(text) {
        None
    } else {
        Some(Fault::F(13))
    }
}

// The field lines of a whole trailer's text are more than 64.
fn has_too_many_fields(text: &[u8]) -> bool
    ensures { result ≡ has_too_many_fields text.now }
{
    count_line_feeds(text).saturating_sub(1) > LINES_LIMIT
}

// The text is a trailer and nothing else.
fn is_trailer(text: &[u8]) -> bool
    ensures { MatchBool result (IsTrailer text.now) (IsNoTrailer text.now) }
{
    let mut places = [EMPTY_HEADER_SPAN; LINES_LIMIT];
    match parse_headers(text, &mut places) {
        Ok(Status::Complete((len, _))) => len == text.len(),
        _ => false,
    }
}
