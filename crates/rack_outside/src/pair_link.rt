// A link of a source and a sink.
ghost use Rattle.std.specs.Prelude.{◌≡◌, ◌∷◌, [], Some, None, true, false, codes};
ghost use Rattle.rack_outside.specs.Source.{IsFront, IsWhole};

use crate::{Link, LinkRead, LinkWrite, Sink, SinkWrite, Source, SourceRead};

/// A link of a source and a sink, which it borrows: what is read from it the source gives, and what
/// it takes goes to the sink.
///
/// It never has to wait. Its tag is 0 and it tells no peer; its failed reads are the source's faults
/// and its failed writes the sink's. It tells what was given and sent where the source and the sink
/// tell it, and whether a read answered the end.
#[derive(Drop)]
pub struct PairLink<'a, S: Source, K: Sink> {
    /// Where bytes come from.
    pub source: &'a mut S,
    /// Where bytes go.
    pub sink: &'a mut K,
    /// Whether a read answered the end.
    pub over: bool,
    /// How many reads there were.
    pub reads: u64,
    /// How many writes there were.
    pub writes: u64,
    /// What was given is the front of the input.
    pub ghost front: { IsFront (S.given source.now) (S.input source.now) },
    /// Where a read answered the end, all of the input was given.
    pub ghost whole: { over ≡ true → IsWhole (S.given source.now) (S.input source.now) },
}

impl<'a, S: Source, K: Sink> PairLink<'a, S, K> {
    /// A link of this source and this sink, of which nothing was read yet. It takes no memory.
    pub fn new(source: &'a mut S, sink: &'a mut K) -> PairLink<'a, S, K>
        requires front { IsFront (S.given source.old) (S.input source.old) }
        ensures source { result.source.now ≡ source.old }
        ensures sink { result.sink.now ≡ sink.old }
        ensures borrows_source { result.source.ghost_name ≡ source.entry.ghost_name }
        ensures borrows_sink { result.sink.ghost_name ≡ sink.entry.ghost_name }
        ensures fresh { (result.over ≡ false) × (result.reads ≡ 0) × (result.writes ≡ 0) }
    {
        PairLink {
            source,
            sink,
            over: false,
            reads: 0,
            writes: 0,
        }
    }
}

impl<'a, S: Source, K: Sink> Link for PairLink<'a, S, K> {
    ghost seen = { λ l. record {
      tag = 0;
      peer = None;
      borrows = l.source.ghost_name ∷ l.sink.ghost_name ∷ [];
      input = S.input l.source.now;
      given = S.given l.source.now;
      sent = K.written l.sink.now;
      over = Some l.over;
      failed_reads = S.faults l.source.now;
      failed_writes = K.faults l.sink.now;
      waits = 0;
      reads = l.reads;
      writes = l.writes;
      ahead = None;
    } };

    /// Answers what the source does. It takes no memory.
    fn read(&mut self, room: &mut [u8]) -> LinkRead {
        self.reads = self.reads.saturating_add(1);
        match self.source.read(room) {
            SourceRead::Bytes(n) => LinkRead::Bytes(n),
            SourceRead::End => {
                self.over = true;
                LinkRead::End
            }
            SourceRead::Failed => LinkRead::Failed,
        }
    }

    /// Answers what the sink does.
    fn write(&mut self, piece: &[u8]) -> LinkWrite {
        self.writes = self.writes.saturating_add(1);
        match self.sink.write(piece) {
            SinkWrite::Took(n) => LinkWrite::Took(n),
            SinkWrite::Failed => LinkWrite::Failed,
            SinkWrite::NoMemory => LinkWrite::NoMemory,
        }
    }
}
