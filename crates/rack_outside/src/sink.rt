// Where bytes go.
ghost use Rattle.std.specs.Prelude.{ℕ, ◌<◌, ◌≤◌, List, Option, length};
ghost use Rattle.rack_outside.specs.Sink.{Takes, OnFailedWrite};
ghost use Rattle.rack_outside.specs.Told.{Rose};

/// What one write took.
#[derive(Clone, Copy, Debug, PartialEq, Eq)]
pub enum SinkWrite {
    /// So many bytes of the piece were taken, from its front: 1 to the piece's length.
    Took(usize),
    /// The write failed, and the count of faults rose.
    Failed,
    /// Memory was refused. Only objects in memory answer it, and they took nothing.
    NoMemory,
}

/// A stream that bytes are written to.
pub trait Sink {
    /// All bytes that the sink took so far, where it tells.
    ghost written: { Self → Option (List ℕ) };
    /// How many writes failed. A count that has reached 2^64 - 1 stays there, and a further failure
    /// then counts as risen.
    ghost faults: { Self → ℕ };

    /// Writes some bytes of the piece, which is not empty.
    fn write(&mut self, piece: &[u8]) -> SinkWrite
        requires { 0 < length piece.now }
        ensures takes { Takes result piece.now (written self.old) (written self.new) }
        ensures later { faults self.old ≤ faults self.new }
        ensures failed { OnFailedWrite result (Rose (faults self.old) (faults self.new)) };
}
