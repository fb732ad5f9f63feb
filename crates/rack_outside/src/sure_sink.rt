// A sink in memory that never fails.
ghost use Rattle.std.specs.Prelude.{◌≡◌, ◌<◌, [], Some, length};
ghost use Rattle.rack_outside.specs.Sink.{Takes, OnFailedWrite};
ghost use Rattle.rack_outside.specs.Tray.{TakesAll};

use crate::{Sink, SinkWrite};
use std::alloc::Global;
use std::marker::Model;

/// A sink in memory that never fails: it tells what it took, and its count of faults is always 0. A
/// contract sees it as the list of the bytes that it took.
#[derive(Drop)]
pub struct SureSink {
    written: Vec<u8>,
}

impl Model for SureSink {
    ghost use Rattle.std.specs.Prelude.{List, ℕ};

    ghost Value = { List ℕ };

    ghost view = { λ s. s.written.items };
}

impl SureSink {
    /// A sink that took nothing yet. It takes no memory.
    pub fn new(alloc: Global) -> SureSink
        ensures fresh { result ≡ [] }
        ensures written { ⟦<SureSink as Sink>⟧.written result ≡ Some [] }
        ensures faults { ⟦<SureSink as Sink>⟧.faults result ≡ 0 }
    {
        SureSink {
            written: Vec::new(alloc),
        }
    }

    /// All bytes that were taken, in order.
    pub fn written(&self) -> &[u8]
        ensures { result.now ≡ self.now }
    {
        &self.written
    }
}

impl Sink for SureSink {
    ghost written = { λ s. Some s };

    ghost faults = { λ _. 0 };

    /// Takes all of the piece. It takes memory for it, and answers `NoMemory` where that is refused.
    fn write(&mut self, piece: &[u8]) -> SinkWrite
        requires { 0 < length piece.now }
        ensures exact { TakesAll result piece.now self.old self.new }
        ensures takes { Takes result piece.now (Some self.old) (Some self.new) }
        ensures failed { OnFailedWrite result ⊥ }
    {
        match self.written.extend_from_slice(piece) {
            Ok(()) => SinkWrite::Took(piece.len()),
            Err(_) => SinkWrite::NoMemory,
        }
    }
}
