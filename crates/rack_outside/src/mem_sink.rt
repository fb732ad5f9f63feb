// A sink in memory whose writes fail at chosen places.
ghost use Rattle.std.specs.Prelude.{◌≡◌, ◌<◌, ◌≤◌, [], Some, length};
ghost use Rattle.rack_outside.specs.Sink.{Takes, OnFailedWrite};
ghost use Rattle.rack_outside.specs.Told.{Rose};
ghost use Rattle.rack_outside.specs.Tray.{fresh_tray, TakesAllOrFails};

use crate::places::is_named;
use crate::{Sink, SinkWrite, SureSink};
use rack_types::Bytes;
use std::alloc::Global;
use std::marker::Model;

/// A sink in memory whose writes fail at chosen places: it tells what it took, and counts its faults.
#[derive(Drop)]
pub struct MemSink {
    sink: SureSink,
    fails: Bytes,
    writes: u64,
    faults: u64,
}

impl Model for MemSink {
    ghost use Rattle.rack_outside.specs.Tray.{FaultyTray};

    ghost Value = { FaultyTray };

    ghost view = { λ s. record {
      written = s.sink;
      fails = s.fails;
      writes = s.writes;
      faults = s.faults;
    } };
}

impl MemSink {
    /// A sink that took nothing yet, and fails at these places. It takes no memory.
    ///
    /// `fails` names the writes that fail by their place, counted from 1. A write that fails takes
    /// nothing.
    pub fn new(alloc: Global, fails: Bytes) -> MemSink
        ensures fresh { result ≡ fresh_tray fails }
        ensures written { ⟦<MemSink as Sink>⟧.written result ≡ Some [] }
        ensures faults { ⟦<MemSink as Sink>⟧.faults result ≡ 0 }
    {
        MemSink {
            sink: SureSink::new(alloc),
            fails,
            writes: 0,
            faults: 0,
        }
    }

    /// All bytes that were taken, in order.
    pub fn written(&self) -> &[u8]
        ensures { result.now ≡ self.now.written }
    {
        self.sink.written()
    }
}

impl Sink for MemSink {
    ghost written = { λ s. Some s.written };

    ghost faults = { λ s. s.faults };

    /// Fails exactly where its place was named, and else takes all of the piece. It takes memory for
    /// it, and answers `NoMemory` where that is refused.
    fn write(&mut self, piece: &[u8]) -> SinkWrite
        requires { 0 < length piece.now }
        ensures exact { TakesAllOrFails result piece.now self.old self.new }
        ensures takes { Takes result piece.now (Some self.old.written) (Some self.new.written) }
        ensures later { self.old.faults ≤ self.new.faults }
        ensures failed { OnFailedWrite result (Rose self.old.faults self.new.faults) }
    {
        self.writes = self.writes.saturating_add(1);
        if is_named(self.fails.get(), self.writes) {
            self.faults = self.faults.saturating_add(1);
            return SinkWrite::Failed;
        }
        self.sink.write(piece)
    }
}
