// A source over bytes in memory whose reads fail at chosen places.
ghost use Rattle.std.specs.Prelude.{◌≡◌, ◌<◌, ◌≤◌, [], Some, length};
ghost use Rattle.rack_outside.specs.Supply.{fresh_faulty_supply, SuppliesOrFails};
ghost use Rattle.rack_outside.specs.Source.{Gives, OnFailedRead};
ghost use Rattle.rack_outside.specs.Told.{Rose};

use crate::places::is_named;
use crate::{Source, SourceRead, SureSource};
use rack_types::Bytes;
use std::marker::Model;

/// A source over bytes in memory whose reads fail at chosen places: it tells its input and what was
/// given, and counts its faults.
///
/// Neither `new` nor a read takes memory.
#[derive(Drop)]
pub struct MemSource {
    source: SureSource,
    fails: Bytes,
    reads: u64,
    faults: u64,
}

impl Model for MemSource {
    ghost use Rattle.rack_outside.specs.Supply.{FaultySupply};

    ghost Value = { FaultySupply };

    ghost view = { λ s. record {
      supply = s.source;
      fails = s.fails;
      reads = s.reads;
      faults = s.faults;
    } };
}

impl MemSource {
    /// A source that gives these bytes, in pieces of these sizes, and fails at these places.
    ///
    /// `cuts` has the sizes in turn, where 0 counts as 1, and no piece is larger than the room or
    /// than what is left. Behind the last size the room decides. `fails` names the reads that fail
    /// by their place, counted from 1. A read that fails takes nothing, also no size.
    pub fn new(bytes: Bytes, cuts: Bytes, fails: Bytes) -> MemSource
        ensures fresh { result ≡ fresh_faulty_supply bytes cuts fails }
        ensures input { ⟦<MemSource as Source>⟧.input result ≡ Some bytes }
        ensures given { ⟦<MemSource as Source>⟧.given result ≡ Some [] }
        ensures faults { ⟦<MemSource as Source>⟧.faults result ≡ 0 }
    {
        MemSource {
            source: SureSource::new(bytes, cuts),
            fails,
            reads: 0,
            faults: 0,
        }
    }
}

impl Source for MemSource {
    ghost input = { λ s. Some s.supply.input };

    ghost given = { λ s. Some s.supply.given };

    ghost faults = { λ s. s.faults };

    /// Fails exactly at a place that was named, and else gives the next piece, or the end where all
    /// was given.
    fn read(&mut self, room: &mut [u8]) -> SourceRead
        requires { 0 < length room.old }
        ensures exact { SuppliesOrFails result self.old self.new room.old room.new }
        ensures same { self.new.supply.input ≡ self.old.supply.input }
        ensures gives { Gives result (Some self.old.supply.input) (Some self.old.supply.given)
            (Some self.new.supply.given) room.new }
        ensures later { self.old.faults ≤ self.new.faults }
        ensures failed { OnFailedRead result (Rose self.old.faults self.new.faults) }
    {
        self.reads = self.reads.saturating_add(1);
        if is_named(self.fails.get(), self.reads) {
            self.faults = self.faults.saturating_add(1);
            return SourceRead::Failed;
        }
        self.source.read(room)
    }
}
