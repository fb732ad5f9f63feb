// A source over bytes in memory that never fails.
ghost use Rattle.std.specs.Prelude.{◌≡◌, ◌<◌, ◌≤◌, [], Some, length, drop};
ghost use Rattle.rack_outside.specs.Supply.{fresh_supply, piece_limit, Supplies};
ghost use Rattle.rack_outside.specs.Source.{Gives, OnFailedRead};

use crate::{Source, SourceRead};
use rack_types::Bytes;
use std::marker::Model;

/// A source over bytes in memory that never fails: it tells its input and what was given, and its
/// count of faults is always 0.
///
/// Neither `new` nor a read takes memory.
#[derive(Drop)]
pub struct SureSource {
    input: Bytes,
    // how many bytes of the input were given
    given: usize,
    cuts: Bytes,
    // how many of the sizes were used
    pieces: usize,
}

impl Model for SureSource {
    ghost use Rattle.std.specs.Prelude.{◌≤◌, length, take, drop};
    ghost use Rattle.rack_outside.specs.Supply.{Supply};

    ghost Value = { Supply };

    ghost view = { λ f. record {
      input = f.input;
      given = take f.given f.input;
      cuts = drop f.pieces f.cuts;
    } };

    ghost invariant = { λ f. (f.given ≤ length f.input) × (f.pieces ≤ length f.cuts) };
}

impl SureSource {
    /// A source that gives these bytes in pieces of these sizes.
    ///
    /// A size of 0 counts as 1, and no piece is larger than the room or than what is left. Behind
    /// the last size the room decides.
    pub fn new(bytes: Bytes, cuts: Bytes) -> SureSource
        ensures fresh { result ≡ fresh_supply bytes cuts }
        ensures input { ⟦<SureSource as Source>⟧.input result ≡ Some bytes }
        ensures given { ⟦<SureSource as Source>⟧.given result ≡ Some [] }
        ensures faults { ⟦<SureSource as Source>⟧.faults result ≡ 0 }
    {
        SureSource {
            input: bytes,
            given: 0,
            cuts,
            pieces: 0,
        }
    }
}

impl Source for SureSource {
    ghost input = { λ s. Some s.input };

    ghost given = { λ s. Some s.given };

    ghost faults = { λ _. 0 };

    /// Gives the next piece, and the end exactly where all was given.
    fn read(&mut self, room: &mut [u8]) -> SourceRead
        requires { 0 < length room.old }
        ensures exact { Supplies result self.old self.new room.old room.new }
        ensures same { self.new.input ≡ self.old.input }
        ensures gives { Gives result (Some self.old.input) (Some self.old.given)
            (Some self.new.given) room.new }
        ensures failed { OnFailedRead result ⊥ }
    {
        let input = self.input.get();
        let left = input.len() - self.given;
        if left == 0 {
            return SourceRead::End;
        }
        let cuts = self.cuts.get();
        let size = size_limit(cuts, self.pieces, room.len()).min(left);
        let end = self.given + size;
        room[..size].copy_from_slice(&input[self.given..end]);
        self.given = end;
        self.pieces = (self.pieces + 1).min(cuts.len());
        SourceRead::Bytes(size)
    }
}

// How large a piece may be, behind so many others.
fn size_limit(cuts: &[u8], pieces: usize, room: usize) -> usize
    requires { 0 < room }
    ensures value { result ≡ piece_limit (drop pieces cuts.now) room }
    ensures some { 0 < result }
    ensures within { result ≤ room }
{
    match cuts.get(pieces) {
        Some(size) => usize::from(*size).max(1).min(room),
        None => room,
    }
}
