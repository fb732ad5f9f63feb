// The stock body.
ghost use Rattle.std.specs.Prelude.{◌≡◌, ◌≤◌, [], length};
ghost use Rattle.std.specs.List.{concat};
ghost use Rattle.rack_types.specs.Plain.{plain_content, sum_within};

use super::{Body, Bytes, Kind, NoMemory, Step};
use std::marker::Model;

/// The stock body, over pieces that stand in memory. No call of it takes memory.
#[derive(Drop)]
pub struct Plain {
    pieces: Vec<Bytes>,
    // how many of them were taken
    place: usize,
    raises: bool,
    known: bool,
    kind: Kind,
}

impl Model for Plain {
    ghost use Rattle.std.specs.Prelude.{◌≤◌, length};
    ghost use Rattle.rack_types.specs.Plain.{PlainBody, plain_view};

    ghost Value = { PlainBody };

    ghost view = { λ p. plain_view p.pieces.items p.place p.raises p.known p.kind };

    ghost invariant = { λ p. p.place ≤ length p.pieces.items };
}

impl Plain {
    /// A body of these pieces, which raises behind them or ends well.
    ///
    /// Its length is known where `known` is true, the end is good, the kind is enumerable, and the
    /// pieces have fewer than 2^64 bytes in all.
    pub fn new(pieces: Vec<Bytes>, raises: bool, known: bool, kind: Kind) -> Plain
        ensures content { result.content ≡ plain_content pieces.items raises known kind }
        ensures taken { result.taken ≡ [] }
    {
        Plain {
            pieces,
            place: 0,
            raises,
            known,
            kind,
        }
    }
}

impl Body for Plain {
    ghost content = { λ p. p.content };

    ghost taken = { λ p. p.taken };

    fn next(&mut self) -> Result<Step, NoMemory> {
        if self.place < self.pieces.len() {
            self.place += 1;
            return Ok(Step::Piece);
        }
        if self.raises {
            Ok(Step::Raised)
        } else {
            Ok(Step::End)
        }
    }

    fn piece(&self) -> &[u8] {
        if self.place == 0 {
            return &[];
        }
        self.pieces[self.place - 1].get()
    }

    fn known_length(&self) -> Option<u64> {
        if !self.known || self.raises || self.kind == Kind::Streaming {
            return None;
        }
        length_of(&self.pieces[self.place..])
    }

    fn kind(&self) -> Kind {
        self.kind
    }

    fn close(self) {}
}

// How many bytes the pieces have in all, where those are fewer than 2^64.
fn length_of(pieces: &[Bytes]) -> Option<u64>
    ensures { result ≡ sum_within (length (concat pieces.now)) }
{
    let mut sum: u64 = 0;
    for piece in pieces {
        sum = sum.checked_add(piece.get().len() as u64)?;
    }
    Some(sum)
}
