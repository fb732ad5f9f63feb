// What was read of a link and not fed yet.
ghost use Rattle.std.specs.Prelude.{◌≡◌, ◌≤◌, [], drop, length, IfOk};
ghost use Rattle.rack_outside.specs.Link.{IsOneRead};
ghost use Rattle.conn_steps.specs.Moves.{OffersRoom};
ghost use Rattle.conn_steps.specs.Steps.{ReadsInto};

use rack_outside::{Link, LinkRead};
use rack_types::NoMemory;
use std::alloc::Global;
use std::marker::Model;

// The bytes that one read may give.
const PIECE: usize = 16_384;

/// The last piece that was read, of which the bytes between two places are unfed. A contract sees those bytes.
#[derive(Drop)]
pub struct Piece {
    piece: Vec<u8>,
    from: usize,
    to: usize,
    /// Whether the last read had to wait.
    waited: bool,
}

impl Model for Piece {
    ghost use Rattle.std.specs.Prelude.{◌≤◌, List, ℕ, take, drop, vec_len, vec_capacity};

    ghost Value = { List ℕ };

    ghost view = { λ unfed. drop unfed.from (take unfed.to unfed.piece.items) };

    ghost invariant = { λ unfed. (unfed.to ≤ vec_len unfed.piece) × (vec_len unfed.piece ≤ 16384) × (16384 ≤ vec_capacity unfed.piece) };
}

impl Piece {
    /// No bytes. The room of a piece is reserved here, and not touched before the first read.
    pub fn new(alloc: Global) -> Result<Piece, NoMemory>
        ensures { IfOk result (λ unfed. unfed ≡ []) }
    {
        Ok(Piece {
            piece: Vec::with_capacity(alloc, PIECE)?,
            from: 0,
            to: 0,
            waited: false,
        })
    }

    /// One read into the room of a piece. What it gives is unfed.
    pub fn read<L: Link>(&mut self, link: &mut L) -> LinkRead
        ensures keeps { IsOneRead (L.seen link.old) (L.seen link.new) }
        ensures reads { ReadsInto result self.new (L.seen link.old) (L.seen link.new) }
        ensures offers { OffersRoom result (L.seen link.old) (L.seen link.new) }
    {
        if self.piece.len() < PIECE {
            self.piece.resize(PIECE, 0).unwrap();
        }
        let read = link.read(self.piece.as_mut_slice());
        self.waited = matches!(read, LinkRead::NotYet);
        self.from = 0;
        self.to = match read {
            LinkRead::Bytes(n) => n,
            _ => 0,
        };
        read
    }

    /// The bytes, lent.
    pub fn bytes(&self) -> &[u8]
        ensures bytes { result.now ≡ self.now }
        ensures few { length result.now ≤ 16384 }
    {
        &self.piece[self.from.min(self.to)..self.to]
    }

    /// Whether the last read had to wait. False before the first.
    pub fn waited(&self) -> bool {
        self.waited
    }

    /// Lets the first n of them go.
    pub fn skip(&mut self, n: usize)
        ensures { self.new ≡ drop n self.old }
    {
        self.from = self.from.saturating_add(n);
    }

    /// Lets all of them go.
    pub fn clear(&mut self)
        ensures { self.new ≡ [] }
    {
        self.to = 0;
    }
}
