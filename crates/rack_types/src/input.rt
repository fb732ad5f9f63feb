// The input of an environment: a request's body, read in parts.
ghost use Rattle.std.specs.Prelude.{◌≡◌, take, length};
ghost use Rattle.std.specs.Borrow.{sem};
ghost use Rattle.rack_types.specs.Input.{left, skip, unread, first_line};

use super::Bytes;
use std::marker::Model;

/// A request's body, read in parts from its start to its end, and again after a `rewind`.
///
/// A contract sees its bytes and how many of them are read. No call of this type takes memory, and
/// none copies a byte.
#[derive(Debug, Drop)]
pub struct Input {
    bytes: Bytes,
    position: usize,
}

impl Model for Input {
    ghost use Rattle.std.specs.Prelude.{◌≤◌, length};
    ghost use Rattle.rack_types.specs.Input.{Reading};

    ghost Value = { Reading };

    ghost view = { λ input. record { bytes = input.bytes; position = input.position } };

    ghost invariant = { λ input. input.position ≤ length input.bytes };
}

impl Input {
    ghost use Rattle.rack_types.specs.Lending.{InputEndsAs};

    /// An input of these bytes, of which none is read.
    pub fn new(bytes: Bytes) -> Input
        ensures { result ≡ unread bytes }
    {
        Input { bytes, position: 0 }
    }

    /// Lends the next `n` bytes, or what is left where that is less.
    pub fn read(&mut self, n: usize) -> &[u8]
        ensures* advances { sem 𝓛 (InputEndsAs self.entry (skip n self.old)) }
        ensures value { result.now ≡ take n (left self.old) }
    {
        let start = self.position;
        let end = start + n.min(self.bytes.get().len() - start);
        self.position = end;
        &self.bytes.get()[start..end]
    }

    /// Lends the bytes through the next line feed, or all that is left where there is none.
    pub fn gets(&mut self) -> &[u8]
        ensures* advances { sem 𝓛 (InputEndsAs self.entry (skip (length (first_line (left self.old))) self.old)) }
        ensures value { result.now ≡ first_line (left self.old) }
    {
        let n = line_length(&self.bytes.get()[self.position..]);
        self.read(n)
    }

    /// Lends all that is left.
    pub fn rest(&mut self) -> &[u8]
        ensures* advances { sem 𝓛 (InputEndsAs self.entry (skip (length (left self.old)) self.old)) }
        ensures value { result.now ≡ left self.old }
    {
        let start = self.position;
        self.position = self.bytes.get().len();
        &self.bytes.get()[start..]
    }

    /// Lends the whole, whatever is read of it.
    pub fn all(&self) -> &[u8]
        ensures { result.now ≡ self.now.bytes }
    {
        self.bytes.get()
    }

    /// Goes back to the start.
    pub fn rewind(&mut self)
        ensures { self.new ≡ unread self.old.bytes }
    {
        self.position = 0;
    }
}

// How many bytes there are through the first line feed, or at all.
fn line_length(bytes: &[u8]) -> usize
    ensures length { result ≡ length (first_line bytes.now) }
    ensures line { take result bytes.now ≡ first_line bytes.now }
{
    for (i, byte) in bytes.iter().enumerate() {
        if *byte == b'\n' {
            return i + 1;
        }
    }
    bytes.len()
}
