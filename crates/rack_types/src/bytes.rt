// Bytes with an owner, which contracts see as a list.
ghost use Rattle.std.specs.Prelude.{◌≡◌, ◌++◌, OnOk, OnErr};

use super::NoMemory;
use std::marker::Model;

// Above so many bytes a room is kept only where a quarter of it is needed.
const LARGE: usize = 4_096;

/// Some bytes, of any values, with an owner. A contract sees them as a list of numbers.
///
/// No public call of this type takes memory.
#[derive(Debug, Drop)]
pub struct Bytes {
    bytes: Vec<u8>,
}

impl Model for Bytes {
    ghost use Rattle.std.specs.Prelude.{List, ℕ};

    ghost Value = { List ℕ };

    ghost view = { λ b. b.bytes.items };
}

impl Bytes {
    /// These bytes.
    pub fn new(bytes: Vec<u8>) -> Bytes
        ensures { result ≡ bytes.items }
    {
        Bytes { bytes }
    }

    /// The bytes, lent.
    pub fn get(&self) -> &[u8]
        ensures { result.now ≡ self.now }
    {
        &self.bytes
    }

    /// The bytes, with their room.
    pub fn into_vec(self) -> Vec<u8>
        ensures { result.items ≡ self }
    {
        self.bytes
    }

    // Holds these bytes instead, in the room that is there where they fit. Of a large room that they
    // need little of, none is kept.
    pub(crate) fn fill(&mut self, bytes: &[u8]) -> Result<(), NoMemory>
        ensures filled { OnOk result (self.new ≡ bytes.now) }
        ensures unchanged { OnErr result (self.new ≡ self.old) }
    {
        let room = self.bytes.capacity();
        if room < bytes.len() || room > LARGE && bytes.len() < room / 4 {
            self.bytes = Vec::from_slice(*self.bytes.allocator(), bytes)?;
            return Ok(());
        }
        self.bytes.clear();
        self.bytes.extend_from_slice(bytes).unwrap();
        Ok(())
    }

    // Goes on with both parts, or stays as it is.
    pub(crate) fn join(&mut self, separator: &[u8], more: &[u8]) -> Result<(), NoMemory>
        ensures longer { OnOk result (self.new ≡ self.old ++ (separator.now ++ more.now)) }
        ensures unchanged { OnErr result (self.new ≡ self.old) }
    {
        self.bytes.reserve(separator.len() + more.len())?;
        self.bytes.extend_from_slice(separator)?;
        self.bytes.extend_from_slice(more)?;
        Ok(())
    }
}
