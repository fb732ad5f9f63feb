// Lists of texts.
ghost use Rattle.std.specs.Prelude.{◌≡◌};

use rack_types::Bytes;
use std::marker::Model;

/// Some texts in an order, each of any bytes. A contract sees them as a list of lists of numbers.
///
/// No call of this type takes memory.
#[derive(Debug, Drop)]
pub struct Texts {
    texts: Vec<Bytes>,
}

impl Model for Texts {
    ghost use Rattle.std.specs.Prelude.{List, ℕ};

    ghost Value = { List (List ℕ) };

    ghost view = { λ t. t.texts.items };
}

impl Texts {
    /// These texts.
    pub fn new(texts: Vec<Bytes>) -> Texts
        ensures { result ≡ texts.items }
    {
        Texts { texts }
    }

    /// The texts, lent.
    pub fn get(&self) -> &[Bytes]
        ensures { result.now ≡ self.now }
    {
        &self.texts
    }

    /// The texts, with their room.
    pub fn into_vec(self) -> Vec<Bytes>
        ensures { result.items ≡ self }
    {
        self.texts
    }
}
