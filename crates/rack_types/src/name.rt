// Names that are keys of a map: lent for ever, in place where they are short, or owned.
ghost use Rattle.std.specs.Prelude.{◌≡◌, [], ◌∷◌, bytes_eq, IfOk, IfSome};
ghost use Rattle.rack_types.specs.Name.{given_bytes};
ghost use Rattle.std.specs.Cmp.{on_equiv, on_per, partial_equiv_from_equiv};
ghost use Rattle.std.specs.Cmp.Lexicographic.{bytes_decides, nat_list_eq_equiv};
ghost use Rattle.std.proofs.Common.{ap};

use super::{Bytes, NoMemory};
use indexmap::Equivalent;
use std::alloc::Global;
use std::hash::{Hash, Hasher};
use std::marker::Model;

// How many bytes of a name lie in place at most.
const SHORT: usize = 23;

// Bytes that lie in place.
#[derive(Drop)]
pub(crate) struct Short {
    bytes: [u8; 23],
    len: u8,
}

impl Model for Short {
    ghost use Rattle.std.specs.Prelude.{◌≤◌, List, ℕ, take};

    ghost Value = { List ℕ };

    ghost view = { λ short. take short.len short.bytes };

    ghost invariant = { λ short. short.len ≤ 23 };
}

impl Short {
    // These bytes, where they are few enough.
    fn new(bytes: &[u8]) -> Option<Short>
        ensures { IfSome result (λ short. short ≡ bytes.now) }
    {
        let len = bytes.len();
        if len > SHORT {
            return None;
        }
        let mut kept = [0; SHORT];
        kept[..len].copy_from_slice(bytes);
        Some(Short {
            bytes: kept,
            len: len as u8,
        })
    }

    // The bytes.
    fn get(&self) -> &[u8]
        ensures { result.now ≡ self.now }
    {
        &self.bytes[..self.len as usize]
    }
}

// Where the bytes of a name are: lent for ever, in place, or in memory of their own.
#[derive(Drop)]
pub(crate) enum Text {
    Lent(&'static [u8]),
    Short(Short),
    Owned(Bytes),
}

/// A name. A contract sees it as its bytes, wherever they are.
///
/// It is hashed in one write, which takes sixteen bytes at a time.
#[derive(Drop)]
pub(crate) struct Name {
    text: Text,
}

impl Model for Name {
    ghost use Rattle.std.specs.Prelude.{List, ℕ};
    ghost use Rattle.rack_types.specs.Name.{bytes_of};

    ghost Value = { List ℕ };

    ghost view = { λ name. bytes_of name.text };
}

impl Name {
    /// The name with these bytes, which are lent for ever. It takes no memory.
    pub(crate) fn lent(bytes: &'static [u8]) -> Name
        ensures { result ≡ bytes.now }
    {
        Name {
            text: Text::Lent(bytes),
        }
    }

    /// The name that owns these bytes.
    pub(crate) fn owned(bytes: Bytes) -> Name
        ensures { result ≡ bytes }
    {
        Name {
            text: Text::Owned(bytes),
        }
    }

    /// The bytes.
    pub(crate) fn get(&self) -> &[u8]
        ensures { result.now ≡ self.now }
    {
        match &self.text {
            Text::Lent(bytes) => bytes,
            Text::Short(short) => short.get(),
            Text::Owned(bytes) => bytes.get(),
        }
    }

    // A name with these bytes, in the room of this one where it has any and they don't lie in place.
    fn renamed(self, alloc: Global, bytes: &[u8]) -> Result<Name, NoMemory>
        ensures { IfOk result (λ name. name ≡ bytes.now) }
    {
        if let Some(short) = Short::new(bytes) {
            return Ok(Name {
                text: Text::Short(short),
            });
        }
        let mut room = match self.text {
            Text::Owned(room) => room,
            _ => Bytes::new(Vec::new(alloc)),
        };
        room.fill(bytes)?;
        Ok(Name::owned(room))
    }
}

/// A name that is given to a map: it is lent for ever, or it is to be copied.
#[derive(Clone, Copy)]
pub(crate) enum Given<'a> {
    Lent(&'static [u8]),
    Copied(&'a [u8]),
}

impl<'a> Given<'a> {
    /// The bytes.
    pub(crate) fn get(&self) -> &[u8]
        ensures { result.now ≡ given_bytes self.now }
    {
        match self {
            Given::Lent(bytes) => bytes,
            Given::Copied(bytes) => bytes,
        }
    }

    /// The name with these bytes. What is copied goes into the room of a former name, or in place.
    pub(crate) fn into_name(self, alloc: Global, former: Name) -> Result<Name, NoMemory>
        ensures { IfOk result (λ name. name ≡ given_bytes self.entry) }
    {
        match self {
            Given::Lent(bytes) => Ok(Name::lent(bytes)),
            Given::Copied(bytes) => former.renamed(alloc, bytes),
        }
    }
}

impl PartialEq for Name {
    ghost eq = { bytes_eq };

    ghost laws = { partial_equiv_from_equiv nat_list_eq_equiv };

    fn eq(&self, other: &Self) -> bool {
        self.get() == other.get()
    }
}

impl Eq for Name {
    ghost laws = { nat_list_eq_equiv };
}

impl Hash for Name {
    ghost hash_input = { λ name. name ∷ [] };

    ghost respects_eq = { λ x y same. ap (λ name. name ∷ []) ((bytes_decides x y).0 same) };

    fn hash<H: Hasher>(&self, state: &mut H) {
        state.write(self.get());
    }
}

/// A name that is looked for, lent.
#[derive(Clone, Copy)]
pub(crate) struct Sought<'a> {
    pub(crate) bytes: &'a [u8],
}

impl<'a> PartialEq for Sought<'a> {
    ghost eq = { λ x y. bytes_eq x.bytes.now y.bytes.now };

    ghost laws = { on_per (λ x. x.bytes.now) (partial_equiv_from_equiv nat_list_eq_equiv) };

    fn eq(&self, other: &Self) -> bool {
        self.bytes == other.bytes
    }
}

impl<'a> Eq for Sought<'a> {
    ghost laws = { on_equiv (λ x. x.bytes.now) nat_list_eq_equiv };
}

impl<'a> Hash for Sought<'a> {
    ghost hash_input = { λ x. x.bytes.now ∷ [] };

    ghost respects_eq = { λ x y same. ap (λ bytes. bytes ∷ []) ((bytes_decides x.bytes.now y.bytes.now).0 same) };

    fn hash<H: Hasher>(&self, state: &mut H) {
        state.write(self.bytes);
    }
}

impl<'a> Equivalent<Name> for Sought<'a> {
    ghost equivalent = { λ q. bytes_eq q.bytes.now };

    ghost respects_hash = { λ q k same. ap (λ bytes. bytes ∷ []) ((bytes_decides q.bytes.now k).0 same) };

    ghost respects_eq = { λ q. nat_list_eq_equiv.congr q.bytes.now };

    fn equivalent(&self, key: &Name) -> bool {
        self.bytes == key.get()
    }
}
