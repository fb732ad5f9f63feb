// Keys of what is watched, in room that is made once.
ghost use Rattle.std.specs.Prelude.{◌≡◌, ◌<◌, ◌≤◌, ◌++◌, [], ◌∷◌, Some, IfOk, length, slice_get};
ghost use Rattle.rack_outside.specs.Watched.{has_key, without_key};

use rack_types::NoMemory;
use std::alloc::Global;
use std::marker::Model;

/// At most 1,024 numbers, by which who watches links knows them again. Its room is made by `new`, and
/// no other call takes memory.
///
/// A contract sees it as the list of the numbers.
#[derive(Drop)]
pub struct Keys {
    keys: Vec<usize>,
}

impl Model for Keys {
    ghost use Rattle.std.specs.Prelude.{◌≤◌, List, ℕ, length, vec_capacity};

    ghost Value = { List ℕ };

    ghost view = { λ k. k.keys.items };

    ghost invariant = { λ k. (length k.keys.items ≤ 1024) × (1024 ≤ vec_capacity k.keys) };
}

impl Keys {
    // How many there may be.
    pub(crate) const LIMIT: usize = 1_024;

    /// No keys, and room for 1,024.
    pub fn new(alloc: Global) -> Result<Keys, NoMemory>
        ensures { IfOk result (λ keys. keys ≡ []) }
    {
        Ok(Keys {
            keys: Vec::with_capacity(alloc, Keys::LIMIT)?,
        })
    }

    /// How many keys there are, at most 1,024.
    pub fn len(&self) -> usize
        ensures len { result ≡ length self.now }
        ensures few { result ≤ 1024 }
    {
        self.keys.len()
    }

    /// The key at this place, from 0.
    pub fn get(&self, i: usize) -> usize
        requires { i < length self.now }
        ensures { slice_get self.now i ≡ Some result }
    {
        self.keys[i]
    }

    /// Takes all keys out.
    pub fn clear(&mut self)
        ensures { self.new ≡ [] }
    {
        self.keys.clear();
    }

    /// Puts a key behind the others.
    pub fn push(&mut self, key: usize)
        requires { length self.old < 1024 }
        ensures { self.new ≡ self.old ++ key ∷ [] }
    {
        self.keys.push_reserved(key);
    }

    // Whether the key is there.
    pub(crate) fn has(&self, key: usize) -> bool
        ensures has { result ≡ has_key key self.now }
        ensures few { length self.now ≤ 1024 }
    {
        self.keys.iter().any(|held| *held == key)
    }

    // Holds what the other holds instead.
    pub(crate) fn copy(&mut self, other: &Keys)
        ensures { self.new ≡ other.now }
    {
        self.keys.clear();
        self.keys.extend_from_slice(&other.keys).unwrap();
    }

    // Takes a key out, wherever it is.
    pub(crate) fn remove(&mut self, key: usize)
        ensures { self.new ≡ without_key key self.old }
    {
        self.keys.retain(|held| *held != key);
    }
}
