// The environment of a request.
ghost use Rattle.std.specs.Prelude.{◌≡◌, ◌^◌, ◌<◌, ◌++◌, [], length, is_some, Some, IfOk, OnOk, OnErr, slice_get, option_copied};
ghost use Rattle.std.specs.Borrow.{sem, Lends};
ghost use Rattle.rack_types.specs.Env.{names, values, get_pair, set_pair, extend_pair, remove_pair, empty_env, with_pairs, with_input, add_pair, HasName, AreDistinct};

use super::{Bytes, Input, NoMemory};
use crate::name::Given;
use crate::table::Table;
use std::alloc::Global;
use std::marker::Model;
use std::mem;

/// The environment of a request: pairs of a name and a value in an order, with distinct names, and
/// an input.
///
/// A contract sees the pairs as a list, and the input as `Input` is seen.
#[derive(Drop)]
pub struct Env {
    table: Table,
    input: Input,
    // Room that is lent to those who fill it.
    room: Bytes,
}

impl Model for Env {
    ghost use Rattle.rack_types.specs.Env.{Environment};
    ghost use Rattle.rack_types.specs.Table.{standing};

    ghost Value = { Environment };

    ghost view = { λ env. record { pairs = standing env.table; input = env.input } };
}

impl Env {
    ghost use Rattle.rack_types.specs.contracts.env.Env as env;
    ghost use Rattle.rack_types.specs.contracts.input.Input as input;

    /// An environment with no pairs. This takes no memory.
    pub fn new(alloc: Global, input: Input) -> Env
        ensures { result ≡ empty_env input }
    {
        Env {
            table: Table::new(alloc),
            input,
            room: Bytes::new(Vec::new(alloc)),
        }
    }

    /// An environment with no pairs, and with room in its table for this many.
    pub fn with_room(alloc: Global, pairs: usize, input: Input) -> Result<Env, NoMemory>
        ensures { IfOk result (λ e. e ≡ empty_env input) }
    {
        Ok(Env {
            table: Table::with_room(alloc, pairs)?,
            input,
            room: Bytes::new(Vec::new(alloc)),
        })
    }

    /// Takes all pairs out and puts another input in. It keeps the room of the pairs, for those that
    /// are set next. This takes no memory.
    pub fn clear(&mut self, input: Input)
        ensures { self.new ≡ empty_env input }
    {
        self.table.clear();
        self.input = input;
    }

    /// The value of a name. None exactly where the name isn't there.
    pub fn get(&self, name: &[u8]) -> Option<&[u8]>
        ensures { option_copied result ≡ get_pair name.now self.now.pairs }
    {
        self.table.get(name)
    }

    /// Sets the value of a name: one that is there keeps its place, a new one goes last.
    ///
    /// A refused call changes nothing.
    pub fn set(&mut self, name: &[u8], value: &[u8]) -> Result<(), NoMemory>
        ensures set { OnOk result (self.new ≡ with_pairs self.old (set_pair name.now value.now self.old.pairs)) }
        ensures unchanged { OnErr result (self.new ≡ self.old) }
    {
        self.table.set(Given::Copied(name), value)
    }

    /// Sets the value of a name as `set` does. The name is lent for ever, and takes no memory.
    pub fn set_static(&mut self, name: &'static [u8], value: &[u8]) -> Result<(), NoMemory>
        ensures set { OnOk result (self.new ≡ with_pairs self.old (set_pair name.now value.now self.old.pairs)) }
        ensures unchanged { OnErr result (self.new ≡ self.old) }
    {
        self.table.set(Given::Lent(name), value)
    }

    /// Lets the value of a name go on with a separator and more bytes. False exactly where the name
    /// isn't there, and then nothing changes.
    ///
    /// A refused call changes nothing.
    pub fn append(&mut self, name: &[u8], separator: &[u8], more: &[u8]) -> Result<bool, NoMemory>
        ensures found { IfOk result (λ b. b ≡ is_some (get_pair name.now self.old.pairs)) }
        ensures longer { OnOk result (self.new ≡ with_pairs self.old (extend_pair name.now (separator.now ++ more.now) self.old.pairs)) }
        ensures unchanged { OnErr result (self.new ≡ self.old) }
    {
        self.table.append(name, separator, more)
    }

    /// Lets the value of a name go on with a separator and more bytes, or sets it to those bytes where
    /// the name isn't there.
    ///
    /// A refused call changes nothing.
    pub fn add(&mut self, name: &[u8], separator: &[u8], more: &[u8]) -> Result<(), NoMemory>
        ensures added { OnOk result (self.new ≡ with_pairs self.old (add_pair name.now separator.now more.now self.old.pairs)) }
        ensures unchanged { OnErr result (self.new ≡ self.old) }
    {
        self.table.add(Given::Copied(name), separator, more)
    }

    /// Lets the value of a name go on, or sets it, as `add` does. The name is lent for ever.
    pub fn add_static(
        &mut self,
        name: &'static [u8],
        separator: &[u8],
        more: &[u8],
    ) -> Result<(), NoMemory>
        ensures added { OnOk result (self.new ≡ with_pairs self.old (add_pair name.now separator.now more.now self.old.pairs)) }
        ensures unchanged { OnErr result (self.new ≡ self.old) }
    {
        self.table.add(Given::Lent(name), separator, more)
    }

    /// Takes a name out with its value. The others keep their order, and a name that isn't there
    /// changes nothing. This takes no memory.
    pub fn remove(&mut self, name: &[u8])
        ensures { self.new ≡ with_pairs self.old (remove_pair name.now self.old.pairs) }
    {
        self.table.remove(name);
    }

    /// Swaps the value of a name that is there with these bytes. This takes no memory.
    pub fn replace(&mut self, name: &[u8], value: &mut Bytes)
        requires { HasName name.now self.old.pairs }
        ensures set { self.new ≡ with_pairs self.old (set_pair name.now value.old self.old.pairs) }
        ensures taken { get_pair name.now self.old.pairs ≡ Some value.new }
    {
        self.table.replace(name, value);
    }

    /// Moves room out that is kept beside the pairs, for whoever puts names together. It is empty, and
    /// as large as what was given back last.
    pub fn take_room(&mut self) -> Vec<u8>
        ensures room { result.items ≡ [] }
        ensures unchanged { self.new ≡ self.old }
    {
        let alloc = self.table.allocator();
        let mut room = mem::replace(&mut self.room, Bytes::new(Vec::new(alloc))).into_vec();
        room.clear();
        room
    }

    /// Gives the room back.
    pub fn keep_room(&mut self, room: Vec<u8>)
        ensures { self.new ≡ self.old }
    {
        self.room = Bytes::new(room);
    }

    /// The number of pairs.
    pub fn len(&self) -> usize
        ensures len { result ≡ length self.now.pairs }
        ensures distinct { AreDistinct self.now.pairs }
        ensures small { result < 2 ^ 63 }
    {
        self.table.len()
    }

    /// The name at this place, from 0.
    pub fn name(&self, i: usize) -> &[u8]
        requires { i < length self.now.pairs }
        ensures { slice_get (names self.now.pairs) i ≡ Some result.now }
    {
        self.table.pair(i).0
    }

    /// The value at this place, from 0.
    pub fn value(&self, i: usize) -> &[u8]
        requires { i < length self.now.pairs }
        ensures { slice_get (values self.now.pairs) i ≡ Some result.now }
    {
        self.table.pair(i).1
    }

    /// The input, to read from.
    pub fn input(&mut self) -> &mut Input
        ensures* lends { sem 𝓛 (Lends env.the_row input.the_row self.entry result (with_input self.old)) }
        ensures value { result.now ≡ self.old.input }
    {
        &mut self.input
    }
}
