// What callers do with the pairs of a table.
ghost use Rattle.std.specs.Prelude.{◌≡◌, ◌^◌, ◌<◌, ◌++◌, [], None, length, is_some, slice_get, Some, IfOk, OnErr, OnOk};
ghost use Rattle.std.specs.Option.{option_copied};
ghost use Rattle.rack_types.specs.Env.{add_pair, extend_pair, get_pair, remove_pair, set_pair, AreDistinct, HasName};
ghost use Rattle.rack_types.specs.Name.{given_bytes};
ghost use Rattle.rack_types.specs.Table.{standing};

use super::Table;
use crate::name::{Given, Name};
use crate::{Bytes, NoMemory};
use indexmap::IndexMap;
use std::alloc::Global;
use std::mem;

impl Table {
    /// No pairs. This takes no memory.
    pub(crate) fn new(alloc: Global) -> Table
        ensures { standing result ≡ [] }
    {
        Table {
            map: IndexMap::new(alloc),
            count: 0,
        }
    }

    /// No pairs, and room for this many.
    pub(crate) fn with_room(alloc: Global, pairs: usize) -> Result<Table, NoMemory>
        ensures { IfOk result (λ t. standing t ≡ []) }
    {
        Ok(Table {
            map: IndexMap::with_capacity(alloc, pairs)?,
            count: 0,
        })
    }

    /// The allocator.
    pub(crate) fn allocator(&self) -> Global {
        *self.map.allocator()
    }

    /// How many pairs there are.
    pub(crate) fn len(&self) -> usize
        ensures len { result ≡ length (standing self.now) }
        ensures distinct { AreDistinct (standing self.now) }
        ensures small { result < 2 ^ 63 }
    {
        let _entries = self.map.len();
        self.count
    }

    /// The pair at this place.
    pub(crate) fn pair(&self, i: usize) -> (&[u8], &[u8])
        requires { i < length (standing self.now) }
        ensures { slice_get (standing self.now) i ≡ Some (result.0.now, result.1.now) }
    {
        let (name, value) = self.map.get_index(i).unwrap();
        (name.get(), value.get())
    }

    /// The value of a name.
    pub(crate) fn get(&self, name: &[u8]) -> Option<&[u8]>
        ensures { option_copied result ≡ get_pair name.now (standing self.now) }
    {
        match self.find(name) {
            Some(i) => {
                let (_, value) = self.map.get_index(i).unwrap();
                Some(value.get())
            }
            None => None,
        }
    }

    /// Takes all pairs out, and keeps their room.
    pub(crate) fn clear(&mut self)
        ensures { standing self.new ≡ [] }
    {
        self.count = 0;
    }

    /// Takes a name out with its value.
    pub(crate) fn remove(&mut self, name: &[u8])
        ensures { standing self.new ≡ remove_pair name.now (standing self.old) }
    {
        let Some(i) = self.find(name) else {
            return;
        };
        self.map.shift_remove_index(i);
        self.count -= 1;
    }

    /// Swaps the value of a name that is there.
    pub(crate) fn replace(&mut self, name: &[u8], value: &mut Bytes)
        requires { HasName name.now (standing self.old) }
        ensures set { standing self.new ≡ set_pair name.now value.old (standing self.old) }
        ensures taken { get_pair name.now (standing self.old) ≡ Some value.new }
    {
        let i = self.find(name).unwrap();
        let slot = self.map.get_index_mut(i).unwrap();
        mem::swap(slot, value);
    }

    /// Lets the value of a name that is there go on.
    pub(crate) fn append(
        &mut self,
        name: &[u8],
        separator: &[u8],
        more: &[u8],
    ) -> Result<bool, NoMemory>
        ensures found { IfOk result (λ b. b ≡ is_some (get_pair name.now (standing self.old))) }
        ensures longer { OnOk result (standing self.new ≡ extend_pair name.now (separator.now ++ more.now) (standing self.old)) }
        ensures unchanged { OnErr result (standing self.new ≡ standing self.old) }
    {
        let Some(i) = self.find(name) else {
            return Ok(false);
        };
        let value = self.map.get_index_mut(i).unwrap();
        value.join(separator, more)?;
        Ok(true)
    }

    /// Sets the value of a name.
    pub(crate) fn set(&mut self, name: Given<'_>, value: &[u8]) -> Result<(), NoMemory>
        ensures set { OnOk result (standing self.new ≡ set_pair (given_bytes name.entry) value.now (standing self.old)) }
        ensures unchanged { OnErr result (standing self.new ≡ standing self.old) }
    {
        match self.next_place(name.get()) {
            Some(i) => self.write(i, value),
            None => self.insert(name, value),
        }
    }

    /// Lets the value of a name go on with a separator and more, or sets it to that.
    pub(crate) fn add(
        &mut self,
        name: Given<'_>,
        separator: &[u8],
        more: &[u8],
    ) -> Result<(), NoMemory>
        ensures added { OnOk result (standing self.new ≡ add_pair (given_bytes name.entry) separator.now more.now (standing self.old)) }
        ensures unchanged { OnErr result (standing self.new ≡ standing self.old) }
    {
        match self.place(name.get()) {
            Some(i) if i < self.count => self.lengthen(i, separator, more),
            Some(i) => self.write(i, more),
            None => self.insert(name, more),
        }
    }
}
