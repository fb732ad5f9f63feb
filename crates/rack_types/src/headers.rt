// The headers of an answer.
ghost use Rattle.std.specs.Prelude.{◌≡◌, ◌<◌, ◌^◌, ◌++◌, [], ◌∷◌, length, slice_get, Some, IfOk, OnOk, OnErr};
ghost use Rattle.std.specs.Cow.{cow_slice_items};
ghost use Rattle.rack_types.specs.Headers.{header_names, header_place, values_at, set_header, add_header, AreDistinctNames};
ghost use Rattle.rack_types.specs.HeaderStore.{kept_values};

use super::{Bytes, NoMemory};
use indexmap::IndexMap;
use std::alloc::Global;
use std::borrow::CowSlice;
use std::marker::Model;

// A name or a value: a static text, which takes no memory, or an owned one.
type Text = CowSlice<'static, u8>;

// The values of a name, of which there is one at least. Most names have no more.
#[derive(Drop)]
pub(crate) struct Values {
    pub(crate) first: Text,
    pub(crate) more: Vec<Text>,
}

/// The headers of an answer: names in an order, none twice, each with its values in their order.
///
/// A contract sees them as a list of names with lists of values. A name that is set for the first
/// time goes last. Names and values are any bytes: what may be sent is told by the rules of answers.
#[derive(Drop)]
pub struct Headers {
    map: IndexMap<Text, Values>,
}

impl Model for Headers {
    ghost use Rattle.rack_types.specs.Headers.{HeaderList, AreDistinctNames};
    ghost use Rattle.rack_types.specs.HeaderStore.{headers_of};

    ghost Value = { HeaderList };

    ghost view = { λ headers. headers_of headers.map.entries };

    ghost invariant = { λ headers. AreDistinctNames (headers_of headers.map.entries) };
}

impl Headers {
    /// No headers. This takes no memory.
    pub fn new(alloc: Global) -> Headers
        ensures { result ≡ [] }
    {
        Headers {
            map: IndexMap::new(alloc),
        }
    }

    /// No headers, with room in the table for this many names.
    pub fn with_room(alloc: Global, names: usize) -> Result<Headers, NoMemory>
        ensures { IfOk result (λ h. h ≡ []) }
    {
        Ok(Headers {
            map: IndexMap::with_capacity(alloc, names)?,
        })
    }

    /// Gives a name one value in the place of those that it had.
    ///
    /// A refused call changes nothing.
    pub fn set(&mut self, name: &[u8], value: &[u8]) -> Result<(), NoMemory>
        ensures set { OnOk result (self.new ≡ set_header name.now value.now self.old) }
        ensures unchanged { OnErr result (self.new ≡ self.old) }
    {
        let name = self.own(name)?;
        let value = self.own(value)?;
        self.put(name, value)
    }

    /// Gives a name one value as `set` does; both are static texts, for which no memory is taken.
    pub fn set_static(&mut self, name: &'static [u8], value: &'static [u8]) -> Result<(), NoMemory>
        ensures set { OnOk result (self.new ≡ set_header name.now value.now self.old) }
        ensures unchanged { OnErr result (self.new ≡ self.old) }
    {
        self.put(CowSlice::Borrowed(name), CowSlice::Borrowed(value))
    }

    /// Gives a name one value as `set` does. The name is a static text and the value is taken over
    /// as it is, so no memory is taken for either.
    pub fn set_value(&mut self, name: &'static [u8], value: Bytes) -> Result<(), NoMemory>
        ensures set { OnOk result (self.new ≡ set_header name.now value self.old) }
        ensures unchanged { OnErr result (self.new ≡ self.old) }
    {
        self.put(CowSlice::Borrowed(name), CowSlice::Owned(value.into_vec()))
    }

    /// Gives a name one more value, behind those that it has.
    ///
    /// A refused call changes nothing.
    pub fn add(&mut self, name: &[u8], value: &[u8]) -> Result<(), NoMemory>
        ensures added { OnOk result (self.new ≡ add_header name.now value.now self.old) }
        ensures unchanged { OnErr result (self.new ≡ self.old) }
    {
        let value = self.own(value)?;
        let Some(values) = self.map.get_mut(name) else {
            let name = self.own(name)?;
            self.put(name, value)?;
            return Ok(());
        };
        push_value(values, value)?;
        Ok(())
    }

    /// The place of a name, from 0. None exactly where the name isn't there.
    pub fn get(&self, name: &[u8]) -> Option<usize>
        ensures { result ≡ header_place name.now self.now }
    {
        self.map.get_index_of(name)
    }

    /// How many names there are.
    pub fn len(&self) -> usize
        ensures len { result ≡ length self.now }
        ensures distinct { AreDistinctNames self.now }
        ensures small { result < 2 ^ 63 }
    {
        self.map.len()
    }

    /// The name at this place, from 0.
    pub fn name(&self, i: usize) -> &[u8]
        requires { i < length self.now }
        ensures { slice_get (header_names self.now) i ≡ Some result.now }
    {
        let (name, _) = self.map.get_index(i).unwrap();
        name.as_slice()
    }

    /// How many values the name at this place has: one at least.
    pub fn value_count(&self, i: usize) -> usize
        requires { i < length self.now }
        ensures count { result ≡ length (values_at i self.now) }
        ensures some { 0 < result }
    {
        let (_, values) = self.map.get_index(i).unwrap();
        values.more.len() + 1
    }

    /// Of the name at place `i`, the value at place `j`, from 0.
    pub fn value(&self, i: usize, j: usize) -> &[u8]
        requires { j < length (values_at i self.now) }
        ensures { slice_get (values_at i self.now) j ≡ Some result.now }
    {
        let (_, values) = self.map.get_index(i).unwrap();
        if j == 0 {
            return values.first.as_slice();
        }
        values.more[j - 1].as_slice()
    }

    // A text with an owner.
    fn own(&self, text: &[u8]) -> Result<Text, NoMemory>
        ensures { IfOk result (λ t. cow_slice_items t ≡ text.now) }
    {
        let owned = Vec::from_slice(*self.map.allocator(), text)?;
        Ok(CowSlice::Owned(owned))
    }

    // Gives a name this one value.
    fn put(&mut self, name: Text, value: Text) -> Result<(), NoMemory>
        ensures set { OnOk result (self.new ≡ set_header (cow_slice_items name.entry) (cow_slice_items value.entry) self.old) }
        ensures unchanged { OnErr result (self.new ≡ self.old) }
    {
        let more = Vec::new(*self.map.allocator());
        self.map.insert(name, Values { first: value, more })?;
        Ok(())
    }
}

// Lets values go on with one more, or leaves them.
fn push_value(values: &mut Values, value: Text) -> Result<(), NoMemory>
    ensures added { OnOk result (kept_values values.new ≡ kept_values values.old ++ cow_slice_items value.entry ∷ []) }
    ensures unchanged { OnErr result (kept_values values.new ≡ kept_values values.old) }
{
    values.more.push(value)?;
    Ok(())
}
