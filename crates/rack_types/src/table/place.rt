// Where a name stands in a table, and what is written there.
ghost use Rattle.std.specs.Prelude.{◌≡◌, ℕ, ◌<◌, ◌≤◌, List, None, bytes_eq, slice_get, Some, IfNone, IfSome, OnErr, OnOk};
ghost use Rattle.indexmap.specs.IndexMap.{get_by, index_map_len, IsUnique};
ghost use Rattle.rack_types.specs.Env.{add_pair, get_pair, set_pair};
ghost use Rattle.rack_types.specs.Name.{given_bytes};
ghost use Rattle.rack_types.specs.Table.{counted, standing, IsFirstAt};

use super::Table;
use crate::name::{Given, Name, Sought};
use crate::{Bytes, NoMemory};

impl Table {
    // Where the name stands.
    pub(super) fn find(&self, name: &[u8]) -> Option<usize>
        ensures found { IfSome result (λ i. (i < self.now.count) × IsFirstAt name.now self.now.map.entries i) }
        ensures absent { IfNone result (get_pair name.now (standing self.now) ≡ None) }
    {
        match self.entry_of(name) {
            Some(i) if i < self.count => Some(i),
            _ => None,
        }
    }

    // The entry with the name, which stands or not.
    fn entry_of(&self, name: &[u8]) -> Option<usize>
        ensures found { IfSome result (λ i. (i < index_map_len self.now.map) × IsFirstAt name.now self.now.map.entries i) }
        ensures absent { IfNone result (get_by (bytes_eq name.now) self.now.map ≡ None) }
    {
        let _entries = self.map.len();
        match self.map.get_full(Sought { bytes: name }) {
            Some((i, _, _)) => Some(i),
            None => None,
        }
    }

    // Where the name stands, or the first place behind the pairs, where a former pair of that name is
    // then. None where no entry has the name.
    pub(super) fn place(&mut self, name: &[u8]) -> Option<usize>
        ensures place { IfSome result (λ i. (i ≤ self.new.count) × (i < index_map_len self.new.map) × IsFirstAt name.now self.new.map.entries i) }
        ensures absent { IfNone result (get_pair name.now (standing self.new) ≡ None) }
        ensures count { self.new.count ≡ self.old.count }
        ensures same { standing self.new ≡ standing self.old }
    {
        if let Some(i) = self.next_place(name) {
            return Some(i);
        }
        match self.entry_of(name) {
            Some(i) if i < self.count => Some(i),
            Some(i) => {
                self.bring(i);
                Some(self.count)
            }
            None => None,
        }
    }

    // Moves the entry at this place to the first place behind the pairs.
    fn bring(&mut self, i: usize)
        requires behind { self.old.count ≤ i }
        requires within { i < index_map_len self.old.map }
        ensures count { self.new.count ≡ self.old.count }
        ensures len { index_map_len self.new.map ≡ index_map_len self.old.map }
        ensures same { standing self.new ≡ standing self.old }
        ensures brought { slice_get self.new.map.entries self.new.count ≡ slice_get self.old.map.entries i }
        ensures unique { IsUnique bytes_eq self.new.map }
    {
        let _entries = self.map.len();
        if i == self.count {
            return;
        }
        self.map.swap_indices(self.count, i);
    }

    // The first place behind the pairs, where the former pair there has the name.
    pub(super) fn next_place(&self, name: &[u8]) -> Option<usize>
        ensures { IfSome result (λ i. (i ≤ self.now.count) × (i < index_map_len self.now.map) × IsFirstAt name.now self.now.map.entries i) }
    {
        let _entries = self.map.len();
        match self.map.get_index(self.count) {
            Some((former, _)) if name == former.get() => Some(self.count),
            _ => None,
        }
    }

    // Writes the value at a place, and lets it stand.
    pub(super) fn write(&mut self, i: usize, value: &[u8]) -> Result<(), NoMemory>
        requires place { i ≤ self.old.count }
        requires within { i < index_map_len self.old.map }
        ensures set { (name : List ℕ) → IsFirstAt name self.old.map.entries i → OnOk result (standing self.new ≡ set_pair name value.now (standing self.old)) }
        ensures unchanged { OnErr result (standing self.new ≡ standing self.old) }
    {
        let slot = self.map.get_index_mut(i).unwrap();
        slot.fill(value)?;
        self.stand(i);
        Ok(())
    }

    // Lets the value at a place go on.
    pub(super) fn lengthen(
        &mut self,
        i: usize,
        separator: &[u8],
        more: &[u8],
    ) -> Result<(), NoMemory>
        requires { i < self.old.count }
        ensures longer { (name : List ℕ) → IsFirstAt name self.old.map.entries i → OnOk result (standing self.new ≡ add_pair name separator.now more.now (standing self.old)) }
        ensures unchanged { OnErr result (standing self.new ≡ standing self.old) }
    {
        let slot = self.map.get_index_mut(i).unwrap();
        slot.join(separator, more)
    }

    // Lets the pair at this place stand.
    pub(super) fn stand(&mut self, i: usize)
        requires place { i ≤ self.old.count }
        requires within { i < index_map_len self.old.map }
        ensures count { self.new.count ≡ counted i self.old.count }
        ensures same { self.new.map ≡ self.old.map }
    {
        let _entries = self.map.len();
        if i == self.count {
            self.count += 1;
        }
    }

    // Sets the value of a name, in the room of a former pair.
    pub(super) fn insert(&mut self, name: Given<'_>, value: &[u8]) -> Result<(), NoMemory>
        ensures set { OnOk result (standing self.new ≡ set_pair (given_bytes name.entry) value.now (standing self.old)) }
        ensures unchanged { OnErr result (standing self.new ≡ standing self.old) }
    {
        let alloc = self.allocator();
        let (former, mut room) = self.spare();
        let name = name.into_name(alloc, former)?;
        room.fill(value)?;
        self.put(name, room)
    }

    // The last former pair, or one that has no room.
    pub(super) fn spare(&mut self) -> (Name, Bytes)
        ensures { standing self.new ≡ standing self.old }
    {
        if self.map.len() > self.count {
            self.map.pop().unwrap()
        } else {
            let alloc = self.allocator();
            (Name::lent(b""), Bytes::new(Vec::new(alloc)))
        }
    }

    // Sets the value of a name: a new one goes behind the others.
    pub(super) fn put(&mut self, name: Name, value: Bytes) -> Result<(), NoMemory>
        ensures set { OnOk result (standing self.new ≡ set_pair name value (standing self.old)) }
        ensures unchanged { OnErr result (standing self.new ≡ standing self.old) }
    {
        let (i, _) = self.map.insert_full(name, value)?;
        let _entries = self.map.len();
        if i < self.count {
            return Ok(());
        }
        self.bring(i);
        self.count += 1;
        Ok(())
    }
}
