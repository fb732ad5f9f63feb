// A watcher in memory.
ghost use Rattle.std.specs.Prelude.{◌≡◌, ◌≤◌, false, Some, IfOk};
ghost use Rattle.rack_outside.specs.Told.{Rose};
ghost use Rattle.rack_outside.specs.declared.watcher.Waited.TheVariants as waited;
ghost use Rattle.rack_outside.specs.Watched.{Watched, fresh_watched, without_key, Watches};

use crate::{Keys, Link, Waited, Watcher};
use rack_types::NoMemory;
use std::alloc::Global;
use std::marker::Model;
use std::snapshot::Snapshot;

/// A watcher in memory: each wait names all keys that are watched, at once and in the order in which
/// they came, and never fails. It has room for 1,024 keys; a further one counts as a fault.
#[derive(Drop)]
pub struct MemWatcher {
    keys: Keys,
    named: Snapshot<Keys>,
    faults: u64,
}

impl Model for MemWatcher {
    ghost use Rattle.rack_outside.specs.Watched.{Watched};

    ghost Value = { Watched };

    ghost view = { λ w. record { keys = w.keys; named = w.named.value; faults = w.faults } };
}

impl MemWatcher {
    /// A watcher that watches nothing. It takes memory for all its keys.
    pub fn new(alloc: Global) -> Result<MemWatcher, NoMemory>
        ensures { IfOk result (λ w. w ≡ fresh_watched) }
    {
        let keys = Keys::new(alloc)?;
        let named = Snapshot::of(&keys);
        Ok(MemWatcher {
            keys,
            named,
            faults: 0,
        })
    }
}

impl<L: Link> Watcher<L> for MemWatcher {
    ghost named = { λ w. Some w.named };

    ghost faults = { λ w. w.faults };

    /// Puts the key behind the others, where it isn't among them. False exactly where there is no room
    /// for it. It takes no memory, and leaves the link alone.
    fn watch(&mut self, key: usize, link: &mut L, _write: bool) -> bool
        ensures exact { Watches result key self.old self.new }
        ensures link { L.seen link.new ≡ L.seen link.old }
        ensures named { Some self.new.named ≡ Some self.old.named }
        ensures later { self.old.faults ≤ self.new.faults }
        ensures failed { result ≡ false → Rose self.old.faults self.new.faults }
    {
        if self.keys.has(key) {
            return true;
        }
        if self.keys.len() == Keys::LIMIT {
            self.faults = self.faults.saturating_add(1);
            return false;
        }
        self.keys.push(key);
        true
    }

    /// Takes the key out. It leaves the link alone.
    fn forget(&mut self, key: usize, link: &mut L)
        ensures exact { self.new ≡ record self.old { keys = without_key key self.old.keys } }
        ensures link { L.seen link.new ≡ L.seen link.old }
    {
        self.keys.remove(key);
    }

    /// Names all keys that are watched.
    fn wait(&mut self, _ms: u64, keys: &mut Keys) -> Waited
        ensures exact { self.new ≡ record self.old { named = self.old.keys } }
        ensures keys { keys.new ≡ self.old.keys }
        ensures answer { result ≡ waited.Some }
    {
        keys.copy(&self.keys);
        self.named = Snapshot::of(&*keys);
        Waited::Some
    }
}
