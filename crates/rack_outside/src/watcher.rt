// Who tells which links can be read or written.
ghost use Rattle.std.specs.Prelude.{◌≡◌, ◌≤◌, [], false, ℕ, List, Option};
ghost use Rattle.rack_outside.specs.Told.{Rose, retold};
ghost use Rattle.rack_outside.specs.Watcher.{OnFailedWait};

use crate::{Keys, Link};

/// What one wait came to.
#[derive(Clone, Copy, Debug, PartialEq, Eq)]
pub enum Waited {
    /// The keys are those that were named, perhaps none.
    Some,
    /// The wait failed, and the count of faults rose.
    Failed,
}

/// Watches links, each under a key, and names those that can perhaps be read or written.
///
/// No clause says that a link which is named is ready, nor that one which is ready is named.
pub trait Watcher<L: Link> {
    /// The keys that the last wait gave, none where it failed; none before the first. Told by watchers
    /// in memory and not by real ones.
    ghost named: { Self → Option (List ℕ) };
    /// How many calls failed. A count that has reached 2^64 - 1 stays there, and a further failure then
    /// counts as risen.
    ghost faults: { Self → ℕ };

    /// Watches the link under this key for reading, and for writing where `write` is true. One that is
    /// watched already is watched so from now on. False only where the count of faults rose.
    fn watch(&mut self, key: usize, link: &mut L, write: bool) -> bool
        ensures link { L.seen link.new ≡ L.seen link.old }
        ensures named { named self.new ≡ named self.old }
        ensures later { faults self.old ≤ faults self.new }
        ensures failed { result ≡ false → Rose (faults self.old) (faults self.new) };

    /// Watches the link under this key no longer.
    fn forget(&mut self, key: usize, link: &mut L)
        ensures link { L.seen link.new ≡ L.seen link.old }
        ensures named { named self.new ≡ named self.old }
        ensures later { faults self.old ≤ faults self.new };

    /// Waits until a link that is watched can perhaps be read or written, for at most so many
    /// milliseconds, and names such links by their keys in place of those that `keys` had. A failed
    /// wait names none.
    fn wait(&mut self, ms: u64, keys: &mut Keys) -> Waited
        ensures named { named self.new ≡ retold (named self.old) keys.new }
        ensures none { OnFailedWait result (keys.new ≡ []) }
        ensures later { faults self.old ≤ faults self.new }
        ensures failed { OnFailedWait result (Rose (faults self.old) (faults self.new)) };
}
