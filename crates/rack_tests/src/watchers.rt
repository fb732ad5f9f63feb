// A clock, a touch and a watcher, each through its trait.
ghost use Rattle.std.specs.Prelude.{◌≡◌, true, false, cond};
ghost use Rattle.rack_outside.specs.Wire.{with_more};

use rack_outside::{
    Clock, Keys, Link, LinkRead, MemClock, MemWatcher, SureLink, Touch, Waited, Watcher,
};
use rack_types::{Bytes, NoMemory};
use std::alloc::Global;
use std::test::Fail;

// The moment at the second look.
fn looks_twice<C: Clock>(clock: &mut C) -> u64 {
    let first = clock.now();
    clock.now().max(first)
}

#[test]
fn a_clock_in_memory_stands_still(rt: HostRuntime) {
    let mut clock = MemClock::new(1_700);
    assert_eq!(rt; looks_twice(&mut clock), 1_700);
}

// A peer that gives these bytes, and says whether there was memory for them.
#[derive(Drop)]
struct Gives {
    text: Bytes,
}

impl Touch<SureLink> for Gives {
    type Said = bool;

    ghost relates = { λ g old said new. new ≡ cond said (with_more g.text old) old };

    fn touch(&mut self, link: &mut SureLink) -> bool {
        link.give(self.text.get()).is_ok()
    }
}

fn touches<L: Link, T: Touch<L>>(link: &mut L, touch: &mut T) -> T::Said {
    touch.touch(link)
}

#[test]
fn a_touch_gives_a_link_bytes(rt: HostRuntime) -> Result<(), NoMemory> {
    let mut link = SureLink::new(rt.alloc(), 7);
    let text = Bytes::new(Vec::from_slice(rt.alloc(), b"abc")?);
    assert!(rt; touches(&mut link, &mut Gives { text }));
    let mut room = [0u8; 8];
    assert_eq!(rt; link.read(&mut room), LinkRead::Bytes(3));
    Ok(())
}

// Watches two links, forgets one of them, and waits: the keys that are named.
fn watches<L: Link, W: Watcher<L>>(watcher: &mut W, link: &mut L, keys: &mut Keys) -> bool {
    let both = watcher.watch(4, link, false) && watcher.watch(9, link, true);
    watcher.forget(4, link);
    both && watcher.wait(10, keys) == Waited::Some
}

fn watched(alloc: Global) -> Result<(bool, Keys), NoMemory> {
    let mut link = SureLink::new(alloc, 7);
    let mut watcher = MemWatcher::new(alloc)?;
    let mut keys = Keys::new(alloc)?;
    keys.push(3);
    keys.clear();
    let all = watches(&mut watcher, &mut link, &mut keys);
    Ok((all, keys))
}

#[test]
fn a_watcher_in_memory_names_what_it_watches(rt: HostRuntime) -> Result<(), Fail> {
    let (all, keys) = watched(rt.alloc())?;
    assert!(rt; all);
    assert_eq!(rt; keys.len(), 1);
    if keys.len() == 1 {
        assert_eq!(rt; keys.get(0), 9);
    }
    Ok(())
}

fn sends<T: Send>() {}

#[test]
fn clocks_and_watchers_in_memory_may_cross_threads() {
    sends::<MemClock>();
    sends::<MemWatcher>();
    sends::<Keys>();
}
