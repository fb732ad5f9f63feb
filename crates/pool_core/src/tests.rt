ghost use Rattle.std.specs.Prelude.{◌≡◌, ◌<◌, ◌≤◌, ◌+◌, ◌*◌, true, length, IfOk};
ghost use Rattle.std.specs.Arc.{arc_value};
ghost use Rattle.pool_core.specs.declared.view.Stage.TheVariants as stage;
ghost use Rattle.pool_core.specs.Pass.{pass_view, IsLanePass};

use super::*;
use std::alloc::{AllocError, Global};
use std::snapshot::Snapshot;
use std::sync::{Arc, Wait};
use std::thread;
use std::thread::{Promise, PromisedHandle, Threads};

// The book of a pool of 1 to 4 workers.
fn book_of(spawned: u32, waiting: u32, backlog: u32) -> PoolBook
    requires { (waiting ≤ spawned) × (spawned ≤ 4) }
{
    PoolBook {
        min: 1,
        max: 4,
        spawned,
        waiting,
        backlog,
        connections: 1,
        requests: 0,
    }
}

#[test]
fn decides_and_counts(rt: HostRuntime) {
    let lone = book_of(1, 0, 1);
    assert_eq!(rt; lone.decide(), Size::More);
    assert_eq!(rt; lone.capacity(), 3);
    let idle = book_of(2, 1, 0);
    assert_eq!(rt; idle.decide(), Size::Trim);
    assert_eq!(rt; idle.capacity(), 3);
    let full = book_of(4, 1, 2);
    assert_eq!(rt; full.decide(), Size::Stay);
    assert_eq!(rt; full.capacity(), 1);
}

#[derive(Debug, PartialEq, Eq, Drop)]
struct Item {
    number: u32,
}

impl Numbered for Item {
    ghost tag = { λ _. 0 };

    ghost number_of = { λ i. i.number };

    fn number(&self) -> u32 {
        self.number
    }
}

// The items of a lane have numbers below its data.
#[derive(Drop)]
struct Below;

impl LaneRule<Item> for Below {
    type Data = u32;

    ghost fits = { λ limit i. i.number < limit };
}

#[test]
fn hands_back_what_has_no_room(rt: HostRuntime) -> Result<(), AllocError> {
    let (lane, mut pass) = Lane::<Item, Below>::new(rt.alloc(), 2, Snapshot::of(&10u32))?;
    assert_eq!(rt; lane.put(&rt, &mut pass, Item { number: 7 }), Ok(()));
    assert_eq!(rt; lane.put(&rt, &mut pass, Item { number: 8 }), Ok(()));
    assert_eq!(rt;
        lane.put(&rt, &mut pass, Item { number: 9 }),
        Err(Item { number: 9 })
    );
    assert_eq!(rt; lane.take(&rt, &mut pass), Some(Item { number: 7 }));
    assert_eq!(rt; lane.take(&rt, &mut pass), Some(Item { number: 8 }));
    assert_eq!(rt; lane.take(&rt, &mut pass), None);
    Ok(())
}

// How many numbers the threads put, in equal shares.
const ALL: u32 = 10_000;

const SHARE: u32 = 2_500;

// Takes an item, if there is one, and counts it at its number.
fn take_one<W: Wait>(
    rt: &W,
    lane: &Lane<Item, Below>,
    pass: &mut Pass<Item, Below>,
    seen: &mut [u8],
) -> bool
    requires pass { IsLanePass lane.now pass.old }
    requires data { (pass_view pass.old).stage ≡ stage.Open ALL }
    requires seen { length seen.old ≡ ALL }
    ensures pass { IsLanePass lane.now pass.new }
    ensures data { (pass_view pass.new).stage ≡ stage.Open ALL }
{
    match lane.take(rt, pass) {
        None => false,
        Some(item) => {
            let place = item.number() as usize;
            seen[place] = seen[place].saturating_add(1);
            true
        }
    }
}

// Puts an item, and makes room for it by taking others.
fn put_one<W: Wait>(
    rt: &W,
    lane: &Lane<Item, Below>,
    pass: &mut Pass<Item, Below>,
    seen: &mut [u8],
    number: u32,
)
    requires pass { IsLanePass lane.now pass.old }
    requires data { (pass_view pass.old).stage ≡ stage.Open ALL }
    requires seen { length seen.old ≡ ALL }
    requires number { number < ALL }
    ensures pass { IsLanePass lane.now pass.new }
    ensures data { (pass_view pass.new).stage ≡ stage.Open ALL }
{
    for _ in rt.forever() {
        if lane.put(rt, pass, Item { number }).is_ok() {
            break;
        }
        take_one(rt, lane, pass, seen);
    }
}

// Puts a share of the numbers, and takes until it finds the lane empty.
fn work<W: Wait>(
    rt: &W,
    lane: &Lane<Item, Below>,
    mut pass: Pass<Item, Below>,
    mut seen: Vec<u8>,
    from: u32,
) -> (Pass<Item, Below>, Vec<u8>)
    requires pass { IsLanePass lane.now pass }
    requires data { (pass_view pass).stage ≡ stage.Open ALL }
    requires seen { length seen.items ≡ ALL }
    requires from { from + SHARE ≤ ALL }
    ensures pass { IsLanePass lane.now result.0 }
    ensures seen { length result.1.items ≡ ALL }
{
    let counts = seen.as_mut_slice();
    for number in from..from + SHARE {
        put_one(rt, lane, &mut pass, counts, number);
    }
    for _ in rt.forever() {
        if !take_one(rt, lane, &mut pass, counts) {
            break;
        }
    }
    (pass, seen)
}

// That a thread hands back a pass of this lane, and as many counts as it was given.
#[derive(Drop)]
struct PassOf(Snapshot<Lane<Item, Below>>);

impl Promise<(Pass<Item, Below>, Vec<u8>)> for PassOf {
    ghost kept_by = { λ p r. IsLanePass p.0.value r.0 × (length r.1.items ≡ 10000) };
}

// A thread that works with this pass and these counts.
fn start<R: Threads + Wait + Copy + Send + 'static>(
    rt: R,
    lane: &Arc<Lane<Item, Below>, Global>,
    pass: Pass<Item, Below>,
    counts: Vec<u8>,
    from: u32,
) -> Result<PromisedHandle<(Pass<Item, Below>, Vec<u8>), PassOf>, AllocError>
    requires pass { IsLanePass (arc_value lane.now) pass }
    requires data { (pass_view pass).stage ≡ stage.Open ALL }
    requires counts { length counts.items ≡ ALL }
    requires from { from + SHARE ≤ ALL }
    ensures { IfOk result (λ thread. thread.promise.0.value ≡ arc_value lane.now) }
{
    let theirs = Arc::try_clone(lane)?;
    let promise = PassOf(Snapshot::of(&**lane));
    Ok(thread::spawn_with(
        &rt,
        promise,
        move ||
            requires { IsLanePass (arc_value theirs) pass × ((pass_view pass).stage ≡ stage.Open ALL) × (length counts.items ≡ ALL) × (from + SHARE ≤ ALL) }
        { work(&rt, &theirs, pass, counts, from) },
    )?)
}

// So many threads put their shares through the lane and take them again, each with a pass of its own,
// which is joined behind it. `seen` counts what they took.
fn work_together<R: Threads + Wait + Copy + Send + 'static>(
    rt: R,
    alloc: Global,
    lane: &Arc<Lane<Item, Below>, Global>,
    first: &mut Pass<Item, Below>,
    seen: &mut [u8],
    threads: u32,
) -> Result<(), AllocError>
    requires pass { IsLanePass (arc_value lane.now) first.old }
    requires first { (pass_view first.old).first ≡ true }
    requires data { (pass_view first.old).stage ≡ stage.Open ALL }
    requires seen { length seen.old ≡ ALL }
    requires threads { threads * SHARE ≤ ALL }
    ensures pass { IsLanePass (arc_value lane.now) first.new }
    ensures first { (pass_view first.new).first ≡ true }
    ensures data { (pass_view first.new).stage ≡ stage.Open ALL }
{
    if threads == 0 {
        return Ok(());
    }
    let counts = Vec::from_elem(alloc, 0u8, ALL as usize)?;
    let pass = lane.split(first);
    let thread = start(rt, lane, pass, counts, (threads - 1) * SHARE)?;
    let others = work_together(rt, alloc, lane, first, seen, threads - 1);
    let (pass, counts) = thread.join(&rt);
    lane.join(first, pass);
    for place in 0..ALL as usize {
        seen[place] = seen[place].saturating_add(counts[place]);
    }
    others
}

#[test]
fn four_threads_lose_nothing(rt: HostRuntime) -> Result<(), AllocError> {
    let (lane, mut pass) = Lane::<Item, Below>::new(rt.alloc(), 3, Snapshot::of(&ALL))?;
    let lane = Arc::new(rt.alloc(), lane)?;
    let mut seen = Vec::from_elem(rt.alloc(), 0u8, ALL as usize)?;
    work_together(rt, rt.alloc(), &lane, &mut pass, seen.as_mut_slice(), 4)?;
    assert_eq!(rt; lane.take(&rt, &mut pass), None);
    assert!(rt; seen.iter().all(|&count| count == 1));
    Ok(())
}
