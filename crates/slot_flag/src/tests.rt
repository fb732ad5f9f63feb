ghost use Rattle.std.specs.Prelude.{◌≡◌, ◌≤◌, true};
ghost use Rattle.std.specs.Arc.{arc_value};
ghost use Rattle.slot_flag.specs.Seat.{seat_view, IsSeatOf};

use super::*;
use std::alloc::{AllocError, Global};
use std::snapshot::Snapshot;
use std::sync::Arc;
use std::thread;
use std::thread::{Promise, Threads};

#[test]
fn rises_and_never_falls(rt: HostRuntime) -> Result<(), AllocError> {
    let (flag, mut first) = Flag::new(rt.alloc())?;
    assert_eq!(rt; flag.look(&mut first), SERVE);
    let mut other = flag.split(&mut first);
    flag.raise(&mut other, SERVE);
    assert_eq!(rt; flag.look(&mut first), SERVE);
    flag.raise(&mut other, DRAIN);
    assert_eq!(rt; flag.look(&mut first), DRAIN);
    flag.raise(&mut first, SERVE);
    assert_eq!(rt; flag.look(&mut other), DRAIN);
    flag.raise(&mut first, HALT);
    assert_eq!(rt; flag.look(&mut other), HALT);
    flag.raise(&mut other, DRAIN);
    assert_eq!(rt; flag.look(&mut other), HALT);
    flag.join(&mut first, other);
    assert_eq!(rt; flag.look(&mut first), HALT);
    Ok(())
}

// That the seat which a thread hands back is one of this flag.
#[derive(Drop)]
struct SeatOf(Snapshot<Flag>);

impl Promise<(Seat, bool)> for SeatOf {
    ghost kept_by = { λ p r. IsSeatOf p.0.value r.0 };
}

// Raises a level and looks again and again. The answer is false where the word fell or stood below
// the level.
fn climb(flag: &Flag, mut seat: Seat, level: u64) -> (Seat, bool)
    requires seat { IsSeatOf flag.now seat }
    requires level { level ≤ HALT }
    ensures { IsSeatOf flag.now result.0 }
{
    let mut last = flag.look(&mut seat);
    let mut rose = true;
    flag.raise(&mut seat, level);
    for _ in 0..1_000 {
        let word = flag.look(&mut seat);
        rose = rose && last <= word && level <= word;
        last = word;
    }
    (seat, rose)
}

// So many threads climb, each with a seat of its own, which is joined behind it.
fn climb_together<R: Threads>(
    rt: &R,
    flag: &Arc<Flag, Global>,
    first: &mut Seat,
    threads: u64,
) -> Result<bool, AllocError>
    requires seat { IsSeatOf (arc_value flag.now) first.old }
    requires first { (seat_view first.old).first ≡ true }
    ensures seat { IsSeatOf (arc_value flag.now) first.new }
    ensures first { (seat_view first.new).first ≡ true }
{
    if threads == 0 {
        return Ok(true);
    }
    let theirs = Arc::try_clone(flag)?;
    let seat = flag.split(first);
    let level = threads % 3;
    let promise = SeatOf(Snapshot::of(&**flag));
    let thread = thread::spawn_with(rt, promise, move || climb(&theirs, seat, level))?;
    let others = climb_together(rt, flag, first, threads - 1);
    let (seat, rose) = thread.join(rt);
    flag.join(first, seat);
    Ok(rose && others?)
}

#[test]
fn eight_threads_raise_and_look(rt: HostRuntime) -> Result<(), AllocError> {
    let (flag, mut first) = Flag::new(rt.alloc())?;
    let flag = Arc::new(rt.alloc(), flag)?;
    assert!(rt; climb_together(&rt, &flag, &mut first, 8)?);
    assert_eq!(rt; flag.look(&mut first), HALT);
    Ok(())
}
