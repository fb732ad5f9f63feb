// A lane and its passes.
ghost use Rattle.std.specs.Prelude.{◌≡◌, ◌<◌, ◌↔◌, true, IfOk, OnOk, IfErr, OnErr, IfSome, IfNone, IsNone};
ghost use Rattle.pool_core.specs.Pass.{lane_room, pass_view, IsLanePass, FitsStage, IsWhole, first_pass, with_put, with_taken, split_off, with_one_more_out, joined, HasLeft, IsLeft};
ghost use Rattle.pool_core.specs.Repeats.{SameElements};

use crate::steps::{Load, OneLane, Open, Part, Put, Take};
use crate::{Cargo, LaneRule, PassView};
use crossbeam_queue::RuledArrayQueue;
use rack_outside::Numbered;
use std::alloc::{AllocError, Global};
use std::snapshot::Snapshot;
use std::sync::Wait;

/// The queue of a lane.
pub type Bench<T, R> = RuledArrayQueue<
    Cargo<T, <R as LaneRule<T>>::Data>,
    PassView<<R as LaneRule<T>>::Data>,
    OneLane<T, R>,
>;

/// A lane over its queue: write [`Lane`]. It has the queue as a parameter so that it is known to be
/// sent and shared wherever its items are.
#[derive(Drop)]
pub struct LaneOver<Q> {
    queue: Q,
}

/// A queue of bounded room through which owners hand items to one another, mostly in an `Arc`. Items
/// go first in, first out, of which no clause speaks.
///
/// Its items fit data that are fixed when it is made: `put` needs it, and what `take` gives fits. Each
/// owner has a [`Pass`], which knows the numbers that went in and out through it. As lists with
/// repeats, what all passes put is what they took and what the lane holds, so whoever has the whole
/// pass knows that nothing was lost, doubled or made up.
///
/// `new` alone takes memory, once for the whole room.
pub type Lane<T, R> = LaneOver<Bench<T, R>>;

/// A pass over that of the queue: write [`Pass`].
#[derive(Drop)]
pub struct PassOver<P> {
    pass: P,
}

/// What one owner needs to use a lane, and what that owner knows of it. It takes no byte, and may go
/// to another thread.
///
/// The first pass counts those that were split off and not yet joined, and is whole where there are
/// none. Two passes are compared only when they are joined.
pub type Pass<T, R> = PassOver<
    crossbeam_queue::Pass<Cargo<T, <R as LaneRule<T>>::Data>, PassView<<R as LaneRule<T>>::Data>>,
>;

impl<T: Numbered + Drop, R: LaneRule<T>> LaneOver<Bench<T, R>> {
    /// A lane that holds up to `room` items, at least one, and its first pass. All its items will fit
    /// the data that `about` shows, of which nothing is kept.
    ///
    /// `Err` is want of memory.
    pub fn new(
        alloc: Global,
        room: usize,
        about: Snapshot<R::Data>,
    ) -> Result<(Lane<T, R>, Pass<T, R>), AllocError>
        requires room { 0 < room }
        ensures room { IfOk result (λ r. lane_room r.0 ≡ room) }
        ensures pass { IfOk result (λ r. IsLanePass r.0 r.1) }
        ensures fresh { IfOk result (λ r. pass_view r.1 ≡ first_pass about.value) }
    {
        let (queue, mut pass) = Bench::<T, R>::ruled(alloc, room)?;
        match queue.try_push_as::<Load<T, R>>(&mut pass, Cargo::Start(about)) {
            Ok(()) => {}
            Err(Cargo::Start(_)) => return Err(AllocError),
            Err(Cargo::Item(_)) => return Err(AllocError),
        }
        match queue.try_pop_as::<Open<T, R>>(&mut pass) {
            Some(Cargo::Start(_)) => Ok((LaneOver { queue }, PassOver { pass })),
            Some(Cargo::Item(_)) => Err(AllocError),
            None => Err(AllocError),
        }
    }

    /// Hands an item that fits the lane's data to whoever takes it. With the whole pass it comes back
    /// only where as many items as the lane has room for were put and not yet taken. With any other pass
    /// it comes back where the lane is full at one moment of the call, of which no clause speaks. It
    /// takes no memory.
    pub fn put<W: Wait>(&self, rt: &W, pass: &mut Pass<T, R>, item: T) -> Result<(), T>
        requires pass { IsLanePass self.now pass.old }
        requires fits { FitsStage R.fits (pass_view pass.old).stage item }
        ensures pass { IsLanePass self.now pass.new }
        ensures put { OnOk result (pass_view pass.new ≡ with_put (T.number_of item, T.tag item) (pass_view pass.old)) }
        ensures back { IfErr result (λ x. x ≡ item) }
        ensures same { OnErr result (pass_view pass.new ≡ pass_view pass.old) }
        ensures full { OnErr result (IsWhole (pass_view pass.old) → HasLeft (λ x. (T.number_of x, T.tag x)) R.fits (pass_view pass.old) (lane_room self.now)) }
    {
        match self
            .queue
            .push_as::<Put<T, R>, W>(rt, &mut pass.pass, Cargo::Item(item))
        {
            Ok(()) => Ok(()),
            Err(Cargo::Item(item)) => Err(item),
            Err(Cargo::Start(_)) => unreachable!(),
        }
    }

    /// An item, the oldest first, which fits the lane's data. With the whole pass it was put and not yet
    /// taken, and `None` comes exactly where all that was put was taken. With any other pass `None` comes
    /// where the lane is empty at one moment of the call, of which no clause speaks. It takes no memory.
    pub fn take<W: Wait>(&self, rt: &W, pass: &mut Pass<T, R>) -> Option<T>
        requires pass { IsLanePass self.now pass.old }
        ensures pass { IsLanePass self.now pass.new }
        ensures fits { IfSome result (λ x. FitsStage R.fits (pass_view pass.old).stage x) }
        ensures taken { IfSome result (λ x. pass_view pass.new ≡ with_taken (T.number_of x, T.tag x) (pass_view pass.old)) }
        ensures left { IfSome result (λ x. IsWhole (pass_view pass.old) → IsLeft (λ x. (T.number_of x, T.tag x)) R.fits (pass_view pass.old) x) }
        ensures same { IfNone result (pass_view pass.new ≡ pass_view pass.old) }
        ensures whole { IsWhole (pass_view pass.old) → (IsNone result ↔ SameElements (pass_view pass.old).put (pass_view pass.old).taken) }
    {
        match self.queue.pop_as::<Take<T, R>, W>(rt, &mut pass.pass) {
            None => None,
            Some(Cargo::Item(item)) => Some(item),
            Some(Cargo::Start(_)) => unreachable!(),
        }
    }

    /// A further pass, for another owner. It shows the same data and knows no number; the first counts
    /// one more out.
    pub fn split(&self, pass: &mut Pass<T, R>) -> Pass<T, R>
        requires pass { IsLanePass self.now pass.old }
        requires first { (pass_view pass.old).first ≡ true }
        ensures pass { IsLanePass self.now pass.new }
        ensures other { IsLanePass self.now result }
        ensures fresh { pass_view result ≡ split_off (pass_view pass.old) }
        ensures out { pass_view pass.new ≡ with_one_more_out (pass_view pass.old) }
    {
        PassOver {
            pass: self.queue.another::<Part>(&mut pass.pass),
        }
    }

    /// Takes back a pass that was split off. The first then knows the numbers of both, and counts one
    /// fewer out. Both showed the same data, as all passes of a lane do.
    pub fn join(&self, pass: &mut Pass<T, R>, other: Pass<T, R>)
        requires pass { IsLanePass self.now pass.old }
        requires first { (pass_view pass.old).first ≡ true }
        requires other { IsLanePass self.now other }
        ensures pass { IsLanePass self.now pass.new }
        ensures both { pass_view pass.new ≡ joined (pass_view pass.old) (pass_view other) }
        ensures shows { (pass_view other).stage ≡ (pass_view pass.old).stage }
    {
        self.queue.absorb::<Part>(&mut pass.pass, other.pass);
        self.queue.learn_as::<Part>(&mut pass.pass);
    }
}
