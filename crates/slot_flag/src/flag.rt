// A flag and its seats.
ghost use Rattle.std.specs.Prelude.{◌≡◌, ◌≤◌, ◌-◌, ◌+◌, max, true, IfOk};
ghost use Rattle.slot_flag.specs.Seat.{seat_view, IsSeatOf, IsWhole, first_seat, with_one_more_out, split_off, KeepsPlace};

use crate::SeatView;
use crate::steps::{GreatestRaised, Learn, Look, Part, Raise};
use atomic_table::Table;
use std::alloc::{AllocError, Global};

/// The level at which a slot serves: the word of a flag at which none was raised.
pub const SERVE: u64 = 0;

/// The level at which a slot takes nothing new and ends what is idle.
pub const DRAIN: u64 = 1;

/// The level at which a slot ends everything at once, the greatest of the three.
pub const HALT: u64 = 2;

/// A word from 0 to 2 that only rises, shared by threads, mostly in an `Arc`.
///
/// The word is the greatest level that the seats which are not spent show as raised, and no seat saw
/// more. Each call is one or two steps on the word, sequentially consistent. None waits, and `new`
/// alone takes memory. That there are three levels is this project's own.
#[derive(Drop)]
pub struct Flag {
    table: Table<(), SeatView, (), GreatestRaised, Global>,
}

/// What one owner needs to step on a flag, and what that owner knows of it. It takes no byte, and may
/// go to another thread.
///
/// Clauses see by `seat_view` the greatest level that it raised, the greatest that it saw, and how many
/// looks it made. Two seats are compared only when they are joined.
#[derive(Drop)]
pub struct Seat {
    seat: atomic_table::Seat<(), SeatView>,
}

impl Flag {
    /// A flag at which no level was raised, and its first seat.
    ///
    /// `Err` is want of memory.
    pub fn new(alloc: Global) -> Result<(Flag, Seat), AllocError>
        ensures seat { IfOk result (λ r. IsSeatOf r.0 r.1) }
        ensures fresh { IfOk result (λ r. seat_view r.1 ≡ first_seat) }
    {
        let (table, seat) = Table::of_words(alloc, &[SERVE], &())?;
        Ok((Flag { table }, Seat { seat }))
    }

    /// Raises the word to `level`, from 0 to 2, where it is lower, by one fetch_max.
    ///
    /// The seat then shows that it raised the level and saw at least that. Where it is the first seat
    /// and no other is out, what it saw is what it raised.
    pub fn raise(&self, seat: &mut Seat, level: u64)
        requires seat { IsSeatOf self.now seat.old }
        requires level { level ≤ HALT }
        ensures seat { IsSeatOf self.now seat.new }
        ensures place { KeepsPlace (seat_view seat.old) (seat_view seat.new) }
        ensures raised { (seat_view seat.new).raised ≡ max (seat_view seat.old).raised level }
        ensures seen { max (seat_view seat.old).seen (seat_view seat.new).raised ≤ (seat_view seat.new).seen }
        ensures loads { (seat_view seat.new).loads ≡ (seat_view seat.old).loads }
        ensures whole { IsWhole (seat_view seat.old) → (seat_view seat.new).seen ≡ (seat_view seat.new).raised }
    {
        let shared = &self.table.shared;
        shared.fetch_max::<Raise>(&mut seat.seat, 0, level);
    }

    /// The word, by one load of this call's own: at least what the seat had seen and what it raised,
    /// and at most 2.
    ///
    /// Where it is the first seat and no other is out, the answer is what it raised.
    pub fn look(&self, seat: &mut Seat) -> u64
        requires seat { IsSeatOf self.now seat.old }
        ensures seat { IsSeatOf self.now seat.new }
        ensures place { KeepsPlace (seat_view seat.old) (seat_view seat.new) }
        ensures read { result ≡ (seat_view seat.new).seen }
        ensures rises { max (seat_view seat.old).seen (seat_view seat.old).raised ≤ result }
        ensures level { result ≤ HALT }
        ensures raised { (seat_view seat.new).raised ≡ (seat_view seat.old).raised }
        ensures loads { (seat_view seat.new).loads ≡ (seat_view seat.old).loads + 1 }
        ensures whole { IsWhole (seat_view seat.old) → result ≡ (seat_view seat.old).raised }
    {
        self.table.shared.load::<Look>(&mut seat.seat, 0)
    }

    /// A further seat, for another owner. It raised nothing, made no look, and saw what the first had
    /// seen; the first counts one more out.
    pub fn split(&self, seat: &mut Seat) -> Seat
        requires seat { IsSeatOf self.now seat.old }
        requires first { (seat_view seat.old).first ≡ true }
        ensures seat { IsSeatOf self.now seat.new }
        ensures other { IsSeatOf self.now result }
        ensures fresh { seat_view result ≡ split_off (seat_view seat.old).seen }
        ensures out { seat_view seat.new ≡ with_one_more_out (seat_view seat.old) }
    {
        Seat {
            seat: self.table.shared.split_seat::<Part>(&mut seat.seat),
        }
    }

    /// Takes back a seat that was split off. The first then shows the greater of both levels raised,
    /// and counts one fewer out. What the other's looks were stays with whoever had it.
    ///
    /// Where none is out behind it, the other saw no more than the first then shows as raised.
    pub fn join(&self, seat: &mut Seat, other: Seat)
        requires seat { IsSeatOf self.now seat.old }
        requires first { (seat_view seat.old).first ≡ true }
        requires other { IsSeatOf self.now other }
        ensures seat { IsSeatOf self.now seat.new }
        ensures first { (seat_view seat.new).first ≡ true }
        ensures out { (seat_view seat.new).out ≡ (seat_view seat.old).out - 1 }
        ensures raised { (seat_view seat.new).raised ≡ max (seat_view seat.old).raised (seat_view other).raised }
        ensures seen { max (seat_view seat.old).seen (seat_view other).seen ≤ (seat_view seat.new).seen }
        ensures loads { (seat_view seat.new).loads ≡ (seat_view seat.old).loads }
        ensures told { (seat_view seat.new).out ≡ 0 → (seat_view other).seen ≤ (seat_view seat.new).raised }
        ensures whole { (seat_view seat.new).out ≡ 0 → (seat_view seat.new).seen ≡ (seat_view seat.new).raised }
    {
        let shared = &self.table.shared;
        shared.join_seat::<Part>(&mut seat.seat, other.seat);
        shared.load::<Learn>(&mut seat.seat, 0);
    }
}
