// What a seat of a flag shows.

/// What a seat shows, as clauses see it by `seat_view`. No value of it is made: it is what proofs know
/// of a seat, and takes no byte.
pub struct SeatView {
    /// Whether it is the flag's first seat, the one that `Flag::new` gave.
    pub first: bool,
    /// 1, and 0 once it was joined to another.
    pub live: u64,
    /// Of the first seat: how many were split off and not yet joined.
    pub out: u64,
    /// The greatest level that it raised, 0 where none.
    pub raised: u64,
    /// The greatest level that it saw.
    pub seen: u64,
    /// How many looks it made.
    pub loads: u64,
}
