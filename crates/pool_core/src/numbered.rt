// What a lane is made for.

/// What a lane is made for: a condition on its items, over data that are fixed when the lane is made.
///
/// `fits` is seen by contracts alone, and no law is asked of it: a lane is proved for each such
/// condition. No value of the data is kept, so `Data` costs nothing at run time.
pub trait LaneRule<T> {
    type Data: Drop;

    ghost fits: { Self.Data → T → Type 0 };
}
