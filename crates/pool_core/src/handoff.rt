// The two lanes between a reactor and its workers.
use crate::lane::Lane;

/// Two lanes of one kind: write [`Handoff`].
#[derive(Drop)]
pub struct HandoffOver<L> {
    /// What a reactor puts and its workers take.
    pub todo: L,
    /// What the workers put and the reactor takes.
    pub back: L,
}

/// The two lanes between a reactor and its workers, which share it as a whole.
pub type Handoff<T, R> = HandoffOver<Lane<T, R>>;
