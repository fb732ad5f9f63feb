// What goes through the queue of a lane, and what a pass knows.
use std::collections::LinkedList;
use std::snapshot::Snapshot;

/// What the queue of a lane holds. While a lane is made, its data go through the queue once; from then
/// on it holds items alone.
#[derive(Drop)]
pub enum Cargo<T, D> {
    /// The lane's data.
    Start(Snapshot<D>),
    /// An item.
    Item(T),
}

/// How far a lane is made. Whoever has a lane has an open one.
pub enum Stage<D> {
    /// Its data are not in yet.
    Fresh,
    /// Its data are in its queue.
    Loaded(D),
    /// It takes items that fit these data.
    Open(D),
}

/// What a pass knows, as clauses see it by `pass_view`. No value of it is made: it is what proofs know
/// of a pass, and takes no byte.
pub struct PassView<D> {
    /// Whether it is the lane's first pass, the one that `Lane::new` gave.
    pub first: bool,
    /// 1, and 0 once it was joined to another.
    pub live: u64,
    /// Of the first pass: how many were split off and not yet joined.
    pub out: u64,
    /// The lane's data, once it is open.
    pub stage: Stage<D>,
    /// The same, as the pass showed them that was joined last.
    pub met: Stage<D>,
    /// The numbers, with their tags, of what was put through it, in order.
    pub put: LinkedList<(u32, u64)>,
    /// Those of what was taken through it, in order.
    pub taken: LinkedList<(u32, u64)>,
}
