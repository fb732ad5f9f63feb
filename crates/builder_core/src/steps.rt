// The steps of a stack.
use rack_types::Bytes;
use stock_middleware::Ware;

/// One step of a block.
#[cycle(steps)]
#[derive(Drop)]
pub enum Line<E> {
    /// A middleware around what the steps behind it build. The first one is outermost; one behind maps
    /// wraps only what follows it.
    Use(Ware),
    /// An endpoint. The last `Run` or `Cascade` of a block answers the block; the others count for
    /// nothing but the number of steps.
    Run(E),
    /// A block for a place. A place begins with `/` or is empty, and fits a path that begins with it
    /// where what is left is empty or begins with `/`.
    Map(Bytes, Steps<E>),
    /// Endpoints that are called in order, until one answers otherwise than with the status 404 or 405.
    Cascade(Vec<E>),
}

/// The steps of a block, in order.
#[cycle(steps)]
#[derive(Drop)]
pub struct Steps<E> {
    /// The steps.
    pub lines: Vec<Line<E>>,
}

/// Why steps have no stack.
#[derive(Clone, Copy, Debug, Drop, PartialEq, Eq)]
pub enum BuildFault {
    /// A block, or the whole, has no application: no `Run` or `Cascade` of its own and no default, and at its
    /// end no `Map` either, which answers a block without them.
    NoRun,
    /// Something stands deeper than 32. The whole has the depth 0, and what stands in a `Map` or
    /// `Cascade` has one more than that line; an empty one counts too.
    TooDeep,
    /// There are more than 256 steps. Each line is one, and each endpoint of a `Cascade` is one more.
    TooMany,
    /// Memory was refused.
    NoMemory,
}
