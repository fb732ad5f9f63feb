// What a master is told, and what it answers.
use crate::Load;

/// An order to the master.
#[derive(Clone, Copy, Debug, PartialEq, Eq)]
pub enum Order {
    /// Replace the application, slot by slot, by what was loaded.
    Phased(Load),
    /// End, each slot once its connections have ended by themselves.
    Stop,
    /// End at once.
    Halt,
}

/// The answer to an order.
#[derive(Clone, Copy, Debug, PartialEq, Eq)]
pub enum Reply {
    /// The order was taken. The number is the phase to which the slots are to come from now on.
    Taken(u32),
    /// A phased order came while an order was pending or no higher phase was left, and was not taken.
    Busy {
        /// The phase before the phased order that isn't done, or `target` where there is none.
        phase: u32,
        /// The phase to which the slots are to come.
        target: u32,
    },
    /// A phased order came with nothing that could be loaded, and was not taken.
    Refused(Load),
}

/// What one step asks of the server.
#[derive(Clone, Copy, Debug, PartialEq, Eq)]
pub enum Act {
    /// Nothing.
    Rest,
    /// Tell this slot to drain.
    Drain(u8),
    /// Start this slot, in this phase.
    Start(u8, u32),
    /// Tell all slots to end at once.
    HaltAll,
    /// All slots are vacant, as was ordered: the server is done.
    Finish,
}

// What was ordered to end the master.
#[derive(Clone, Copy, Debug, PartialEq, Eq)]
pub(crate) enum Ending {
    // Nothing.
    NotOrdered,
    // To stop.
    Stop,
    // To halt, and no step was made since.
    Halt,
    // To halt, and a step told all slots so.
    Halted,
}
