// Where a new generation of the application is loaded from.
ghost use Rattle.std.specs.Prelude.{◌≡◌, ◌≤◌, ℕ, Option, IfOk, OnErr, Some};
ghost use Rattle.master_core.specs.declared.loader.Load.{Load};
ghost use Rattle.master_core.specs.Loads.{counted, Rose, OnFailedLoad};

use crate::NoMemory;

/// What one loading gave.
#[derive(Clone, Copy, Debug, PartialEq, Eq)]
pub enum Load {
    /// The stack file was read, and a stack stands ready.
    Read,
    /// The stack file breaks a rule.
    Bad {
        /// The line, counted from 1.
        line: u32,
        /// The number of the rule S that it breaks.
        rule: u8,
    },
    /// There is no such file.
    Absent,
    /// The file has more bytes than are read.
    Long,
    /// The reading failed, and the count of faults rose.
    Failed,
}

/// What loads the application anew for a phased order.
pub trait Loader {
    /// How many loads were made. A count that has reached 2^64 - 1 stays there.
    ghost loads: { Self → ℕ };
    /// The last answer, where there was one. A load that was refused memory gives none.
    ghost answered: { Self → Option Load };
    /// How many loads failed. A count that has reached 2^64 - 1 stays there, and a further failure
    /// then counts as risen.
    ghost faults: { Self → ℕ };

    /// Loads the application, as it stands in its file now.
    ///
    /// `Failed` comes only where the count of faults rose. Memory may be taken; where that is refused
    /// the last answer stays the one before.
    fn load(&mut self) -> Result<Load, NoMemory>
        ensures counts { loads self.new ≡ counted (loads self.old) }
        ensures answers { IfOk result (λ load. answered self.new ≡ Some load) }
        ensures refused { OnErr result (answered self.new ≡ answered self.old) }
        ensures later { faults self.old ≤ faults self.new }
        ensures failed { OnFailedLoad result (Rose (faults self.old) (faults self.new)) };
}
