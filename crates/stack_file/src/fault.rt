// What can be wrong with a stack file.
ghost use Rattle.std.specs.Prelude.{◌≡◌};

use rack_types::NoMemory;

/// The first line of a stack file that breaks a rule, and the least rule that it breaks.
#[derive(Clone, Copy, Debug, Drop, PartialEq, Eq)]
pub struct FileFault {
    /// The number of the line, the first being 1. It is the line behind the last one where a block isn't
    /// ended, or where the whole file has no application; of the empty file that is line 1.
    pub line: u32,
    /// The number of the rule, 1 to 9 for S1 to S9.
    pub rule: u8,
}

/// Why a stack file has no steps.
#[derive(Clone, Copy, Debug, Drop, PartialEq, Eq)]
pub enum ReadFault {
    /// A line breaks a rule.
    Bad(FileFault),
    /// Memory was refused.
    NoMemory,
}

impl From<NoMemory> for ReadFault {
    ghost use Rattle.stack_file.specs.declared.fault.ReadFault.TheVariants.{NoMemory};

    ghost from_gives = { λ _ fault. fault ≡ NoMemory };

    fn from(_refused: NoMemory) -> ReadFault {
        ReadFault::NoMemory
    }
}
