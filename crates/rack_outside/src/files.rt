// Files that are read whole.
ghost use Rattle.std.specs.Prelude.{ℕ, ◌≤◌, List, Option};
ghost use Rattle.rack_outside.specs.declared.files.FileRead.{FileRead};
ghost use Rattle.rack_outside.specs.Files.{Answers, Notes, OnFailedFile};
ghost use Rattle.rack_outside.specs.Told.{Rose};

use rack_types::{Bytes, NoMemory};

/// What one file's reading gave.
#[derive(Debug, Drop)]
pub enum FileRead {
    /// The whole text.
    Text(Bytes),
    /// There is no such file.
    Absent,
    /// The file has more bytes than the limit.
    Long,
    /// The reading failed, and the count of faults rose.
    Failed,
}

/// Files by their names.
pub trait Files {
    /// The texts that are still to come under each name, where the object tells.
    ghost holds: { Self → Option (List ℕ → List (List ℕ)) };
    /// The names of the reads so far with their answers, in order, where the object tells.
    ghost texts: { Self → Option (List (List ℕ × FileRead)) };
    /// How many readings failed. A count that has reached 2^64 - 1 stays there, and a further
    /// failure then counts as risen.
    ghost faults: { Self → ℕ };

    /// Reads the file of this name, of at most `limit` bytes, whole.
    ///
    /// Of the texts under a name each is answered in turn, and the last one stays. After a refused
    /// allocation nothing was read.
    fn read(&mut self, name: &str, limit: usize) -> Result<FileRead, NoMemory>
        ensures answers { Answers result name.now limit (holds self.old) (holds self.new) }
        ensures notes { Notes result name.now (texts self.old) (texts self.new) }
        ensures later { faults self.old ≤ faults self.new }
        ensures failed { OnFailedFile result (Rose (faults self.old) (faults self.new)) };
}
