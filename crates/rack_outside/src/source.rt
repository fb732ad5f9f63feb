// Where bytes come from.
ghost use Rattle.std.specs.Prelude.{ℕ, ◌<◌, ◌≤◌, ◌≡◌, List, Option, length};
ghost use Rattle.rack_outside.specs.Source.{Gives, OnFailedRead};
ghost use Rattle.rack_outside.specs.Told.{Rose};

/// What one read gave.
#[derive(Clone, Copy, Debug, PartialEq, Eq)]
pub enum SourceRead {
    /// So many bytes stand at the front of the room: 1 to the room's length.
    Bytes(usize),
    /// The input has ended.
    End,
    /// The read failed, and the count of faults rose.
    Failed,
}

/// A stream of bytes that comes to an end.
pub trait Source {
    /// All bytes that the source holds from the start, where it tells.
    ghost input: { Self → Option (List ℕ) };
    /// The prefix of the input that was taken so far, where the source tells.
    ghost given: { Self → Option (List ℕ) };
    /// How many reads failed. A count that has reached 2^64 - 1 stays there, and a further failure
    /// then counts as risen.
    ghost faults: { Self → ℕ };

    /// Reads some bytes into the room, which is not empty.
    fn read(&mut self, room: &mut [u8]) -> SourceRead
        requires { 0 < length room.old }
        ensures same { input self.new ≡ input self.old }
        ensures gives { Gives result (input self.old) (given self.old) (given self.new) room.new }
        ensures later { faults self.old ≤ faults self.new }
        ensures failed { OnFailedRead result (Rose (faults self.old) (faults self.new)) };
}
