// What is left of the runs, reads and writes of one turn, and how a step went.
ghost use Rattle.std.specs.Prelude.{◌≡◌, ◌↔◌, IsTrue};
ghost use Rattle.conn_steps.specs.Inner.{IsSpentBudget};

/// How a step went.
#[derive(Clone, Copy, Debug, PartialEq, Eq)]
pub enum Step {
    /// It was made.
    GoesOn,
    /// The link had to wait.
    Waits,
    /// No step may be made.
    Stops,
}

/// How the saying of what is owed went.
#[derive(Clone, Copy, Debug, PartialEq, Eq)]
pub enum SayStep {
    /// Memory was refused before a write.
    Unwritten,
    /// One write, which took bytes or ended the connection.
    Wrote,
    /// One write, and the link had to wait.
    Waits,
}

/// The runs, reads and writes that are left, and how many bytes came.
#[derive(Clone, Copy, Debug, PartialEq, Eq)]
pub struct Budget {
    pub runs: u64,
    pub reads: u64,
    pub writes: u64,
    pub came: u64,
}

impl Budget {
    /// What a turn may do.
    pub fn new() -> Budget
        ensures { result ≡ record { runs = 10; reads = 160; writes = 160; came = 0 } }
    {
        Budget {
            runs: 10,
            reads: 160,
            writes: 160,
            came: 0,
        }
    }

    /// Whether the last run, read or write was made.
    pub fn is_spent(&self) -> bool
        ensures { IsTrue result ↔ IsSpentBudget self.now }
    {
        self.runs == 0 || self.reads == 0 || self.writes == 0
    }
}
