// How a command ended.
ghost use Rattle.std.specs.Prelude.{◌≡◌};

/// Why a file was not read.
#[derive(Clone, Copy, Debug, PartialEq, Eq)]
pub enum FileWhy {
    /// There is no such file.
    Absent,
    /// The file has more bytes than the limit.
    Long,
    /// The reading failed.
    Failed,
}

/// How a command ended.
#[derive(Clone, Copy, Debug, PartialEq, Eq)]
pub enum Status {
    /// The command ran to its end.
    Done,
    /// Memory was refused.
    NoMemory,
    /// The words are no command of this program.
    Usage,
    /// The file that the words name was not read.
    File(FileWhy),
    /// The stack file breaks this rule, first in this line. Lines are counted from 1.
    Stack { line: u32, rule: u8 },
    /// A read of the connection failed.
    SourceFault,
    /// A write to the connection failed.
    SinkFault,
    /// The connection gave as many bytes as are taken of one: 2^40.
    TooLong,
    /// The dial of the control server failed, or its link did.
    Dial,
    /// The control server gave no reply.
    NoAnswer,
    /// The control server's reply had this status, which is not 200.
    Denied { status: u32 },
}

impl Status {
    ghost use Rattle.puma_top.specs.Status.{exit_code};

    /// The exit status that the program ends with.
    pub fn code(&self) -> u8
        ensures { result ≡ exit_code self.now }
    {
        match self {
            Status::Done => 0,
            Status::NoMemory => 1,
            Status::Usage => 2,
            Status::File(_) => 3,
            Status::Stack { .. } => 4,
            Status::SourceFault => 6,
            Status::SinkFault => 7,
            Status::TooLong => 9,
            Status::Dial => 12,
            Status::NoAnswer => 13,
            Status::Denied { .. } => 14,
        }
    }
}
