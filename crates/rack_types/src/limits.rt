// How much of a request is taken, and how long a connection may take for it.
ghost use Rattle.std.specs.Prelude.{◌≡◌};

/// The version that a request line names.
#[derive(Clone, Copy, Debug, PartialEq, Eq)]
pub enum Version {
    /// HTTP/1.0
    Http10,
    /// HTTP/1.1
    Http11,
}

/// The limits of one connection. Sizes are in bytes, times in milliseconds.
#[derive(Clone, Copy, Debug, PartialEq, Eq)]
pub struct Limits {
    /// A head, from the first byte behind the last request through its blank line, with the empty
    /// lines that are skipped.
    pub head: usize,
    /// The field lines of a head, and of a trailer.
    pub lines: usize,
    /// A body: its stated length, or the sum of its chunks.
    pub body: u64,
    /// The line of a chunk's size.
    pub size_line: usize,
    /// A trailer with its blank line.
    pub trailer: usize,
    /// The requests of one connection.
    pub requests: u64,
    /// From a request's first byte until it is whole.
    pub request_ms: u64,
    /// Between two requests.
    pub idle_ms: u64,
    /// Without a byte taken from a reply.
    pub write_ms: u64,
}

impl Limits {
    ghost use Rattle.rack_types.specs.Limits.{stock_limits};

    /// The limits of this server, which are this project's own.
    pub fn stock() -> Limits
        ensures { result ≡ stock_limits }
    {
        Limits {
            head: 32_768,
            lines: 64,
            body: 1_048_576,
            size_line: 1_024,
            trailer: 8_192,
            requests: 10_000,
            request_ms: 30_000,
            idle_ms: 20_000,
            write_ms: 10_000,
        }
    }
}
