// The endpoints.
use crate::Texts;
use rack_types::Bytes;

/// A stock endpoint. As an `Endpoint` it answers by its row of the table in `specs/Answers.antt`, whatever
/// the environment is.
///
/// Its fields may have any values: what may be sent of an answer is told by the rules of answers, and
/// some endpoints are there to break those.
#[derive(Debug, Drop)]
pub enum App {
    /// This status, `content-type` with this kind, and this body as one piece of known length.
    Text {
        /// The status.
        status: u32,
        /// The content type.
        kind: Bytes,
        /// The body.
        body: Bytes,
    },
    /// 200, `text/plain`, and the request's body as one piece of known length.
    Echo,
    /// 200, `text/plain`, and a line `NAME=value` with LF for each pair of the environment, the value
    /// escaped, as one piece of known length.
    Env,
    /// This status, `text/plain`, and these pieces, enumerable and of no known length.
    Pieces {
        /// The status.
        status: u32,
        /// The pieces, of which there may be none, and empty ones.
        pieces: Texts,
    },
    /// 200, `text/plain`, and these pieces, written to a stream.
    Stream(Texts),
    /// 200, `set-cookie` with these values and no other header, none at all where there are no values,
    /// and an empty body of known length.
    Cookies(Texts),
    /// An answer that breaks the rules of answers with these numbers, as far as one answer can: 1 to 8
    /// and 10.
    Bad(Bytes),
    /// Raises, with this text.
    Raise(Bytes),
    /// 200, `content-length` with this length in decimal, and these pieces, enumerable and of no known
    /// length, behind which the body raises or ends well.
    Late {
        /// The length that is promised.
        length: u64,
        /// The pieces, of which there may be none, and empty ones.
        pieces: Texts,
        /// Whether the body raises behind them.
        raises: bool,
    },
    /// Takes the connection over: a full hijack, to which there is no reply.
    Take {
        /// Whether upper takes it, else echo.
        upper: bool,
    },
    /// This status, no headers, and an empty body, enumerable and of no known length. Behind the head the
    /// connection is taken over: a partial hijack.
    Part {
        /// The status.
        status: u32,
        /// Whether upper takes it, else echo.
        upper: bool,
    },
}
