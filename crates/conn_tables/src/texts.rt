// What is asked, and what is sent.

pub(crate) const GET: &str = "GET / HTTP/1.1\r\nHost: a\r\n\r\n";

/// Its first half, and the second.
pub(crate) const HALF: &str = "GET / HTTP/1.1\r\nHo";

pub(crate) const REST: &str = "st: a\r\n\r\n";

/// One with a body, and one behind which the connection closes.
pub(crate) const POST: &str = "POST / HTTP/1.1\r\nHost: a\r\nContent-Length: 2\r\n\r\nok";

pub(crate) const LAST: &str = "GET / HTTP/1.0\r\n\r\n";

/// Two, and one with a part of the next.
pub(crate) const TWO: &str =
    "GET / HTTP/1.1\r\nHost: a\r\n\r\nPOST / HTTP/1.1\r\nHost: a\r\nContent-Length: 2\r\n\r\nok";

pub(crate) const ONE_AND_HALF: &str = "GET / HTTP/1.1\r\nHost: a\r\n\r\nGET / HTTP/1.1\r\nHo";

pub(crate) const ONE_AND_LINE: &str = "GET / HTTP/1.1\r\nHost: a\r\n\r\n\r\n";

pub(crate) const ONE_AND_WORD: &str = "GET / HTTP/1.1\r\nHost: a\r\n\r\nab";

/// One with a word behind which a hijacker says no more, and a byte behind that.
pub(crate) const ONE_AND_LAST_WORD: &str = "GET / HTTP/1.1\r\nHost: a\r\n\r\nabcdefghijkl\u{4}m";

/// One without a host, which is refused.
pub(crate) const REFUSED: &str = "GET / HTTP/1.1\r\n\r\n";

/// The replies, where they keep the connection and where they close it.
pub(crate) const KEPT: &str = "HTTP/1.1 200 OK\r\ncontent-length: 0\r\n\r\n";

pub(crate) const CLOSED: &str = "HTTP/1.1 200 OK\r\ncontent-length: 0\r\nconnection: close\r\n\r\n";

pub(crate) const POST_KEPT: &str = "HTTP/1.1 200 OK\r\ncontent-length: 2\r\n\r\nok";

pub(crate) const POST_CLOSED: &str =
    "HTTP/1.1 200 OK\r\ncontent-length: 2\r\nconnection: close\r\n\r\nok";

pub(crate) const REFUSAL: &str =
    "HTTP/1.1 400 Bad Request\r\nx-puma-fault: F6\r\ncontent-length: 0\r\nconnection: close\r\n\r\n";

/// That a request took too long, and its first 20 bytes.
pub(crate) const LATE: &str =
    "HTTP/1.1 408 Request Timeout\r\nx-puma-fault: T1\r\ncontent-length: 0\r\nconnection: close\r\n\r\n";

pub(crate) const LATE_20: &str = "HTTP/1.1 408 Request";

/// The head of a reply behind which a hijacker takes the connection over.
pub(crate) const HEAD: &str = "HTTP/1.1 200 OK\r\n\r\n";
