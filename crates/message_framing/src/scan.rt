// Where a head or a trailer ends, found piece by piece.
ghost use Rattle.std.specs.Prelude.{◌≡◌, ◌≤◌, length, count_by, drop, take};
ghost use Rattle.memchr.specs.Find.{IsFirstByte, is_byte};
ghost use Rattle.message_framing.specs.Head.{is_line_feed};
ghost use Rattle.message_framing.specs.HeadText.{skipped};
ghost use Rattle.message_framing.specs.Scan.{next, behind, ends};

use memchr::memchr_iter;

/// What the last line of the bytes so far is.
#[derive(Clone, Copy, Debug, PartialEq, Eq)]
pub(crate) enum Line {
    /// Whole empty lines alone came.
    Skipping,
    /// The same, and a carriage return behind them.
    SkippingReturn,
    /// Inside a line that is not empty.
    Text,
    /// At the start of a line behind another, or of the first line of a trailer.
    Start,
    /// The same, and a carriage return.
    Return,
    /// The head text or the trailer has ended.
    Ended,
}

impl Line {
    // The state behind one more byte.
    fn next(self, byte: u8) -> Line
        ensures { result ≡ next self byte }
    {
        match (byte, self) {
            (_, Line::Ended) => Line::Ended,
            (b'\n', Line::Skipping | Line::SkippingReturn) => Line::Skipping,
            (b'\n', Line::Text) => Line::Start,
            (b'\n', Line::Start | Line::Return) => Line::Ended,
            (b'\r', Line::Skipping) => Line::SkippingReturn,
            (b'\r', Line::Start) => Line::Return,
            _ => Line::Text,
        }
    }

    // Goes on over a piece: how many of its bytes end the head text or the trailer, where they do, and the state
    // behind them. Inside a line it looks for the next line feed alone.
    pub(crate) fn scan(&mut self, piece: &[u8]) -> Option<usize>
        ensures end { result ≡ ends self.old piece.now }
        ensures line { self.new ≡ behind self.old piece.now }
    {
        let mut i = 0;
        while i < piece.len() {
            if let Line::Text = *self {
                match next_line_feed(suffix(piece, i)) {
                    None => return None,
                    Some(k) => i += k,
                }
            }
            *self = self.next(piece[i]);
            i += 1;
            if let Line::Ended = *self {
                return Some(i);
            }
        }
        None
    }
}

// The place of the next line feed. An iterator looks near first, and lines are short.
fn next_line_feed(bytes: &[u8]) -> Option<usize>
    ensures { IsFirstByte (is_byte 10) bytes.now result }
{
    let mut feeds = memchr_iter(b'\n', bytes);
    feeds.next()
}

// How many line feeds the bytes have. The iterator's own `count` looks at each byte by itself; counted as the
// items of any iterator are, it goes from one line feed to the next.
pub(crate) fn count_line_feeds(bytes: &[u8]) -> usize
    ensures { result ≡ count_by is_line_feed bytes.now }
{
    Iterator::count(memchr_iter(b'\n', bytes))
}

// How many bytes the whole empty lines at the front have.
pub(crate) fn skip(bytes: &[u8]) -> usize
    ensures value { result ≡ skipped bytes.now }
    ensures within { result ≤ length bytes.now }
{
    let mut at = 0;
    while at < bytes.len() {
        if bytes[at] == b'\n' {
            at += 1;
        } else if bytes[at] == b'\r' && at + 1 < bytes.len() && bytes[at + 1] == b'\n' {
            at += 2;
        } else {
            break;
        }
    }
    at
}

// What stands from a place on.
pub(crate) fn suffix(bytes: &[u8], from: usize) -> &[u8]
    requires { from ≤ length bytes.now }
    ensures { result.now ≡ drop from bytes.now }
{
    &bytes[from..]
}

// The first bytes, up to a place.
pub(crate) fn prefix(bytes: &[u8], to: usize) -> &[u8]
    requires { to ≤ length bytes.now }
    ensures { result.now ≡ take to bytes.now }
{
    &bytes[..to]
}
