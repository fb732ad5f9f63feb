// The head of a reply.
ghost use Rattle.std.specs.Prelude.{◌≡◌, ℕ, ◌≤◌, List, [], ◌∷◌, ◌++◌, All, IfSome, IfNone, length, map, take, drop, codes};
ghost use Rattle.httparse.specs.Spans.{IsHeaderWithin, header_bytes};
ghost use Rattle.message_framing.specs.HeadText.{empty_line, skipped, lines_end, head_len};
ghost use Rattle.rack_types.specs.Fields.{values_of};
ghost use Rattle.httparse.specs.Grammar.{ResponseHead};
ghost use Rattle.puma_ctl.specs.Reply.{IsHead, IsReplyHead, fields_limit, length_by, stated_length};
ghost use Rattle.puma_ctl.specs.Back.{OccursAs, ReadsHead};

use httparse::Status;
use httparse::spans::{EMPTY_HEADER_SPAN, HeaderSpan, ResponseSpans, parse_response};
use rack_text::{is_decimal, read_decimal, same_ignoring_case};

// The fields that a head may have, and the bytes that a body may have.
const FIELDS_LIMIT: usize = 64;

const BODY_LIMIT: u128 = 1_048_576;

/// What the head of a reply says.
#[derive(Clone, Copy)]
pub(crate) struct Head {
    pub(crate) status: u32,
    pub(crate) length: usize,
}

/// What this text says, where it is the head of a reply.
pub(crate) fn read_head(text: &[u8]) -> Option<Head>
    ensures head { IfSome result (λ head. IsReplyHead text.now head.status head.length) }
    ensures none { IfNone result ((status count : ℕ) → ¬ (IsReplyHead text.now status count)) }
{
    let mut places = [EMPTY_HEADER_SPAN; FIELDS_LIMIT];
    let head = parse_head(text, &mut places)?;
    let length = stated_length(text, &places[..head.headers])?;
    Some(Head {
        status: head.code as u32,
        length,
    })
}

// The places of the head's parts, where the text is the head of a response and nothing else.
fn parse_head(text: &[u8], places: &mut [HeaderSpan]) -> Option<ResponseSpans>
    requires { length places.old ≡ fields_limit }
    ensures head { IfSome result (λ head. ReadsHead text.now places.new head) }
    ensures none { IfNone result ((head : ResponseHead) → ¬ (IsHead text.now head)) }
{
    match parse_response(text, places) {
        Ok(Status::Complete(head)) => {
            if head.len == text.len() {
                Some(head)
            } else {
                None
            }
        }
        _ => None,
    }
}

// How often a head has a field, with the value of one that comes once.
#[derive(Clone, Copy)]
enum Occurs<'a> {
    Never,
    Once(&'a [u8]),
    Again,
}

// The length that the fields at these places of the text state.
fn stated_length(text: &[u8], places: &[HeaderSpan]) -> Option<usize>
    requires { All (IsHeaderWithin (length text.now)) places.now }
    ensures { result ≡ stated_length (map (header_bytes text.now) places.now) }
{
    let mut found = Occurs::Never;
    for i in 0..places.len() {
        let place = places[i];
        found = found.with(place.name.of(text), place.value.of(text));
    }
    found.length()
}

impl<'a> Occurs<'a> {
    // How often Content-Length comes, with one field more.
    fn with(self, name: &[u8], value: &'a [u8]) -> Occurs<'a>
        ensures { (fields : List (List ℕ × List ℕ)) → OccursAs self.entry (values_of (codes "content-length") fields)
            → OccursAs result (values_of (codes "content-length") (fields ++ (name.now, value.now) ∷ [])) }
    {
        if !same_ignoring_case(name, b"content-length") {
            return self;
        }
        match self {
            Occurs::Never => Occurs::Once(value),
            _ => Occurs::Again,
        }
    }

    // The length that the values state.
    fn length(self) -> Option<usize>
        ensures { (values : List (List ℕ)) → OccursAs self.entry values → result ≡ length_by values }
    {
        match self {
            Occurs::Once(value) => length_of(value),
            _ => None,
        }
    }
}

// The length that one value states.
fn length_of(value: &[u8]) -> Option<usize>
    ensures { result ≡ length_by (value.now ∷ []) }
{
    if !is_decimal(value) {
        return None;
    }
    match read_decimal(value) {
        Some(length) if length <= BODY_LIMIT => Some(length as usize),
        _ => None,
    }
}

/// Where the head text ends, with the empty lines before it, if it does.
pub(crate) fn head_end(bytes: &[u8]) -> Option<usize>
    ensures { result ≡ head_len bytes.now }
{
    let start = skip(bytes);
    let end = lines_end(suffix(bytes, start))?;
    Some(start + end)
}

/// How many bytes the whole empty lines at the front have.
pub(crate) fn skip(bytes: &[u8]) -> usize
    ensures value { result ≡ skipped bytes.now }
    ensures within { result ≤ length bytes.now }
{
    let mut at = 0;
    loop {
        let n = empty_line(suffix(bytes, at));
        if n == 0 {
            return at;
        }
        at += n;
    }
}

// Where the first line ends that an empty line follows, with that empty line.
fn lines_end(text: &[u8]) -> Option<usize>
    ensures value { result ≡ lines_end text.now }
    ensures within { IfSome result (λ n. n ≤ length text.now) }
{
    for at in 0..text.len() {
        if text[at] == b'\n' {
            let n = empty_line(suffix(text, at + 1));
            if n > 0 {
                return Some(at + 1 + n);
            }
        }
    }
    None
}

// How many bytes the empty line at the front has, 0 where none stands there.
fn empty_line(bytes: &[u8]) -> usize
    ensures value { result ≡ empty_line bytes.now }
    ensures within { result ≤ length bytes.now }
{
    if bytes.starts_with(b"\n") {
        1
    } else if bytes.starts_with(b"\r\n") {
        2
    } else {
        0
    }
}

/// What stands from a place on.
pub(crate) fn suffix(bytes: &[u8], from: usize) -> &[u8]
    requires { from ≤ length bytes.now }
    ensures { result.now ≡ drop from bytes.now }
{
    &bytes[from..]
}

/// The first bytes, up to a place.
pub(crate) fn prefix(bytes: &[u8], to: usize) -> &[u8]
    requires { to ≤ length bytes.now }
    ensures { result.now ≡ take to bytes.now }
{
    &bytes[..to]
}
