// A whole head text, read and judged.
ghost use Rattle.std.specs.Prelude.{◌≡◌, ◌≤◌, ◌<◌, ◌+◌, ◌^◌, [], Some, length, drop, vec_len, vec_capacity, IfOk, IfSome, IfNone, MatchResult};
ghost use Rattle.std.specs.Option.{ForSome, option_map};
ghost use Rattle.httparse.specs.Grammar.{RequestHead};
ghost use Rattle.httparse.specs.Spans.{IsRequestAt};
ghost use Rattle.rack_types.specs.Request.{SpansFit};
ghost use Rattle.message_framing.specs.HeadText.{head_text};
ghost use Rattle.message_framing.specs.Head.{IsNoHead, head_fault, is_chunked, version_of};
ghost use Rattle.message_framing.specs.Request.{has_too_many_lines};
ghost use Rattle.message_framing.specs.Places.{PartsAs, ReadsHead, RefusesHead, StandsHead, shifted_by};

use crate::fields::{Framing, body_framing};
use crate::scan::{count_line_feeds, skip, suffix};
use crate::target::read_target;
use httparse::Status;
use httparse::spans::{HeaderSpan, RequestSpans, Span, parse_request};
use rack_types::{Fault, Request, Spans, Version};

// The lines that a head may have between its request line and its blank line.
const LINES_LIMIT: usize = 64;

// The places of the head's parts, where the text is a head and nothing else.
fn parse_head(text: &[u8], places: &mut Vec<HeaderSpan>) -> Option<RequestSpans>
    requires { vec_len places.old ≡ 64 }
    ensures head { IfSome result (λ s. ReadsHead text.now places.new.items s) }
    ensures none { IfNone result (IsNoHead text.now) }
    ensures places { vec_len places.new ≡ 64 }
{
    match parse_request(text, places.as_mut_slice()) {
        Ok(Status::Complete(head)) => {
            if head.len == text.len() {
                Some(head)
            } else {
                None
            }
        }
        _ => None,
    }
}

// The lines of a head text between its request line and its blank line are more than 64.
fn has_too_many_lines(text: &[u8]) -> bool
    ensures { result ≡ has_too_many_lines text.now }
{
    count_line_feeds(text).saturating_sub(2) > LINES_LIMIT
}

// The refusal of a text that is no head. A head has one line for each of its fields, so of a text that is one
// the lines need no count.
fn no_head_fault(text: &[u8]) -> Fault
    requires { IsNoHead text.now }
    ensures { RefusesHead text.now result }
{
    if has_too_many_lines(text) {
        Fault::F(2)
    } else {
        Fault::F(3)
    }
}

/// A whole head that earns no refusal.
#[derive(Drop)]
pub(crate) struct Head {
    /// Its request, without a body.
    pub(crate) request: Request,
    /// How the body behind it is framed.
    pub(crate) framing: Framing,
}

/// Reads a whole head, with the empty lines before it, or gives the first refusal that it earns. It takes
/// no memory.
pub(crate) fn read_head(bytes: Vec<u8>, mut places: Vec<HeaderSpan>) -> Result<Head, Fault>
    requires room { 32768 ≤ vec_capacity bytes }
    requires places { vec_len places ≡ 64 }
    ensures { MatchResult result (λ head. StandsHead (head_text bytes.items) head.request head.framing) (RefusesHead (head_text bytes.items)) }
{
    let start = skip(&bytes);
    let text = suffix(&bytes, start);
    let Some(head) = parse_head(text, &mut places) else {
        return Err(no_head_fault(text));
    };
    let spans = parts_of(start, text, &head, &places)?;
    let framing = body_framing(spans.version, text, &places[..spans.fields])?;
    let body = Vec::new(*bytes.allocator());
    let request = Request::new(bytes, places, spans, body, is_chunked(framing));
    Ok(Head { request, framing })
}

fn is_chunked(framing: Framing) -> bool
    ensures { result ≡ is_chunked framing }
{
    match framing {
        Framing::Stated(_) => false,
        Framing::Chunked => true,
    }
}

// Where the parts of a head are, or its refusal by method and target.
fn parts_of(
    start: usize,
    text: &[u8],
    head: &RequestSpans,
    places: &[HeaderSpan],
) -> Result<Spans, Fault>
    requires { ReadsHead text.now places.now head.now }
    ensures start { IfOk result (λ s. s.start ≡ start) }
    ensures fit { IfOk result (λ s. SpansFit text.now places.now s) }
    ensures parts { (h : RequestHead) → IsRequestAt text.now places.now head.now h
        → MatchResult result (λ s. PartsAs text.now places.now s h) (λ f. head_fault h ≡ Some f) }
{
    let method = head.method.of(text);
    if method == b"CONNECT".as_slice() {
        return Err(Fault::F(4));
    }
    let Some(target) = read_target(method, head.path.of(text)) else {
        return Err(Fault::F(5));
    };
    let shift = head.path.start;
    Ok(Spans {
        start,
        method: head.method,
        path: shifted(target.path, shift),
        query: shifted(target.query, shift),
        authority: shifted_if(target.authority, shift),
        version: version_of(head.version),
        fields: head.headers,
    })
}

// The same bytes, counted from a place further in front.
fn shifted(span: Span, by: usize) -> Span
    requires order { span.start ≤ span.end }
    requires room { by + span.end < 2 ^ 64 }
    ensures { result ≡ shifted_by by span }
{
    Span {
        start: by + span.start,
        end: by + span.end,
    }
}

// The same of a span that may not be there.
fn shifted_if(span: Option<Span>, by: usize) -> Option<Span>
    requires { ForSome span (λ s. (s.start ≤ s.end) × (by + s.end < 2 ^ 64)) }
    ensures { result ≡ option_map (shifted_by by) span }
{
    match span {
        None => None,
        Some(span) => Some(shifted(span, by)),
    }
}

fn version_of(minor: u8) -> Version
    ensures { result ≡ version_of minor }
{
    if minor == 0 {
        Version::Http10
    } else {
        Version::Http11
    }
}
