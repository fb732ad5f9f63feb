// The target of a request, parted.
ghost use Rattle.std.specs.Prelude.{◌≡◌, ◌≤◌, ◌<◌, ◌+◌, IfSome, None, Some, length, drop, bytes_eq, codes};
ghost use Rattle.std.specs.List.{list_all, position_or_len};
ghost use Rattle.rack_text.specs.Host.{is_valid_host};
ghost use Rattle.httparse.specs.Spans.{IsWithin};
ghost use Rattle.rack_types.specs.Request.{IsWithinIf, span_bytes_if};
ghost use Rattle.rack_types.specs.Rules.{begins_with_slash};
ghost use Rattle.message_framing.specs.Places.{PartsTarget, SpansTarget};
ghost use Rattle.message_framing.specs.Target.{is_question, is_target_byte, ends_authority, scheme_len, target_of, from_path, absolute};

use crate::scan::{prefix, suffix};
use httparse::spans::Span;
use memchr::{memchr, memchr2};
use rack_text::{read_host, same_ignoring_case};

/// Where the parts of a target are, counted from its first byte.
#[derive(Clone, Copy, Debug)]
pub(crate) struct TargetSpans {
    pub(crate) authority: Option<Span>,
    pub(crate) path: Span,
    pub(crate) query: Span,
}

/// The parts of a target that has one of the three forms.
pub(crate) fn read_target(method: &[u8], target: &[u8]) -> Option<TargetSpans>
    ensures { PartsTarget result target.now (target_of method.now target.now) }
{
    if !are_target_bytes(target) {
        return None;
    }
    if begins_with_slash(target) {
        return Some(with_path(None, target, 0));
    }
    let scheme = scheme_len(target);
    if scheme > 0 {
        return absolute(target, scheme);
    }
    if target == b"*".as_slice() && method == b"OPTIONS".as_slice() {
        return Some(with_path(None, target, 0));
    }
    None
}

// Each byte may stand in a target: visible ASCII, and no `#`.
fn are_target_bytes(target: &[u8]) -> bool
    ensures { result ≡ list_all is_target_byte target.now }
{
    target.iter().all(|b| 33 <= *b && *b <= 126 && *b != b'#')
}

fn begins_with_slash(target: &[u8]) -> bool
    ensures { result ≡ begins_with_slash target.now }
{
    match target {
        [b'/', ..] => true,
        _ => false,
    }
}

// The bytes of the scheme at the front, 0 where none stands there.
fn scheme_len(target: &[u8]) -> usize
    ensures value { result ≡ scheme_len target.now }
    ensures within { result ≤ length target.now }
{
    if target.len() >= 7 && same_ignoring_case(&target[..7], b"http://") {
        7
    } else if target.len() >= 8 && same_ignoring_case(&target[..8], b"https://") {
        8
    } else {
        0
    }
}

// The spans of a path that begins at `from`, and of the query behind it.
fn with_path(authority: Option<Span>, target: &[u8], from: usize) -> TargetSpans
    requires from { from ≤ length target.now }
    requires authority { IsWithinIf (length target.now) authority }
    ensures { SpansTarget result target.now (from_path (span_bytes_if target.now authority) (drop from target.now)) }
{
    let rest = suffix(target, from);
    let end = from + position_of_question(rest);
    TargetSpans {
        authority,
        path: Span { start: from, end },
        query: Span {
            start: target.len().min(end + 1),
            end: target.len(),
        },
    }
}

// The parts of an absolute target, whose scheme has so many bytes.
fn absolute(target: &[u8], scheme: usize) -> Option<TargetSpans>
    requires { scheme ≤ length target.now }
    ensures { PartsTarget result target.now (absolute (drop scheme target.now)) }
{
    let rest = suffix(target, scheme);
    let length = authority_len(rest);
    if length == 0 || !is_valid_host(prefix(rest, length)) {
        return None;
    }
    let authority = Span {
        start: scheme,
        end: scheme + length,
    };
    Some(with_path(Some(authority), target, scheme + length))
}

// The bytes before the first `?`, or all where there is none.
fn position_of_question(rest: &[u8]) -> usize
    ensures value { result ≡ position_or_len is_question rest.now }
    ensures within { result ≤ length rest.now }
{
    match memchr(b'?', rest) {
        Some(place) => place,
        None => rest.len(),
    }
}

// The bytes of the authority at the front: before the first `/` or `?`, or all where there is none.
fn authority_len(rest: &[u8]) -> usize
    ensures value { result ≡ position_or_len ends_authority rest.now }
    ensures within { result ≤ length rest.now }
{
    match memchr2(b'/', b'?', rest) {
        Some(place) => place,
        None => rest.len(),
    }
}

fn is_valid_host(text: &[u8]) -> bool
    ensures { result ≡ is_valid_host text.now }
{
    read_host(text).is_some()
}
