// What the fields of a head say of its host and of its body, and what they are refused for.
ghost use Rattle.std.specs.Prelude.{◌≡◌, ℕ, List, [], ◌∷◌, ◌++◌, None, Some, All, codes, length, map, MatchResult};
ghost use Rattle.rack_text.specs.Decimal.{decimal_value};
ghost use Rattle.rack_text.specs.Lists.{elements};
ghost use Rattle.httparse.specs.Spans.{IsHeaderWithin, header_bytes};
ghost use Rattle.rack_types.specs.Fields.{values_of};
ghost use Rattle.message_framing.specs.Framing.{is_host_right, coding_fault, length_fault, transfer_fault, fields_fault, framing_of};
ghost use Rattle.message_framing.specs.Found.{OccursAs, CodingsAs, CodingsFound, FoundAs, StatesAs};

use httparse::spans::HeaderSpan;
use rack_text::{elements, is_decimal, read_decimal, read_host, same_ignoring_case};
use rack_types::{Fault, Version};

// The largest body.
const BODY_LIMIT: u128 = 1_048_576;

/// How often a head has a field, with the value of one that comes once.
#[derive(Clone, Copy)]
pub(crate) enum Occurs<'a> {
    Never,
    Once(&'a [u8]),
    Again,
}

/// What is found of host and body in the fields of a head.
#[derive(Clone, Copy)]
pub(crate) struct Found<'a> {
    host: Occurs<'a>,
    length: Occurs<'a>,
    // Of all Transfer-Encoding fields, in order; none where there is no such field.
    codings: Option<Codings>,
}

/// How the body behind a head is framed.
#[derive(Clone, Copy)]
pub(crate) enum Framing {
    /// By its length in bytes, 0 where none is stated.
    Stated(usize),
    /// In chunks.
    Chunked,
}

/// How the body is framed, by what the fields at these places of a head text say of host and body, or the
/// least refusal that they earn.
pub(crate) fn body_framing(
    version: Version,
    text: &[u8],
    places: &[HeaderSpan],
) -> Result<Framing, Fault>
    requires { All (IsHeaderWithin (length text.now)) places.now }
    ensures { MatchResult result
        (λ framing. (fields_fault version (map (header_bytes text.now) places.now) ≡ None)
        × (framing ≡ framing_of (map (header_bytes text.now) places.now)))
        (λ fault. fields_fault version (map (header_bytes text.now) places.now) ≡ Some fault) }
{
    let found = find(text, places);
    if !is_host_right(version, found.host) {
        return Err(Fault::F(6));
    }
    match found.codings {
        None => stated(found.length),
        Some(codings) => match transfer_fault(version, codings, found.length) {
            None => Ok(Framing::Chunked),
            Some(fault) => Err(fault),
        },
    }
}

// What the fields at these places say of host and body.
fn find<'a>(text: &'a [u8], places: &[HeaderSpan]) -> Found<'a>
    requires { All (IsHeaderWithin (length text.now)) places.now }
    ensures { FoundAs result (map (header_bytes text.now) places.now) }
{
    let mut found = Found {
        host: Occurs::Never,
        length: Occurs::Never,
        codings: None,
    };
    for i in 0..places.len() {
        let place = places[i];
        found = found.with(place.name.of(text), place.value.of(text));
    }
    found
}

impl<'a> Found<'a> {
    // What is found with one field more.
    fn with(self, name: &[u8], value: &'a [u8]) -> Found<'a>
        ensures { (fields : List (List ℕ × List ℕ)) → FoundAs self.entry fields
            → FoundAs result (fields ++ (name.now, value.now) ∷ []) }
    {
        Found {
            host: self.host.with(b"host", name, value),
            length: self.length.with(b"content-length", name, value),
            codings: codings_with(self.codings, name, value),
        }
    }
}

impl<'a> Occurs<'a> {
    // How often a field of this name comes, with one field more.
    fn with(self, wanted: &[u8], name: &[u8], value: &'a [u8]) -> Occurs<'a>
        ensures { (fields : List (List ℕ × List ℕ)) → OccursAs self.entry (values_of wanted.now fields)
            → OccursAs result (values_of wanted.now (fields ++ (name.now, value.now) ∷ [])) }
    {
        if !same_ignoring_case(name, wanted) {
            return self;
        }
        match self {
            Occurs::Never => Occurs::Once(value),
            _ => Occurs::Again,
        }
    }
}

// One valid host; HTTP/1.0 may have none.
fn is_host_right(version: Version, host: Occurs<'_>) -> bool
    ensures { (values : List (List ℕ)) → OccursAs host.entry values → result ≡ is_host_right version values }
{
    match host {
        Occurs::Never => matches!(version, Version::Http10),
        Occurs::Once(value) => read_host(value).is_some(),
        Occurs::Again => false,
    }
}

// The framing by Content-Length, where there is no Transfer-Encoding.
fn stated(length: Occurs<'_>) -> Result<Framing, Fault>
    ensures { (values : List (List ℕ)) → OccursAs length.entry values → StatesAs result values }
{
    match length {
        Occurs::Never => Ok(Framing::Stated(0)),
        Occurs::Once(value) => match stated_by(value) {
            Ok(length) => Ok(Framing::Stated(length)),
            Err(fault) => Err(fault),
        },
        Occurs::Again => Err(Fault::F(11)),
    }
}

// The length that one Content-Length states.
fn stated_by(value: &[u8]) -> Result<usize, Fault>
    ensures { MatchResult result
        (λ length. (length_fault value.now ≡ None) × (length ≡ decimal_value value.now))
        (λ fault. length_fault value.now ≡ Some fault) }
{
    if !is_decimal(value) {
        return Err(Fault::F(11));
    }
    match read_decimal(value) {
        Some(length) if length <= BODY_LIMIT => Ok(length as usize),
        _ => Err(Fault::F(12)),
    }
}

/// What the transfer codings of a head are.
#[derive(Clone, Copy)]
pub(crate) struct Codings {
    // There is one, and there are two.
    some: bool,
    more: bool,
    // The last one is `chunked`.
    ends_chunked: bool,
}

// The refusal by Transfer-Encoding.
fn transfer_fault(version: Version, codings: Codings, length: Occurs<'_>) -> Option<Fault>
    ensures { (names lengths : List (List ℕ)) → CodingsAs codings names → OccursAs length.entry lengths
        → result ≡ transfer_fault version names lengths }
{
    match (version, length) {
        (Version::Http10, _) => Some(Fault::F(7)),
        (Version::Http11, Occurs::Never) => coding_fault(codings),
        (Version::Http11, _) => Some(Fault::F(8)),
    }
}

fn coding_fault(codings: Codings) -> Option<Fault>
    ensures { (names : List (List ℕ)) → CodingsAs codings names → result ≡ coding_fault names }
{
    if !codings.ends_chunked {
        Some(Fault::F(9))
    } else if codings.more {
        Some(Fault::F(10))
    } else {
        None
    }
}

// The codings of the Transfer-Encoding fields, with one field more.
fn codings_with(all: Option<Codings>, name: &[u8], value: &[u8]) -> Option<Codings>
    ensures { (fields : List (List ℕ × List ℕ)) → CodingsFound all (values_of (codes "transfer-encoding") fields)
        → CodingsFound result (values_of (codes "transfer-encoding") (fields ++ (name.now, value.now) ∷ [])) }
{
    if !same_ignoring_case(name, b"transfer-encoding") {
        return all;
    }
    let before = all.unwrap_or(Codings {
        some: false,
        more: false,
        ends_chunked: false,
    });
    Some(before.with(value))
}

impl Codings {
    // The codings, and behind them those of one value more.
    fn with(self, value: &[u8]) -> Codings
        ensures { (names : List (List ℕ)) → CodingsAs self names → CodingsAs result (names ++ elements value.now) }
    {
        let mut codings = self;
        for coding in elements(value) {
            codings = Codings {
                some: true,
                more: codings.some,
                ends_chunked: same_ignoring_case(coding, b"chunked"),
            };
        }
        codings
    }
}
