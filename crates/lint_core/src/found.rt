// What the headers of an answer are, by one walk through them.
ghost use Rattle.std.specs.Prelude.{◌≡◌, ◌<◌, length, Some, bytes_eq};
ghost use Rattle.std.specs.List.{list_any};
ghost use Rattle.rack_types.specs.AnswerRules.{is_control, is_upper};
ghost use Rattle.rack_types.specs.Headers.{values_at};
ghost use Rattle.lint_core.specs.Found.{found_in, with_header, stated_by};

use rack_text::{is_token, read_decimal};
use rack_types::Headers;

// What `content-length` states.
#[derive(Clone, Copy, Debug)]
pub(crate) enum Stated {
    // It is not there.
    Absent,
    // It has not exactly one value that is a number below 2^64.
    Bad,
    // This number.
    Is(u64),
}

// What was found in some headers.
#[derive(Clone, Copy, Debug)]
pub(crate) struct Found {
    // A name that is no token, the name `status`, a name with A to Z, a value with a control byte.
    pub(crate) no_token: bool,
    pub(crate) status: bool,
    pub(crate) upper: bool,
    pub(crate) control: bool,
    // The name `content-type`, and what `content-length` states.
    pub(crate) kind: bool,
    pub(crate) length: Stated,
}

// What is found in the headers. They are gone through from the last to the first.
pub(crate) fn look_through(headers: &Headers) -> Found
    ensures { result ≡ found_in headers.now }
{
    let mut found = Found {
        no_token: false,
        status: false,
        upper: false,
        control: false,
        kind: false,
        length: Stated::Absent,
    };
    let mut i = headers.len();
    'headers: while 0 < i {
        i -= 1;
        found = look_at(headers.name(i), headers, i, found);
    }
    found
}

// What is found in the header at this place, which has this name, and those behind it, by what is found in
// those. Of a name that is known here nothing else is to be looked at.
fn look_at(name: &[u8], headers: &Headers, i: usize, behind: Found) -> Found
    requires { i < length headers.now }
    ensures { result ≡ with_header name.now (values_at i headers.now) behind }
{
    let mut found = behind;
    found.control = has_control(headers, i) | behind.control;
    if is_word(b"content-type", name) {
        found.kind = true;
        return found;
    }
    if is_word(b"content-length", name) {
        found.length = statement(headers, i);
        return found;
    }
    found.no_token = !is_token(name) | behind.no_token;
    found.status = is_word(name, b"status") | behind.status;
    found.upper = has_upper(name) | behind.upper;
    found
}

fn is_word(word: &[u8], name: &[u8]) -> bool
    ensures { result ≡ bytes_eq word.now name.now }
{
    word == name
}

// Whether the text holds A to Z.
fn has_upper(text: &[u8]) -> bool
    ensures { result ≡ list_any is_upper text.now }
{
    text.iter().any(|byte| b'A' <= *byte && *byte <= b'Z')
}

// Whether one of the values at this place holds a control byte.
fn has_control(headers: &Headers, i: usize) -> bool
    requires { i < length headers.now }
    ensures { result ≡ list_any (list_any is_control) (values_at i headers.now) }
{
    let mut j = headers.value_count(i);
    let mut found = false;
    'values: while 0 < j {
        j -= 1;
        found = is_control_in(headers.value(i, j)) || found;
    }
    found
}

fn is_control_in(text: &[u8]) -> bool
    ensures { result ≡ list_any is_control text.now }
{
    text.iter().any(|byte| *byte < 32 || *byte == 127)
}

// What the values at this place state of the length.
fn statement(headers: &Headers, i: usize) -> Stated
    requires { i < length headers.now }
    ensures { result ≡ stated_by (Some (values_at i headers.now)) }
{
    if headers.value_count(i) != 1 {
        return Stated::Bad;
    }
    match read_decimal(headers.value(i, 0)) {
        Some(n) if n <= u64::MAX as u128 => Stated::Is(n as u64),
        _ => Stated::Bad,
    }
}
