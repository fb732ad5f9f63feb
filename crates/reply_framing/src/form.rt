// How a reply tells the length of its body, and what becomes of the connection.
ghost use Rattle.std.specs.Prelude.{◌≡◌, ◌<◌, length, Some};
ghost use Rattle.reply_framing.specs.Form.{promise, form_of, have_close, wants_close, head_after, connection_line};
ghost use Rattle.rack_types.specs.AnswerRules.{is_bare, one_length};
ghost use Rattle.rack_types.specs.Headers.{HeaderList, values_at};

use crate::types::{After, Ask, Form};
use rack_text::{list_has, read_decimal};
use rack_types::{Headers, Version};

// The length that the application's `content-length` promises. None exactly where it has not one
// value that is a number below 2^64.
pub(crate) fn promise(headers: &Headers) -> Option<u64>
    ensures { result ≡ promise headers.now }
{
    match headers.get(b"content-length") {
        Some(place) => one_length(headers, place),
        None => None,
    }
}

// The one number of the header at this place.
fn one_length(headers: &Headers, i: usize) -> Option<u64>
    requires { i < length headers.now }
    ensures { result ≡ one_length (values_at i headers.now) }
{
    if headers.value_count(i) != 1 {
        return None;
    }
    match read_decimal(headers.value(i, 0)) {
        Some(n) if n <= u64::MAX as u128 => Some(n as u64),
        _ => None,
    }
}

// A status whose reply has no body: 100 to 199, 204 and 304.
fn is_bare(status: u32) -> bool
    ensures { result ≡ is_bare status }
{
    (100..=199).contains(&status) || status == 204 || status == 304
}

// The first form that fits.
pub(crate) fn form_of(ask: Ask, status: u32, promised: Option<u64>, known: Option<u64>) -> Form
    ensures { (headers : HeaderList) → promised ≡ promise headers → result ≡ form_of ask status headers known }
{
    if ask.head || is_bare(status) {
        return Form::Bare;
    }
    match (promised, known, ask.version) {
        (Some(_), _, _) => Form::Stated,
        (None, Some(_), _) => Form::Known,
        (None, None, Version::Http11) => Form::Chunked,
        (None, None, Version::Http10) => Form::Closing,
    }
}

// A value of the application's `connection` has `close`.
fn wants_close(headers: &Headers) -> bool
    ensures { result ≡ wants_close headers.now }
{
    match headers.get(b"connection") {
        Some(place) => have_close(headers, place),
        None => false,
    }
}

// The same of the values at this place.
fn have_close(headers: &Headers, i: usize) -> bool
    requires { i < length headers.now }
    ensures { result ≡ have_close (Some (values_at i headers.now)) }
{
    for j in 0..headers.value_count(i) {
        if list_has(headers.value(i, j), b"close") {
            return true;
        }
    }
    false
}

// What the head says of the connection.
pub(crate) fn head_after(ask: Ask, status: u32, headers: &Headers, form: Form, last: bool) -> After
    ensures { result ≡ head_after ask status headers.now form last }
{
    if !ask.persists || last || status < 200 || form == Form::Closing || wants_close(headers) {
        After::Close
    } else {
        After::Keep
    }
}

// The line that says so.
pub(crate) fn connection_line(after: After, version: Version) -> &'static [u8]
    ensures { result.now ≡ connection_line after version }
{
    match (after, version) {
        (After::Close, _) => b"connection: close\r\n",
        (After::Keep, Version::Http10) => b"connection: keep-alive\r\n",
        _ => b"",
    }
}
