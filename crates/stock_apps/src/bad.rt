// The parts of answers that break rules.
ghost use Rattle.std.specs.Prelude.{◌≡◌, IfOk, OnOk, option_map};
ghost use Rattle.stock_apps.specs.Answers as spec;

use rack_types::{Headers, NoMemory};
use std::alloc::Global;

// The status of an answer that breaks these rules.
pub(crate) fn bad_status(numbers: &[u8]) -> u32
    ensures { result ≡ spec.bad_status numbers.now }
{
    if is_listed(1, numbers) {
        return 99;
    }
    if is_listed(6, numbers) || is_listed(7, numbers) {
        return 204;
    }
    200
}

fn is_listed(n: u8, numbers: &[u8]) -> bool
    ensures { result ≡ spec.is_listed n numbers.now }
{
    numbers.iter().any(|m| *m == n)
}

// The headers of an answer that breaks these rules.
pub(crate) fn bad_headers(alloc: Global, numbers: &[u8]) -> Result<Headers, NoMemory>
    ensures { IfOk result (λ headers. headers ≡ spec.bad_headers numbers.now) }
{
    let mut headers = Headers::with_room(alloc, numbers.len())?;
    for n in numbers {
        add_bad(&mut headers, *n)?;
    }
    Ok(headers)
}

// Appends the value that a number stands for, if any.
fn add_bad(headers: &mut Headers, n: u8) -> Result<(), NoMemory>
    ensures { OnOk result (headers.new ≡ spec.and_header headers.old (spec.bad_header n)) }
{
    match bad_header(n) {
        Some((name, value)) => headers.add(name, value),
        None => Ok(()),
    }
}

// The name and the value that a number stands for.
fn bad_header(n: u8) -> Option<(&'static [u8], &'static [u8])>
    ensures { option_map (λ p. (p.0.now, p.1.now)) result ≡ spec.bad_header n }
{
    match n {
        2 => Some((b"a b", b"x")),
        3 => Some((b"status", b"x")),
        4 => Some((b"X-Upper", b"x")),
        5 => Some((b"x-five", b"a\x01")),
        6 => Some((b"content-type", b"text/plain")),
        7 => Some((b"content-length", b"2")),
        8 => Some((b"content-length", b"5x")),
        10 => Some((b"content-length", b"3")),
        _ => None,
    }
}
