// The headers of answers.
ghost use Rattle.std.specs.Prelude.{◌≡◌, ◌∷◌, IfOk, codes, decimal};
ghost use Rattle.stock_apps.specs.Answers as spec;
ghost use Rattle.stock_apps.specs.Contents.{header, plain_type};

use crate::bodies::copy;
use rack_text::write_decimal;
use rack_types::{Bytes, Headers, NoMemory};
use std::alloc::Global;

// `content-type` with this kind.
pub(crate) fn typed(alloc: Global, kind: &[u8]) -> Result<Headers, NoMemory>
    ensures { IfOk result (λ headers. headers ≡ header (codes "content-type") kind.now) }
{
    let mut headers = Headers::with_room(alloc, 1)?;
    headers.set_value(b"content-type", copy(alloc, kind)?)?;
    Ok(headers)
}

// `content-type: text/plain`, of static texts.
pub(crate) fn plain_type(alloc: Global) -> Result<Headers, NoMemory>
    ensures { IfOk result (λ headers. headers ≡ plain_type) }
{
    let mut headers = Headers::with_room(alloc, 1)?;
    headers.set_static(b"content-type", b"text/plain")?;
    Ok(headers)
}

// `content-length` with this number.
pub(crate) fn sized(alloc: Global, length: u64) -> Result<Headers, NoMemory>
    ensures { IfOk result (λ headers. headers ≡ header (codes "content-length") (decimal length)) }
{
    let mut number = Vec::with_capacity(alloc, 20)?;
    write_decimal(u128::from(length), &mut number)?;
    let mut headers = Headers::with_room(alloc, 1)?;
    headers.set_value(b"content-length", Bytes::new(number))?;
    Ok(headers)
}

// `set-cookie` with these values.
pub(crate) fn cookie_headers(alloc: Global, values: &[Bytes]) -> Result<Headers, NoMemory>
    ensures { IfOk result (λ headers. headers ≡ spec.cookie_headers values.now) }
{
    match values {
        [] => Ok(Headers::new(alloc)),
        [first, more @ ..] => cookies(alloc, first.get(), more),
    }
}

// `set-cookie` with a first value and those behind it.
fn cookies(alloc: Global, first: &[u8], more: &[Bytes]) -> Result<Headers, NoMemory>
    ensures { IfOk result (λ headers. headers ≡ spec.cookie_headers (first.now ∷ more.now)) }
{
    let mut headers = Headers::with_room(alloc, 1)?;
    headers.set_value(b"set-cookie", copy(alloc, first)?)?;
    for value in more {
        headers.add(b"set-cookie", value.get())?;
    }
    Ok(headers)
}
