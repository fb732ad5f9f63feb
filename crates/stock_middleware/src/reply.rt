// What the middleware do to the headers and to the body of a reply.
ghost use Rattle.std.specs.Prelude.{◌≡◌, IfOk, OnOk, IsOk};
ghost use Rattle.rack_types.specs.declared.answer.Answer.TheVariants.{Reply};
ghost use Rattle.rack_types.specs.Answer.{told};
ghost use Rattle.rack_types.specs.AnswerRules.{is_bare};
ghost use Rattle.rack_types.specs.RuleWords.{has_value};
ghost use Rattle.stock_middleware.specs.WareBody.{ware_content};
ghost use Rattle.stock_middleware.specs.Wares.{after, body_for, has_header, with_length, with_type};

use crate::body::WareBody;
use crate::ware::Ware;
use itoa::Buffer;
use rack_types::{Answer, Body, Bytes, Env, Headers, NoMemory};
use std::alloc::Global;

// An answer to HEAD gets an empty body.
pub(crate) fn empty_for_head<B: Body, H: Drop>(
    alloc: Global,
    env: &Env,
    answer: Answer<WareBody<B>, H>,
) -> Answer<WareBody<B>, H>
    ensures { told (ware_content B.content) result ≡ after Ware.Head env.now.pairs (told (ware_content B.content) answer) }
{
    match answer {
        Answer::Reply {
            status,
            headers,
            body,
            part,
        } => {
            let body = body_for(alloc, env, body);
            Answer::Reply {
                status,
                headers,
                body,
                part,
            }
        }
        Answer::Raised(text) => Answer::Raised(text),
        Answer::Taken(hijacker) => Answer::Taken(hijacker),
    }
}

// The body, or an empty one where the method is HEAD.
fn body_for<B: Body>(alloc: Global, env: &Env, body: WareBody<B>) -> WareBody<B>
    ensures { ware_content B.content result ≡ body_for env.now.pairs (ware_content B.content body) }
{
    if !has(env, b"REQUEST_METHOD", b"HEAD") {
        return body;
    }
    body.close();
    WareBody::empty(alloc)
}

// The length is added where it is known.
pub(crate) fn add_length<B: Body, H: Drop>(
    alloc: Global,
    env: &Env,
    answer: Answer<WareBody<B>, H>,
) -> Result<Answer<WareBody<B>, H>, NoMemory>
    ensures { IfOk result (λ a. told (ware_content B.content) a ≡ after Ware.ContentLength env.now.pairs (told (ware_content B.content) answer)) }
{
    match answer {
        Answer::Reply {
            status,
            mut headers,
            body,
            part,
        } => {
            let known = body.known_length();
            let put = put_length(alloc, status, known, &mut headers);
            rebuilt(put, status, headers, body, part)
        }
        Answer::Raised(text) => Ok(Answer::Raised(text)),
        Answer::Taken(hijacker) => Ok(Answer::Taken(hijacker)),
    }
}

// A type is added where there is none.
pub(crate) fn add_type<B: Body, H: Drop>(
    kind: &Bytes,
    env: &Env,
    answer: Answer<WareBody<B>, H>,
) -> Result<Answer<WareBody<B>, H>, NoMemory>
    ensures { IfOk result (λ a. told (ware_content B.content) a ≡ after (Ware.ContentType kind.now) env.now.pairs (told (ware_content B.content) answer)) }
{
    match answer {
        Answer::Reply {
            status,
            mut headers,
            body,
            part,
        } => {
            let put = put_type(kind.get(), status, &mut headers);
            rebuilt(put, status, headers, body, part)
        }
        Answer::Raised(text) => Ok(Answer::Raised(text)),
        Answer::Taken(hijacker) => Ok(Answer::Taken(hijacker)),
    }
}

// A header gets this value.
pub(crate) fn set_header<B: Body, H: Drop>(
    name: &Bytes,
    value: &Bytes,
    env: &Env,
    answer: Answer<WareBody<B>, H>,
) -> Result<Answer<WareBody<B>, H>, NoMemory>
    ensures { IfOk result (λ a. told (ware_content B.content) a ≡ after (Ware.SetHeader name.now value.now) env.now.pairs (told (ware_content B.content) answer)) }
{
    match answer {
        Answer::Reply {
            status,
            mut headers,
            body,
            part,
        } => {
            let put = headers.set(name.get(), value.get());
            rebuilt(put, status, headers, body, part)
        }
        Answer::Raised(text) => Ok(Answer::Raised(text)),
        Answer::Taken(hijacker) => Ok(Answer::Taken(hijacker)),
    }
}

// The reply with headers that were changed. Where memory was refused for that, the body is closed.
fn rebuilt<B: Body, H: Drop>(
    put: Result<(), NoMemory>,
    status: u32,
    headers: Headers,
    body: WareBody<B>,
    part: Option<H>,
) -> Result<Answer<WareBody<B>, H>, NoMemory>
    ensures rebuilt { IfOk result (λ a. told (ware_content B.content) a ≡ Reply status headers (ware_content B.content body) part) }
    ensures put { OnOk result (IsOk put) }
{
    match put {
        Ok(()) => Ok(Answer::Reply {
            status,
            headers,
            body,
            part,
        }),
        Err(refused) => {
            body.close();
            Err(refused)
        }
    }
}

fn put_length(
    alloc: Global,
    status: u32,
    known: Option<u64>,
    headers: &mut Headers,
) -> Result<(), NoMemory>
    ensures { OnOk result (headers.new ≡ with_length status known headers.old) }
{
    let Some(n) = known else {
        return Ok(());
    };
    if is_bare(status)
        || has_header(headers, b"content-length")
        || has_header(headers, b"transfer-encoding")
    {
        return Ok(());
    }
    let digits = Vec::from_slice(alloc, Buffer::new().format(n).as_bytes())?;
    headers.set_value(b"content-length", Bytes::new(digits))
}

fn put_type(kind: &[u8], status: u32, headers: &mut Headers) -> Result<(), NoMemory>
    ensures { OnOk result (headers.new ≡ with_type kind.now status headers.old) }
{
    if is_bare(status) || has_header(headers, b"content-type") {
        return Ok(());
    }
    headers.set(b"content-type", kind)
}

fn has_header(headers: &Headers, name: &[u8]) -> bool
    ensures { result ≡ has_header name.now headers.now }
{
    headers.get(name).is_some()
}

// A status whose reply has no body.
fn is_bare(status: u32) -> bool
    ensures { result ≡ is_bare status }
{
    (100..=199).contains(&status) || status == 204 || status == 304
}

// Whether the name has this value.
pub(crate) fn has(env: &Env, name: &[u8], value: &[u8]) -> bool
    ensures { result ≡ has_value name.now value.now env.now.pairs }
{
    match env.get(name) {
        Some(found) => found == value,
        None => false,
    }
}
