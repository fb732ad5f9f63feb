// The replies of a stack's own, and what becomes of those of its endpoints.
ghost use Rattle.std.specs.Prelude.{◌≡◌, ◌++◌, IfOk, OnOk, codes};
ghost use Rattle.rack_types.specs.Answer.{told, IsAsGiven};
ghost use Rattle.stock_middleware.specs.WareBody.{ware_content};
ghost use Rattle.builder_core.specs.Meaning.{is_passed, not_found, nothing};

use crate::places::path_of;
use rack_types::{Answer, Body, Bytes, Endpoint, Env, Headers, Kind, NoMemory, Plain};
use std::alloc::Global;
use stock_middleware::WareBody;

// The answer of an endpoint, which has the body of one that comes through a middleware.
pub(crate) fn call_app<E: Endpoint>(
    app: &E,
    env: &mut Env,
) -> Result<Answer<WareBody<E::Body>, E::Take>, NoMemory>
    ensures answers { IfOk result (λ a. told (ware_content E.Body.content) a ≡ E.answer app.now env.old.pairs env.old.input.bytes) }
    ensures same { OnOk result (IsAsGiven env.old env.new) }
{
    match app.call(env) {
        Ok(
            Answer::Reply {
                status,
                headers,
                body,
                part,
            },
        ) => Ok(Answer::Reply {
            status,
            headers,
            body: WareBody::App(body),
            part,
        }),
        Ok(Answer::Raised(text)) => Ok(Answer::Raised(text)),
        Ok(Answer::Taken(hijacker)) => Ok(Answer::Taken(hijacker)),
        Err(refused) => Err(refused),
    }
}

// Whether a cascade passes the answer over.
pub(crate) fn is_passed<B: Body, H: Drop>(answer: &Answer<WareBody<B>, H>) -> bool
    ensures { result ≡ is_passed (told (ware_content B.content) answer.now) }
{
    match answer {
        Answer::Reply { status, .. } => *status == 404 || *status == 405,
        Answer::Raised(_) | Answer::Taken(_) => false,
    }
}

// Closes the body of an answer that is passed over.
pub(crate) fn close<B: Body, H: Drop>(answer: Answer<WareBody<B>, H>) {
    match answer {
        Answer::Reply {
            status: _status,
            headers: _headers,
            body,
            part: _part,
        } => body.close(),
        Answer::Raised(_) => {}
        Answer::Taken(_) => {}
    }
}

// The answer of a cascade without applications. This takes no memory.
pub(crate) fn say_nothing<B: Body, H: Drop>(alloc: Global) -> Answer<WareBody<B>, H>
    ensures { told (ware_content B.content) result ≡ nothing }
{
    Answer::Reply {
        status: 404,
        headers: Headers::new(alloc),
        body: WareBody::Own(Plain::new(Vec::new(alloc), false, true, Kind::Enumerable)),
        part: None,
    }
}

// The answer where no place fits.
pub(crate) fn say_not_found<B: Body, H: Drop>(
    alloc: Global,
    env: &Env,
) -> Result<Answer<WareBody<B>, H>, NoMemory>
    ensures { IfOk result (λ a. told (ware_content B.content) a ≡ not_found env.now.pairs) }
{
    let mut headers = Headers::with_room(alloc, 2)?;
    headers.set_static(b"content-type", b"text/plain")?;
    headers.set_static(b"x-cascade", b"pass")?;
    let mut pieces = Vec::with_capacity(alloc, 1)?;
    pieces.push(not_found_text(alloc, path_of(env))?)?;
    Ok(Answer::Reply {
        status: 404,
        headers,
        body: WareBody::Own(Plain::new(pieces, false, true, Kind::Enumerable)),
        part: None,
    })
}

// Its text.
fn not_found_text(alloc: Global, path: &[u8]) -> Result<Bytes, NoMemory>
    ensures { IfOk result (λ text. text ≡ codes "Not Found: " ++ path.now) }
{
    let mut text = Vec::with_capacity(alloc, path.len().saturating_add(11))?;
    text.extend_from_slice(b"Not Found: ")?;
    text.extend_from_slice(path)?;
    Ok(Bytes::new(text))
}
