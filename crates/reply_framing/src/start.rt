// The start of a framer, by what the answer is.
ghost use Rattle.std.specs.Prelude.{◌≡◌, [], false, true, IfOk, None};
ghost use Rattle.reply_framing.specs.Form.{promise, form_of};
ghost use Rattle.reply_framing.specs.Framer.{broken_after};
ghost use Rattle.reply_framing.specs.Owes.{StandsFor};
ghost use Rattle.reply_framing.specs.Pull.{sure_by};
ghost use Rattle.reply_framing.specs.PullOrder.{AskedNothing};
ghost use Rattle.reply_framing.specs.Reply.{body_reply, partial_reply, broken_reply, taken_reply};

use crate::form::{form_of, head_after, promise};
use crate::framer::Framer;
use crate::head::{Lines, write_broken_head, write_head, write_partial_head};
use crate::pull::Pull;
use crate::types::{After, Ask, Form};
use rack_types::{Body, Headers, NoMemory, Rule};
use std::alloc::Global;

// A reply with a body.
pub(crate) fn with_body<B: Body, H: Drop>(
    alloc: Global,
    ask: Ask,
    status: u32,
    headers: &Headers,
    body: B,
    last: bool,
) -> Result<Framer<B, H>, NoMemory>
    ensures stands { IfOk result (λ f. StandsFor f (body_reply ask status headers.now (B.content body) last)) }
    ensures asked { IfOk result (λ f. AskedNothing f.rest (form_of ask status headers.now (B.content body).known) (promise headers.now) (B.content body).pieces (B.content body).raises) }
    ensures sure { IfOk result (λ f. f.rest.sure ≡ sure_by (form_of ask status headers.now (B.content body).known) (B.content body).sure) }
{
    let promised = promise(headers);
    let known = body.known_length();
    let form = form_of(ask, status, promised, known);
    let after = head_after(ask, status, headers, form, last);
    let lines = Lines {
        form,
        known,
        after,
        version: ask.version,
    };
    match write_head(alloc, status, headers, &lines) {
        Ok(lead) => Ok(Framer {
            pull: Pull::new(lead, form, promised, body),
            after,
            hijacker: None,
        }),
        Err(e) => {
            body.close();
            Err(e)
        }
    }
}

// The head before a stream that a hijacker goes on with.
pub(crate) fn partial<B: Body, H: Drop>(
    alloc: Global,
    status: u32,
    headers: &Headers,
    body: B,
    hijacker: H,
) -> Result<Framer<B, H>, NoMemory>
    ensures stands { IfOk result (λ f. StandsFor f (partial_reply status headers.now hijacker)) }
    ensures asked { IfOk result (λ f. AskedNothing f.rest Form.Bare None (B.content body).pieces (B.content body).raises) }
    ensures sure { IfOk result (λ f. f.rest.sure ≡ true) }
{
    match write_partial_head(alloc, status, headers) {
        Ok(lead) => Ok(Framer {
            pull: Pull::alone(lead, None, Some(body)),
            after: After::Hijack,
            hijacker: Some(hijacker),
        }),
        Err(e) => {
            body.close();
            Err(e)
        }
    }
}

// The reply in the place of an answer that breaks this rule.
pub(crate) fn broken<B: Body, H: Drop>(
    alloc: Global,
    ask: Ask,
    rule: Rule,
    last: bool,
) -> Result<Framer<B, H>, NoMemory>
    ensures stands { IfOk result (λ f. StandsFor f (broken_reply rule ask last)) }
    ensures asked { IfOk result (λ f. AskedNothing f.rest Form.Bare None [] false) }
    ensures sure { IfOk result (λ f. f.rest.sure ≡ true) }
{
    let after = broken_after(ask, last);
    let lead = write_broken_head(alloc, rule, after, ask.version)?;
    Ok(Framer {
        pull: Pull::alone(lead, None, None),
        after,
        hijacker: None,
    })
}

// What becomes of the connection behind such a reply.
fn broken_after(ask: Ask, last: bool) -> After
    ensures { result ≡ broken_after ask.persists last }
{
    if !ask.persists || last {
        After::Close
    } else {
        After::Keep
    }
}

// No bytes, where the application took the connection.
pub(crate) fn taken<B: Body, H: Drop>(alloc: Global, hijacker: H) -> Result<Framer<B, H>, NoMemory>
    ensures stands { IfOk result (λ f. StandsFor f (taken_reply hijacker)) }
    ensures asked { IfOk result (λ f. AskedNothing f.rest Form.Bare None [] false) }
    ensures sure { IfOk result (λ f. f.rest.sure ≡ true) }
{
    let lead = Vec::with_capacity(alloc, 80)?;
    Ok(Framer {
        pull: Pull::alone(lead, None, None),
        after: After::Hijack,
        hijacker: Some(hijacker),
    })
}
