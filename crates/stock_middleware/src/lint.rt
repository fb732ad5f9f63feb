// What Lint answers in the place of the application.
ghost use Rattle.std.specs.Prelude.{◌≡◌, ◌++◌, IfOk, IsSome, OnErr, decimal, option_map};
ghost use Rattle.rack_types.specs.Answer.{told};
ghost use Rattle.rack_types.specs.EnvRules.{broken_env_rule};
ghost use Rattle.stock_middleware.specs.Lint.{env_refusal, linted, names_rule, naming};
ghost use Rattle.stock_middleware.specs.WareBody.{ware_content};

use crate::body::WareBody;
use itoa::Buffer;
use lint_core::{Set, check_env, check_head, check_taken};
use rack_types::{Answer, Body, Bytes, Env, Headers, NoMemory};
use std::alloc::Global;

// The answer that names the rule which the environment breaks, if it breaks one.
pub(crate) fn refuse<B: Body, H: Drop>(
    alloc: Global,
    env: &Env,
) -> Result<Option<Answer<WareBody<B>, H>>, NoMemory>
    ensures refusal { IfOk result (λ o. option_map (told (ware_content B.content)) o ≡ env_refusal env.now.pairs) }
    ensures memory { OnErr result (IsSome (broken_env_rule env.now.pairs)) }
{
    match check_env(env) {
        Some(rule) => match name_rule(alloc, b"E", rule.0) {
            Ok(answer) => Ok(Some(answer)),
            Err(refused) => Err(refused),
        },
        None => Ok(None),
    }
}

// The answer, or the one that names the rule which it breaks.
pub(crate) fn lint<B: Body, H: Drop>(
    alloc: Global,
    env: &Env,
    answer: Answer<WareBody<B>, H>,
) -> Result<Answer<WareBody<B>, H>, NoMemory>
    ensures { IfOk result (λ a. told (ware_content B.content) a ≡ linted env.now.pairs (told (ware_content B.content) answer)) }
{
    match answer {
        Answer::Reply {
            status,
            headers,
            body,
            part,
        } => {
            let known = body.known_length();
            match check_head(Set::Full, env, status, &headers, known, part.is_some()) {
                Some(rule) => {
                    body.close();
                    name_rule(alloc, b"L", rule.0)
                }
                None => Ok(Answer::Reply {
                    status,
                    headers,
                    body,
                    part,
                }),
            }
        }
        Answer::Raised(text) => Ok(Answer::Raised(text)),
        Answer::Taken(hijacker) => match check_taken(env) {
            Some(rule) => name_rule(alloc, b"L", rule.0),
            None => Ok(Answer::Taken(hijacker)),
        },
    }
}

// The answer that names the rule with this letter and this number.
fn name_rule<B: Body, H: Drop>(
    alloc: Global,
    letter: &[u8],
    number: u8,
) -> Result<Answer<WareBody<B>, H>, NoMemory>
    ensures { IfOk result (λ a. told (ware_content B.content) a ≡ names_rule (letter.now ++ decimal number)) }
{
    Ok(Answer::Reply {
        status: 500,
        headers: naming(alloc, letter, number)?,
        body: WareBody::empty(alloc),
        part: None,
    })
}

// The headers that name it.
fn naming(alloc: Global, letter: &[u8], number: u8) -> Result<Headers, NoMemory>
    ensures { IfOk result (λ h. h ≡ naming (letter.now ++ decimal number)) }
{
    let mut name = Vec::with_capacity(alloc, 4)?;
    name.extend_from_slice(letter)?;
    name.extend_from_slice(Buffer::new().format(number).as_bytes())?;
    let mut headers = Headers::with_room(alloc, 2)?;
    headers.set_value(b"x-lint", Bytes::new(name))?;
    headers.set_static(b"content-length", b"0")?;
    Ok(headers)
}
