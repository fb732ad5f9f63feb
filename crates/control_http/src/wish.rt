// What a request asks for.
ghost use Rattle.std.specs.Prelude.{◌≡◌, IfOk, codes, option_copied};
ghost use Rattle.rack_types.specs.Env.{get_pair};
ghost use Rattle.rack_types.specs.RuleWords.{has_value, value_or_empty};
ghost use Rattle.control_http.specs.Wish.{is_allowed, path_wish, wish_of};

use crate::token::is_allowed;
use rack_types::{Env, NoMemory};
use std::alloc::Global;

// What a request asks for, or why it gets nothing.
#[derive(Clone, Copy, Debug, PartialEq, Eq)]
pub(crate) enum Wish {
    // It has no token, or another one.
    Forbidden,
    // Nothing is at its path.
    NotFound,
    // Its method isn't GET.
    OtherMethod,
    // The statistics.
    Stats,
    // That the server stop.
    Stop,
    // That it halt.
    Halt,
    // That it replace its application, slot by slot.
    PhasedRestart,
}

// What a request asks for.
pub(crate) fn wish_of(alloc: Global, token: &[u8], env: &Env) -> Result<Wish, NoMemory>
    ensures { IfOk result (λ w. w ≡ wish_of token.now env.now.pairs) }
{
    if !is_allowed(alloc, token, value_or_empty(env, b"QUERY_STRING"))? {
        return Ok(Wish::Forbidden);
    }
    Ok(match path_wish(value_or_empty(env, b"PATH_INFO")) {
        None => Wish::NotFound,
        Some(wish) => if is_get(env) { wish } else { Wish::OtherMethod },
    })
}

// What is at a path.
fn path_wish(path: &[u8]) -> Option<Wish>
    ensures { result ≡ path_wish path.now }
{
    if path == b"/stats".as_slice() {
        Some(Wish::Stats)
    } else if path == b"/stop".as_slice() {
        Some(Wish::Stop)
    } else if path == b"/halt".as_slice() {
        Some(Wish::Halt)
    } else if path == b"/phased-restart".as_slice() {
        Some(Wish::PhasedRestart)
    } else {
        None
    }
}

// Whether the method is GET.
fn is_get(env: &Env) -> bool
    ensures { result ≡ has_value (codes "REQUEST_METHOD") (codes "GET") env.now.pairs }
{
    match env.get(b"REQUEST_METHOD") {
        Some(method) => method == b"GET".as_slice(),
        None => false,
    }
}

// The value of a name, empty where it isn't there.
fn value_or_empty<'a>(env: &'a Env, name: &[u8]) -> &'a [u8]
    ensures { result.now ≡ value_or_empty name.now env.now.pairs }
{
    match env.get(name) {
        Some(value) => value,
        None => &[],
    }
}
