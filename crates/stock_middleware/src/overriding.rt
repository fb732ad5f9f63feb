// The method that a POST asks for in its own place.
ghost use Rattle.std.specs.Prelude.{◌≡◌, IfOk, IsTrue, OnOk, OnErr, codes, find, map, option_and_then, reverse};
ghost use Rattle.std.specs.List.{before_first};
ghost use Rattle.std.specs.Option.{option_copied};
ghost use Rattle.httparse.specs.Grammar.{skip_ows, trim_ows};
ghost use Rattle.rack_text.specs.Case.{same_ignoring_case};
ghost use Rattle.rack_types.specs.Env.{HasName, get_pair, with_pairs};
ghost use Rattle.stock_middleware.specs.Override as spec;
ghost use Rattle.stock_middleware.specs.Override.{are_upper, named_by, overridden, with_method};
ghost use Rattle.stock_middleware.specs.Undo.{undone, CanUndo};

use crate::form::asked_in_form;
use crate::reply::has;
use crate::undo::{Undo, set_saved};
use rack_text::same_ignoring_case;
use rack_types::{Bytes, Env, NoMemory};
use std::alloc::Global;

// The methods that may be asked for.
const VERBS: [&[u8]; 9] = [
    b"GET", b"HEAD", b"PUT", b"POST", b"DELETE", b"OPTIONS", b"PATCH", b"LINK", b"UNLINK",
];

// Gives a request the method that it asks for, and answers how that is undone.
pub(crate) fn change_method(alloc: Global, env: &mut Env) -> Result<Undo, NoMemory>
    ensures changed { OnOk result (env.new ≡ with_pairs env.old (overridden env.old.pairs env.old.input.bytes)) }
    ensures can { IfOk result (λ u. CanUndo u env.new.pairs) }
    ensures back { IfOk result (λ u. undone u env.new.pairs ≡ env.old.pairs) }
    ensures unchanged { OnErr result (env.new ≡ env.old) }
{
    match new_method(alloc, env)? {
        None => Ok(Undo::Nothing),
        Some(verb) => put_method(alloc, env, verb),
    }
}

// Puts a method in the place of POST.
fn put_method(alloc: Global, env: &mut Env, verb: &[u8]) -> Result<Undo, NoMemory>
    requires { HasName (codes "REQUEST_METHOD") env.old.pairs }
    ensures changed { OnOk result (env.new ≡ with_pairs env.old (with_method verb.now env.old.pairs)) }
    ensures can { IfOk result (λ u. CanUndo u env.new.pairs) }
    ensures back { IfOk result (λ u. undone u env.new.pairs ≡ env.old.pairs) }
    ensures unchanged { OnErr result (env.new ≡ env.old) }
{
    let mut method = Bytes::new(Vec::from_slice(alloc, verb)?);
    let original = set_saved(alloc, env, b"rack.methodoverride.original_method", b"POST")?;
    env.replace(b"REQUEST_METHOD", &mut method);
    Ok(Undo::Method(method, original))
}

// The method that a request gets in the place of POST. Nothing changes.
fn new_method(alloc: Global, env: &mut Env) -> Result<Option<&'static [u8]>, NoMemory>
    ensures value { IfOk result (λ o. option_copied o ≡ spec.new_method env.old.pairs env.old.input.bytes) }
    ensures unchanged { env.new ≡ env.old }
{
    if !has(env, b"REQUEST_METHOD", b"POST") {
        return Ok(None);
    }
    match asked_in_body(alloc, env)? {
        Some(text) => Ok(verb_of(text.get())),
        None => Ok(asked_in_header(env)),
    }
}

// What the body asks for. Nothing changes.
fn asked_in_body(alloc: Global, env: &mut Env) -> Result<Option<Bytes>, NoMemory>
    ensures value { IfOk result (λ o. o ≡ spec.asked_in_body env.old.pairs env.old.input.bytes) }
    ensures unchanged { env.new ≡ env.old }
{
    if !is_form(env) {
        return Ok(None);
    }
    asked_in_form(alloc, env.input().all())
}

// The method that the header asks for.
fn asked_in_header(env: &Env) -> Option<&'static [u8]>
    ensures { option_copied result ≡ option_and_then spec.verb_of (get_pair (codes "HTTP_X_HTTP_METHOD_OVERRIDE") env.now.pairs) }
{
    match env.get(b"HTTP_X_HTTP_METHOD_OVERRIDE") {
        Some(text) => verb_of(text),
        None => None,
    }
}

// The method that a text names.
fn verb_of(text: &[u8]) -> Option<&'static [u8]>
    ensures { option_copied result ≡ spec.verb_of text.now }
{
    first_named(text, &VERBS)
}

// The one of these, which are in upper case, that the text is but for the case of its letters.
fn first_named(text: &[u8], verbs: &[&'static [u8]]) -> Option<&'static [u8]>
    requires { IsTrue (are_upper verbs.now) }
    ensures { option_copied result ≡ named_by text.now (map (λ v. v.now) verbs.now) }
{
    let found = first_same(text, verbs);
    found
}

// The same, of any words.
fn first_same(text: &[u8], words: &[&'static [u8]]) -> Option<&'static [u8]>
    ensures { result ≡ find (λ w. same_ignoring_case text.now w.now) words.now }
{
    words
        .iter()
        .copied()
        .find(|word| same_ignoring_case(text, word))
}

// Whether the body is an encoded form.
fn is_form(env: &Env) -> bool
    ensures { result ≡ spec.is_form env.now.pairs }
{
    match env.get(b"CONTENT_TYPE") {
        Some(value) => is_form_type(value),
        None => false,
    }
}

fn is_form_type(value: &[u8]) -> bool
    ensures { result ≡ spec.is_form_type value.now }
{
    same_ignoring_case(media_type(value), b"application/x-www-form-urlencoded")
}

// A content type without its parameters.
fn media_type(value: &[u8]) -> &[u8]
    ensures { result.now ≡ spec.media_type value.now }
{
    trim_end(trim_start(before_semicolon(value)))
}

fn before_semicolon(value: &[u8]) -> &[u8]
    ensures { result.now ≡ before_first spec.is_semicolon value.now }
{
    match value.iter().position(|&byte| byte == b';') {
        Some(i) => &value[..i],
        None => value,
    }
}

// The bytes from the first on that is no space and no tab.
fn trim_start(bytes: &[u8]) -> &[u8]
    ensures { result.now ≡ skip_ows bytes.now }
{
    let mut rest = bytes;
    while let [b' ' | b'\t', after @ ..] = rest {
        rest = after;
    }
    rest
}

// The bytes up to the last that is no space and no tab.
fn trim_end(bytes: &[u8]) -> &[u8]
    ensures { result.now ≡ reverse (skip_ows (reverse bytes.now)) }
{
    let mut rest = bytes;
    while let [before @ .., b' ' | b'\t'] = rest {
        rest = before;
    }
    rest
}
