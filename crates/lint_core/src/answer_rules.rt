// The rules of an answer.
ghost use Rattle.std.specs.Prelude.{◌≡◌, ◌&&◌, not, codes};
ghost use Rattle.rack_types.specs.RuleWords.{has_value, first_broken};
ghost use Rattle.rack_types.specs.AnswerRules.{broken_head_rule, broken_taken_rule, breaks_L1, breaks_L9, is_bare, differ, is_above_zero};
ghost use Rattle.lint_core.specs.Found.{number_of, name_rules, length_rules, method_rules};

use crate::env_rules::has;
use crate::found::{Found, Stated, look_through};
use rack_types::{Env, Headers, Rule, Set};

/// The least rule of the set that a reply breaks, None exactly where it keeps all of them: L1 to L10, in
/// the full set L11 too.
///
/// `known` is the known length of its body and `part` whether it is a partial hijack. The method is the
/// environment's REQUEST_METHOD. (L0 stands where the application raised, and has no reply.)
pub fn check_head(
    set: Set,
    env: &Env,
    status: u32,
    headers: &Headers,
    known: Option<u64>,
    part: bool,
) -> Option<Rule>
    ensures { result ≡ broken_head_rule set env.now.pairs status headers.now known part }
{
    if is_status_wrong(status) {
        return Some(Rule(1));
    }
    let found = look_through(headers);
    if let Some(rule) = broken_by_names(&found) {
        return Some(rule);
    }
    let bare = has_no_body(status);
    if let Some(rule) = broken_by_length(&found, bare) {
        return Some(rule);
    }
    if is_hijack_wrong(part, env) {
        return Some(Rule(9));
    }
    broken_by_method(set, env, is_other(found.length, known, bare), known)
}

/// The rule that a full hijack breaks: L9 where `rack.hijack?` is not `true`, else none.
pub fn check_taken(env: &Env) -> Option<Rule>
    ensures { result ≡ broken_taken_rule env.now.pairs }
{
    if is_hijack_wrong(true, env) {
        return Some(Rule(9));
    }
    None
}

// L1
fn is_status_wrong(status: u32) -> bool
    ensures { result ≡ breaks_L1 status }
{
    status < 100 || 999 < status
}

// L9
fn is_hijack_wrong(hijack: bool, env: &Env) -> bool
    ensures { result ≡ breaks_L9 hijack env.now.pairs }
{
    hijack && !has(env, b"rack.hijack?", b"true")
}

// The least of L2 to L5 that is broken.
fn broken_by_names(found: &Found) -> Option<Rule>
    ensures { result ≡ first_broken (name_rules found.now) }
{
    if found.no_token {
        return Some(Rule(2));
    }
    if found.status {
        return Some(Rule(3));
    }
    if found.upper {
        return Some(Rule(4));
    }
    if found.control {
        return Some(Rule(5));
    }
    None
}

// The least of L6 to L8 that is broken, by whether the status is bare.
fn broken_by_length(found: &Found, bare: bool) -> Option<Rule>
    ensures { result ≡ first_broken (length_rules found.now bare) }
{
    if bare && found.kind {
        return Some(Rule(6));
    }
    match found.length {
        Stated::Absent => None,
        Stated::Bad => Some(Rule(if bare { 7 } else { 8 })),
        Stated::Is(_) => { if bare { Some(Rule(7)) } else { None } }
    }
}

// The least of L10 and L11 that is broken, by whether another length than the known one is stated where
// there is a body.
fn broken_by_method(set: Set, env: &Env, other: bool, known: Option<u64>) -> Option<Rule>
    ensures { result ≡ first_broken (method_rules set env.now.pairs other known) }
{
    let eleven = matches!(set, Set::Full) && has_bytes(known);
    if !other && !eleven {
        return None;
    }
    if is_head(env) {
        if eleven { Some(Rule(11)) } else { None }
    } else {
        if other { Some(Rule(10)) } else { None }
    }
}

// Whether a reply of this status has no body.
fn has_no_body(status: u32) -> bool
    ensures { result ≡ is_bare status }
{
    (100 <= status && status <= 199) || status == 204 || status == 304
}

fn is_head(env: &Env) -> bool
    ensures { result ≡ has_value (codes "REQUEST_METHOD") (codes "HEAD") env.now.pairs }
{
    has(env, b"REQUEST_METHOD", b"HEAD")
}

// Whether a number is stated, another one is known, and there is a body.
fn is_other(length: Stated, known: Option<u64>, bare: bool) -> bool
    ensures { result ≡ (differ (number_of length) known && not bare) }
{
    match (length, known) {
        (Stated::Is(stated), Some(known)) => stated != known && !bare,
        _ => false,
    }
}

fn has_bytes(known: Option<u64>) -> bool
    ensures { result ≡ is_above_zero known }
{
    match known {
        Some(n) => 0 < n,
        None => false,
    }
}
