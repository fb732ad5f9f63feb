// The rules of an environment.
ghost use Rattle.std.specs.Prelude.{◌≡◌, ◌<◌, ◌+◌, ◌||◌, not, is_some, [], ◌∷◌};
ghost use Rattle.rack_types.specs.Env.{get_pair};
ghost use Rattle.rack_types.specs.EnvRules.{broken_env_rule, env_rule, breaks_E1, breaks_E2, breaks_E7, breaks_E8, breaks_E9, breaks_E10};
ghost use Rattle.rack_types.specs.RuleWords as spec;
ghost use Rattle.rack_types.specs.RuleWords.{first_broken, has_value, value_or_empty};

use rack_text::{is_decimal, is_token};
use rack_types::{Env, EnvRule};

/// The least rule E that the environment breaks, None exactly where it keeps all of them.
pub fn check_env(env: &Env) -> Option<EnvRule>
    ensures { result ≡ broken_env_rule env.now.pairs }
{
    let first = first_of(
        1,
        is_method_wrong(env),
        is_server_name_wrong(env),
        is_missing(env, b"QUERY_STRING"),
        is_neither(env, b"SERVER_PROTOCOL", b"HTTP/1.0", b"HTTP/1.1"),
        is_neither(env, b"rack.url_scheme", b"http", b"https"),
    );
    if let Some(rule) = first {
        return Some(rule);
    }
    first_of(
        6,
        is_missing(env, b"rack.errors"),
        is_script_name_wrong(env),
        is_path_wrong(env),
        is_content_misnamed(env),
        is_length_wrong(env),
    )
}

// The first of five rules that is broken, numbered from the first one's number on.
fn first_of(n: u8, one: bool, two: bool, three: bool, four: bool, five: bool) -> Option<EnvRule>
    requires { n < 100 }
    ensures { result ≡ first_broken ((env_rule n, one) ∷ (env_rule (n + 1), two) ∷ (env_rule (n + 2), three) ∷ (env_rule (n + 3), four) ∷ (env_rule (n + 4), five) ∷ []) }
{
    if one {
        return Some(EnvRule(n));
    }
    if two {
        return Some(EnvRule(n + 1));
    }
    if three {
        return Some(EnvRule(n + 2));
    }
    if four {
        return Some(EnvRule(n + 3));
    }
    if five {
        return Some(EnvRule(n + 4));
    }
    None
}

// E1
fn is_method_wrong(env: &Env) -> bool
    ensures { result ≡ breaks_E1 env.now.pairs }
{
    match env.get(b"REQUEST_METHOD") {
        Some(method) => !is_token(method),
        None => true,
    }
}

// E2
fn is_server_name_wrong(env: &Env) -> bool
    ensures { result ≡ breaks_E2 env.now.pairs }
{
    value_of(env, b"SERVER_NAME").is_empty()
}

// E3 and E6: the name is not there.
fn is_missing(env: &Env, name: &[u8]) -> bool
    ensures { result ≡ not (is_some (get_pair name.now env.now.pairs)) }
{
    env.get(name).is_none()
}

// E4 and E5: the value is not there, or is neither of two.
fn is_neither(env: &Env, name: &[u8], one: &[u8], other: &[u8]) -> bool
    ensures { result ≡ not (has_value name.now one.now env.now.pairs || has_value name.now other.now env.now.pairs) }
{
    match env.get(name) {
        Some(value) => !(value == one || value == other),
        None => true,
    }
}

// E7
fn is_script_name_wrong(env: &Env) -> bool
    ensures { result ≡ breaks_E7 env.now.pairs }
{
    match env.get(b"SCRIPT_NAME") {
        Some(name) => !name.is_empty() && (!begins_with_slash(name) || name == b"/".as_slice()),
        None => false,
    }
}

// E8
fn is_path_wrong(env: &Env) -> bool
    ensures { result ≡ breaks_E8 env.now.pairs }
{
    let path = value_of(env, b"PATH_INFO");
    if path.is_empty() {
        return value_of(env, b"SCRIPT_NAME").is_empty();
    }
    !begins_with_slash(path)
        && !(path == b"*".as_slice() && has(env, b"REQUEST_METHOD", b"OPTIONS"))
}

// E9
fn is_content_misnamed(env: &Env) -> bool
    ensures { result ≡ breaks_E9 env.now.pairs }
{
    env.get(b"HTTP_CONTENT_TYPE").is_some() || env.get(b"HTTP_CONTENT_LENGTH").is_some()
}

// E10
fn is_length_wrong(env: &Env) -> bool
    ensures { result ≡ breaks_E10 env.now.pairs }
{
    match env.get(b"CONTENT_LENGTH") {
        Some(length) => !is_decimal(length),
        None => false,
    }
}

// Whether the name has this value.
pub(crate) fn has(env: &Env, name: &[u8], value: &[u8]) -> bool
    ensures { result ≡ has_value name.now value.now env.now.pairs }
{
    match env.get(name) {
        Some(found) => found == value,
        None => false,
    }
}

// The value of the name, empty where it is not there.
fn value_of<'e>(env: &'e Env, name: &[u8]) -> &'e [u8]
    ensures { result.now ≡ value_or_empty name.now env.now.pairs }
{
    match env.get(name) {
        Some(value) => value,
        None => &[],
    }
}

fn begins_with_slash(text: &[u8]) -> bool
    ensures { result ≡ spec.begins_with_slash text.now }
{
    match text.first() {
        Some(byte) => *byte == b'/',
        None => false,
    }
}
