// The token of a request (URL Standard, section 5.1).
ghost use Rattle.std.specs.Prelude.{◌≡◌, IfOk, bytes_eq, codes};
ghost use Rattle.form_urlencoded.specs.Form as spec;
ghost use Rattle.control_http.specs.Wish.{is_allowed};

use form_urlencoded::raw_pairs;
use percent_encoding::percent_decode;
use rack_types::NoMemory;
use std::alloc::Global;

// Whether the first pair `token` of a query has this value, both as decoded bytes.
pub(crate) fn is_allowed(alloc: Global, token: &[u8], query: &[u8]) -> Result<bool, NoMemory>
    ensures { IfOk result (λ b. b ≡ is_allowed token.now query.now) }
{
    for (name, value) in raw_pairs(query) {
        if is_token(alloc, name)? {
            return is_value(alloc, value, token);
        }
    }
    Ok(false)
}

// Whether a name spells the word.
fn is_token(alloc: Global, name: &[u8]) -> Result<bool, NoMemory>
    ensures { IfOk result (λ b. b ≡ bytes_eq (codes "token") (spec.decode name.now)) }
{
    let name = decode(alloc, name)?;
    Ok(b"token".as_slice() == name.as_slice())
}

// Whether a value spells the token.
fn is_value(alloc: Global, value: &[u8], token: &[u8]) -> Result<bool, NoMemory>
    ensures { IfOk result (λ b. b ≡ bytes_eq (spec.decode value.now) token.now) }
{
    let value = decode(alloc, value)?;
    Ok(are_same(&value, token))
}

// The bytes that a text spells.
fn decode(alloc: Global, text: &[u8]) -> Result<Vec<u8>, NoMemory>
    ensures { IfOk result (λ bytes. bytes.items ≡ spec.decode text.now) }
{
    let spaced: Vec<u8> = text.iter().map(|&byte| plus_to_space(byte)).collect(alloc)?;
    let mut bytes = Vec::with_capacity(alloc, text.len())?;
    percent_decode(&spaced).append_to(&mut bytes)?;
    Ok(bytes)
}

// A plus stands for a space.
fn plus_to_space(byte: u8) -> u8
    ensures { result ≡ spec.plus_to_space byte }
{
    if byte == b'+' { b' ' } else { byte }
}

// Whether the bytes are the same. Where there are as many, each is looked at, whatever those before it
// were: how long it takes doesn't tell how many are right.
fn are_same(bytes: &[u8], token: &[u8]) -> bool
    ensures { result ≡ bytes_eq bytes.now token.now }
{
    if bytes.len() != token.len() {
        return false;
    }
    let mut same = true;
    for (i, byte) in bytes.iter().enumerate() {
        same = same & (*byte == token[i]);
    }
    same
}
