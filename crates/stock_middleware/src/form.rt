// What an encoded form asks for (URL Standard, section 5.1).
ghost use Rattle.std.specs.Prelude.{◌≡◌, ◌∷◌, ◌+◌, ◌*◌, ◌<◌, [], IfOk, MatchOption, SomeIff, bytes_eq, option_map};
ghost use Rattle.std.specs.Char.{digit_value};
ghost use Rattle.std.specs.Option.{option_copied};
ghost use Rattle.form_urlencoded.specs.Form as spec;
ghost use Rattle.stock_middleware.specs.Override.{asked_in_form};

use form_urlencoded::raw_pairs;
use rack_types::{Bytes, NoMemory};
use std::alloc::Global;
use std::marker::Model;

// The bytes that are left of a name or a value, decoded. A contract sees them as a list.
#[derive(Drop)]
struct Decoded<'a> {
    rest: &'a [u8],
}

impl<'a> Model for Decoded<'a> {
    ghost use Rattle.std.specs.Prelude.{List, ℕ};
    ghost use Rattle.form_urlencoded.specs.Form.{decode};

    ghost Value = { List ℕ };

    ghost view = { λ it. decode it.rest.now };
}

impl<'a> Iterator for Decoded<'a> {
    ghost use Rattle.std.specs.Iterator.{YieldsFirst, item_count};

    type Item = u8;

    ghost next_gives = { YieldsFirst (λ left. left) };

    ghost remaining = { item_count (λ left. left) };

    fn next(&mut self) -> Option<u8> {
        let (byte, rest) = first_byte(self.rest)?;
        self.rest = rest;
        Some(byte)
    }
}

// The value of the last pair `_method` of a form, decoded.
pub(crate) fn asked_in_form(alloc: Global, form: &[u8]) -> Result<Option<Bytes>, NoMemory>
    ensures { IfOk result (λ o. o ≡ asked_in_form form.now) }
{
    match last_asked(form) {
        Some(value) => Ok(Some(decode(alloc, value)?)),
        None => Ok(None),
    }
}

// The same, still encoded.
fn last_asked(form: &[u8]) -> Option<&[u8]>
    ensures { option_map spec.decode (option_copied result) ≡ asked_in_form form.now }
{
    let mut found = None;
    for (name, value) in raw_pairs(form) {
        if spells(name, b"_method") {
            found = Some(value);
        }
    }
    found
}

// Whether a name spells the word.
fn spells(name: &[u8], word: &[u8]) -> bool
    ensures { result ≡ bytes_eq (spec.decode name.now) word.now }
{
    let mut left = Decoded { rest: name };
    for byte in word {
        if left.next() != Some(*byte) {
            return false;
        }
    }
    left.next().is_none()
}

fn decode(alloc: Global, text: &[u8]) -> Result<Bytes, NoMemory>
    ensures { IfOk result (λ bytes. bytes ≡ spec.decode text.now) }
{
    let bytes: Vec<u8> = Decoded { rest: text }.collect(alloc)?;
    Ok(Bytes::new(bytes))
}

// The first byte that a text spells, and the text behind its spelling.
fn first_byte(text: &[u8]) -> Option<(u8, &[u8])>
    ensures { MatchOption result (spec.decode text.now ≡ []) (λ x. spec.decode text.now ≡ x.0 ∷ spec.decode x.1.now) }
{
    let Some((first, rest)) = text.split_first() else {
        return None;
    };
    if *first == b'+' {
        return Some((b' ', rest));
    }
    if *first == b'%' {
        return Some(escaped(rest));
    }
    Some((*first, rest))
}

// The same of a text that begins with `%`, by what stands behind that.
fn escaped(behind: &[u8]) -> (u8, &[u8])
    ensures { spec.decode (37 ∷ behind.now) ≡ result.0 ∷ spec.decode result.1.now }
{
    match behind {
        [high, low, rest @ ..] => match hex_byte(*high, *low) {
            Some(byte) => (byte, rest),
            None => (b'%', behind),
        },
        _ => (b'%', behind),
    }
}

// The byte that two hexadecimal digits write.
fn hex_byte(high: u8, low: u8) -> Option<u8>
    ensures { SomeIff result ((digit_value high < 16) × (digit_value low < 16)) (16 * digit_value high + digit_value low) }
{
    let high = char::from(high).to_digit(16)?;
    let low = char::from(low).to_digit(16)?;
    Some((16 * high + low) as u8)
}
