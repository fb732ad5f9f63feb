// Lists with commas (RFC 9110, section 5.6.1).
ghost use Rattle.std.specs.Prelude.{◌≡◌, ◌≤◌, length, reverse};
ghost use Rattle.std.specs.List.{before_first, after_first};
ghost use Rattle.httparse.specs.Grammar.{skip_ows, trim_ows};
ghost use Rattle.rack_text.specs.Lists as spec;

use crate::word::same_ignoring_case;
use std::marker::Model;

/// The elements of a list that are left to lend, as [`elements`] makes it.
///
/// A contract sees it as the list of those elements.
#[derive(Debug, Drop)]
pub struct ListElements<'a> {
    rest: &'a [u8],
}

impl<'a> Model for ListElements<'a> {
    ghost use Rattle.std.specs.Prelude.{List, ℕ};
    ghost use Rattle.rack_text.specs.Lists.{elements};

    ghost Value = { List (List ℕ) };

    ghost view = { λ it. elements it.rest.now };
}

impl<'a> Iterator for ListElements<'a> {
    ghost use Rattle.std.specs.Iterator.{YieldsFirstRef, item_count};

    type Item = &'a [u8];

    ghost next_gives = { YieldsFirstRef (λ left. left) };

    ghost remaining = { item_count (λ left. left) };

    fn next(&mut self) -> Option<&'a [u8]> {
        while !self.rest.is_empty() {
            let (part, rest) = split_at_comma(self.rest);
            self.rest = rest;
            let element = trimmed(part);
            if !element.is_empty() {
                return Some(element);
            }
        }
        None
    }
}

/// The elements of a value that is a list with commas, in order: what stands between the commas,
/// without the spaces and tabs at its ends, and not where nothing is left
/// (RFC 9110, section 5.6.1). That a comma within a quoted string splits too is this project's own.
pub fn elements(value: &[u8]) -> ListElements<'_>
    ensures elements { result ≡ spec.elements value.now }
    ensures few { length result ≤ length value.now }
{
    ListElements { rest: value }
}

/// Whether the word is an element of the list in this value, but for the case of ASCII letters
/// (RFC 9110, section 5.6.1). The empty word never is.
pub fn list_has(value: &[u8], word: &[u8]) -> bool
    ensures { result ≡ spec.list_has value.now word.now }
{
    elements(value).any(|element| same_ignoring_case(element, word))
}

// The bytes before the first comma, and those behind it. With no comma, that is all and none.
fn split_at_comma(bytes: &[u8]) -> (&[u8], &[u8])
    ensures before { result.0.now ≡ before_first spec.is_comma bytes.now }
    ensures after { result.1.now ≡ after_first spec.is_comma bytes.now }
{
    match bytes.iter().position(|&byte| byte == b',') {
        Some(i) => (&bytes[..i], &bytes[i + 1..]),
        None => (bytes, &[]),
    }
}

// The bytes without the spaces and tabs at both ends.
fn trimmed(bytes: &[u8]) -> &[u8]
    ensures { result.now ≡ trim_ows bytes.now }
{
    trim_end(trim_start(bytes))
}

// The bytes from the first on that is no space and no tab.
fn trim_start(bytes: &[u8]) -> &[u8]
    ensures { result.now ≡ skip_ows bytes.now }
{
    let mut rest = bytes;
    while let [b' ' | b'\t', after @ ..] = rest {
        rest = after;
    }
    rest
}

// The bytes up to the last that is no space and no tab.
fn trim_end(bytes: &[u8]) -> &[u8]
    ensures { result.now ≡ reverse (skip_ows (reverse bytes.now)) }
{
    let mut rest = bytes;
    while let [before @ .., b' ' | b'\t'] = rest {
        rest = before;
    }
    rest
}
