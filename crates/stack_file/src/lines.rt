// Lines and words.
ghost use Rattle.std.specs.Prelude.{◌≡◌, ◌<◌, ◌∷◌, IfOk, length, option_map};
ghost use Rattle.std.specs.List.{list_all};
ghost use Rattle.stack_file.specs.Kept.{BeginsWith};
ghost use Rattle.stack_file.specs.Lines as spec;

use rack_types::{Bytes, NoMemory};
use std::alloc::Global;

// The bytes that a line may have, the spaces at its front not counted.
const LINE: usize = 4_096;

// The first line, and what stands behind its line feed.
pub(crate) fn first_line(text: &[u8]) -> (&[u8], &[u8])
    requires { 0 < length text.now }
    ensures lines { spec.lines text.now ≡ result.0.now ∷ spec.lines result.1.now }
    ensures less { length result.1.now < length text.now }
{
    match text.iter().position(|b| *b == b'\n') {
        Some(at) => (&text[..at], &text[at + 1..]),
        None => (text, &text[text.len()..]),
    }
}

// Whether the bytes of a line, and how many there are, are allowed.
pub(crate) fn is_clean(line: &[u8]) -> bool
    ensures { result ≡ spec.is_clean line.now }
{
    is_printed(line) && unindented(line).len() <= LINE
}

// Whether each byte may stand in a stack file.
fn is_printed(line: &[u8]) -> bool
    ensures { result ≡ list_all spec.is_printable line.now }
{
    line.iter().all(|b| is_printable(*b))
}

fn is_printable(b: u8) -> bool
    ensures { result ≡ spec.is_printable b }
{
    32 <= b && b <= 126
}

// The line without the spaces at its front.
fn unindented(line: &[u8]) -> &[u8]
    ensures { result.now ≡ spec.unindented line.now }
{
    let mut rest = line;
    while let [b' ', after @ ..] = rest {
        rest = after;
    }
    rest
}

// The first word, if there is one, and what stands behind it.
pub(crate) fn first_word(text: &[u8]) -> Option<(&[u8], &[u8])>
    ensures { BeginsWith (option_map (λ p. (p.0.now, p.1.now)) result) text.now }
{
    let text = unindented(text);
    if text.is_empty() {
        return None;
    }
    match text.iter().position(|b| *b == b' ') {
        Some(at) => Some((&text[..at], &text[at + 1..])),
        None => Some((text, &text[text.len()..])),
    }
}

// Copies of the words.
pub(crate) fn words(alloc: Global, text: &[u8]) -> Result<Vec<Bytes>, NoMemory>
    ensures { IfOk result (λ words. words.items ≡ spec.words text.now) }
{
    let mut words = Vec::new(alloc);
    let mut left = text;
    while let Some((word, behind)) = first_word(left) {
        words.push(Bytes::new(Vec::from_slice(alloc, word)?))?;
        left = behind;
    }
    Ok(words)
}
