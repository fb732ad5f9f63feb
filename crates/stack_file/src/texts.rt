// The texts of arguments.
ghost use Rattle.std.specs.Prelude.{◌≡◌, IfOk, option_map};
ghost use Rattle.rack_text.specs.Escaped.{unescaped};
ghost use Rattle.stack_file.specs.Said as spec;

use rack_text::unescape;
use rack_types::{Bytes, NoMemory};
use std::alloc::Global;

// The texts that these words are escaped texts of, where each is one.
pub(crate) fn texts_of(alloc: Global, words: &[Bytes]) -> Result<Option<Vec<Bytes>>, NoMemory>
    ensures { IfOk result (λ texts. option_map (λ all. all.items) texts ≡ spec.texts_of words.now) }
{
    let mut texts = Vec::with_capacity(alloc, words.len())?;
    for word in words {
        let Some(text) = text_of(alloc, word.get())? else {
            return Ok(None);
        };
        texts.push(text)?;
    }
    Ok(Some(texts))
}

// The text that the word is an escaped text of, where it is one.
pub(crate) fn text_of(alloc: Global, word: &[u8]) -> Result<Option<Bytes>, NoMemory>
    ensures { IfOk result (λ text. text ≡ unescaped word.now) }
{
    let mut text = Vec::new(alloc);
    if unescape(word, &mut text)? {
        Ok(Some(Bytes::new(text)))
    } else {
        Ok(None)
    }
}

// The place that a text says, if it says one.
pub(crate) fn place_of(alloc: Global, text: &[u8]) -> Result<Option<Bytes>, NoMemory>
    ensures { IfOk result (λ place. place ≡ spec.place_of text.now) }
{
    match text.first() {
        Some(b'/') => {
            let place = Vec::from_slice(alloc, without_slash(text))?;
            Ok(Some(Bytes::new(place)))
        }
        _ => Ok(None),
    }
}

// The text without one `/` at its end, if one is there.
fn without_slash(text: &[u8]) -> &[u8]
    ensures { result.now ≡ spec.without_slash text.now }
{
    match text.last() {
        Some(b'/') => &text[..text.len() - 1],
        _ => text,
    }
}
