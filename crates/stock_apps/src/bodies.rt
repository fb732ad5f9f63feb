// The bodies of answers, and copies of texts.
ghost use Rattle.std.specs.Prelude.{◌≡◌, IfOk};
ghost use Rattle.stock_apps.specs.Contents.{one_piece, empty_body, unmeasured};

use crate::Texts;
use rack_types::{Bytes, Kind, NoMemory, Plain};
use std::alloc::Global;

// One piece, whose length is known.
pub(crate) fn one_piece(alloc: Global, text: Bytes) -> Result<Plain, NoMemory>
    ensures { IfOk result (λ body. body.content ≡ one_piece text) }
{
    let mut pieces = Vec::with_capacity(alloc, 1)?;
    pieces.push(text)?;
    Ok(Plain::new(pieces, false, true, Kind::Enumerable))
}

// The empty body, whose length is known. It takes no memory.
pub(crate) fn empty_body(alloc: Global) -> Plain
    ensures { result.content ≡ empty_body }
{
    Plain::new(Vec::new(alloc), false, true, Kind::Enumerable)
}

// Copies of these pieces, whose length is not known.
pub(crate) fn unmeasured(
    alloc: Global,
    pieces: &Texts,
    raises: bool,
    kind: Kind,
) -> Result<Plain, NoMemory>
    ensures { IfOk result (λ body. body.content ≡ unmeasured pieces.now raises kind) }
{
    let pieces = copies(alloc, pieces.get())?;
    Ok(Plain::new(pieces, raises, false, kind))
}

// A copy of a text.
pub(crate) fn copy(alloc: Global, text: &[u8]) -> Result<Bytes, NoMemory>
    ensures { IfOk result (λ bytes. bytes ≡ text.now) }
{
    Ok(Bytes::new(Vec::from_slice(alloc, text)?))
}

// Copies of texts, in a list that has room for them.
pub(crate) fn copies(alloc: Global, texts: &[Bytes]) -> Result<Vec<Bytes>, NoMemory>
    ensures { IfOk result (λ copies. copies.items ≡ texts.now) }
{
    let mut copies = Vec::with_capacity(alloc, texts.len())?;
    for text in texts {
        copies.push(copy(alloc, text.get())?)?;
    }
    Ok(copies)
}
