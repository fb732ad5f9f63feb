// Endpoints from words.
ghost use Rattle.std.specs.Prelude.{◌≡◌, IfOk};
ghost use Rattle.stock_apps.specs.Words as spec;

use crate::bodies::{copies, copy};
use crate::{App, Texts};
use rack_text::read_decimal;
use rack_types::{Bytes, NoMemory};
use std::alloc::Global;

/// Why a name and its arguments say no endpoint.
#[derive(Clone, Copy, Debug, PartialEq, Eq)]
pub enum WordsFault {
    /// No endpoint has this name (S3 of a stack file).
    Unknown,
    /// A wrong number of arguments (S4).
    Count,
    /// An argument that isn't of its form (S5).
    Form,
}

impl App {
    /// The endpoint that a name and its arguments say, as a line of a stack file has them, or the first
    /// fault that stands. The arguments are texts, unescaped already.
    ///
    /// `text STATUS KIND BODY`, `echo`, `env`, `pieces STATUS P1 P2 ..` and `stream P1 P2 ..` with any
    /// number of pieces, `cookies V1 V2 ..` with one value or more, `bad N1 N2 ..` with 1 to 8 numbers of
    /// 1 to 8 and 10, `raise TEXT`, `late LENGTH P1 P2 ..` with any number of pieces, `take NAME`, and
    /// `part STATUS NAME`. A last text `!` of `late` is no piece, and the body raises. STATUS is a decimal
    /// number from 100 to 999 and LENGTH one up to 1,000,000, with zeros in front or without. NAME is `echo`
    /// or `upper`.
    pub fn from_words(
        alloc: Global,
        name: &[u8],
        arguments: &[Bytes],
    ) -> Result<Result<App, WordsFault>, NoMemory>
        ensures { IfOk result (λ said. said ≡ spec.app_of name.now arguments.now) }
    {
        match name_of(name) {
            None => Ok(Err(WordsFault::Unknown)),
            Some(Named::Text) => text_words(alloc, arguments),
            Some(Named::Echo) => Ok(bare_words(App::Echo, arguments)),
            Some(Named::Env) => Ok(bare_words(App::Env, arguments)),
            Some(Named::Pieces) => pieces_words(alloc, arguments),
            Some(Named::Stream) => Ok(Ok(App::Stream(Texts::new(copies(alloc, arguments)?)))),
            Some(Named::Cookies) => cookies_words(alloc, arguments),
            Some(Named::Bad) => bad_words(alloc, arguments),
            Some(Named::Raise) => raise_words(alloc, arguments),
            Some(Named::Late) => late_words(alloc, arguments),
            Some(Named::Take) => Ok(take_words(arguments)),
            Some(Named::Part) => Ok(part_words(arguments)),
        }
    }
}

// The names of the endpoints.
#[derive(Clone, Copy)]
pub(crate) enum Named {
    Text,
    Echo,
    Env,
    Pieces,
    Stream,
    Cookies,
    Bad,
    Raise,
    Late,
    Take,
    Part,
}

// The name that a word is, if any.
#[tactic(auto, unfolding(crate::specs::Words::name_of))]
fn name_of(word: &[u8]) -> Option<Named>
    ensures { result ≡ spec.name_of word.now }
{
    if word == b"text".as_slice() {
        return Some(Named::Text);
    }
    if word == b"echo".as_slice() {
        return Some(Named::Echo);
    }
    if word == b"env".as_slice() {
        return Some(Named::Env);
    }
    if word == b"pieces".as_slice() {
        return Some(Named::Pieces);
    }
    if word == b"stream".as_slice() {
        return Some(Named::Stream);
    }
    if word == b"cookies".as_slice() {
        return Some(Named::Cookies);
    }
    if word == b"bad".as_slice() {
        return Some(Named::Bad);
    }
    if word == b"raise".as_slice() {
        return Some(Named::Raise);
    }
    if word == b"late".as_slice() {
        return Some(Named::Late);
    }
    if word == b"take".as_slice() {
        return Some(Named::Take);
    }
    if word == b"part".as_slice() {
        return Some(Named::Part);
    }
    None
}

fn text_words(alloc: Global, arguments: &[Bytes]) -> Result<Result<App, WordsFault>, NoMemory>
    ensures { IfOk result (λ said. said ≡ spec.text_words arguments.now) }
{
    let [status, kind, body] = arguments else {
        return Ok(Err(WordsFault::Count));
    };
    let Some(status) = status_of(status.get()) else {
        return Ok(Err(WordsFault::Form));
    };
    let kind = copy(alloc, kind.get())?;
    let body = copy(alloc, body.get())?;
    Ok(Ok(App::Text { status, kind, body }))
}

// An endpoint that takes no arguments.
fn bare_words(app: App, arguments: &[Bytes]) -> Result<App, WordsFault>
    ensures { result ≡ spec.bare_words app arguments.now }
{
    match arguments {
        [] => Ok(app),
        _ => Err(WordsFault::Count),
    }
}

fn pieces_words(alloc: Global, arguments: &[Bytes]) -> Result<Result<App, WordsFault>, NoMemory>
    ensures { IfOk result (λ said. said ≡ spec.pieces_words arguments.now) }
{
    let [status, pieces @ ..] = arguments else {
        return Ok(Err(WordsFault::Count));
    };
    let Some(status) = status_of(status.get()) else {
        return Ok(Err(WordsFault::Form));
    };
    let pieces = Texts::new(copies(alloc, pieces)?);
    Ok(Ok(App::Pieces { status, pieces }))
}

fn cookies_words(alloc: Global, arguments: &[Bytes]) -> Result<Result<App, WordsFault>, NoMemory>
    ensures { IfOk result (λ said. said ≡ spec.cookies_words arguments.now) }
{
    match arguments {
        [] => Ok(Err(WordsFault::Count)),
        _ => Ok(Ok(App::Cookies(Texts::new(copies(alloc, arguments)?)))),
    }
}

fn bad_words(alloc: Global, arguments: &[Bytes]) -> Result<Result<App, WordsFault>, NoMemory>
    ensures { IfOk result (λ said. said ≡ spec.bad_words arguments.now) }
{
    if arguments.is_empty() || arguments.len() > 8 {
        return Ok(Err(WordsFault::Count));
    }
    match rules_of(alloc, arguments)? {
        Some(numbers) => Ok(Ok(App::Bad(numbers))),
        None => Ok(Err(WordsFault::Form)),
    }
}

// The numbers of rules that the texts write, where each writes one.
fn rules_of(alloc: Global, texts: &[Bytes]) -> Result<Option<Bytes>, NoMemory>
    ensures { IfOk result (λ numbers. numbers ≡ spec.rules_of texts.now) }
{
    let mut numbers = Vec::with_capacity(alloc, texts.len())?;
    for text in texts {
        let Some(number) = rule_of(text.get()) else {
            return Ok(None);
        };
        numbers.push(number)?;
    }
    Ok(Some(Bytes::new(numbers)))
}

fn raise_words(alloc: Global, arguments: &[Bytes]) -> Result<Result<App, WordsFault>, NoMemory>
    ensures { IfOk result (λ said. said ≡ spec.raise_words arguments.now) }
{
    match arguments {
        [text] => Ok(Ok(App::Raise(copy(alloc, text.get())?))),
        _ => Ok(Err(WordsFault::Count)),
    }
}

fn late_words(alloc: Global, arguments: &[Bytes]) -> Result<Result<App, WordsFault>, NoMemory>
    ensures { IfOk result (λ said. said ≡ spec.late_words arguments.now) }
{
    let [length, texts @ ..] = arguments else {
        return Ok(Err(WordsFault::Count));
    };
    let Some(length) = length_of(length.get()) else {
        return Ok(Err(WordsFault::Form));
    };
    let raises = is_marked(texts);
    let pieces = if raises {
        &texts[..texts.len() - 1]
    } else {
        texts
    };
    let pieces = Texts::new(copies(alloc, pieces)?);
    Ok(Ok(App::Late {
        length,
        pieces,
        raises,
    }))
}

fn take_words(arguments: &[Bytes]) -> Result<App, WordsFault>
    ensures { result ≡ spec.take_words arguments.now }
{
    let [name] = arguments else {
        return Err(WordsFault::Count);
    };
    match upper_of(name.get()) {
        Some(upper) => Ok(App::Take { upper }),
        None => Err(WordsFault::Form),
    }
}

fn part_words(arguments: &[Bytes]) -> Result<App, WordsFault>
    ensures { result ≡ spec.part_words arguments.now }
{
    let [status, name] = arguments else {
        return Err(WordsFault::Count);
    };
    let Some(status) = status_of(status.get()) else {
        return Err(WordsFault::Form);
    };
    match upper_of(name.get()) {
        Some(upper) => Ok(App::Part { status, upper }),
        None => Err(WordsFault::Form),
    }
}

// Whether the last text is `!`.
fn is_marked(texts: &[Bytes]) -> bool
    ensures { result ≡ spec.is_marked texts.now }
{
    match texts.last() {
        Some(text) => text.get() == b"!".as_slice(),
        None => false,
    }
}

fn status_of(text: &[u8]) -> Option<u32>
    ensures { result ≡ spec.status_of text.now }
{
    match read_decimal(text) {
        Some(n) if 100 <= n && n <= 999 => Some(n as u32),
        _ => None,
    }
}

fn length_of(text: &[u8]) -> Option<u64>
    ensures { result ≡ spec.length_of text.now }
{
    match read_decimal(text) {
        Some(n) if n <= 1_000_000 => Some(n as u64),
        _ => None,
    }
}

fn rule_of(text: &[u8]) -> Option<u8>
    ensures { result ≡ spec.rule_of text.now }
{
    match read_decimal(text) {
        Some(n) if 1 <= n && n <= 8 || n == 10 => Some(n as u8),
        _ => None,
    }
}

// Whether the stock hijacker with this name is upper, if one has it.
fn upper_of(name: &[u8]) -> Option<bool>
    ensures { result ≡ spec.upper_of name.now }
{
    if name == b"echo".as_slice() {
        return Some(false);
    }
    if name == b"upper".as_slice() {
        return Some(true);
    }
    None
}
