// What a line says.
ghost use Rattle.std.specs.Prelude.{◌≡◌, ◌∷◌, IfOk};
ghost use Rattle.rack_text.specs.Escaped.{unescaped};
ghost use Rattle.stack_file.specs.Kept.{said_now};
ghost use Rattle.stack_file.specs.Lines as lines;
ghost use Rattle.stack_file.specs.Said as spec;
ghost use Rattle.stack_file.specs.Wares.{ware_of};
ghost use Rattle.stock_apps.specs.Words.{app_of};

use crate::lines::{first_word, is_clean, words};
use crate::texts::{place_of, text_of, texts_of};
use crate::wares::ware_of;
use rack_types::{Bytes, NoMemory};
use std::alloc::Global;
use stock_apps::{App, WordsFault};
use stock_middleware::Ware;

// What a line says: nothing, a step, or the end of a block, or the least of the rules that it breaks by
// itself.
#[derive(Drop)]
pub(crate) enum Said {
    Nothing,
    Use(Ware),
    Run(App),
    Map(Bytes),
    Cascade,
    End,
    Breaks(u8),
}

// What the line says.
pub(crate) fn read_line(alloc: Global, line: &[u8]) -> Result<Said, NoMemory>
    ensures { IfOk result (λ s. said_now s ≡ spec.said line.now) }
{
    if !is_clean(line) {
        return Ok(Said::Breaks(1));
    }
    match first_word(line) {
        None => Ok(Said::Nothing),
        Some((verb, behind)) => said_by_verb(alloc, verb, behind),
    }
}

// What a line that begins with this word says.
fn said_by_verb(alloc: Global, verb: &[u8], behind: &[u8]) -> Result<Said, NoMemory>
    ensures { IfOk result (λ s. said_now s ≡ spec.said_by_words (verb.now ∷ lines.words behind.now)) }
{
    if is_comment(verb) {
        return Ok(Said::Nothing);
    }
    let arguments = words(alloc, behind)?;
    verb_line(alloc, verb, &arguments)
}

fn is_comment(word: &[u8]) -> bool
    ensures { result ≡ spec.is_comment word.now }
{
    match word {
        [b'#', ..] => true,
        _ => false,
    }
}

#[tactic(auto, unfolding(crate::specs::Said::verb_line))]
fn verb_line(alloc: Global, verb: &[u8], arguments: &[Bytes]) -> Result<Said, NoMemory>
    ensures { IfOk result (λ s. said_now s ≡ spec.verb_line verb.now arguments.now) }
{
    if verb == b"use".as_slice() {
        return use_line(alloc, arguments);
    }
    if verb == b"map".as_slice() {
        return map_line(alloc, arguments);
    }
    if verb == b"end".as_slice() {
        return Ok(bare_line(Said::End, arguments));
    }
    if verb == b"run".as_slice() {
        return run_line(alloc, arguments);
    }
    if verb == b"cascade".as_slice() {
        return Ok(bare_line(Said::Cascade, arguments));
    }
    Ok(Said::Breaks(2))
}

fn use_line(alloc: Global, arguments: &[Bytes]) -> Result<Said, NoMemory>
    ensures { IfOk result (λ s. said_now s ≡ spec.use_line arguments.now) }
{
    let [name, words @ ..] = arguments else {
        return Ok(Said::Breaks(3));
    };
    match texts_of(alloc, words)? {
        Some(texts) => Ok(used(ware_of(alloc, name.get(), &texts)?)),
        None => Ok(Said::Breaks(ware_rule(ware_of(alloc, name.get(), words)?))),
    }
}

fn run_line(alloc: Global, arguments: &[Bytes]) -> Result<Said, NoMemory>
    ensures { IfOk result (λ s. said_now s ≡ spec.run_line arguments.now) }
{
    let [name, words @ ..] = arguments else {
        return Ok(Said::Breaks(3));
    };
    match texts_of(alloc, words)? {
        Some(texts) => Ok(run(App::from_words(alloc, name.get(), &texts)?)),
        None => Ok(Said::Breaks(app_rule(App::from_words(alloc, name.get(), words)?))),
    }
}

fn used(read: Result<Ware, WordsFault>) -> Said
    ensures { said_now result ≡ spec.named spec.UseLine read }
{
    match read {
        Ok(ware) => Said::Use(ware),
        Err(fault) => Said::Breaks(rule_of(fault)),
    }
}

fn run(read: Result<App, WordsFault>) -> Said
    ensures { said_now result ≡ spec.named spec.RunLine read }
{
    match read {
        Ok(app) => Said::Run(app),
        Err(fault) => Said::Breaks(rule_of(fault)),
    }
}

// The rule that a line breaks, one of whose arguments is no escaped text.
fn ware_rule(read: Result<Ware, WordsFault>) -> u8
    ensures { spec.Breaks result ≡ spec.ill_formed read }
{
    match read {
        Ok(_) => 5,
        Err(fault) => rule_of(fault),
    }
}

fn app_rule(read: Result<App, WordsFault>) -> u8
    ensures { spec.Breaks result ≡ spec.ill_formed read }
{
    match read {
        Ok(_) => 5,
        Err(fault) => rule_of(fault),
    }
}

// The rule that names or arguments with this fault break.
fn rule_of(fault: WordsFault) -> u8
    ensures { result ≡ spec.words_rule fault }
{
    match fault {
        WordsFault::Unknown => 3,
        WordsFault::Count => 4,
        WordsFault::Form => 5,
    }
}

fn map_line(alloc: Global, arguments: &[Bytes]) -> Result<Said, NoMemory>
    ensures { IfOk result (λ s. said_now s ≡ spec.map_line arguments.now) }
{
    let [word] = arguments else {
        return Ok(Said::Breaks(4));
    };
    let Some(text) = text_of(alloc, word.get())? else {
        return Ok(Said::Breaks(5));
    };
    match place_of(alloc, text.get())? {
        Some(place) => Ok(Said::Map(place)),
        None => Ok(Said::Breaks(5)),
    }
}

fn bare_line(said: Said, arguments: &[Bytes]) -> Said
    ensures { said_now result ≡ spec.bare_line (said_now said) arguments.now }
{
    match arguments {
        [] => said,
        _ => Said::Breaks(4),
    }
}
