// Writing.
ghost use Rattle.std.specs.Prelude.{◌≡◌, ◌++◌, ◌∷◌, [], IfOk, OnOk, OnErr, codes, decimal, map};
ghost use Rattle.builder_core.specs.Plan.{plan, item};
ghost use Rattle.rack_text.specs.Escaped.{escaped};
ghost use Rattle.stack_file.specs.Canon as spec;
ghost use Rattle.stack_file.specs.Said.{last_byte};

use builder_core::{Line, Steps};
use rack_text::{escape, write_decimal};
use rack_types::{Bytes, NoMemory};
use std::alloc::Global;
use stock_apps::App;
use stock_middleware::Ware;

/// Appends the canonical form of steps: one line for each step and each `end`, words parted by one
/// space, two spaces at the front for each depth, no comments, arguments as escaped texts, and numbers
/// without zeros in front. Steps that were read are read again from it.
///
/// It takes memory for twice what is written, and for the margins. Where that is refused, `out` is as
/// before.
pub fn write(alloc: Global, steps: &Steps<App>, out: &mut Vec<u8>) -> Result<(), NoMemory>
    ensures written { OnOk result (out.new.items ≡ out.old.items ++ spec.canonical (plan steps.now)) }
    ensures unchanged { OnErr result (out.new.items ≡ out.old.items) }
{
    let mut text = Vec::new(alloc);
    write_block(alloc, steps, b"", &mut text)?;
    out.extend_from_slice(&text)?;
    Ok(())
}

#[cycle(write)]
#[tactic(auto, using(crate::proofs::LineText::kinds))]
fn write_block(
    alloc: Global,
    steps: &Steps<App>,
    margin: &[u8],
    out: &mut Vec<u8>,
) -> Result<(), NoMemory>
    ensures { OnOk result (out.new.items ≡ out.old.items ++ spec.plan_text (plan steps.now) margin.now) }
{
    for line in &steps.lines {
        write_line(alloc, line, margin, out)?;
    }
    Ok(())
}

#[cycle(write)]
#[tactic(auto, using(crate::proofs::LineText::kinds))]
fn write_line(
    alloc: Global,
    line: &Line<App>,
    margin: &[u8],
    out: &mut Vec<u8>,
) -> Result<(), NoMemory>
    ensures { OnOk result (out.new.items ≡ out.old.items ++ spec.item_text (item line.now) margin.now) }
{
    match line {
        Line::Use(ware) => write_use(ware, margin, out),
        Line::Run(app) => write_run(app, margin, out),
        Line::Map(place, block) => {
            write_map(place.get(), margin, out)?;
            write_block(alloc, block, &deeper(alloc, margin)?, out)?;
            write_bare(b"end", margin, out)
        }
        Line::Cascade(apps) => {
            write_bare(b"cascade", margin, out)?;
            write_runs(apps, &deeper(alloc, margin)?, out)?;
            write_bare(b"end", margin, out)
        }
    }
}

// The margin of what stands in a block.
fn deeper(alloc: Global, margin: &[u8]) -> Result<Vec<u8>, NoMemory>
    ensures { IfOk result (λ m. m.items ≡ spec.deeper margin.now) }
{
    let mut deeper = Vec::from_slice(alloc, margin)?;
    deeper.extend_from_slice(b"  ")?;
    Ok(deeper)
}

fn write_use(ware: &Ware, margin: &[u8], out: &mut Vec<u8>) -> Result<(), NoMemory>
    ensures { OnOk result (out.new.items ≡ out.old.items ++ spec.line margin.now (codes "use") (spec.ware_words ware.now)) }
{
    out.extend_from_slice(margin)?;
    out.extend_from_slice(b"use")?;
    write_ware(ware, out)?;
    out.extend_from_slice(b"\n")?;
    Ok(())
}

fn write_ware(ware: &Ware, out: &mut Vec<u8>) -> Result<(), NoMemory>
    ensures { OnOk result (out.new.items ≡ out.old.items ++ spec.spaced (spec.ware_words ware.now)) }
{
    match ware {
        Ware::Head => put_word(b"head", out),
        Ware::ContentLength => put_word(b"content_length", out),
        Ware::ContentType(kind) => put_one(b"content_type", kind.get(), out),
        Ware::MethodOverride => put_word(b"method_override", out),
        Ware::SetHeader(name, value) => put_two(b"set_header", name.get(), value.get(), out),
        Ware::Lint => put_word(b"lint", out),
    }
}

// A name and one text.
fn put_one(name: &[u8], text: &[u8], out: &mut Vec<u8>) -> Result<(), NoMemory>
    ensures { OnOk result (out.new.items ≡ out.old.items ++ spec.spaced (name.now ∷ escaped text.now ∷ [])) }
{
    put_word(name, out)?;
    put_text(text, out)
}

// A name and two texts.
fn put_two(name: &[u8], first: &[u8], second: &[u8], out: &mut Vec<u8>) -> Result<(), NoMemory>
    ensures { OnOk result (out.new.items ≡ out.old.items ++ spec.spaced (name.now ∷ escaped first.now ∷ escaped second.now ∷ [])) }
{
    put_word(name, out)?;
    put_text(first, out)?;
    put_text(second, out)
}

// A name and any number of texts.
fn put_all(name: &[u8], texts: &[Bytes], out: &mut Vec<u8>) -> Result<(), NoMemory>
    ensures { OnOk result (out.new.items ≡ out.old.items ++ spec.spaced (name.now ∷ spec.arguments texts.now)) }
{
    put_word(name, out)?;
    put_texts(texts, out)
}

fn write_map(place: &[u8], margin: &[u8], out: &mut Vec<u8>) -> Result<(), NoMemory>
    ensures { OnOk result (out.new.items ≡ out.old.items ++ spec.line margin.now (codes "map") (escaped (spec.place_text place.now) ∷ [])) }
{
    out.extend_from_slice(margin)?;
    out.extend_from_slice(b"map")?;
    put_place(place, out)?;
    out.extend_from_slice(b"\n")?;
    Ok(())
}

fn put_place(place: &[u8], out: &mut Vec<u8>) -> Result<(), NoMemory>
    ensures { OnOk result (out.new.items ≡ out.old.items ++ spec.spaced (escaped (spec.place_text place.now) ∷ [])) }
{
    let mut text = Vec::from_slice(*out.allocator(), place)?;
    if wants_slash(place) {
        text.push(b'/')?;
    }
    put_text(&text, out)
}

fn wants_slash(place: &[u8]) -> bool
    ensures { result ≡ spec.wants_slash (last_byte place.now) }
{
    match place.last() {
        Some(b) => *b == b'/',
        None => true,
    }
}

fn write_runs(apps: &[App], margin: &[u8], out: &mut Vec<u8>) -> Result<(), NoMemory>
    ensures { OnOk result (out.new.items ≡ out.old.items ++ spec.run_lines apps.now margin.now) }
{
    for app in apps {
        write_run(app, margin, out)?;
    }
    Ok(())
}

fn write_run(app: &App, margin: &[u8], out: &mut Vec<u8>) -> Result<(), NoMemory>
    ensures { OnOk result (out.new.items ≡ out.old.items ++ spec.line margin.now (codes "run") (spec.app_words app.now)) }
{
    out.extend_from_slice(margin)?;
    out.extend_from_slice(b"run")?;
    write_app(app, out)?;
    out.extend_from_slice(b"\n")?;
    Ok(())
}

fn write_app(app: &App, out: &mut Vec<u8>) -> Result<(), NoMemory>
    ensures { OnOk result (out.new.items ≡ out.old.items ++ spec.spaced (spec.app_words app.now)) }
{
    match app {
        App::Text { status, kind, body } => {
            put_word(b"text", out)?;
            put_number(u64::from(*status), out)?;
            put_text(kind.get(), out)?;
            put_text(body.get(), out)
        }
        App::Echo => put_word(b"echo", out),
        App::Env => put_word(b"env", out),
        App::Pieces { status, pieces } => {
            put_word(b"pieces", out)?;
            put_number(u64::from(*status), out)?;
            put_texts(pieces.get(), out)
        }
        App::Stream(pieces) => put_all(b"stream", pieces.get(), out),
        App::Cookies(values) => put_all(b"cookies", values.get(), out),
        App::Bad(numbers) => {
            put_word(b"bad", out)?;
            put_numbers(numbers.get(), out)
        }
        App::Raise(text) => put_one(b"raise", text.get(), out),
        App::Late {
            length,
            pieces,
            raises,
        } => {
            put_word(b"late", out)?;
            put_number(*length, out)?;
            put_texts(pieces.get(), out)?;
            put_mark(*raises, out)
        }
        App::Take { upper } => {
            put_word(b"take", out)?;
            put_word(hijacker_name(*upper), out)
        }
        App::Part { status, upper } => {
            put_word(b"part", out)?;
            put_number(u64::from(*status), out)?;
            put_word(hijacker_name(*upper), out)
        }
    }
}

// The name of a stock hijacker.
fn hijacker_name(upper: bool) -> &'static [u8]
    ensures { result.now ≡ spec.hijacker_name upper }
{
    if upper { b"upper" } else { b"echo" }
}

// What marks a body that raises.
fn put_mark(raises: bool, out: &mut Vec<u8>) -> Result<(), NoMemory>
    ensures { OnOk result (out.new.items ≡ out.old.items ++ spec.spaced (spec.mark raises)) }
{
    if raises {
        return put_word(b"!", out);
    }
    Ok(())
}

// A line of one word.
fn write_bare(word: &[u8], margin: &[u8], out: &mut Vec<u8>) -> Result<(), NoMemory>
    ensures { OnOk result (out.new.items ≡ out.old.items ++ spec.line margin.now word.now []) }
{
    out.extend_from_slice(margin)?;
    out.extend_from_slice(word)?;
    out.extend_from_slice(b"\n")?;
    Ok(())
}

fn put_word(word: &[u8], out: &mut Vec<u8>) -> Result<(), NoMemory>
    ensures { OnOk result (out.new.items ≡ out.old.items ++ (32 ∷ word.now)) }
{
    out.extend_from_slice(b" ")?;
    out.extend_from_slice(word)?;
    Ok(())
}

fn put_text(text: &[u8], out: &mut Vec<u8>) -> Result<(), NoMemory>
    ensures { OnOk result (out.new.items ≡ out.old.items ++ (32 ∷ escaped text.now)) }
{
    out.extend_from_slice(b" ")?;
    escape(text, out)?;
    Ok(())
}

fn put_texts(texts: &[Bytes], out: &mut Vec<u8>) -> Result<(), NoMemory>
    ensures { OnOk result (out.new.items ≡ out.old.items ++ spec.spaced (spec.arguments texts.now)) }
{
    for text in texts {
        put_text(text.get(), out)?;
    }
    Ok(())
}

fn put_number(number: u64, out: &mut Vec<u8>) -> Result<(), NoMemory>
    ensures { OnOk result (out.new.items ≡ out.old.items ++ (32 ∷ decimal number)) }
{
    out.extend_from_slice(b" ")?;
    write_decimal(u128::from(number), out)?;
    Ok(())
}

fn put_numbers(numbers: &[u8], out: &mut Vec<u8>) -> Result<(), NoMemory>
    ensures { OnOk result (out.new.items ≡ out.old.items ++ spec.spaced (map decimal numbers.now)) }
{
    for number in numbers {
        put_number(u64::from(*number), out)?;
    }
    Ok(())
}
