// Middleware from words.
ghost use Rattle.std.specs.Prelude.{◌≡◌, IfOk};
ghost use Rattle.stack_file.specs.Wares as spec;

use rack_types::{Bytes, NoMemory};
use std::alloc::Global;
use stock_apps::WordsFault;
use stock_middleware::Ware;

// The middleware that a name and its arguments, which are texts, say.
#[tactic(auto, unfolding(crate::specs::Wares::ware_of))]
pub(crate) fn ware_of(
    alloc: Global,
    name: &[u8],
    texts: &[Bytes],
) -> Result<Result<Ware, WordsFault>, NoMemory>
    ensures { IfOk result (λ said. said ≡ spec.ware_of name.now texts.now) }
{
    if name == b"head".as_slice() {
        return Ok(without_arguments(Ware::Head, texts));
    }
    if name == b"content_length".as_slice() {
        return Ok(without_arguments(Ware::ContentLength, texts));
    }
    if name == b"method_override".as_slice() {
        return Ok(without_arguments(Ware::MethodOverride, texts));
    }
    if name == b"lint".as_slice() {
        return Ok(without_arguments(Ware::Lint, texts));
    }
    if name == b"content_type".as_slice() {
        return type_of(alloc, texts);
    }
    if name == b"set_header".as_slice() {
        return header_of(alloc, texts);
    }
    Ok(Err(WordsFault::Unknown))
}

fn without_arguments(ware: Ware, texts: &[Bytes]) -> Result<Ware, WordsFault>
    ensures { result ≡ spec.without_arguments ware texts.now }
{
    match texts {
        [] => Ok(ware),
        _ => Err(WordsFault::Count),
    }
}

fn type_of(alloc: Global, texts: &[Bytes]) -> Result<Result<Ware, WordsFault>, NoMemory>
    ensures { IfOk result (λ said. said ≡ spec.type_of texts.now) }
{
    match texts {
        [] => Ok(Ok(Ware::ContentType(copy(alloc, b"text/html")?))),
        [kind] => Ok(Ok(Ware::ContentType(copy(alloc, kind.get())?))),
        _ => Ok(Err(WordsFault::Count)),
    }
}

fn header_of(alloc: Global, texts: &[Bytes]) -> Result<Result<Ware, WordsFault>, NoMemory>
    ensures { IfOk result (λ said. said ≡ spec.header_of texts.now) }
{
    match texts {
        [name, value] => {
            let name = copy(alloc, name.get())?;
            let value = copy(alloc, value.get())?;
            Ok(Ok(Ware::SetHeader(name, value)))
        }
        _ => Ok(Err(WordsFault::Count)),
    }
}

// A copy of a text.
fn copy(alloc: Global, text: &[u8]) -> Result<Bytes, NoMemory>
    ensures { IfOk result (λ bytes. bytes ≡ text.now) }
{
    Ok(Bytes::new(Vec::from_slice(alloc, text)?))
}
