// The head of a reply, written in one pass.
ghost use Rattle.std.specs.Prelude.{◌≡◌, ◌≤◌, ◌<◌, ◌++◌, true, codes, decimal, length, vec_capacity, slice_get, Some, IfOk, OnOk};
ghost use Rattle.std.specs.List.{flat_map, starts_with};
ghost use Rattle.rack_types.specs.Headers.{header_names, values_at};
ghost use Rattle.reply_framing.specs.Form.{length_line, connection_line};
ghost use Rattle.reply_framing.specs.Head.{status_line, header_lines, header_line, value_line, is_left_out, crlf};
ghost use Rattle.reply_framing.specs.Reply.{head_text};

use crate::form::connection_line;
use crate::reason::reason;
use crate::types::{After, Form};
use itoa::Buffer;
use rack_types::{Headers, NoMemory, Rule, Version};
use std::alloc::Global;

// Room for most heads. The lines of a body's pieces use it again.
const ROOM: usize = 512;

// The lines of a head behind those of its headers.
#[derive(Drop)]
pub(crate) struct Lines {
    pub(crate) form: Form,
    pub(crate) known: Option<u64>,
    pub(crate) after: After,
    pub(crate) version: Version,
}

// The head of a reply with a body.
pub(crate) fn write_head(
    alloc: Global,
    status: u32,
    headers: &Headers,
    lines: &Lines,
) -> Result<Vec<u8>, NoMemory>
    ensures text { IfOk result (λ head. head.items ≡ head_text status headers.now lines.now.form lines.now.known lines.now.after lines.now.version) }
    ensures room { IfOk result (λ head. 80 ≤ vec_capacity head) }
{
    let mut head = Vec::with_capacity(alloc, ROOM)?;
    write_status(status, &mut head)?;
    write_headers(headers, false, &mut head)?;
    write_length(lines.form, lines.known, &mut head)?;
    head.extend_from_slice(connection_line(lines.after, lines.version))?;
    head.extend_from_slice(b"\r\n")?;
    Ok(head)
}

// The head before a stream that a hijacker goes on with.
pub(crate) fn write_partial_head(
    alloc: Global,
    status: u32,
    headers: &Headers,
) -> Result<Vec<u8>, NoMemory>
    ensures text { IfOk result (λ head. head.items ≡ status_line status ++ header_lines true headers.now ++ crlf) }
    ensures room { IfOk result (λ head. 80 ≤ vec_capacity head) }
{
    let mut head = Vec::with_capacity(alloc, ROOM)?;
    write_status(status, &mut head)?;
    write_headers(headers, true, &mut head)?;
    head.extend_from_slice(b"\r\n")?;
    Ok(head)
}

// The head in the place of that of a broken answer.
pub(crate) fn write_broken_head(
    alloc: Global,
    rule: Rule,
    after: After,
    version: Version,
) -> Result<Vec<u8>, NoMemory>
    ensures text { IfOk result (λ head. head.items ≡ status_line 500 ++ codes "x-puma-fault: L" ++ decimal rule.0
        ++ codes "\r\ncontent-length: 0\r\n" ++ connection_line after version ++ crlf) }
    ensures room { IfOk result (λ head. 80 ≤ vec_capacity head) }
{
    let mut head = Vec::with_capacity(alloc, ROOM)?;
    write_status(500, &mut head)?;
    head.extend_from_slice(b"x-puma-fault: L")?;
    head.extend_from_slice(Buffer::new().format(rule.0).as_bytes())?;
    head.extend_from_slice(b"\r\ncontent-length: 0\r\n")?;
    head.extend_from_slice(connection_line(after, version))?;
    head.extend_from_slice(b"\r\n")?;
    Ok(head)
}

fn write_status(status: u32, head: &mut Vec<u8>) -> Result<(), NoMemory>
    ensures text { OnOk result (head.new.items ≡ head.old.items ++ status_line status) }
    ensures room { OnOk result (vec_capacity head.old ≤ vec_capacity head.new) }
{
    head.extend_from_slice(b"HTTP/1.1 ")?;
    head.extend_from_slice(Buffer::new().format(status).as_bytes())?;
    head.extend_from_slice(b" ")?;
    head.extend_from_slice(reason(status).as_bytes())?;
    head.extend_from_slice(b"\r\n")?;
    Ok(())
}

// The lines of the headers, in order.
fn write_headers(headers: &Headers, part: bool, head: &mut Vec<u8>) -> Result<(), NoMemory>
    ensures text { OnOk result (head.new.items ≡ head.old.items ++ header_lines part headers.now) }
    ensures room { OnOk result (vec_capacity head.old ≤ vec_capacity head.new) }
{
    for i in 0..headers.len() {
        write_header(headers, i, headers.name(i), part, head)?;
    }
    Ok(())
}

// The lines of the header at this place, or nothing where it is left out.
fn write_header(
    headers: &Headers,
    i: usize,
    name: &[u8],
    part: bool,
    head: &mut Vec<u8>,
) -> Result<(), NoMemory>
    requires { i < length headers.now }
    ensures text { OnOk result (head.new.items ≡ head.old.items ++ header_line part (name.now, values_at i headers.now)) }
    ensures room { OnOk result (vec_capacity head.old ≤ vec_capacity head.new) }
{
    if is_left_out(part, name) {
        return Ok(());
    }
    write_values(headers, i, name, head)
}

// One line for each value of the header at this place.
fn write_values(
    headers: &Headers,
    i: usize,
    name: &[u8],
    head: &mut Vec<u8>,
) -> Result<(), NoMemory>
    requires { i < length headers.now }
    ensures text { OnOk result (head.new.items ≡ head.old.items ++ flat_map (value_line name.now) (values_at i headers.now)) }
    ensures room { OnOk result (vec_capacity head.old ≤ vec_capacity head.new) }
{
    for j in 0..headers.value_count(i) {
        write_value(name, headers.value(i, j), head)?;
    }
    Ok(())
}

// The line of one value.
fn write_value(name: &[u8], value: &[u8], head: &mut Vec<u8>) -> Result<(), NoMemory>
    ensures text { OnOk result (head.new.items ≡ head.old.items ++ value_line name.now value.now) }
    ensures room { OnOk result (vec_capacity head.old ≤ vec_capacity head.new) }
{
    head.extend_from_slice(name)?;
    head.extend_from_slice(b": ")?;
    head.extend_from_slice(value)?;
    head.extend_from_slice(b"\r\n")?;
    Ok(())
}

// Whether the header is the server's own.
fn is_left_out(part: bool, name: &[u8]) -> bool
    ensures { result ≡ is_left_out part name.now }
{
    name.starts_with(b"rack.")
        || name == b"transfer-encoding".as_slice()
        || (!part && name == b"connection".as_slice())
}

// The line that tells the length.
fn write_length(form: Form, known: Option<u64>, head: &mut Vec<u8>) -> Result<(), NoMemory>
    ensures text { OnOk result (head.new.items ≡ head.old.items ++ length_line form known) }
    ensures room { OnOk result (vec_capacity head.old ≤ vec_capacity head.new) }
{
    match (form, known) {
        (Form::Known, Some(n)) => {
            head.extend_from_slice(b"content-length: ")?;
            head.extend_from_slice(Buffer::new().format(n).as_bytes())?;
            head.extend_from_slice(b"\r\n")?;
        }
        (Form::Chunked, _) => head.extend_from_slice(b"transfer-encoding: chunked\r\n")?,
        _ => {}
    }
    Ok(())
}
