// Escaped text.
ghost use Rattle.std.specs.Prelude.{◌≡◌, ◌<◌, ◌≤◌, ◌++◌, IfOk, IfSome, OnErr, OnOk, IsTrue, SomeIff, drop, false, length};
ghost use Rattle.std.specs.Char.{digit_value, is_ascii_hexdigit};
ghost use Rattle.std.specs.List.{prefix_len};
ghost use Rattle.rack_text.specs.Escaped as spec;
ghost use Rattle.rack_text.specs.Escaped.{ReadsFirst, Unescapes, WritesFirst, spelled, spelled_behind, spelled_hex, spelling};

use crate::number::hex_digit;
use std::alloc::AllocError;

/// Appends the escaped text of a text, which `unescape` reads again as that text. The format is this
/// project's own.
///
/// A byte from 33 to 126 other than `\` stands for itself. A space is `\s`, LF `\n`, CR `\r`, a
/// backslash `\\`, and any other byte `\x` with two hexadecimal digits in lower case. The empty text is
/// `\e`.
///
/// It takes memory for at most four times as many bytes as the text has, and for two at least. Where
/// that is refused, `out` is as before.
pub fn escape(text: &[u8], out: &mut Vec<u8>) -> Result<(), AllocError>
    ensures written { OnOk result (out.new.items ≡ out.old.items ++ spec.escaped text.now) }
    ensures unchanged { OnErr result (out.new.items ≡ out.old.items) }
{
    if text.is_empty() {
        return out.extend_from_slice(b"\\e");
    }
    out.reserve(text.len())?;
    let before = out.len();
    let mut at = 0;
    while at < text.len() {
        match append_first(&text[at..], out) {
            Ok(read) => at += read,
            Err(refused) => {
                out.truncate(before);
                return Err(refused);
            }
        }
    }
    Ok(())
}

// Appends the spellings of the first bytes: of all that stand for themselves, or of the one byte that
// doesn't. Answers how many they are.
fn append_first(bytes: &[u8], out: &mut Vec<u8>) -> Result<usize, AllocError>
    requires { 0 < length bytes.now }
    ensures written { IfOk result (λ n. WritesFirst n bytes.now out.old.items out.new.items) }
    ensures unchanged { OnErr result (out.new.items ≡ out.old.items) }
{
    let run = plain_run(bytes);
    if run > 0 {
        out.extend_from_slice(&bytes[..run])?;
        return Ok(run);
    }
    append_spelling(bytes[0], out)?;
    Ok(1)
}

// How many bytes in front stand for themselves.
fn plain_run(bytes: &[u8]) -> usize
    ensures run { result ≡ prefix_len spec.is_plain bytes.now }
    ensures within { result ≤ length bytes.now }
{
    match bytes.iter().position(|&byte| !is_plain(byte)) {
        Some(end) => end,
        None => bytes.len(),
    }
}

fn is_plain(byte: u8) -> bool
    ensures { result ≡ spec.is_plain byte }
{
    33 <= byte && byte <= 126 && byte != b'\\'
}

// Appends the spelling of a byte that doesn't stand for itself.
fn append_spelling(byte: u8, out: &mut Vec<u8>) -> Result<(), AllocError>
    requires { spec.is_plain byte ≡ false }
    ensures written { OnOk result (out.new.items ≡ out.old.items ++ spelling byte) }
    ensures unchanged { OnErr result (out.new.items ≡ out.old.items) }
{
    match byte {
        b' ' => out.extend_from_slice(b"\\s"),
        b'\n' => out.extend_from_slice(b"\\n"),
        b'\r' => out.extend_from_slice(b"\\r"),
        b'\\' => out.extend_from_slice(b"\\\\"),
        _ => {
            let high = hex_digit(u64::from(byte / 16));
            let low = hex_digit(u64::from(byte % 16));
            out.extend_from_slice(&[b'\\', b'x', high, low])
        }
    }
}

/// Appends the text that an escaped text is of, and answers true. It answers false exactly where the
/// word is no escaped text, and `out` is then as before. The format is this project's own.
///
/// A byte from 33 to 126 other than `\` stands for itself. `\s` is a space, `\n` LF, `\r` CR, `\\` a
/// backslash, and `\x` with two hexadecimal digits any byte. `\e` alone is the empty text. So an
/// empty word is no escaped text, and neither is one with any other byte behind `\`.
///
/// It takes memory for as many bytes as the word has. Where that is refused, `out` is as before.
pub fn unescape(word: &[u8], out: &mut Vec<u8>) -> Result<bool, AllocError>
    ensures text { IfOk result (λ yes. Unescapes yes (spec.unescaped word.now) out.old.items out.new.items) }
    ensures unchanged { OnErr result (out.new.items ≡ out.old.items) }
{
    if word == b"\\e".as_slice() {
        return Ok(true);
    }
    if word.is_empty() {
        return Ok(false);
    }
    out.reserve(word.len())?;
    append_spelled(word, out)
}

// Appends the text that spellings of bytes, one behind the other, spell.
fn append_spelled(word: &[u8], out: &mut Vec<u8>) -> Result<bool, AllocError>
    ensures text { IfOk result (λ yes. Unescapes yes (spelled word.now) out.old.items out.new.items) }
    ensures unchanged { OnErr result (out.new.items ≡ out.old.items) }
{
    let start = out.len();
    let mut at = 0;
    while at < word.len() {
        let Some((byte, read)) = first_spelled(&word[at..]) else {
            out.truncate(start);
            return Ok(false);
        };
        if let Err(refused) = out.push(byte) {
            out.truncate(start);
            return Err(refused.into());
        }
        at += read;
    }
    Ok(true)
}

// The byte that the first spelling of these bytes is of, and how long the spelling is. None exactly where
// they begin with no spelling.
fn first_spelled(bytes: &[u8]) -> Option<(u8, usize)>
    requires { 0 < length bytes.now }
    ensures { ReadsFirst result (spelled bytes.now) bytes.now }
{
    if bytes[0] == b'\\' {
        return first_behind(bytes);
    }
    match plain_byte(bytes[0]) {
        Some(byte) => Some((byte, 1)),
        None => None,
    }
}

// The same of bytes that begin with `\`.
fn first_behind(bytes: &[u8]) -> Option<(u8, usize)>
    ensures { ReadsFirst result (spelled_behind (drop 1 bytes.now)) bytes.now }
{
    if bytes.len() < 2 {
        return None;
    }
    if bytes[1] == b'x' {
        return first_hex(bytes);
    }
    match letter_byte(bytes[1]) {
        Some(byte) => Some((byte, 2)),
        None => None,
    }
}

// The same of bytes that begin with `\x`.
fn first_hex(bytes: &[u8]) -> Option<(u8, usize)>
    ensures { ReadsFirst result (spelled_hex (drop 2 bytes.now)) bytes.now }
{
    if bytes.len() < 4 {
        return None;
    }
    match hex_byte(bytes[2], bytes[3]) {
        Some(byte) => Some((byte, 4)),
        None => None,
    }
}

// The byte that stands for itself.
fn plain_byte(byte: u8) -> Option<u8>
    ensures { result ≡ spec.plain_byte byte }
{
    match byte {
        b'\\' => None,
        33..=126 => Some(byte),
        _ => None,
    }
}

// The byte that `\` with this letter spells.
fn letter_byte(letter: u8) -> Option<u8>
    ensures { result ≡ spec.letter_byte letter }
{
    match letter {
        b's' => Some(b' '),
        b'n' => Some(b'\n'),
        b'r' => Some(b'\r'),
        b'\\' => Some(b'\\'),
        _ => None,
    }
}

// The byte that `\x` with these two digits spells.
fn hex_byte(high: u8, low: u8) -> Option<u8>
    ensures { result ≡ spec.hex_byte high low }
{
    Some(hex_value(high)? * 16 + hex_value(low)?)
}

// The value of a hexadecimal digit, in upper or lower case.
fn hex_value(digit: u8) -> Option<u8>
    ensures value { SomeIff result (IsTrue (is_ascii_hexdigit digit)) (digit_value digit) }
    ensures small { IfSome result (λ d. d < 16) }
{
    match digit {
        b'0'..=b'9' => Some(digit - b'0'),
        b'a'..=b'f' => Some(digit - b'a' + 10),
        b'A'..=b'F' => Some(digit - b'A' + 10),
        _ => None,
    }
}
