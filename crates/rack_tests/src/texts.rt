// Words, numbers and hosts as tables. A test asks one function for the first row at which something else
// comes: that is proved faster than a table that stands in a test.
use rack_text::*;
use std::alloc::{AllocError, Global};

const NUMBERS: [(&str, Option<u128>); 18] = [
    ("0", Some(0)),
    ("00042", Some(42)),
    ("18446744073709551616", Some(18_446_744_073_709_551_616)),
    ("340282366920938463463374607431768211455", Some(u128::MAX)),
    ("340282366920938463463374607431768211456", None),
    ("999999999999999999999999999999999999999", None),
    ("1000000000000000000000000000000000000000", None),
    ("0340282366920938463463374607431768211455", Some(u128::MAX)),
    ("000000000000000000000000000000000000000000000007", Some(7)),
    ("", None),
    ("+1", None),
    ("-1", None),
    (" 1", None),
    ("1\t", None),
    ("1,2", None),
    ("0x1f", None),
    ("/", None),
    (":", None),
];

fn first_wrong_number(rows: &[(&str, Option<u128>)]) -> Option<usize> {
    for (i, (text, number)) in rows.iter().enumerate() {
        if read_decimal(text.as_bytes()) != *number {
            return Some(i);
        }
    }
    None
}

const DECIMALS: [(&str, bool); 5] = [
    ("0123456789", true),
    ("1000000000000000000000000000000000000000", true),
    ("", false),
    ("1 ", false),
    ("+1", false),
];

fn first_wrong_decimal(rows: &[(&str, bool)]) -> Option<usize> {
    for (i, (text, decimal)) in rows.iter().enumerate() {
        if is_decimal(text.as_bytes()) != *decimal {
            return Some(i);
        }
    }
    None
}

#[test]
fn reads_decimal_numbers(rt: HostRuntime) {
    assert_eq!(rt; first_wrong_number(&NUMBERS), None);
    assert_eq!(rt; first_wrong_decimal(&DECIMALS), None);
}

const TOKENS: [(&str, bool); 10] = [
    ("Content-Length", true),
    ("!#$%&'*+-.^_`|~09azAZ", true),
    ("", false),
    ("a b", false),
    ("a\t", false),
    ("a:", false),
    ("a,b", false),
    ("\"a\"", false),
    ("é", false),
    ("\u{7f}", false),
];

fn first_wrong_token(rows: &[(&str, bool)]) -> Option<usize> {
    for (i, (text, token)) in rows.iter().enumerate() {
        if is_token(text.as_bytes()) != *token {
            return Some(i);
        }
    }
    None
}

const CASES: [(&str, &str, bool); 6] = [
    ("Keep-Alive", "kEEP-aLIVE", true),
    ("", "", true),
    ("@[`{", "@[`{", true),
    ("@[", "`{", false),
    ("close", "closed", false),
    ("É", "é", false),
];

fn first_wrong_case(rows: &[(&str, &str, bool)]) -> Option<usize> {
    for (i, (a, b, same)) in rows.iter().enumerate() {
        if same_ignoring_case(a.as_bytes(), b.as_bytes()) != *same {
            return Some(i);
        }
    }
    None
}

#[test]
fn tells_tokens_and_case(rt: HostRuntime) {
    assert_eq!(rt; first_wrong_token(&TOKENS), None);
    assert_eq!(rt; first_wrong_case(&CASES), None);
}

// The first five rows are examples of RFC 9110, section 5.6.1. Each element has a bar behind it.
const LISTS: [(&str, &str); 7] = [
    ("foo,bar", "foo|bar|"),
    ("foo ,bar,", "foo|bar|"),
    ("foo , ,bar,charlie", "foo|bar|charlie|"),
    ("", ""),
    (",   ,", ""),
    ("\t\tgzip \t,\tchunked\t", "gzip|chunked|"),
    (" a b ,, c;q=\"1", "a b|c;q=\"1|"),
];

fn put_elements(value: &[u8], out: &mut Vec<u8>) -> Result<(), AllocError> {
    for element in elements(value) {
        out.extend_from_slice(element)?;
        out.extend_from_slice(b"|")?;
    }
    Ok(())
}

fn joined(alloc: Global, value: &[u8]) -> Result<Vec<u8>, AllocError> {
    let mut out = Vec::new(alloc);
    match put_elements(value, &mut out) {
        Ok(()) => Ok(out),
        Err(refused) => Err(refused),
    }
}

fn has_its_elements(value: &[u8]) -> bool {
    for element in elements(value) {
        if !list_has(value, element) {
            return false;
        }
    }
    true
}

fn lends(alloc: Global, value: &str, wanted: &str) -> Result<bool, AllocError> {
    let joined = joined(alloc, value.as_bytes())?;
    Ok(joined.as_slice() == wanted.as_bytes() && has_its_elements(value.as_bytes()))
}

fn first_wrong_list(alloc: Global, rows: &[(&str, &str)]) -> Result<Option<usize>, AllocError> {
    for (i, (value, wanted)) in rows.iter().enumerate() {
        if !lends(alloc, value, wanted)? {
            return Ok(Some(i));
        }
    }
    Ok(None)
}

#[test]
fn lends_elements(rt: HostRuntime) -> Result<(), AllocError> {
    assert_eq!(rt; first_wrong_list(rt.alloc(), &LISTS)?, None);
    assert_eq!(rt; elements(b"a,,b").count(), 2);
    Ok(())
}

const WORDS: [(&str, &str, bool); 8] = [
    ("keep-alive, Close", "cLOSE", true),
    ("keep-alive,\tclose ", "close", true),
    ("closed, not-close", "close", false),
    ("upgrade", "upgrade, close", false),
    ("close\r", "close", false),
    (" , ", "", false),
    ("", "", false),
    ("close", " close", false),
];

fn first_wrong_word(rows: &[(&str, &str, bool)]) -> Option<usize> {
    for (i, (value, word, found)) in rows.iter().enumerate() {
        if list_has(value.as_bytes(), word.as_bytes()) != *found {
            return Some(i);
        }
    }
    None
}

#[test]
fn finds_words(rt: HostRuntime) {
    assert_eq!(rt; first_wrong_word(&WORDS), None);
}

const HOSTS: [(&str, &str, Option<u16>); 13] = [
    ("", "", None),
    ("www.example.org", "www.example.org", None),
    ("www.example.org:8080", "www.example.org", Some(8080)),
    ("h:", "h", None),
    ("h:080", "h", Some(80)),
    ("h:0", "h", Some(0)),
    ("h:65535", "h", Some(65_535)),
    (
        "h:000000000000000000000000000000000000000000080",
        "h",
        Some(80),
    ),
    ("a_b%20", "a_b%20", None),
    ("-._~!$&'()*+,;=%", "-._~!$&'()*+,;=%", None),
    ("[::1]", "[::1]", None),
    ("[::1]:80", "[::1]", Some(80)),
    ("[::ffff:192.0.2.1]:", "[::ffff:192.0.2.1]", None),
];

fn is_host(text: &str, name: &str, port: Option<u16>) -> bool {
    let host = Host {
        name: name.as_bytes(),
        port,
    };
    read_host(text.as_bytes()) == Some(host)
}

fn first_wrong_host(rows: &[(&str, &str, Option<u16>)]) -> Option<usize> {
    for (i, (text, name, port)) in rows.iter().enumerate() {
        if !is_host(text, name, *port) {
            return Some(i);
        }
    }
    None
}

const NO_HOSTS: [&str; 25] = [
    "h:65536",
    "h:340282366920938463463374607431768211536",
    "h:+1",
    "h:1 ",
    "h:80:80",
    "a:b",
    ":",
    ":80",
    "::1",
    "[",
    "[]",
    "[]:80",
    "[::1",
    "[::1:80",
    "[::1]x",
    "[::1]80",
    "[g]",
    "[::1%25en0]",
    "a[::1]",
    "user@h",
    "a b",
    "h/",
    "h#",
    "h\t",
    "é",
];

fn first_host(rows: &[&str]) -> Option<usize> {
    for (i, text) in rows.iter().enumerate() {
        if read_host(text.as_bytes()).is_some() {
            return Some(i);
        }
    }
    None
}

#[test]
fn reads_hosts(rt: HostRuntime) {
    assert_eq!(rt; first_wrong_host(&HOSTS), None);
    assert_eq!(rt; first_host(&NO_HOSTS), None);
}

const WRITTEN: [(u128, &str); 3] = [
    (0, "0"),
    (10_000, "10000"),
    (u128::MAX, "340282366920938463463374607431768211455"),
];

const IN_HEX: [(u64, &str); 6] = [
    (0, "0"),
    (9, "9"),
    (10, "a"),
    (255, "ff"),
    (65_536, "10000"),
    (u64::MAX, "ffffffffffffffff"),
];

fn decimal_of(alloc: Global, number: u128) -> Result<Vec<u8>, AllocError> {
    let mut out = Vec::new(alloc);
    match write_decimal(number, &mut out) {
        Ok(()) => Ok(out),
        Err(refused) => Err(refused),
    }
}

fn hex_of(alloc: Global, number: u64) -> Result<Vec<u8>, AllocError> {
    let mut out = Vec::new(alloc);
    match write_hex(number, &mut out) {
        Ok(()) => Ok(out),
        Err(refused) => Err(refused),
    }
}

fn writes_decimals(alloc: Global, rows: &[(u128, &str)]) -> Result<bool, AllocError> {
    for (number, wanted) in rows {
        if decimal_of(alloc, *number)?.as_slice() != wanted.as_bytes() {
            return Ok(false);
        }
    }
    Ok(true)
}

fn writes_hex(alloc: Global, rows: &[(u64, &str)]) -> Result<bool, AllocError> {
    for (number, wanted) in rows {
        if hex_of(alloc, *number)?.as_slice() != wanted.as_bytes() {
            return Ok(false);
        }
    }
    Ok(true)
}

#[test]
fn writes_numbers(rt: HostRuntime) -> Result<(), AllocError> {
    assert!(rt; writes_decimals(rt.alloc(), &WRITTEN)?);
    assert!(rt; writes_hex(rt.alloc(), &IN_HEX)?);
    Ok(())
}

const ESCAPED: [(&str, Option<&str>); 17] = [
    ("\\e", Some("")),
    ("!~", Some("!~")),
    ("a\\sb\\n\\r\\\\", Some("a b\n\r\\")),
    ("\\x41\\x0a\\x0A\\x7e", Some("A\n\n~")),
    ("\\s\\xc3\\xa9", Some(" é")),
    ("", None),
    ("a b", None),
    ("a\u{7f}", None),
    ("é", None),
    ("\\", None),
    ("a\\", None),
    ("\\t", None),
    ("\\ea", None),
    ("a\\e", None),
    ("\\x4", None),
    ("\\xg0", None),
    ("\\x0G", None),
];

// What is read of a word behind a `#`, which also stands where the word is none.
fn unescaped(alloc: Global, word: &[u8]) -> Result<(Vec<u8>, bool), AllocError> {
    let mut out = Vec::from_slice(alloc, b"#")?;
    match unescape(word, &mut out) {
        Ok(read) => Ok((out, read)),
        Err(refused) => Err(refused),
    }
}

fn is_behind(said: &[u8], text: &[u8]) -> bool {
    match said.split_first() {
        Some((first, rest)) => *first == b'#' && rest == text,
        None => false,
    }
}

fn is_unescaped(alloc: Global, word: &str, text: &Option<&str>) -> Result<bool, AllocError> {
    let (out, read) = unescaped(alloc, word.as_bytes())?;
    Ok(read == text.is_some() && is_behind(out.as_slice(), text.unwrap_or("").as_bytes()))
}

fn first_wrong_escaped(
    alloc: Global,
    rows: &[(&str, Option<&str>)],
) -> Result<Option<usize>, AllocError> {
    for (i, (word, text)) in rows.iter().enumerate() {
        if !is_unescaped(alloc, word, text)? {
            return Ok(Some(i));
        }
    }
    Ok(None)
}

#[test]
fn unescapes_words(rt: HostRuntime) -> Result<(), AllocError> {
    assert_eq!(rt; first_wrong_escaped(rt.alloc(), &ESCAPED)?, None);
    Ok(())
}

const TEXTS: [(&str, &str); 8] = [
    ("", "\\e"),
    ("!~09Az[]", "!~09Az[]"),
    (" ", "\\s"),
    ("1, 2", "1,\\s2"),
    ("a\nb\r\\", "a\\nb\\r\\\\"),
    ("\\e", "\\\\e"),
    ("\0\t\u{1f}\u{7f}", "\\x00\\x09\\x1f\\x7f"),
    ("é", "\\xc3\\xa9"),
];

fn escaped(alloc: Global, text: &[u8]) -> Result<Vec<u8>, AllocError> {
    let mut out = Vec::from_slice(alloc, b"#")?;
    match escape(text, &mut out) {
        Ok(()) => Ok(out),
        Err(refused) => Err(refused),
    }
}

fn is_escaped(alloc: Global, text: &str, word: &str) -> Result<bool, AllocError> {
    let out = escaped(alloc, text.as_bytes())?;
    Ok(is_behind(out.as_slice(), word.as_bytes()))
}

fn first_wrong_text(alloc: Global, rows: &[(&str, &str)]) -> Result<Option<usize>, AllocError> {
    for (i, (text, word)) in rows.iter().enumerate() {
        if !is_escaped(alloc, text, word)? {
            return Ok(Some(i));
        }
    }
    Ok(None)
}

#[test]
fn escapes_texts(rt: HostRuntime) -> Result<(), AllocError> {
    assert_eq!(rt; first_wrong_text(rt.alloc(), &TEXTS)?, None);
    Ok(())
}
