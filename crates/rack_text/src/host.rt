// Hosts (RFC 9112, section 3.2).
ghost use Rattle.std.specs.Prelude.{◌≡◌, ◌+◌, ◌≤◌, length, option_map, option_and_then, is_some, MatchOption};
ghost use Rattle.std.specs.List.{prefix_len};
ghost use Rattle.rack_text.specs.Decimal.{decimal_number};
ghost use Rattle.rack_text.specs.Host as spec;

use crate::decimal::read_decimal;

/// A host's name, and its port where it has one. The empty host has the empty name and no port.
#[derive(Debug, Clone, Copy, PartialEq, Eq)]
pub struct Host<'a> {
    /// The name, with the brackets of an address.
    pub name: &'a [u8],
    /// The port that stands behind the name, if any.
    pub port: Option<u16>,
}

/// Reads a `Host` field's value, or a target's authority (RFC 9112, section 3.2; RFC 3986,
/// section 3.2.2).
///
/// It is `None` exactly where the text is no valid host. A valid host is empty, or a name with an
/// optional `:` and port. A name is one or more letters, digits or bytes of `-._~!$&'()*+,;=%`, or
/// `[`, one or more hexadecimal digits, `:` and `.`, and `]`. A port is empty, which is none, or a
/// decimal number up to 65,535, with zeros in front or without.
pub fn read_host(text: &[u8]) -> Option<Host<'_>>
    ensures parts { option_map (λ h. (h.name.now, h.port)) result ≡ spec.host_parts text.now }
    ensures exactly { MatchOption result
        (spec.IsNoHost text.now) (λ h. spec.IsHost text.now h.name.now h.port) }
    ensures valid { is_some result ≡ spec.is_valid_host text.now }
{
    if text.is_empty() {
        return Some(Host {
            name: text,
            port: None,
        });
    }
    let (name, behind) = text.split_at(name_len(text));
    if name.is_empty() {
        return None;
    }
    let port = port_behind(behind)?;
    Some(Host { name, port })
}

// How long the name is that the text begins with, or 0.
fn name_len(text: &[u8]) -> usize
    ensures len { result ≡ spec.name_len text.now }
    ensures within { result ≤ length text.now }
{
    match text {
        [b'[', inside @ ..] => bracketed_len(inside),
        _ => name_run(text),
    }
}

// How long the name is that begins with the `[` before these bytes, or 0.
fn bracketed_len(inside: &[u8]) -> usize
    ensures len { result ≡ spec.bracketed_len inside.now }
    ensures within { result ≤ length inside.now + 1 }
{
    let end = address_run(inside);
    if end > 0 && end < inside.len() && inside[end] == b']' {
        end + 2
    } else {
        0
    }
}

// How many bytes in front may stand in a name without brackets.
fn name_run(text: &[u8]) -> usize
    ensures run { result ≡ prefix_len spec.is_name_byte text.now }
    ensures within { result ≤ length text.now }
{
    match text.iter().position(|&byte| !is_name_byte(byte)) {
        Some(end) => end,
        None => text.len(),
    }
}

// How many bytes in front may stand in an address between brackets.
fn address_run(text: &[u8]) -> usize
    ensures run { result ≡ prefix_len spec.is_address_byte text.now }
    ensures within { result ≤ length text.now }
{
    match text.iter().position(|&byte| !is_address_byte(byte)) {
        Some(end) => end,
        None => text.len(),
    }
}

// Whether the byte may stand in a name without brackets.
#[tactic(auto, unfolding(crate::specs::Host::is_name_byte))]
fn is_name_byte(byte: u8) -> bool
    ensures { result ≡ spec.is_name_byte byte }
{
    // The range is `$%&'()*+,-.`.
    byte.is_ascii_alphanumeric() || matches!(byte, b'!' | b'$'..=b'.' | b';' | b'=' | b'_' | b'~')
}

// Whether the byte may stand in an address between brackets.
#[tactic(auto, unfolding(crate::specs::Host::is_address_byte))]
fn is_address_byte(byte: u8) -> bool
    ensures { result ≡ spec.is_address_byte byte }
{
    byte.is_ascii_hexdigit() || byte == b':' || byte == b'.'
}

// The port, if any, that is told behind a name, by nothing or by a `:` and a port.
fn port_behind(behind: &[u8]) -> Option<Option<u16>>
    ensures { result ≡ spec.port_behind behind.now }
{
    match behind {
        [] | [b':'] => Some(None),
        [b':', digits @ ..] => Some(Some(port_number(digits)?)),
        _ => None,
    }
}

// The number of a port that the digits write, with zeros in front or without.
fn port_number(digits: &[u8]) -> Option<u16>
    ensures { result ≡ option_and_then spec.port_of (decimal_number digits.now) }
{
    u16::try_from(read_decimal(digits)?).ok()
}
