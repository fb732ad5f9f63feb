// Numbers, written.
ghost use Rattle.std.specs.Prelude.{◌≡◌, ◌≤◌, ◌<◌, ◌++◌, false, OnErr, OnOk, decimal, drop};
ghost use Rattle.std.specs.Fmt.{digits, digit_glyph};

use itoa::Buffer;
use std::alloc::AllocError;

/// Appends the number in decimal digits, most significant first, without zeros in front; 0 is `0`.
///
/// It takes memory for at most 39 bytes. Where that is refused, nothing is appended.
pub fn write_decimal(n: u128, out: &mut Vec<u8>) -> Result<(), AllocError>
    ensures written { OnOk result (out.new.items ≡ out.old.items ++ decimal n) }
    ensures unchanged { OnErr result (out.new.items ≡ out.old.items) }
{
    out.extend_from_slice(Buffer::new().format(n).as_bytes())
}

/// Appends the number in hexadecimal digits, lower case, most significant first, without zeros in
/// front; 0 is `0`. Chunk sizes are spelled so (RFC 9112, section 7.1; the case is this project's own).
///
/// It takes memory for at most 16 bytes. Where that is refused, nothing is appended.
pub fn write_hex(n: u64, out: &mut Vec<u8>) -> Result<(), AllocError>
    ensures written { OnOk result (out.new.items ≡ out.old.items ++ digits 16 false n) }
    ensures unchanged { OnErr result (out.new.items ≡ out.old.items) }
{
    let mut room = [0; 64];
    let start = put_hex(n, &mut room);
    out.extend_from_slice(&room[start..])
}

/// Writes the number in hexadecimal digits, as `write_hex` does, to the end of the room, and answers
/// where they begin. It takes no memory.
pub fn put_hex(n: u64, room: &mut [u8; 64]) -> usize
    ensures within { result ≤ 64 }
    ensures digits { drop result room.new ≡ digits 16 false n }
{
    let mut start = 64;
    let mut rest = n;
    while start > 0 {
        start -= 1;
        room[start] = hex_digit(rest % 16);
        rest /= 16;
        if rest == 0 {
            break;
        }
    }
    start
}

// The digit in lower case.
pub(crate) fn hex_digit(digit: u64) -> u8
    requires { digit < 16 }
    ensures { result ≡ digit_glyph false digit }
{
    if digit < 10 {
        b'0' + digit as u8
    } else {
        b'a' + (digit - 10) as u8
    }
}
