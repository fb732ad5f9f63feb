// The pairs that come of a request's fields.
ghost use Rattle.std.specs.Prelude.{◌≡◌, ◌≤◌, ◌+◌, ◌^◌, OnOk, codes, length, map, option_copied, take, vec_len};
ghost use Rattle.std.specs.List.{fold, list_any};
ghost use Rattle.rack_types.specs.Env.{with_pairs};
ghost use Rattle.rack_env.specs.Fields as spec;
ghost use Rattle.rack_env.specs.Placing.{place_field, host_last};

use rack_text::same_ignoring_case;
use rack_types::{Env, NoMemory, Request};

// The name that the Host field has in the environment.
const HTTP_HOST: &[u8] = b"HTTP_HOST";

// The length of `HTTP_`, with which each name begins.
const PREFIX: usize = 5;

// How much longer than a name asks for the room is made, so that it seldom grows.
const SPARE: usize = 64;

/// Puts the fields behind what is there, with the target's authority for the Host field.
pub(crate) fn put_fields(env: &mut Env, request: &Request) -> Result<(), NoMemory>
    ensures { OnOk result (env.new ≡ with_pairs env.old
        (host_last request.now.authority (fold (place_field request.now.authority) env.old.pairs request.now.fields))) }
{
    let authority = request.authority();
    let mut room = env.take_room();
    begin_names(&mut room)?;
    for i in 0..request.field_count() {
        put_field(
            env,
            &mut room,
            authority,
            request.field_name(i),
            request.field_value(i),
        )?;
    }
    env.keep_room(room);
    match authority {
        Some(authority) if env.get(HTTP_HOST).is_none() => env.set_static(HTTP_HOST, authority),
        _ => Ok(()),
    }
}

// Makes the room begin as each name does.
fn begin_names(room: &mut Vec<u8>) -> Result<(), NoMemory>
    ensures { OnOk result (take 5 room.new.items ≡ codes "HTTP_") }
{
    room.resize(PREFIX + SPARE, 0)?;
    let (prefix, _) = room.as_mut_slice().split_at_mut(PREFIX);
    prefix.copy_from_slice(b"HTTP_");
    Ok(())
}

// Puts one field behind what is there, or lets the value of its name go on. The name is put together
// in this room, which begins as each name does.
fn put_field(
    env: &mut Env,
    room: &mut Vec<u8>,
    authority: Option<&[u8]>,
    field: &[u8],
    value: &[u8],
) -> Result<(), NoMemory>
    requires { take 5 room.old.items ≡ codes "HTTP_" }
    ensures begins { OnOk result (take 5 room.new.items ≡ codes "HTTP_") }
    ensures placed { OnOk result (env.new ≡ with_pairs env.old
        (place_field (option_copied authority.entry) env.old.pairs (field.now, value.now))) }
{
    if is_left_out(field) {
        return Ok(());
    }
    write_name(room, field)?;
    let name = &room[..PREFIX + field.len()];
    match authority {
        Some(authority) if name == HTTP_HOST => env.set_static(HTTP_HOST, authority),
        _ => env.add(name, b", ", value),
    }
}

// Whether no HTTP_ name comes of the field.
fn is_left_out(name: &[u8]) -> bool
    ensures { result ≡ spec.is_left_out name.now }
{
    has_underscore(name)
        || same_ignoring_case(name, b"transfer-encoding")
        || same_ignoring_case(name, b"content-type")
        || same_ignoring_case(name, b"content-length")
}

// Whether the name has `_`.
fn has_underscore(name: &[u8]) -> bool
    ensures { result ≡ list_any spec.is_underscore name.now }
{
    name.contains(&b'_')
}

// Writes the name that a field has in the environment to the front of the room, where its prefix stands. Behind
// that it raises whole groups of eight bytes, which is faster than the last bytes one by one, so the room goes on
// behind the name.
fn write_name(room: &mut Vec<u8>, field: &[u8]) -> Result<(), NoMemory>
    requires { take 5 room.old.items ≡ codes "HTTP_" }
    ensures begins { OnOk result (take 5 room.new.items ≡ codes "HTTP_") }
    ensures room { OnOk result (5 + length field.now ≤ vec_len room.new) }
    ensures name { OnOk result (take (5 + length field.now) room.new.items ≡ spec.http_name field.now) }
{
    let groups = field.len() / 8 + 1;
    lengthen(room, PREFIX + groups * 8)?;
    let (_, place) = room.as_mut_slice().split_at_mut(PREFIX);
    write_raised(&mut place[..groups * 8], field);
    Ok(())
}

// Makes the room at least so long. What it begins with stays.
fn lengthen(room: &mut Vec<u8>, end: usize) -> Result<(), NoMemory>
    requires begins { take 5 room.old.items ≡ codes "HTTP_" }
    requires small { end ≤ 2 ^ 63 + 13 }
    ensures begins { OnOk result (take 5 room.new.items ≡ codes "HTTP_") }
    ensures long { OnOk result (end ≤ vec_len room.new) }
{
    if room.len() < end {
        room.resize(end + SPARE, 0)?;
    }
    Ok(())
}

// Writes the bytes of a field's name to the front of a place, raised. What is behind them is not said.
fn write_raised(place: &mut [u8], field: &[u8])
    requires { length field.now ≤ length place.old }
    ensures len { length place.new ≡ length place.old }
    ensures raised { take (length field.now) place.new ≡ map spec.name_byte field.now }
{
    place[..field.len()].copy_from_slice(field);
    raise(place);
}

// Raises each byte of a name, in one pass.
fn raise(name: &mut [u8])
    ensures { name.new ≡ map spec.name_byte name.old }
{
    for byte in name.iter_mut() {
        *byte = name_byte(*byte);
    }
}

// A byte of a field's name: in upper case, with `_` for `-`.
fn name_byte(byte: u8) -> u8
    ensures { result ≡ spec.name_byte byte }
{
    if byte == b'-' {
        b'_'
    } else {
        byte.to_ascii_uppercase()
    }
}
