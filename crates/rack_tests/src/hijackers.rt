// The stock hijackers, through their trait.
//
// What these functions hold when they end early is dropped there, and each such end has to be proved. So
// hardly anything is held where one may end.
use hijack_core::{Hijack, Said, Stock};
use rack_types::NoMemory;
use std::alloc::Global;
use std::test::Fail;

fn put(said: &mut Vec<u8>, bytes: &[u8]) -> Result<(), NoMemory> {
    said.extend_from_slice(bytes)
}

// Writes down what is told, and answers whether it goes on.
fn put_told(said: &mut Vec<u8>, told: Said) -> Result<bool, NoMemory> {
    match put(said, told.bytes.get()) {
        Ok(()) => Ok(told.go_on),
        Err(refused) => Err(refused),
    }
}

// Tells these bytes in pieces of at most this size, and after each of them that the server drains, and
// then the end. Writes down what is said, with a bar where it ends by itself.
fn put_heard<H: Hijack>(
    hijacker: &mut H,
    bytes: &[u8],
    size: usize,
    said: &mut Vec<u8>,
) -> Result<(), NoMemory> {
    for piece in bytes.chunks(size.max(1)) {
        if !put_told(said, hijacker.on_bytes(piece)?)? {
            return put(said, b"|");
        }
        hijacker.leave();
    }
    put_told(said, hijacker.on_end()?)?;
    Ok(())
}

fn heard<H: Hijack>(
    alloc: Global,
    hijacker: &mut H,
    bytes: &[u8],
    size: usize,
) -> Result<Vec<u8>, NoMemory> {
    let mut said = Vec::new(alloc);
    match put_heard(hijacker, bytes, size, &mut said) {
        Ok(()) => Ok(said),
        Err(refused) => Err(refused),
    }
}

fn hears<H: Hijack>(
    alloc: Global,
    hijacker: &mut H,
    bytes: &[u8],
    wanted: &[u8],
    size: usize,
) -> Result<bool, NoMemory> {
    let said = heard(alloc, hijacker, bytes, size)?;
    Ok(said.as_slice() == wanted)
}

fn says(
    alloc: Global,
    upper: bool,
    bytes: &[u8],
    wanted: &[u8],
    size: usize,
) -> Result<bool, NoMemory> {
    hears(alloc, &mut Stock::new(alloc, upper), bytes, wanted, size)
}

const SIZES: [usize; 4] = [1, 7, 64, 16_384];

// Whether this is said, however the bytes are cut.
fn says_in_pieces(
    alloc: Global,
    upper: bool,
    bytes: &[u8],
    wanted: &[u8],
) -> Result<bool, NoMemory> {
    for size in SIZES {
        if !says(alloc, upper, bytes, wanted, size)? {
            return Ok(false);
        }
    }
    Ok(true)
}

// Whether upper is asked, the bytes, and what is said.
const HEARD: [(bool, &str, &str); 10] = [
    (false, "", ""),
    (false, "ab", "ab"),
    (false, "aB\u{4}c\n", "aB\u{4}c\n"),
    (true, "", ""),
    (true, "ab", "AB"),
    (
        true,
        "azAZ09`{@[ \n\0\u{3}\u{5}",
        "AZAZ09`{@[ \n\0\u{3}\u{5}",
    ),
    (true, "\u{e1}\u{df}", "\u{e1}\u{df}"),
    (true, "a\u{4}b", "A|"),
    (true, "\u{4}", "|"),
    (true, "a\u{4}\u{4}b", "A|"),
];

fn first_wrong(alloc: Global, rows: &[(bool, &str, &str)]) -> Result<Option<usize>, NoMemory> {
    for (i, (upper, bytes, wanted)) in rows.iter().enumerate() {
        if !says_in_pieces(alloc, *upper, bytes.as_bytes(), wanted.as_bytes())? {
            return Ok(Some(i));
        }
    }
    Ok(None)
}

#[test]
fn stock_hijackers_are_told_what_comes(rt: HostRuntime) -> Result<(), Fail> {
    assert_eq!(rt; first_wrong(rt.alloc(), &HEARD)?, None);
    Ok(())
}

fn answers_nothing(alloc: Global, upper: bool) -> Result<bool, NoMemory> {
    let said = Stock::new(alloc, upper).on_bytes(b"")?;
    Ok(said.bytes.get().is_empty() && said.go_on)
}

// No byte is a piece too, and is answered by none.
#[test]
fn an_empty_piece_is_told(rt: HostRuntime) -> Result<(), Fail> {
    assert!(rt; answers_nothing(rt.alloc(), false)?);
    assert!(rt; answers_nothing(rt.alloc(), true)?);
    Ok(())
}

const LETTERS: &[u8] = b"abcdefghijklmnopqrstuvwxyz`{@[A\0abcdefghijklmnopqrstuvwxyz`{@[A\0";

const CAPITALS: &[u8] = b"ABCDEFGHIJKLMNOPQRSTUVWXYZ`{@[A\0ABCDEFGHIJKLMNOPQRSTUVWXYZ`{@[A\0";

// The letters with the end at this place.
fn letters(alloc: Global, place: usize) -> Result<Vec<u8>, NoMemory> {
    let mut bytes = Vec::from_slice(alloc, LETTERS)?;
    if place < bytes.len() {
        bytes[place] = 4;
    }
    Ok(bytes)
}

// The capitals in front of this place, and a bar.
fn capitals(alloc: Global, place: usize) -> Result<Vec<u8>, NoMemory> {
    let mut bytes = Vec::from_slice(alloc, &CAPITALS[..place.min(64)])?;
    bytes.push(b'|')?;
    Ok(bytes)
}

fn ends_behind(alloc: Global, bytes: &[u8], place: usize) -> Result<bool, NoMemory> {
    let wanted = capitals(alloc, place)?;
    says_in_pieces(alloc, true, bytes, wanted.as_slice())
}

fn ends_at(alloc: Global, place: usize) -> Result<bool, NoMemory> {
    let bytes = letters(alloc, place)?;
    ends_behind(alloc, bytes.as_slice(), place)
}

fn first_wrong_place(alloc: Global) -> Result<Option<usize>, NoMemory> {
    for place in 0..64 {
        if !ends_at(alloc, place)? {
            return Ok(Some(place));
        }
    }
    Ok(None)
}

#[test]
fn upper_ends_at_each_place_of_a_piece(rt: HostRuntime) -> Result<(), Fail> {
    assert_eq!(rt; first_wrong_place(rt.alloc())?, None);
    Ok(())
}

fn put_many(text: &mut Vec<u8>, bytes: &[u8]) -> Result<(), NoMemory> {
    for _ in 0..3_200 {
        put(text, bytes)?;
    }
    Ok(())
}

// These 64 bytes 3,200 times, which are 200 KiB.
fn many(alloc: Global, bytes: &[u8]) -> Result<Vec<u8>, NoMemory> {
    let mut text = Vec::new(alloc);
    match put_many(&mut text, bytes) {
        Ok(()) => Ok(text),
        Err(refused) => Err(refused),
    }
}

fn goes_through(alloc: Global, letters: &[u8], wanted: &[u8]) -> Result<bool, NoMemory> {
    let upper = says_in_pieces(alloc, true, letters, wanted)?;
    let echo = says_in_pieces(alloc, false, letters, letters)?;
    Ok(letters.len() == 204_800 && upper && echo)
}

#[test]
fn many_bytes_go_through(rt: HostRuntime) -> Result<(), Fail> {
    let letters = many(rt.alloc(), LETTERS)?;
    let capitals = many(rt.alloc(), CAPITALS)?;
    assert!(rt; goes_through(rt.alloc(), letters.as_slice(), capitals.as_slice())?);
    Ok(())
}
