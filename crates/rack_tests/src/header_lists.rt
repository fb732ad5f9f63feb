// Headers that are added and set.
use rack_types::{Bytes, Headers, NoMemory};
use std::alloc::Global;

fn put_header(text: &mut Vec<u8>, name: &[u8], value: &[u8]) -> Result<(), NoMemory> {
    text.extend_from_slice(name)?;
    text.extend_from_slice(b"=")?;
    text.extend_from_slice(value)?;
    text.extend_from_slice(b"|")
}

fn put_headers(text: &mut Vec<u8>, headers: &Headers) -> Result<(), NoMemory> {
    for i in 0..headers.len() {
        for j in 0..headers.value_count(i) {
            put_header(text, headers.name(i), headers.value(i, j))?;
        }
    }
    Ok(())
}

fn add_some(headers: &mut Headers) -> Result<(), NoMemory> {
    headers.add(b"set-cookie", b"a=1")?;
    headers.set_static(b"content-type", b"text/plain")?;
    headers.add(b"set-cookie", b"b=2")
}

fn put_added(headers: &mut Headers, text: &mut Vec<u8>) -> Result<(), NoMemory> {
    add_some(headers)?;
    put_headers(text, headers)
}

// Some headers that are added, as text.
fn added(alloc: Global, headers: &mut Headers) -> Result<Vec<u8>, NoMemory> {
    let mut text = Vec::new(alloc);
    match put_added(headers, &mut text) {
        Ok(()) => Ok(text),
        Err(refused) => Err(refused),
    }
}

#[test]
fn adds_values_in_place(rt: HostRuntime) -> Result<(), NoMemory> {
    let mut headers = Headers::with_room(rt.alloc(), 2)?;
    let text = added(rt.alloc(), &mut headers)?;
    assert_eq!(rt;
        text.as_slice(),
        "set-cookie=a=1|set-cookie=b=2|content-type=text/plain|".as_bytes()
    );
    Ok(())
}

fn set_age(alloc: Global, headers: &mut Headers) -> Result<(), NoMemory> {
    let age = Bytes::new(Vec::from_slice(alloc, b"5")?);
    headers.set_value(b"age", age)
}

fn put_set(
    alloc: Global,
    headers: &mut Headers,
    text: &mut Vec<u8>,
) -> Result<Option<usize>, NoMemory> {
    headers.set(b"etag", b"x")?;
    set_age(alloc, headers)?;
    headers.set(b"etag", b"y")?;
    put_headers(text, headers)?;
    Ok(headers.get(b"age"))
}

// Whether the headers that are set are these, and the second stands second.
fn sets(alloc: Global, wanted: &str) -> Result<bool, NoMemory> {
    let mut headers = Headers::new(alloc);
    let mut text = Vec::new(alloc);
    match put_set(alloc, &mut headers, &mut text) {
        Ok(age) => Ok(age == Some(1) && text.as_slice() == wanted.as_bytes()),
        Err(refused) => Err(refused),
    }
}

#[test]
fn sets_one_value_in_place(rt: HostRuntime) -> Result<(), NoMemory> {
    assert!(rt; sets(rt.alloc(), "etag=y|age=5|")?);
    Ok(())
}
