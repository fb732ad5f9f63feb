// An environment of a few pairs, changed in place.
use rack_types::{Bytes, Env, Input, NoMemory};
use std::alloc::Global;

// What is done with an environment of two pairs.
enum Change {
    Nothing,
    SetAndAppend,
    Replace,
    FillAnew,
}

// The changes, and the pairs behind them.
const CHANGES: [(Change, &str); 4] = [
    (Change::Nothing, "REQUEST_METHOD=GET|HTTP_ACCEPT=text/html|"),
    (
        Change::SetAndAppend,
        "REQUEST_METHOD=POST|HTTP_ACCEPT=text/html, */*|",
    ),
    (Change::Replace, "HTTP_ACCEPT=*/*|"),
    (
        Change::FillAnew,
        "HTTP_ACCEPT=*/*, text/html|HTTP_UPGRADE_INSECURE_REQUESTS=1|",
    ),
];

fn put_pair(text: &mut Vec<u8>, name: &[u8], value: &[u8]) -> Result<(), NoMemory> {
    text.extend_from_slice(name)?;
    text.extend_from_slice(b"=")?;
    text.extend_from_slice(value)?;
    text.extend_from_slice(b"|")
}

fn put_pairs(text: &mut Vec<u8>, env: &Env) -> Result<(), NoMemory> {
    for i in 0..env.len() {
        put_pair(text, env.name(i), env.value(i))?;
    }
    Ok(())
}

fn set_and_append(env: &mut Env) -> Result<bool, NoMemory> {
    env.set(b"REQUEST_METHOD", b"POST")?;
    let accepts = env.append(b"HTTP_ACCEPT", b", ", b"*/*")?;
    Ok(accepts && !env.append(b"HTTP_COOKIE", b"; ", b"a=b")?)
}

fn swap(env: &mut Env, value: &mut Bytes) -> bool {
    if env.get(b"HTTP_ACCEPT").is_none() {
        return false;
    }
    env.replace(b"HTTP_ACCEPT", value);
    env.remove(b"REQUEST_METHOD");
    true
}

fn replace(alloc: Global, env: &mut Env) -> Result<bool, NoMemory> {
    let mut value = Bytes::new(Vec::from_slice(alloc, b"*/*")?);
    Ok(swap(env, &mut value) && value.get() == b"text/html".as_slice())
}

fn add(env: &mut Env) -> Result<bool, NoMemory> {
    env.set_static(b"HTTP_ACCEPT", b"*/*")?;
    env.add(b"HTTP_UPGRADE_INSECURE_REQUESTS", b", ", b"1")?;
    env.add_static(b"HTTP_ACCEPT", b", ", b"text/html")?;
    Ok(true)
}

fn fill_anew(alloc: Global, env: &mut Env) -> Result<bool, NoMemory> {
    env.clear(Input::new(Bytes::new(Vec::new(alloc))));
    let is_empty = env.len() == 0 && env.get(b"REQUEST_METHOD").is_none();
    let room = env.take_room();
    env.keep_room(room);
    Ok(add(env)? && is_empty)
}

fn fill(env: &mut Env) -> Result<bool, NoMemory> {
    env.set(b"REQUEST_METHOD", b"GET")?;
    env.set(b"HTTP_ACCEPT", b"text/html")?;
    Ok(true)
}

fn apply(alloc: Global, env: &mut Env, change: &Change) -> Result<bool, NoMemory> {
    match change {
        Change::Nothing => Ok(true),
        Change::SetAndAppend => set_and_append(env),
        Change::Replace => replace(alloc, env),
        Change::FillAnew => fill_anew(alloc, env),
    }
}

// Whether the change to the two pairs told what it should, and left these.
fn put_changed(
    alloc: Global,
    env: &mut Env,
    which: &Change,
    text: &mut Vec<u8>,
) -> Result<bool, NoMemory> {
    let is_right = fill(env)? && apply(alloc, env, which)?;
    put_pairs(text, env)?;
    Ok(is_right)
}

fn changes(alloc: Global, env: &mut Env, which: &Change, wanted: &str) -> Result<bool, NoMemory> {
    let mut text = Vec::new(alloc);
    match put_changed(alloc, env, which, &mut text) {
        Ok(is_right) => Ok(is_right && text.as_slice() == wanted.as_bytes()),
        Err(refused) => Err(refused),
    }
}

fn is_right(alloc: Global, which: &Change, wanted: &str) -> Result<bool, NoMemory> {
    let mut env = Env::with_room(alloc, 4, Input::new(Bytes::new(Vec::new(alloc))))?;
    changes(alloc, &mut env, which, wanted)
}

fn first_wrong(alloc: Global, rows: &[(Change, &str)]) -> Result<Option<usize>, NoMemory> {
    for (i, (which, wanted)) in rows.iter().enumerate() {
        if !is_right(alloc, which, wanted)? {
            return Ok(Some(i));
        }
    }
    Ok(None)
}

#[test]
fn pairs_change_in_place(rt: HostRuntime) -> Result<(), NoMemory> {
    assert_eq!(rt; first_wrong(rt.alloc(), &CHANGES)?, None);
    Ok(())
}
