// An input, read in parts and anew.
use rack_types::{Bytes, Input};
use std::alloc::{AllocError, Global};

fn input_of(alloc: Global, text: &str) -> Result<Input, AllocError> {
    Ok(Input::new(Bytes::new(Vec::from_slice(alloc, text.as_bytes())?)))
}

fn reads_parts(input: &mut Input) -> bool {
    input.gets() == b"one\n".as_slice()
        && input.read(2) == b"tw".as_slice()
        && input.rest() == b"o\nlast".as_slice()
}

fn reads_again(input: &mut Input) -> bool {
    let is_at_end = input.gets().is_empty();
    input.rewind();
    is_at_end && input.read(99) == b"one\ntwo\nlast".as_slice()
}

#[test]
fn reads_in_parts(rt: HostRuntime) -> Result<(), AllocError> {
    let mut input = input_of(rt.alloc(), "one\ntwo\nlast")?;
    assert!(rt; reads_parts(&mut input));
    assert!(rt; reads_again(&mut input));
    Ok(())
}
