// The words of the command line.
use std::env::FillError;
use std::{env, io, rt};

/// The words behind the program's name. One that is no text makes all of them an error, and so does
/// want of memory, of kind `OutOfMemory`. What the program is called doesn't matter, and need be no text.
pub fn behind_name<R: rt::Env + AllocGlobal>(runtime: &R) -> io::Result<Vec<String>> {
    let mut words = Vec::new(runtime.alloc());
    for word in env::args(&(BehindName { runtime }, runtime.alloc()))? {
        words.push(word)?;
    }
    Ok(words)
}

/// A command line without its first word.
#[derive(Drop)]
struct BehindName<R> {
    runtime: R,
}

impl<R: rt::Env> rt::Env for BehindName<R> {
    fn arg(&self, i: usize, buf: &mut [u8]) -> Result<usize, FillError> {
        match i.checked_add(1) {
            Some(place) => self.runtime.arg(place, buf),
            None => Err(FillError::NotPresent),
        }
    }

    fn var(&self, name: &str, buf: &mut [u8]) -> Result<usize, FillError> {
        self.runtime.var(name, buf)
    }

    fn var_at(&self, i: usize, buf: &mut [u8]) -> Result<usize, FillError> {
        self.runtime.var_at(i, buf)
    }
}
