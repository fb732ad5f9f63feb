// The files of the system.
ghost use Rattle.std.specs.Prelude.{◌≡◌, None};

use rack_outside::{FileRead, Files};
use rack_types::{Bytes, NoMemory};
use std::alloc::{AllocError, Global};
use std::fs::File;
use std::io::{ErrorKind, Read};
use std::{io, rt};

/// The files that the runtime opens, by their names.
///
/// It tells nothing of content: no contract knows what a file holds.
#[derive(Drop)]
pub struct RealFiles<R> {
    runtime: R,
    faults: u64,
}

impl<R: rt::Files + AllocGlobal> RealFiles<R> {
    /// The files of this runtime, with no fault so far.
    pub fn new(runtime: R) -> RealFiles<R>
        ensures fresh { result.faults ≡ 0 }
    {
        RealFiles { runtime, faults: 0 }
    }
}

impl<R: rt::Files + AllocGlobal> Files for RealFiles<R> {
    ghost holds = { λ _. None };

    ghost texts = { λ _. None };

    ghost faults = { λ files. files.faults };

    fn read(&mut self, name: &str, limit: usize) -> Result<FileRead, NoMemory> {
        match open_and_read(&self.runtime, name, limit) {
            Ok(text) if text.len() > limit => Ok(FileRead::Long),
            Ok(text) => Ok(FileRead::Text(Bytes::new(text))),
            Err(e) => match e.kind() {
                ErrorKind::NotFound => Ok(FileRead::Absent),
                ErrorKind::OutOfMemory => Err(AllocError),
                _ => {
                    self.faults = self.faults.saturating_add(1);
                    Ok(FileRead::Failed)
                }
            },
        }
    }
}

/// The text of the file of this name, as `read_past` gives it.
fn open_and_read<R: rt::Files + AllocGlobal>(
    runtime: &R,
    name: &str,
    limit: usize,
) -> io::Result<Vec<u8>> {
    read_past(runtime.alloc(), File::open(runtime, name)?, limit)
}

/// The reader's whole text, or, where it has more bytes than the limit, one byte more than that.
/// A read that fails fails the whole, whatever came before it.
fn read_past<R: Read + Drop>(alloc: Global, reader: R, limit: usize) -> io::Result<Vec<u8>> {
    let mut text = Vec::new(alloc);
    reader
        .take((limit as u64).saturating_add(1))
        .read_to_end(&mut text)?;
    Ok(text)
}

#[cfg(test)]
mod tests {
    use super::*;
    use crate::temporary;
    use std::fs;
    use std::io::Error;
    use std::test::Fail;

    #[test]
    fn reads_whole_files_up_to_a_limit(rt: HostRuntime) -> Result<(), Fail> {
        let path = temporary::path(&rt, "files")?;
        let name = path.as_str();
        let mut files = RealFiles::new(&rt);
        assert!(rt; matches!(files.read(name, 5)?, FileRead::Absent));
        fs::write(&rt, name, "hello")?;
        let whole = files.read(name, 5)?;
        let long = files.read(name, 4)?;
        fs::remove_file(&rt, name)?;
        let FileRead::Text(text) = whole else {
            assert!(rt; false, "no text");
            return Ok(());
        };
        assert_eq!(rt; text.get(), b"hello".as_slice());
        assert!(rt; matches!(long, FileRead::Long));
        assert_eq!(rt; files.faults, 0);
        // A folder can be opened and can't be read.
        assert!(rt; matches!(files.read("/", 5)?, FileRead::Failed));
        assert_eq!(rt; files.faults, 1);
        Ok(())
    }

    // Gives so many bytes, one at a time, with an interruption in front of each, and then ends or fails.
    #[derive(Drop)]
    struct Slow {
        left: u8,
        is_interrupted: bool,
        fails: bool,
    }

    impl Read for Slow {
        fn read(&mut self, buf: &mut [u8]) -> io::Result<usize> {
            self.is_interrupted = !self.is_interrupted;
            if self.is_interrupted {
                return Err(Error::from(ErrorKind::Interrupted));
            }
            if buf.is_empty() || (self.left == 0 && !self.fails) {
                return Ok(0);
            }
            if self.left == 0 {
                return Err(Error::from(ErrorKind::ConnectionReset));
            }
            self.left -= 1;
            buf[0] = b'x';
            Ok(1)
        }
    }

    fn giving(left: u8, fails: bool) -> Slow {
        Slow {
            left,
            is_interrupted: false,
            fails,
        }
    }

    #[test]
    fn reads_to_the_end_or_fails(rt: HostRuntime) -> Result<(), Fail> {
        let whole = read_past(rt.alloc(), giving(3, false), 5)?;
        assert_eq!(rt; whole.as_slice(), b"xxx".as_slice());
        let past = read_past(rt.alloc(), giving(9, false), 5)?;
        assert_eq!(rt; past.len(), 6);
        assert!(rt; read_past(rt.alloc(), giving(3, true), 5).is_err());
        assert!(rt; read_past(rt.alloc(), giving(0, true), 5).is_err());
        Ok(())
    }
}
