// A source over any reader.
ghost use Rattle.std.specs.Prelude.{◌≡◌, None};
ghost use Rattle.std.specs.Io.{ReadsAtMost};

use rack_outside::{Source, SourceRead};
use std::io;
use std::io::{ErrorKind, Read};

/// What a reader gives, as a source of bytes.
///
/// It tells nothing of content: no contract knows what the system gives.
#[derive(Drop)]
pub struct ReadSource<R> {
    reader: R,
    faults: u64,
}

impl<R: Read> ReadSource<R> {
    /// A source over this reader, with no fault so far.
    pub fn new(reader: R) -> ReadSource<R>
        ensures fresh { result.faults ≡ 0 }
    {
        ReadSource { reader, faults: 0 }
    }
}

impl<R: Read> Source for ReadSource<R> {
    ghost input = { λ _. None };

    ghost given = { λ _. None };

    ghost faults = { λ source. source.faults };

    fn read(&mut self, room: &mut [u8]) -> SourceRead {
        match read_once(&mut self.reader, room) {
            Ok(0) => SourceRead::End,
            Ok(count) => SourceRead::Bytes(count),
            Err(_) => {
                self.faults = self.faults.saturating_add(1);
                SourceRead::Failed
            }
        }
    }
}

/// One read. Where the system interrupted it nothing was read, and it is tried again.
pub(crate) fn read_once<R: Read>(reader: &mut R, room: &mut [u8]) -> io::Result<usize>
    ensures { ReadsAtMost result room.new }
{
    for _ in 0..u64::MAX {
        match reader.read(room) {
            Err(e) if e.kind() == ErrorKind::Interrupted => {}
            other => return other,
        }
    }
    Err(io::Error::from(ErrorKind::Interrupted))
}

#[cfg(test)]
mod tests {
    use super::*;
    use crate::temporary;
    use std::fs;
    use std::fs::File;
    use std::io::Error;
    use std::test::Fail;

    #[test]
    fn reads_a_file_to_its_end(rt: HostRuntime) -> Result<(), Fail> {
        let path = temporary::path(&rt, "source")?;
        fs::write(&rt, path.as_path(), "hello")?;
        let mut source = ReadSource::new(File::open(&rt, path.as_path())?);
        fs::remove_file(&rt, path.as_path())?;
        let mut room = [0u8; 4];
        assert_eq!(rt; source.read(&mut room), SourceRead::Bytes(4));
        assert_eq!(rt; &room, b"hell");
        assert_eq!(rt; source.read(&mut room), SourceRead::Bytes(1));
        assert_eq!(rt; &room, b"oell");
        assert_eq!(rt; source.read(&mut room), SourceRead::End);
        assert_eq!(rt; source.faults, 0);
        Ok(())
    }

    // Is interrupted so many times, then gives one byte, fails once, and ends.
    #[derive(Drop)]
    struct Uneven {
        interruptions: u8,
        reads: u8,
    }

    impl Read for Uneven {
        fn read(&mut self, buf: &mut [u8]) -> io::Result<usize> {
            if self.interruptions > 0 {
                self.interruptions -= 1;
                return Err(Error::from(ErrorKind::Interrupted));
            }
            self.reads = self.reads.saturating_add(1);
            match self.reads {
                1 if !buf.is_empty() => {
                    buf[0] = b'x';
                    Ok(1)
                }
                2 => Err(Error::from(ErrorKind::WouldBlock)),
                _ => Ok(0),
            }
        }
    }

    #[test]
    fn tries_an_interrupted_read_again_and_no_failed_one(rt: HostRuntime) {
        let mut source = ReadSource::new(Uneven {
            interruptions: 3,
            reads: 0,
        });
        let mut room = [0u8; 4];
        assert_eq!(rt; source.read(&mut room), SourceRead::Bytes(1));
        assert_eq!(rt; (room[0], source.faults), (b'x', 0));
        assert_eq!(rt; source.read(&mut room), SourceRead::Failed);
        assert_eq!(rt; source.faults, 1);
        assert_eq!(rt; source.read(&mut room), SourceRead::End);
    }
}
