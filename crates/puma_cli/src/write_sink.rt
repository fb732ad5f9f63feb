// A sink over any writer.
ghost use Rattle.std.specs.Prelude.{◌≡◌, None};
ghost use Rattle.std.specs.Io.{WritesAtMost};

use rack_outside::{Sink, SinkWrite};
use std::io;
use std::io::{ErrorKind, Write};

/// A writer, as a sink of bytes. The writer is one that keeps nothing back: it is never flushed.
///
/// It tells nothing of content: no contract knows what the system takes.
#[derive(Drop)]
pub struct WriteSink<W> {
    writer: W,
    faults: u64,
}

impl<W: Write> WriteSink<W> {
    /// A sink over this writer, with no fault so far.
    pub fn new(writer: W) -> WriteSink<W>
        ensures fresh { result.faults ≡ 0 }
    {
        WriteSink { writer, faults: 0 }
    }
}

impl<W: Write> Sink for WriteSink<W> {
    ghost written = { λ _. None };

    ghost faults = { λ sink. sink.faults };

    // A writer that takes nothing of a piece would be asked forever, so that is a fault too.
    fn write(&mut self, piece: &[u8]) -> SinkWrite {
        match write_once(&mut self.writer, piece) {
            Ok(count) if count > 0 => SinkWrite::Took(count),
            _ => {
                self.faults = self.faults.saturating_add(1);
                SinkWrite::Failed
            }
        }
    }
}

/// One write. Where the system interrupted it nothing was taken, and it is tried again.
pub(crate) fn write_once<W: Write>(writer: &mut W, piece: &[u8]) -> io::Result<usize>
    ensures { WritesAtMost result piece.now }
{
    for _ in 0..u64::MAX {
        match writer.write(piece) {
            Err(e) if e.kind() == ErrorKind::Interrupted => {}
            other => return other,
        }
    }
    Err(io::Error::from(ErrorKind::Interrupted))
}

#[cfg(test)]
mod tests {
    use super::*;
    use crate::temporary;
    use std::fs;
    use std::fs::File;
    use std::io::Error;
    use std::test::Fail;

    #[test]
    fn writes_to_a_file(rt: HostRuntime) -> Result<(), Fail> {
        let path = temporary::path(&rt, "sink")?;
        let mut sink = WriteSink::new(File::create(&rt, path.as_path())?);
        assert_eq!(rt; sink.write(b"he"), SinkWrite::Took(2));
        assert_eq!(rt; sink.write(b"llo"), SinkWrite::Took(3));
        let text = fs::read_to_string(&rt, path.as_path())?;
        // A file that is open for reading alone refuses each write.
        let mut closed = WriteSink::new(File::open(&rt, path.as_path())?);
        fs::remove_file(&rt, path.as_path())?;
        assert_eq!(rt; text.as_str(), "hello");
        assert_eq!(rt; closed.write(b"!"), SinkWrite::Failed);
        assert_eq!(rt; (sink.faults, closed.faults), (0, 1));
        Ok(())
    }

    // Is interrupted so many times, then takes one byte, fails once, takes a whole piece, and nothing
    // from then on.
    #[derive(Drop)]
    struct Uneven {
        interruptions: u8,
        writes: u8,
    }

    impl Write for Uneven {
        fn write(&mut self, buf: &[u8]) -> io::Result<usize> {
            if self.interruptions > 0 {
                self.interruptions -= 1;
                return Err(Error::from(ErrorKind::Interrupted));
            }
            self.writes = self.writes.saturating_add(1);
            match self.writes {
                1 => Ok(buf.len().min(1)),
                2 => Err(Error::from(ErrorKind::WouldBlock)),
                3 => Ok(buf.len()),
                _ => Ok(0),
            }
        }

        fn flush(&mut self) -> io::Result<()> {
            Ok(())
        }
    }

    #[test]
    fn tries_an_interrupted_write_again_and_no_failed_one(rt: HostRuntime) {
        let mut sink = WriteSink::new(Uneven {
            interruptions: 3,
            writes: 0,
        });
        assert_eq!(rt; sink.write(b"hello"), SinkWrite::Took(1));
        assert_eq!(rt; sink.faults, 0);
        assert_eq!(rt; sink.write(b"ello"), SinkWrite::Failed);
        assert_eq!(rt; sink.faults, 1);
        assert_eq!(rt; sink.write(b"ello"), SinkWrite::Took(4));
        // What takes nothing has failed.
        assert_eq!(rt; sink.write(b"!"), SinkWrite::Failed);
        assert_eq!(rt; sink.faults, 2);
    }
}
