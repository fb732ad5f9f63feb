// What `check` writes.
ghost use Rattle.std.specs.Prelude.{◌≡◌, []};
ghost use Rattle.rack_outside.specs.Link.{Tells};
ghost use Rattle.puma_top.specs.QuietSteps.{Prints};
ghost use Rattle.puma_top.specs.Seen.{sink_seen};

use crate::Status;
use rack_outside::{Sink, SinkWrite};

/// Writes this text to the sink, in as many writes as it takes.
pub(crate) fn print<K: Sink>(text: &[u8], out: &mut K) -> Status
    requires written { Tells (K.written out.old) [] }
    ensures { Prints result text.now (sink_seen K.written K.faults out.old) (sink_seen K.written K.faults out.new) }
{
    let mut from = 0;
    while from < text.len() {
        match out.write(&text[from..]) {
            SinkWrite::Took(n) => from += n,
            SinkWrite::Failed => return Status::SinkFault,
            SinkWrite::NoMemory => return Status::NoMemory,
        }
    }
    Status::Done
}
