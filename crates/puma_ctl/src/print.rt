// What is printed.
ghost use Rattle.puma_ctl.specs.Order.{out_seen};
ghost use Rattle.puma_ctl.specs.Steps.{Writes};

use crate::head::suffix;
use rack_outside::{Sink, SinkWrite};

/// How printing ended.
#[derive(Clone, Copy)]
pub(crate) enum Wrote {
    /// All of it was written.
    All,
    /// A write failed before.
    Failed,
    /// Memory was refused before.
    NoMemory,
}

/// Writes this text to the sink, in as many writes as it takes.
pub(crate) fn print<K: Sink>(text: &[u8], out: &mut K) -> Wrote
    ensures { Writes result text.now (out_seen K.written K.faults out.old) (out_seen K.written K.faults out.new) }
{
    let mut from = 0;
    while from < text.len() {
        match out.write(suffix(text, from)) {
            SinkWrite::Took(n) => from += n,
            SinkWrite::Failed => return Wrote::Failed,
            SinkWrite::NoMemory => return Wrote::NoMemory,
        }
    }
    Wrote::All
}
