// What the other end of a link in memory does.
ghost use Rattle.std.specs.Prelude.{⊤};

use rack_outside::{MemLink, Touch};

/// What it does.
#[derive(Clone, Copy, Debug, PartialEq, Eq)]
pub(crate) enum Peers {
    /// It gives these bytes.
    Gives(&'static str),
    /// It ends behind what it gave.
    Ends,
    /// From now on the link takes so many bytes, and behind them a write has to wait.
    Takes(u64),
    /// The next read fails.
    FailsRead,
    /// The next write fails.
    FailsWrite,
}

impl Touch<MemLink> for Peers {
    type Said = bool;

    ghost relates = { λ peers before said after. ⊤ };

    /// Whether there was memory for it.
    fn touch(&mut self, link: &mut MemLink) -> bool {
        match *self {
            Peers::Gives(text) => link.give(text.as_bytes()).is_ok(),
            Peers::Ends => {
                link.end();
                true
            }
            Peers::Takes(bytes) => {
                link.room(bytes);
                true
            }
            Peers::FailsRead => {
                link.fail_read();
                true
            }
            Peers::FailsWrite => {
                link.fail_write();
                true
            }
        }
    }
}
