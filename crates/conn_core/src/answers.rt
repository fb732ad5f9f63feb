// What the calls of a connection answer.
ghost use Rattle.std.specs.Prelude.{◌≡◌, ◌==◌, if◌then◌else◌};
ghost use Rattle.conn_core.specs.Answers.{FedSo, TurnedSo, FlushedSo};
ghost use Rattle.conn_steps.specs.Shown.{replied_at as replied};

use conn_steps::{At, Budget, Next};
use rack_types::Body;

// How many replies to requests were sent whole, by the place.
pub(crate) fn replied_at<B: Body, H>(at: &At<B, H>, calls: u64) -> u64
    ensures { result ≡ replied at.now calls }
{
    match at {
        At::Answering(_) | At::Writing(_) | At::Handing(_) => calls.saturating_sub(1),
        At::Reading
        | At::Asked
        | At::Refused(_)
        | At::Refusing
        | At::Listening(_)
        | At::Speaking(_)
        | At::Parting
        | At::Over(_) => calls,
    }
}

// What a read answers that gave bytes or the peer's end.
pub(crate) fn fed<B: Body, H>(at: &At<B, H>) -> Next
    ensures { FedSo result at.now }
{
    match at {
        At::Over(_) => Next::Over,
        At::Asked | At::Refused(_) => Next::Ready,
        At::Reading
        | At::Answering(_)
        | At::Writing(_)
        | At::Handing(_)
        | At::Refusing
        | At::Listening(_)
        | At::Speaking(_)
        | At::Parting => Next::More,
    }
}

// What a turn answers, of which this is left, and in which more replies were sent whole or not.
pub(crate) fn turned<B: Body, H>(at: &At<B, H>, budget: &Budget, more: bool) -> Next
    ensures { TurnedSo result at.now budget.now more }
{
    match at {
        At::Over(_) => Next::Over,
        At::Reading
        | At::Asked
        | At::Refused(_)
        | At::Answering(_)
        | At::Writing(_)
        | At::Handing(_)
        | At::Refusing
        | At::Listening(_)
        | At::Speaking(_)
        | At::Parting => {
            if budget.is_spent() {
                Next::TurnOver
            } else if budget.came > 0 || more {
                Next::More
            } else {
                Next::Waiting
            }
        }
    }
}

// What a flush of so many writes answers, which handed the connection to a hijacker or not.
pub(crate) fn flushed<B: Body, H>(at: &At<B, H>, writes: u64, handed: bool) -> Next
    ensures { FlushedSo result at.now writes handed }
{
    match at {
        At::Over(_) => Next::Over,
        At::Asked | At::Refused(_) => told(writes, Next::Ready),
        At::Reading | At::Listening(_) => told(writes, Next::More),
        At::Answering(_) | At::Writing(_) | At::Handing(_) | At::Refusing => told(
            writes,
            Next::Waiting,
        ),
        At::Speaking(_) | At::Parting => told(
            writes,
            if handed { Next::More } else { Next::Waiting },
        ),
    }
}

// That the last write was made, or else this.
fn told(writes: u64, next: Next) -> Next
    ensures { result ≡ (if writes == 16 then Next.TurnOver else next) }
{
    if writes == 16 { Next::TurnOver } else { next }
}
