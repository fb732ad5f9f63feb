// What is done to a connection, one step behind the other, and what each is to answer.
ghost use Rattle.std.specs.Prelude.{◌≡◌};
ghost use Rattle.conn_core.specs.Shown.{shown};

use crate::apps::{App, Echoes, Hands, Names, Parts};
use crate::peers::Peers;
use conn_core::{Conn, Next, State, Tick, Told};
use hijack_core::StockHijack;
use rack_outside::MemLink;
use rack_types::Plain;
use std::alloc::Global;

pub(crate) type MemConn = Conn<MemLink, Plain, StockHijack>;

/// A step, with the moment that it is handed and what it is to answer. A call that may not be made is not as it is to be.
#[derive(Clone, Copy, Debug, PartialEq, Eq)]
pub(crate) enum Step {
    /// The peer gives these bytes, or ends behind what it gave.
    Gives(&'static str),
    Ends,
    /// From now on the link takes so many bytes, and behind them a write has to wait.
    Takes(u64),
    /// The next read, or the next write, fails.
    FailsRead,
    FailsWrite,
    Feed(u64, Next),
    Turn(u64, Next),
    Flush(u64, Next),
    Ticks(u64, Tick),
    Drain(u64, Told),
    Place(u32),
    EndUnread(u64),
    EndIdle(u64),
    Halt,
    LackMemory,
    /// Where it is.
    Is(State),
    /// The greatest moment that was handed to a call.
    Moment(u64),
    /// The phase of its life.
    Phase(u32),
    /// Whether no byte was ever read, and whether it is idle.
    Unread(bool),
    Idle(bool),
    /// Whether it may be placed in this phase.
    Fits(u32, bool),
    /// Whether bytes are owed.
    Owes(bool),
}

/// Whether the step goes as it is to go.
pub(crate) fn goes(alloc: Global, app: App, conn: &mut MemConn, step: Step) -> bool {
    match step {
        Step::Gives(text) => conn.touch(&mut Peers::Gives(text)),
        Step::Ends => conn.touch(&mut Peers::Ends),
        Step::Takes(bytes) => conn.touch(&mut Peers::Takes(bytes)),
        Step::FailsRead => conn.touch(&mut Peers::FailsRead),
        Step::FailsWrite => conn.touch(&mut Peers::FailsWrite),
        Step::Feed(now, next) => feed(conn, now) == Some(next),
        Step::Turn(now, next) => turn(alloc, app, conn, now) == Some(next),
        Step::Flush(now, next) => flush(conn, now) == Some(next),
        Step::Ticks(now, answer) => tick(conn, now) == Some(answer),
        Step::Drain(level, told) => drain(conn, level) == Some(told),
        Step::Place(phase) => place(conn, phase),
        Step::EndUnread(level) => end_unread(conn, level),
        Step::EndIdle(level) => end_idle(conn, level),
        Step::Halt => {
            conn.halt(2);
            true
        }
        Step::LackMemory => lack_memory(conn),
        Step::Is(state) => conn.state() == state,
        Step::Moment(moment) => conn.moment() == moment,
        Step::Phase(phase) => conn.phase() == phase,
        Step::Unread(unread) => conn.unread() == unread,
        Step::Idle(idle) => conn.idle() == idle,
        Step::Fits(phase, fits) => conn.may_place(phase) == fits,
        Step::Owes(owes) => conn.wants_write() == owes,
    }
}

/// A call that may not be made answers nothing.
pub(crate) fn feed(conn: &mut MemConn, now: u64) -> Option<Next> {
    match conn.state() {
        State::Reading => Some(conn.feed(now)),
        State::Hijacked => feed_hijacked(conn, now),
        State::Ready | State::Answering | State::Over => None,
    }
}

fn feed_hijacked(conn: &mut MemConn, now: u64) -> Option<Next>
    requires { (shown conn.old).state ≡ State.Hijacked }
{
    if conn.wants_write() {
        None
    } else {
        Some(conn.feed(now))
    }
}

pub(crate) fn turn(alloc: Global, app: App, conn: &mut MemConn, now: u64) -> Option<Next> {
    match conn.state() {
        State::Ready => Some(answer(alloc, app, conn, now)),
        State::Reading | State::Answering | State::Hijacked | State::Over => None,
    }
}

fn answer(alloc: Global, app: App, conn: &mut MemConn, now: u64) -> Next
    requires { (shown conn.old).state ≡ State.Ready }
{
    match app {
        App::Echoes => conn.turn(&mut Echoes { alloc, runs: 0 }, now),
        App::Hands => conn.turn(&mut Hands { alloc, runs: 0 }, now),
        App::Parts => conn.turn(&mut Parts { alloc, runs: 0 }, now),
        App::Names => {
            let name = if conn.phase() == 0 { "old" } else { "new" };
            conn.turn(
                &mut Names {
                    alloc,
                    name,
                    runs: 0,
                },
                now,
            )
        }
    }
}

pub(crate) fn flush(conn: &mut MemConn, now: u64) -> Option<Next> {
    if conn.wants_write() {
        Some(conn.flush(now))
    } else {
        None
    }
}

fn tick(conn: &mut MemConn, now: u64) -> Option<Tick> {
    match conn.state() {
        State::Over => None,
        State::Reading | State::Ready | State::Answering | State::Hijacked => Some(conn.tick(now)),
    }
}

fn drain(conn: &mut MemConn, level: u64) -> Option<Told> {
    if level > 0 {
        Some(conn.tell_drain(level))
    } else {
        None
    }
}

fn place(conn: &mut MemConn, phase: u32) -> bool {
    let may = conn.may_place(phase);
    if may {
        conn.place(phase);
    }
    may
}

fn end_unread(conn: &mut MemConn, level: u64) -> bool {
    let may = conn.unread() && level > 0;
    if may {
        conn.end_unread(level);
    }
    may
}

fn end_idle(conn: &mut MemConn, level: u64) -> bool {
    let may = conn.idle() && level > 0;
    if may {
        conn.end_idle(level);
    }
    may
}

fn lack_memory(conn: &mut MemConn) -> bool {
    match conn.state() {
        State::Over => false,
        State::Reading | State::Ready | State::Answering | State::Hijacked => {
            conn.end_for_memory();
            true
        }
    }
}
