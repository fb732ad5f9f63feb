// One connection from a source to a sink, from its first byte to its end.
ghost use Rattle.std.specs.Prelude.{◌≡◌, [], Bool, true, false, Some};
ghost use Rattle.rack_outside.specs.Link.{Tells};
ghost use Rattle.rack_outside.specs.Source.{IsPrefix, IsFront, IsWhole};
ghost use Rattle.talk_core.specs.Ended.{Shows};
ghost use Rattle.puma_top.specs.Once.{once_peer};
ghost use Rattle.puma_top.specs.OnceSteps.{Serves, IsOfOnce, status_by, site_of, source_of, sink_of};
ghost use Rattle.puma_top.specs.Seen.{source_seen, sink_seen};

use crate::Status;
use crate::drive::{drive, is_over};
use builder_core::StackRunner;
use conn_core::{Conn, Ended, Why};
use hijack_core::StockHijack;
use rack_outside::{Link, PairLink, Sink, Source};
use rack_types::{Limits, Local, Peer, Plain};
use std::alloc::Global;
use stock_apps::App;
use stock_middleware::WareBody;

/// Serves one connection by this runner's stack, whose applications may take the connection over or not:
/// what the source gives is read, and what answers it goes to the sink, until the connection ends or too
/// many bytes came.
pub(crate) fn serve<S: Source, K: Sink>(
    alloc: Global,
    runner: StackRunner<App>,
    hijack: bool,
    src: &mut S,
    out: &mut K,
) -> Status
    requires unrun { runner.runs ≡ 0 }
    requires given { Tells (S.given src.old) [] }
    requires written { Tells (K.written out.old) [] }
    ensures serves { Serves result (site_of runner hijack) (source_seen S.input S.given S.faults src.old) (sink_seen K.written K.faults out.old)
        (source_seen S.input S.given S.faults src.new) (sink_seen K.written K.faults out.new) }
    ensures same { S.input src.new ≡ S.input src.old }
    ensures prefix { IsPrefix (S.given src.old) (S.input src.old) → IsPrefix (S.given src.new) (S.input src.new) }
{
    let mut status = Status::Done;
    let link = PairLink::new(src, out);
    let link = talk(alloc, runner, hijack, link, &mut status);
    let _over = link.over;
    status
}

// The same on any link that never has to wait, and that tells whether its peer ended.
fn talk<L: Link + Drop>(
    alloc: Global,
    runner: StackRunner<App>,
    hijack: bool,
    link: L,
    status: &mut Status,
) -> L
    requires unrun { runner.runs ≡ 0 }
    requires fresh { Shows (L.seen link) once_peer [] [] false }
    requires patient { (l : L) → (L.seen l).waits ≡ 0 }
    requires told { (l : L) → (over : Bool) × ((L.seen l).over ≡ Some over) }
    requires front { (l : L) → IsFront (L.seen l).given (L.seen l).input }
    requires whole { (l : L) → (L.seen l).over ≡ Some true → IsWhole (L.seen l).given (L.seen l).input }
    ensures serves { Serves status.new (site_of runner hijack) (source_of (L.seen link)) (sink_of (L.seen link)) (source_of (L.seen result)) (sink_of (L.seen result)) }
    ensures borrows { (L.seen result).borrows ≡ (L.seen link).borrows }
    ensures same { (L.seen result).input ≡ (L.seen link).input }
{
    let local = Local {
        name: Peer::new(b"localhost").unwrap(),
        port: 9292,
        https: false,
        hijack,
    };
    let peer = Peer::new(b"127.0.0.1").unwrap();
    let mut conn: Conn<L, WareBody<Plain>, StockHijack> = match Conn::open(
        alloc,
        0,
        link,
        peer,
        local,
        Limits::stock(),
        0,
        0,
    ) {
        Ok(conn) => conn,
        Err(ended) => {
            let Ended {
                number: _,
                link,
                lives: _,
                calls: _,
                told: _,
                closing: _,
                why: _,
            } = ended;
            *status = Status::NoMemory;
            return link;
        }
    };
    let mut runner = runner;
    drive(&mut conn, &mut runner);
    if is_over(&conn) {
        let Ended {
            number: _,
            link,
            lives: _,
            calls: _,
            told: _,
            closing: _,
            why,
        } = conn.finish();
        *status = status_of(why);
        link
    } else {
        *status = Status::TooLong;
        conn.abandon()
    }
}

// The status of a connection that ended so.
fn status_of(ended: Why) -> Status
    requires once { IsOfOnce ended }
    ensures { result ≡ status_by ended }
{
    match ended {
        Why::Closed => Status::Done,
        Why::PeerEnd => Status::Done,
        Why::Hijacked => Status::Done,
        Why::ReadFailed => Status::SourceFault,
        Why::WriteFailed => Status::SinkFault,
        Why::NoMemory => Status::NoMemory,
        Why::Idle(_) => unreachable!(),
        Why::TimedOut { .. } => unreachable!(),
        Why::Stalled { .. } => unreachable!(),
        Why::Unread { .. } => unreachable!(),
        Why::Halted { .. } => unreachable!(),
    }
}
