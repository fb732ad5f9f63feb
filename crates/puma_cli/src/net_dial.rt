// The control server of an address, over the system's sockets.
ghost use Rattle.std.specs.Prelude.{◌≡◌, None};
ghost use Rattle.std.specs.Option.{option_map};
ghost use Rattle.puma_ctl.specs.Dial.{DialSeen};
ghost use Rattle.puma_cli.specs.Sockets.{socket_seen};

use crate::read_source::read_once;
use crate::write_sink::write_once;
use puma_top::Dial;
use rack_outside::{Link, LinkRead, LinkWrite};
use std::io::{ErrorKind, Read, Write};
use std::net::{Net, OpenStream, TcpStream, ToSocketAddrs};
use std::rt::Clock;
use std::time::Duration;
use std::{io, thread};

// How many seconds the system may take to open a connection.
const PATIENCE: u64 = 10;

// How many milliseconds a pause is. An order makes 3,000 of them at most, which is half a minute.
const PAUSE: u64 = 10;

/// A socket that doesn't wait, as a link. It tells nothing of content: no contract knows what the system gives or takes.
#[derive(Drop)]
pub struct NetLink<S> {
    stream: S,
    failed_reads: u64,
    failed_writes: u64,
    waits: u64,
    reads: u64,
    writes: u64,
}

impl<S: Read + Write> NetLink<S> {
    fn new(stream: S) -> NetLink<S>
        ensures { socket_seen result.failed_reads result.failed_writes result.waits result.reads result.writes ≡ socket_seen 0 0 0 0 0 }
    {
        NetLink {
            stream,
            failed_reads: 0,
            failed_writes: 0,
            waits: 0,
            reads: 0,
            writes: 0,
        }
    }
}

impl<S: Read + Write> Link for NetLink<S> {
    ghost seen = { λ l. socket_seen l.failed_reads l.failed_writes l.waits l.reads l.writes };

    fn read(&mut self, room: &mut [u8]) -> LinkRead {
        self.reads = self.reads.saturating_add(1);
        match read_once(&mut self.stream, room) {
            Ok(0) => LinkRead::End,
            Ok(count) => LinkRead::Bytes(count),
            Err(e) if e.kind() == ErrorKind::WouldBlock => {
                self.waits = self.waits.saturating_add(1);
                LinkRead::NotYet
            }
            Err(_) => {
                self.failed_reads = self.failed_reads.saturating_add(1);
                LinkRead::Failed
            }
        }
    }

    // A socket that takes nothing of a piece would be asked forever, so that is a fault too.
    fn write(&mut self, piece: &[u8]) -> LinkWrite {
        self.writes = self.writes.saturating_add(1);
        match write_once(&mut self.stream, piece) {
            Ok(count) if count > 0 => LinkWrite::Took(count),
            Err(e) if e.kind() == ErrorKind::WouldBlock => {
                self.waits = self.waits.saturating_add(1);
                LinkWrite::NotYet
            }
            _ => {
                self.failed_writes = self.failed_writes.saturating_add(1);
                LinkWrite::Failed
            }
        }
    }
}

/// What dials over the network of this runtime. It keeps the link that it last took back.
#[derive(Drop)]
pub struct NetDial<R: Net> {
    runtime: R,
    back: Option<NetLink<R::Stream>>,
    faults: u64,
    dials: u64,
}

impl<R: Net + Clock> NetDial<R> {
    /// A dial that did nothing yet.
    pub fn new(runtime: R) -> NetDial<R>
        ensures { result.back ≡ None }
    {
        NetDial {
            runtime,
            back: None,
            faults: 0,
            dials: 0,
        }
    }
}

impl<R: Net + Clock> Dial for NetDial<R> {
    type Link = NetLink<R::Stream>;

    ghost seen = { λ d. record {
      faults = d.faults;
      dials = d.dials;
      back = option_map (λ l. socket_seen l.failed_reads l.failed_writes l.waits l.reads l.writes) d.back;
    } };

    fn dial(&mut self, address: &str) -> Option<NetLink<R::Stream>> {
        self.dials = self.dials.saturating_add(1);
        match open(&self.runtime, address) {
            Ok(stream) => Some(NetLink::new(stream)),
            Err(_) => {
                self.faults = self.faults.saturating_add(1);
                None
            }
        }
    }

    fn pause(&mut self) {
        thread::sleep(&self.runtime, Duration::from_millis(PAUSE));
    }

    fn take_back(&mut self, link: NetLink<R::Stream>) {
        self.back = Some(link);
    }
}

// A socket to the first place of the address that answers, which doesn't wait from now on.
fn open<R: Net>(runtime: &R, address: &str) -> io::Result<R::Stream> {
    let mut last = io::Error::from(ErrorKind::InvalidInput);
    for place in address.to_socket_addrs(runtime)? {
        match TcpStream::connect_timeout(runtime, &place, Duration::from_secs(PATIENCE)) {
            Ok(stream) => {
                stream.set_nonblocking(true)?;
                return Ok(stream);
            }
            Err(e) => last = e,
        }
    }
    Err(last)
}

#[cfg(test)]
mod tests {
    use super::*;
    use std::net::TcpListener;
    use std::test::Fail;

    #[test]
    fn dials_a_listener_and_nobody(rt: HostRuntime) -> Result<(), Fail> {
        let listener = TcpListener::bind(&rt, "127.0.0.1:0")?;
        let address = format!(in rt.alloc(); "{}", listener.local_addr()?)?;
        let mut dial = NetDial::new(&rt);
        let Some(mut link) = dial.dial(address.as_str()) else {
            assert!(rt; false, "no link");
            return Ok(());
        };
        let (mut peer, _from) = listener.accept()?;
        let mut room = [0u8; 4];
        assert_eq!(rt; link.read(&mut room), LinkRead::NotYet);
        assert_eq!(rt; link.write(b"hello"), LinkWrite::Took(5));
        peer.write_all(b"hi")?;
        let mut got = LinkRead::NotYet;
        for _ in 0..100 {
            if got == LinkRead::NotYet {
                dial.pause();
                got = link.read(&mut room);
            }
        }
        assert_eq!(rt; got, LinkRead::Bytes(2));
        assert_eq!(rt;
            (link.reads > 1, link.failed_reads, link.writes),
            (true, 0, 1)
        );
        dial.take_back(link);
        drop(peer);
        drop(listener);
        assert!(rt; dial.dial(address.as_str()).is_none());
        assert_eq!(rt; (dial.dials, dial.faults), (2, 1));
        Ok(())
    }
}
