// A link in memory that fails where it is told to.
ghost use Rattle.std.specs.Prelude.{◌≡◌, ◌<◌, length, true, OnOk, OnErr};
ghost use Rattle.rack_outside.specs.Link.{Reads, IsOneRead, ReadsAhead, Writes, IsOneWrite, WritesAhead, next_place};
ghost use Rattle.rack_outside.specs.Wire.{fresh_wire, wire_seen, with_more, with_end, with_room, CountsRead, CountsWrite};

use crate::places::is_named;
use crate::{Link, LinkRead, LinkWrite, SureLink};
use rack_types::{Bytes, NoMemory};
use std::alloc::Global;
use std::marker::Model;

/// A link in memory that fails where it is told to: it tells all that it is, and counts its failures.
#[derive(Drop)]
pub struct MemLink {
    link: SureLink,
    fails: Bytes,
    read_fails: bool,
    write_fails: bool,
    failed_reads: u64,
    failed_writes: u64,
}

impl Model for MemLink {
    ghost use Rattle.rack_outside.specs.Wire.{Wire};

    ghost Value = { Wire };

    ghost view = { λ l. record {
      pipe = l.link;
      fails = l.fails;
      read_fails = l.read_fails;
      write_fails = l.write_fails;
      failed_reads = l.failed_reads;
      failed_writes = l.failed_writes;
    } };
}

impl MemLink {
    /// A link with this tag, whose peer is `127.0.0.1`. Nothing was given to it, and what it takes
    /// has no end. It takes no memory.
    ///
    /// `fails` names the calls that fail by their place, where reads and writes are counted together
    /// from 1. A call that fails gives nothing and takes nothing.
    pub fn new(alloc: Global, tag: u64, fails: Bytes) -> MemLink
        ensures fresh { result ≡ fresh_wire tag fails }
        ensures seen { ⟦<MemLink as Link>⟧.seen result ≡ wire_seen (fresh_wire tag fails) }
    {
        MemLink {
            link: SureLink::new(alloc, tag),
            fails,
            read_fails: false,
            write_fails: false,
            failed_reads: 0,
            failed_writes: 0,
        }
    }

    /// The peer gives these bytes. It takes memory for them, and a refused call changes nothing.
    pub fn give(&mut self, text: &[u8]) -> Result<(), NoMemory>
        ensures gives { OnOk result (self.new ≡ record self.old { pipe = with_more text.now self.old.pipe }) }
        ensures refused { OnErr result (self.new ≡ self.old) }
    {
        self.link.give(text)
    }

    /// The peer ends behind what it gave.
    pub fn end(&mut self)
        ensures { self.new ≡ record self.old { pipe = with_end self.old.pipe } }
    {
        self.link.end();
    }

    /// From now on n more bytes are taken, and behind them a write has to wait.
    pub fn room(&mut self, n: u64)
        ensures { self.new ≡ record self.old { pipe = with_room n self.old.pipe } }
    {
        self.link.room(n);
    }

    /// The next read fails. Two such calls in a row set one failure.
    pub fn fail_read(&mut self)
        ensures { self.new ≡ record self.old { read_fails = true } }
    {
        self.read_fails = true;
    }

    /// The next write fails. Two such calls in a row set one failure.
    pub fn fail_write(&mut self)
        ensures { self.new ≡ record self.old { write_fails = true } }
    {
        self.write_fails = true;
    }

    /// All bytes that were read, in order.
    pub fn given(&self) -> &[u8]
        ensures { result.now ≡ self.now.pipe.given }
    {
        self.link.given()
    }

    /// All bytes that were taken, in order.
    pub fn sent(&self) -> &[u8]
        ensures { result.now ≡ self.now.pipe.sent }
    {
        self.link.sent()
    }
}

impl Link for MemLink {
    ghost seen = { wire_seen };

    /// Fails exactly where a failure is set. Else it gives as many of the unread bytes as fit, the end
    /// where none is unread and the peer ended, and else nothing yet. It takes no memory.
    fn read(&mut self, room: &mut [u8]) -> LinkRead
        requires { 0 < length room.old }
        ensures reads { Reads result room.new (wire_seen self.old) (wire_seen self.new) }
        ensures keeps { IsOneRead (wire_seen self.old) (wire_seen self.new) }
        ensures ahead { ReadsAhead result room.new (wire_seen self.old).ahead (next_place (wire_seen self.old)) (wire_seen self.new).ahead }
        ensures counts { CountsRead result (wire_seen self.old) (wire_seen self.new) }
    {
        let fails = self.read_fails || is_named(self.fails.get(), self.link.next_place());
        self.read_fails = false;
        if fails {
            self.link.miss_read();
            self.failed_reads = self.failed_reads.saturating_add(1);
            return LinkRead::Failed;
        }
        self.link.read(room)
    }

    /// Fails exactly where a failure is set. Else it takes as many bytes as the room holds, and has to
    /// wait where it holds none. It takes memory for them, and answers `NoMemory` where that is
    /// refused.
    fn write(&mut self, piece: &[u8]) -> LinkWrite
        requires { 0 < length piece.now }
        ensures writes { Writes result piece.now (wire_seen self.old) (wire_seen self.new) }
        ensures keeps { IsOneWrite (wire_seen self.old) (wire_seen self.new) }
        ensures ahead { WritesAhead result piece.now (wire_seen self.old).ahead (next_place (wire_seen self.old)) (wire_seen self.new).ahead }
        ensures counts { CountsWrite result (wire_seen self.old) (wire_seen self.new) }
    {
        let fails = self.write_fails || is_named(self.fails.get(), self.link.next_place());
        self.write_fails = false;
        if fails {
            self.link.miss_write();
            self.failed_writes = self.failed_writes.saturating_add(1);
            return LinkWrite::Failed;
        }
        self.link.write(piece)
    }
}
