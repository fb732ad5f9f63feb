// A link in memory that never fails.
ghost use Rattle.std.specs.Prelude.{◌≡◌, ◌<◌, ◌+◌, length, OnOk, OnErr};
ghost use Rattle.rack_outside.specs.Link.{Reads, IsOneRead, ReadsAhead, Writes, IsOneWrite, WritesAhead, next_place, room_for};
ghost use Rattle.rack_outside.specs.Told.{counted};
ghost use Rattle.rack_outside.specs.Wire.{fresh_pipe, pipe_seen, with_more, with_end, with_room, IsSureRead, IsSureWrite, CountsRead, CountsWrite};

use crate::{Link, LinkRead, LinkWrite};
use rack_types::NoMemory;
use std::alloc::Global;
use std::marker::Model;

/// A link in memory that never fails: it tells all that it is, and its counts of failures are
/// always 0.
#[derive(Drop)]
pub struct SureLink {
    tag: u64,
    // all that the peer gave
    text: Vec<u8>,
    // how many of these bytes were read
    read: usize,
    sent: Vec<u8>,
    ended: bool,
    over: bool,
    room: Option<u64>,
    waits: u64,
    reads: u64,
    writes: u64,
}

impl Model for SureLink {
    ghost use Rattle.std.specs.Prelude.{◌≤◌, length, take, drop};
    ghost use Rattle.rack_outside.specs.Wire.{Pipe};

    ghost Value = { Pipe };

    ghost view = { λ l. record {
      tag = l.tag;
      given = take l.read l.text.items;
      sent = l.sent.items;
      over = l.over;
      waits = l.waits;
      reads = l.reads;
      writes = l.writes;
      unread = drop l.read l.text.items;
      ended = l.ended;
      room = l.room;
    } };

    ghost invariant = { λ l. l.read ≤ length l.text.items };
}

impl SureLink {
    /// A link with this tag, whose peer is `127.0.0.1`. Nothing was given to it, and what it takes
    /// has no end. It takes no memory.
    pub fn new(alloc: Global, tag: u64) -> SureLink
        ensures fresh { result ≡ fresh_pipe tag }
        ensures seen { ⟦<SureLink as Link>⟧.seen result ≡ pipe_seen (fresh_pipe tag) }
    {
        SureLink {
            tag,
            text: Vec::new(alloc),
            read: 0,
            sent: Vec::new(alloc),
            ended: false,
            over: false,
            room: None,
            waits: 0,
            reads: 0,
            writes: 0,
        }
    }

    /// The peer gives these bytes. It takes memory for them, and a refused call changes nothing.
    pub fn give(&mut self, text: &[u8]) -> Result<(), NoMemory>
        ensures gives { OnOk result (self.new ≡ with_more text.now self.old) }
        ensures refused { OnErr result (self.new ≡ self.old) }
    {
        self.text.extend_from_slice(text)
    }

    /// The peer ends behind what it gave.
    pub fn end(&mut self)
        ensures { self.new ≡ with_end self.old }
    {
        self.ended = true;
    }

    /// From now on n more bytes are taken, and behind them a write has to wait.
    pub fn room(&mut self, n: u64)
        ensures { self.new ≡ with_room n self.old }
    {
        self.room = Some(n);
    }

    /// All bytes that were read, in order.
    pub fn given(&self) -> &[u8]
        ensures { result.now ≡ self.now.given }
    {
        &self.text[..self.read]
    }

    /// All bytes that were taken, in order.
    pub fn sent(&self) -> &[u8]
        ensures { result.now ≡ self.now.sent }
    {
        &self.sent
    }

    // The place of the next call, where reads and writes are counted together from 1.
    pub(crate) fn next_place(&self) -> u64
        ensures { result ≡ counted (self.now.reads + self.now.writes) }
    {
        self.reads.saturating_add(self.writes).saturating_add(1)
    }

    // A read that gives nothing is counted.
    pub(crate) fn miss_read(&mut self)
        ensures { self.new ≡ record self.old { reads = counted self.old.reads } }
    {
        self.reads = self.reads.saturating_add(1);
    }

    // A write that takes nothing is counted.
    pub(crate) fn miss_write(&mut self)
        ensures { self.new ≡ record self.old { writes = counted self.old.writes } }
    {
        self.writes = self.writes.saturating_add(1);
    }
}

impl Link for SureLink {
    ghost seen = { pipe_seen };

    /// Gives as many of the unread bytes as fit, the end where none is unread and the peer ended, and
    /// else nothing yet. It takes no memory.
    fn read(&mut self, room: &mut [u8]) -> LinkRead
        requires { 0 < length room.old }
        ensures reads { Reads result room.new (pipe_seen self.old) (pipe_seen self.new) }
        ensures keeps { IsOneRead (pipe_seen self.old) (pipe_seen self.new) }
        ensures ahead { ReadsAhead result room.new (pipe_seen self.old).ahead (next_place (pipe_seen self.old)) (pipe_seen self.new).ahead }
        ensures counts { CountsRead result (pipe_seen self.old) (pipe_seen self.new) }
        ensures sure { IsSureRead result }
    {
        self.reads = self.reads.saturating_add(1);
        let left = self.text.len() - self.read;
        if left > 0 {
            let n = left.min(room.len());
            let end = self.read + n;
            room[..n].copy_from_slice(&self.text[self.read..end]);
            self.read = end;
            return LinkRead::Bytes(n);
        }
        if self.ended {
            self.over = true;
            return LinkRead::End;
        }
        self.waits = self.waits.saturating_add(1);
        LinkRead::NotYet
    }

    /// Takes as many bytes as the room holds, and has to wait where it holds none. It takes memory
    /// for them, and answers `NoMemory` where that is refused.
    fn write(&mut self, piece: &[u8]) -> LinkWrite
        requires { 0 < length piece.now }
        ensures writes { Writes result piece.now (pipe_seen self.old) (pipe_seen self.new) }
        ensures keeps { IsOneWrite (pipe_seen self.old) (pipe_seen self.new) }
        ensures ahead { WritesAhead result piece.now (pipe_seen self.old).ahead (next_place (pipe_seen self.old)) (pipe_seen self.new).ahead }
        ensures counts { CountsWrite result (pipe_seen self.old) (pipe_seen self.new) }
        ensures sure { IsSureWrite result }
    {
        self.writes = self.writes.saturating_add(1);
        let n = fitting(self.room, piece.len());
        if n == 0 {
            self.waits = self.waits.saturating_add(1);
            return LinkWrite::NotYet;
        }
        if self.sent.extend_from_slice(&piece[..n]).is_err() {
            return LinkWrite::NoMemory;
        }
        self.room = self.room.map(|room| room.saturating_sub(n as u64));
        LinkWrite::Took(n)
    }
}

// How many of so many bytes the room takes.
fn fitting(room: Option<u64>, len: usize) -> usize
    ensures { result ≡ room_for room len }
{
    match room {
        Some(room) => room.min(len as u64) as usize,
        None => len,
    }
}
