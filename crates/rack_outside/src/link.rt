// The two ways of a connection.
ghost use Rattle.std.specs.Prelude.{ℕ, ◌<◌, length};
ghost use Rattle.rack_outside.specs.Link.{Seen, Reads, IsOneRead, ReadsAhead, Writes, IsOneWrite, WritesAhead, next_place};

/// What one read of a link gave.
#[derive(Clone, Copy, Debug, PartialEq, Eq)]
pub enum LinkRead {
    /// So many bytes stand at the front of the room: 1 to the room's length.
    Bytes(usize),
    /// There is nothing yet, and the count of waits rose.
    NotYet,
    /// The peer has ended.
    End,
    /// The read failed, and the count of failed reads rose.
    Failed,
}

/// What one write to a link took.
#[derive(Clone, Copy, Debug, PartialEq, Eq)]
pub enum LinkWrite {
    /// So many bytes of the piece were taken, from its front: 1 to the piece's length.
    Took(usize),
    /// Nothing could be taken yet, and the count of waits rose.
    NotYet,
    /// The write failed, and the count of failed writes rose.
    Failed,
    /// Memory was refused. Only links in memory answer it, and they took nothing.
    NoMemory,
}

/// A connection's own two ways: bytes come from its peer, and others go to it. Neither call blocks.
///
/// A link has a tag and a peer, which never change. It counts its failed reads, its failed writes,
/// its waits, its reads and its writes; a count that has reached 2^64 - 1 stays there, and a further
/// event then counts as risen. What was given and sent, whether the peer ended, and what is to come
/// is told by links in memory and not by real ones.
pub trait Link {
    /// All that contracts see of the link.
    ghost seen: { Self → Seen };

    /// Reads some bytes into the room, which is not empty.
    fn read(&mut self, room: &mut [u8]) -> LinkRead
        requires { 0 < length room.old }
        ensures reads { Reads result room.new (seen self.old) (seen self.new) }
        ensures keeps { IsOneRead (seen self.old) (seen self.new) }
        ensures ahead { ReadsAhead result room.new (seen self.old).ahead (next_place (seen self.old)) (seen self.new).ahead };

    /// Writes some bytes of the piece, which is not empty.
    fn write(&mut self, piece: &[u8]) -> LinkWrite
        requires { 0 < length piece.now }
        ensures writes { Writes result piece.now (seen self.old) (seen self.new) }
        ensures keeps { IsOneWrite (seen self.old) (seen self.new) }
        ensures ahead { WritesAhead result piece.now (seen self.old).ahead (next_place (seen self.old)) (seen self.new).ahead };
}
