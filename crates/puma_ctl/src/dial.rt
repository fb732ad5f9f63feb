// What dials a server.
ghost use Rattle.std.specs.Prelude.{◌≡◌};
ghost use Rattle.std.specs.Option.{option_map};
ghost use Rattle.puma_ctl.specs.Dial.{DialSeen, GivesLink, IsOneDial, with_back};

use rack_outside::Link;

/// What dials a server, and waits for it.
///
/// It counts its dials, and those that failed; a count that has reached 2^64 - 1 stays there, and a further event then
/// counts as risen. It shows what the link shows that it last took back.
pub trait Dial {
    /// The links that it gives.
    type Link: Link + Drop;

    /// All that contracts see of it.
    ghost seen: { Self → DialSeen };

    /// A link to the server at this address, on which nothing happened yet; None where that failed, and then the count of
    /// faults rose.
    fn dial(&mut self, address: &str) -> Option<Self::Link>
        ensures gives { GivesLink (option_map Self.Link.seen result) (seen self.old) (seen self.new) }
        ensures one { IsOneDial (seen self.old) (seen self.new) };

    /// Waits a little, for the server to go on.
    fn pause(&mut self)
        ensures { seen self.new ≡ seen self.old };

    /// Takes a link back that it gave. It takes no memory.
    fn take_back(&mut self, link: Self::Link)
        ensures { seen self.new ≡ with_back (Self.Link.seen link) (seen self.old) };
}
