// What is done to a link by others than the connection that owns it.
ghost use Rattle.rack_outside.specs.Link.{IsTouched};

use crate::Link;

/// What is done to the link of a connection from outside, as a world in memory gives it bytes.
///
/// It changes what is to come of the link, and nothing that the link told or counted.
pub trait Touch<L: Link> {
    /// What it says of the link.
    type Said;

    /// What stands between its value before, the link before, what it says, and the link behind it.
    ghost relates: { Self → L → Self.Said → L → Type 0 };

    /// Touches the link once.
    fn touch(&mut self, link: &mut L) -> Self::Said
        ensures keeps { IsTouched (L.seen link.old) (L.seen link.new) }
        ensures relates { relates self.old link.old result link.new };
}
