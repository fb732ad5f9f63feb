// The body of an answer that comes through a middleware.
ghost use Rattle.std.specs.Prelude.{◌≡◌};
ghost use Rattle.stock_middleware.specs.WareBody.{no_body, ware_content, ware_taken};

use rack_types::{Body, Kind, NoMemory, Plain, Step};
use std::alloc::Global;

/// The body of an answer that comes through a middleware: the application's, or one that a middleware
/// has put in its place.
///
/// It has no `Drop` unless the application's has: it is spent by `close`.
#[derive(Drop)]
pub enum WareBody<B> {
    /// The application's.
    App(B),
    /// A middleware's own.
    Own(Plain),
}

impl<B: Body> WareBody<B> {
    // An empty body of known length. This takes no memory.
    pub(crate) fn empty(alloc: Global) -> WareBody<B>
        ensures { ware_content B.content result ≡ no_body }
    {
        WareBody::Own(Plain::new(Vec::new(alloc), false, true, Kind::Enumerable))
    }
}

impl<B: Body> Body for WareBody<B> {
    ghost content = { ware_content B.content };

    ghost taken = { ware_taken B.taken };

    fn next(&mut self) -> Result<Step, NoMemory> {
        match self {
            WareBody::App(body) => body.next(),
            WareBody::Own(body) => body.next(),
        }
    }

    fn piece(&self) -> &[u8] {
        match self {
            WareBody::App(body) => body.piece(),
            WareBody::Own(body) => body.piece(),
        }
    }

    fn known_length(&self) -> Option<u64> {
        match self {
            WareBody::App(body) => body.known_length(),
            WareBody::Own(body) => body.known_length(),
        }
    }

    fn kind(&self) -> Kind {
        match self {
            WareBody::App(body) => body.kind(),
            WareBody::Own(body) => body.kind(),
        }
    }

    fn close(self) {
        match self {
            WareBody::App(body) => body.close(),
            WareBody::Own(body) => body.close(),
        }
    }
}
