// What stands in the bytes that an intake was fed, and how a body goes on.
ghost use Rattle.std.specs.Prelude.{◌<◌, ◌≤◌, vec_len, vec_capacity};

use crate::Feed;
use crate::chunks::Chunks;
use crate::fields::Framing;
use crate::head::Head;
use crate::scan::prefix;
use rack_types::{Fault, NoMemory, Request};
use std::alloc::{AllocError, Global};

/// What stands.
#[derive(Drop)]
pub(crate) enum Standing {
    /// The head is coming.
    Open,
    /// The head is whole, and a body of a stated length is coming.
    Stated(StatedBody),
    /// The head is whole, and chunks are coming.
    Chunked(ChunkedBody),
    /// A request.
    Whole(Request),
    /// A refusal.
    Refused(Fault),
    /// Memory was refused.
    Lacking,
}

/// A request, and what came of its body, which is not whole.
#[derive(Drop)]
pub(crate) struct StatedBody {
    request: Request,
    bytes: Vec<u8>,
    length: usize,
    ghost short: { vec_len bytes < length },
    ghost room: { length ≤ vec_capacity bytes },
}

/// A request, and the reader of its chunks.
#[derive(Drop)]
pub(crate) struct ChunkedBody {
    request: Request,
    chunks: Chunks,
}

impl Standing {
    ghost use Rattle.message_framing.specs.Standing.{StandsBehind, FeedsOn};

    /// What stands behind a head that earns no refusal.
    pub(crate) fn behind_head(alloc: Global, head: Head) -> Standing
        ensures { StandsBehind head result }
    {
        let Head { request, framing } = head;
        match framing {
            Framing::Stated(0) => Standing::Whole(request),
            Framing::Stated(length) => match Vec::with_capacity(alloc, length) {
                Ok(bytes) => Standing::Stated(StatedBody {
                    request,
                    bytes,
                    length,
                }),
                Err(_) => Standing::Lacking,
            },
            Framing::Chunked => {
                Standing::Chunked(ChunkedBody {
                    request,
                    chunks: Chunks::new(alloc),
                })
            }
        }
    }

    /// Takes what belongs to the request of a piece that comes behind its head.
    pub(crate) fn feed(self, piece: &[u8]) -> (Standing, Result<Feed, NoMemory>)
        ensures { FeedsOn self piece.now result.1 result.0 }
    {
        match self {
            Standing::Open => (Standing::Open, Ok(Feed::More)),
            Standing::Stated(body) => body.feed(piece),
            Standing::Chunked(body) => body.feed(piece),
            Standing::Whole(request) => (Standing::Whole(request), Ok(Feed::Whole(0))),
            Standing::Refused(fault) => (Standing::Refused(fault), Ok(Feed::Refused(fault))),
            Standing::Lacking => (Standing::Lacking, Err(AllocError)),
        }
    }
}

impl StatedBody {
    ghost use Rattle.message_framing.specs.Standing.{StatedGoesOn};

    /// Takes what the body has of a piece. It takes no memory.
    pub(crate) fn feed(self, piece: &[u8]) -> (Standing, Result<Feed, NoMemory>)
        ensures { StatedGoesOn self piece.now result.1 result.0 }
    {
        let StatedBody {
            mut request,
            mut bytes,
            length,
        } = self;
        let n = piece.len().min(length - bytes.len());
        if let Err(refused) = bytes.extend_from_slice(prefix(piece, n)) {
            return (Standing::Lacking, Err(refused));
        }
        if bytes.len() < length {
            let body = StatedBody {
                request,
                bytes,
                length,
            };
            return (Standing::Stated(body), Ok(Feed::More));
        }
        request.put_body(bytes, false);
        (Standing::Whole(request), Ok(Feed::Whole(n)))
    }
}

impl ChunkedBody {
    ghost use Rattle.message_framing.specs.Standing.{ChunkedGoesOn};

    /// Takes what the body has of a piece.
    pub(crate) fn feed(self, piece: &[u8]) -> (Standing, Result<Feed, NoMemory>)
        ensures { ChunkedGoesOn self piece.now result.1 result.0 }
    {
        let ChunkedBody {
            mut request,
            mut chunks,
        } = self;
        match chunks.feed(piece) {
            Ok(Feed::More) => {
                let body = ChunkedBody { request, chunks };
                (Standing::Chunked(body), Ok(Feed::More))
            }
            Ok(Feed::Whole(n)) => {
                request.put_body(chunks.into_bytes(), true);
                (Standing::Whole(request), Ok(Feed::Whole(n)))
            }
            Ok(Feed::Refused(fault)) => (Standing::Refused(fault), Ok(Feed::Refused(fault))),
            Err(refused) => (Standing::Lacking, Err(refused)),
        }
    }
}
