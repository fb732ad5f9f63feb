// The bytes of one request, taken in as they come.
ghost use Rattle.std.specs.Prelude.{◌≡◌, ◌↔◌, ◌≤◌, length, vec_len, vec_capacity, [], ℕ, List, IfOk, IfSome, IsNone, IsSome, IsSomeAnd, IsTrue};
ghost use Rattle.message_framing.specs.declared.standing.Standing.TheVariants as at;

use crate::head::read_head;
use crate::scan::{Line, prefix, suffix};
use crate::standing::Standing;
use httparse::spans::{EMPTY_HEADER_SPAN, HeaderSpan};
use rack_types::{Bytes, Fault, Input, Limits, NoMemory, Request};
use std::alloc::Global;
use std::mem;

// The bytes that a head may have, with the empty lines before it.
const HEAD_LIMIT: usize = 32_768;

/// What stands once a piece was fed.
#[derive(Clone, Copy, Debug, PartialEq, Eq)]
pub enum Feed {
    /// Neither a whole request stands nor a refusal.
    More,
    /// A whole request stands, and so many bytes of the piece belong to it. The others were not taken.
    Whole(usize),
    /// The bytes are refused, whatever comes behind them.
    Refused(Fault),
}

/// The reader of requests: it is fed the bytes of a connection in pieces, cut in any way.
#[derive(Drop)]
pub struct Intake {
    // The head so far, and the places of its fields. A request that stands has both.
    bytes: Vec<u8>,
    places: Vec<HeaderSpan>,
    // What the last line of all bytes of the present request is, to the end of the head text.
    line: Line,
    standing: Standing,
    ghost places_kept: { standing ≡ at.Open → vec_len places ≡ 64 },
    ghost room_kept: { standing ≡ at.Open → 32768 ≤ vec_capacity bytes },
}

impl Intake {
    ghost use Rattle.rack_types.specs.Input.{unread};
    ghost use Rattle.rack_types.specs.Limits.{stock_limits};
    ghost use Rattle.rack_types.specs.Request.{Parts, with_body};
    ghost use Rattle.message_framing.specs.Intake.{Fed, Spent, Lacked, Lacks, StandsWhole, FeedsTo};
    ghost use Rattle.message_framing.specs.FeedParts.{FeedsHead, GoesOn};
    ghost use Rattle.message_framing.specs.Request.{Begun, IsRequest};
    ghost use Rattle.message_framing.specs.Standing.{Judges};

    /// An intake that was fed nothing. It reserves the room of a head here, and no later call of this
    /// type takes memory for one.
    pub fn new(alloc: Global, limits: Limits) -> Result<Intake, NoMemory>
        requires { limits ≡ stock_limits }
        ensures { IfOk result (λ i. Fed i []) }
    {
        let bytes = Vec::with_capacity(alloc, limits.head)?;
        let places = vec![in alloc; EMPTY_HEADER_SPAN; limits.lines]?;
        Ok(Intake {
            bytes,
            places,
            line: Line::Skipping,
            standing: Standing::Open,
        })
    }

    /// Adds a piece to the bytes so far, and tells what stands then.
    ///
    /// Where it answers, the answer is exactly what the definitions of request and refusal say of the
    /// bytes so far and the piece, however the bytes are cut into pieces. Bytes behind a whole request
    /// are not taken. While a whole request stands it answers `Whole(0)`, and behind a refusal that
    /// refusal.
    ///
    /// It takes memory at the end of a head that states a length above 0, for the body, and for chunks
    /// at a byte of a size line or of the trailer; never for an empty piece, nor for the data of a
    /// chunk, whose room its size line reserved. Where that is refused, each further call answers so.
    pub fn feed(&mut self, piece: &[u8]) -> Result<Feed, NoMemory>
        ensures answers { FeedsTo self.old piece.now result self.new }
    {
        let from = match &self.standing {
            Standing::Open => match self.feed_head(piece) {
                Some(n) => n,
                None => return Ok(Feed::More),
            },
            _ => 0,
        };
        self.go_on(from, piece)
    }

    // Takes what the head has of a piece: how many bytes that are, once something stands behind them.
    fn feed_head(&mut self, piece: &[u8]) -> Option<usize>
        requires { self.old.standing ≡ Standing.Open }
        ensures { FeedsHead self.old piece.now result self.new }
    {
        let room = HEAD_LIMIT.saturating_sub(self.bytes.len());
        let (near, beyond) = piece.split_at(room.min(piece.len()));
        match self.line.scan(near) {
            Some(n) => {
                self.bytes.extend_from_slice(prefix(near, n)).unwrap();
                self.judge();
                Some(n)
            }
            None if beyond.is_empty() => {
                self.bytes.extend_from_slice(near).unwrap();
                None
            }
            None => {
                let _ = self.line.scan(beyond);
                self.standing = Standing::Refused(Fault::F(1));
                Some(piece.len())
            }
        }
    }

    // The head text is whole: reads it, and tells what stands behind it.
    fn judge(&mut self)
        requires { self.old.standing ≡ Standing.Open }
        ensures line { self.new.line ≡ self.old.line }
        ensures stands { Judges self.old.bytes.items self.new.standing }
    {
        let alloc = *self.bytes.allocator();
        let bytes = mem::replace(&mut self.bytes, Vec::new(alloc));
        let places = mem::replace(&mut self.places, Vec::new(alloc));
        let standing = match read_head(bytes, places) {
            Ok(head) => Standing::behind_head(alloc, head),
            Err(fault) => Standing::Refused(fault),
        };
        self.standing = standing;
    }

    // Goes on behind a head, from a place of the piece on.
    fn go_on(&mut self, from: usize, piece: &[u8]) -> Result<Feed, NoMemory>
        requires { from ≤ length piece.now }
        ensures { GoesOn self.old from piece.now result self.new }
    {
        if let Standing::Whole(_) = &self.standing {
            return Ok(Feed::Whole(from));
        }
        let rest = suffix(piece, from);
        let (standing, answer) = mem::replace(&mut self.standing, Standing::Lacking).feed(rest);
        self.standing = standing;
        match answer? {
            Feed::More => Ok(Feed::More),
            Feed::Whole(n) => Ok(Feed::Whole(from + n)),
            Feed::Refused(fault) => {
                // The bytes behind a refusal count for `begun`.
                let _ = self.line.scan(rest);
                Ok(Feed::Refused(fault))
            }
        }
    }

    /// The whole request, where one stands. Its body is empty once `take_input` has moved it out.
    pub fn request(&self) -> Option<&Request>
        ensures there { (b : List ℕ) → Fed self.now b → IfSome result (λ r. IsRequest b r.now) }
        ensures none { (b : List ℕ) (r : Parts) → Fed self.now b → IsRequest b r → IsSome result }
        ensures spent { (b : List ℕ) (r : Parts) → Spent self.now b → IsRequest b r → IsSomeAnd result (λ q. q.now ≡ with_body [] r) }
        ensures whole { IsSome result ↔ StandsWhole self.now }
        ensures lacking { Lacks self.now → IsNone result }
    {
        match &self.standing {
            Standing::Whole(request) => Some(request),
            _ => None,
        }
    }

    /// Whether the present request has begun: a byte was taken other than those of whole empty lines
    /// in front. A lone carriage return counts until its line feed comes. It holds on while a whole
    /// request stands, behind a refusal the bytes that are fed count too, and where memory was refused
    /// so does the piece to which it was.
    pub fn begun(&self) -> bool
        ensures fed { (b : List ℕ) → Fed self.now b → IsTrue result ↔ Begun b }
        ensures spent { (b : List ℕ) → Spent self.now b → IsTrue result ↔ Begun b }
        ensures lacked { (b : List ℕ) → Lacked self.now b → IsTrue result ↔ Begun b }
    {
        match self.line {
            Line::Skipping => false,
            _ => true,
        }
    }

    /// Moves the body of the whole request out, as the input of an environment, and leaves an empty one.
    /// It copies nothing.
    pub fn take_input(&mut self) -> Input
        requires { StandsWhole self.old }
        ensures first { (b : List ℕ) (r : Parts) → Fed self.old b → IsRequest b r → (result ≡ unread r.body) × Spent self.new b }
        ensures again { (b : List ℕ) → Spent self.old b → (result ≡ unread []) × Spent self.new b }
        ensures whole { StandsWhole self.new }
    {
        let Standing::Whole(request) = &mut self.standing else {
            unreachable!()
        };
        Input::new(Bytes::new(request.take_body()))
    }

    /// Starts the next request, on the bytes behind the whole one that stands. It uses the room of the
    /// head again.
    pub fn advance(&mut self)
        requires { StandsWhole self.old }
        ensures { Fed self.new [] }
    {
        let Standing::Whole(request) = mem::replace(&mut self.standing, Standing::Open) else {
            unreachable!()
        };
        let (mut bytes, places) = request.into_room();
        bytes.clear();
        self.bytes = bytes;
        self.places = places;
        self.line = Line::Skipping;
    }
}

// An intake goes into a connection, which may go from thread to thread. That it is Send is proved here,
// where this call is.
fn intake_is_send() {
    is_send::<Intake>()
}

fn is_send<T: Send>() {}
