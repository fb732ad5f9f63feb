// The bytes that were framed and are not in the ring yet.
ghost use Rattle.circular_buffer.specs.Buffer.{buffer};
ghost use Rattle.std.specs.Prelude.{◌≡◌, ◌≤◌, ◌<◌, ◌++◌, ◌+◌, [], length, take, drop, vec_len, vec_capacity, ℕ, List, Option, None};

use crate::types::Form;
use circular_buffer::HeapCircularBuffer;
use rack_text::put_hex;

/// At most a head, or what frames one piece with what is left of that piece, which its body lends.
#[derive(Drop)]
pub(crate) struct Framed {
    // the head, a size line or a last chunk
    lead: Vec<u8>,
    lead_at: usize,
    // how many of the piece's last bytes are left
    piece_left: usize,
    // how many of the last bytes of the line end behind the piece are left
    tail_left: usize,
    ghost lead_within: { lead_at ≤ vec_len lead },
    ghost tail_within: { tail_left ≤ 2 },
    // so that a size line or a last chunk takes no memory
    ghost room: { 80 ≤ vec_capacity lead },
}

impl Framed {
    ghost use Rattle.std.specs.Prelude.{codes, false, true};
    ghost use Rattle.std.specs.Fmt.{digits};
    ghost use Rattle.reply_framing.specs.Body.{wire, last_bytes};
    ghost use Rattle.reply_framing.specs.Coming.{Appends};
    ghost use Rattle.reply_framing.specs.Framed.{pending, IsWithin, IsAllOrFull};

    // These bytes, and no piece.
    pub(crate) fn new(lead: Vec<u8>) -> Framed
        requires { 80 ≤ vec_capacity lead }
        ensures bytes { (piece : List ℕ) → pending result piece ≡ lead.items }
        ensures within { result.piece_left ≡ 0 }
    {
        Framed {
            lead,
            lead_at: 0,
            piece_left: 0,
            tail_left: 0,
        }
    }

    // Appends what fits of the bytes, which end with those of this piece that are left. Whether all
    // fitted.
    pub(crate) fn append(&mut self, piece: &[u8], ring: &mut HeapCircularBuffer<u8>) -> bool
        requires { IsWithin self.old piece.now }
        ensures appends { Appends (pending self.old piece.now) (pending self.new piece.now) ring.old ring.new }
        ensures within { IsWithin self.new piece.now }
        ensures answer { IsAllOrFull result (pending self.new piece.now) ring.new }
        ensures clear { result ≡ true → (length self.new.lead.items ≤ self.new.lead_at) × (self.new.piece_left ≡ 0) × (self.new.tail_left ≡ 0) }
    {
        let lead = self.lead.as_slice();
        let n = put(ring, lead, self.lead_at);
        self.lead_at += n;
        if self.lead_at < self.lead.len() {
            return false;
        }
        let n = put(ring, piece, piece.len() - self.piece_left);
        self.piece_left -= n;
        if self.piece_left > 0 {
            return false;
        }
        let line_end: &[u8] = b"\r\n";
        let n = put(ring, line_end, 2 - self.tail_left);
        self.tail_left -= n;
        self.tail_left == 0
    }

    // A piece of so many bytes comes next.
    pub(crate) fn put_piece(&mut self, form: Form, len: usize)
        ensures bytes { (piece : List ℕ) → length piece ≡ len → pending self.new piece ≡ wire form piece }
        ensures within { self.new.piece_left ≤ len }
    {
        self.clear();
        match form {
            Form::Bare => {}
            Form::Chunked => {
                if len > 0 {
                    self.put_size(len);
                    self.piece_left = len;
                    self.tail_left = 2;
                }
            }
            _ => self.piece_left = len,
        }
    }

    // A size line comes next.
    fn put_size(&mut self, size: usize)
        requires { (self.old.lead.items ≡ []) × (self.old.lead_at ≡ 0) }
        ensures lead { self.new.lead.items ≡ digits 16 false size ++ codes "\r\n" }
        ensures same { (self.new.lead_at ≡ 0) × (self.new.piece_left ≡ self.old.piece_left) × (self.new.tail_left ≡ self.old.tail_left) }
    {
        let mut room = [0; 64];
        let start = put_hex(size as u64, &mut room);
        self.lead.extend_from_slice(&room[start..]).unwrap();
        self.lead.extend_from_slice(b"\r\n").unwrap();
    }

    // What stands behind the last piece comes next.
    pub(crate) fn put_last(&mut self, form: Form)
        ensures bytes { (piece : List ℕ) → pending self.new piece ≡ last_bytes form }
        ensures within { self.new.piece_left ≡ 0 }
    {
        self.clear();
        if form == Form::Chunked {
            self.lead.extend_from_slice(b"0\r\n\r\n").unwrap();
        }
    }

    // Nothing comes next.
    pub(crate) fn clear(&mut self)
        ensures bytes { (piece : List ℕ) → pending self.new piece ≡ [] }
        ensures none { (self.new.lead.items ≡ []) × (self.new.lead_at ≡ 0) × (self.new.piece_left ≡ 0) × (self.new.tail_left ≡ 0) }
    {
        self.lead_at = 0;
        self.lead.clear();
        self.piece_left = 0;
        self.tail_left = 0;
    }
}

// Appends what fits of the text from a place on, and answers how many bytes that are.
fn put(ring: &mut HeapCircularBuffer<u8>, text: &[u8], from: usize) -> usize
    requires { from ≤ length text.now }
    ensures count { from + result ≤ length text.now }
    ensures items { ring.new ≡ buffer (ring.old.items ++ take result (drop from text.now)) ring.old.capacity }
    ensures full { from + result < length text.now → length ring.new.items ≡ ring.new.capacity }
{
    let _room = ring.capacity();
    ring.fill_from_slice(suffix(text, from))
}

// The text from a place on.
fn suffix(text: &[u8], from: usize) -> &[u8]
    requires { from ≤ length text.now }
    ensures { result.now ≡ drop from text.now }
{
    &text[from..]
}
