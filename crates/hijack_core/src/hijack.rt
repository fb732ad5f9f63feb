// What takes a connection over.
ghost use Rattle.std.specs.Prelude.{◌≡◌, ℕ, ◌≤◌, ◌++◌, [], List, length, true, false, IfOk};
ghost use Rattle.hijack_core.specs.declared.hijack.Said.{Said as Answered};
ghost use Rattle.hijack_core.specs.Said.{Starts, GoesOnAs};

use rack_types::{Bytes, NoMemory};

/// What a hijacker says to some bytes.
#[derive(Debug, Drop)]
pub struct Said {
    /// The bytes that go to the peer.
    pub bytes: Bytes,
    /// Whether it goes on. Where it doesn't, nothing more is asked, and the connection is closed
    /// behind these bytes.
    pub go_on: bool,
}

/// What an application hands out to take a connection over, behind the reply's head or in its place
/// (the hijack of the Rack SPEC).
///
/// The bytes that were read behind the request come first, as the first piece, which may be empty.
/// What is said to two pieces is what is said to them joined, so it doesn't matter how bytes are cut.
pub trait Hijack {
    /// What it says to these bytes, whole: the bytes of its answers, joined, and whether it goes on.
    ghost says: { Self → List ℕ → Answered };
    /// What it says at the end, behind these bytes.
    ghost ends: { Self → List ℕ → List ℕ };

    /// Tells it the next bytes that came, at most 16,384 of them, which it answers by at most 65,536.
    /// After `NoMemory` nothing more is asked.
    fn on_bytes(&mut self, piece: &[u8]) -> Result<Said, NoMemory>
        ensures says { IfOk result (λ said. said ≡ says self.old piece.now) }
        ensures goes_on { IfOk result (λ said. said.go_on ≡ true
            → GoesOnAs (says self.old) (ends self.old) piece.now (says self.new) (ends self.new)) };

    /// Tells it that the peer has ended, which it answers by at most 65,536 bytes. Nothing more is
    /// asked behind them, whatever it says.
    fn on_end(&mut self) -> Result<Said, NoMemory>
        ensures ends { IfOk result (λ said. said.bytes ≡ ends self.old []) };

    /// Tells it that the server drains. What it says to any further bytes, and at the end, stays as
    /// it was.
    fn leave(&mut self)
        ensures says { (bytes : List ℕ) → says self.new bytes ≡ says self.old bytes }
        ensures ends { (bytes : List ℕ) → ends self.new bytes ≡ ends self.old bytes };

    // What is said to some bytes begins what is said to these and any behind them.
    ghost begins: { (h : Self) (bytes more : List ℕ) → Starts (says h bytes).bytes (says h (bytes ++ more)).bytes };
    // Where it goes on, some hijacker is what it is behind these bytes.
    ghost joins: { (h : Self) (bytes : List ℕ) → (says h bytes).go_on ≡ true
        → (later : Self) × GoesOnAs (says h) (ends h) bytes (says later) (ends later) };
    // Where it doesn't go on, it says the same to these bytes and any behind them.
    ghost stops: { (h : Self) (bytes more : List ℕ) → (says h bytes).go_on ≡ false → says h (bytes ++ more) ≡ says h bytes };
    // At most 65,536 bytes answer a piece of at most 16,384.
    ghost short: { (h : Self) (piece : List ℕ) → length piece ≤ 16384 → length (says h piece).bytes ≤ 65536 };
    // So do they at the end.
    ghost short_end: { (h : Self) (bytes : List ℕ) → length (ends h bytes) ≤ 65536 };
}
