// The names of the two ends of a connection.
ghost use Rattle.std.specs.Prelude.{◌≡◌, ◌≤◌, ◌↔◌, length, IsSome, IfSome};

use std::marker::Model;

/// A host's name or address as text, of at most 45 bytes, which is what an address of IPv6 can take.
///
/// The bytes lie in place: no call of this type takes memory. A contract sees them as a list.
#[derive(Debug, Drop)]
pub struct Peer {
    text: [u8; 45],
    len: usize,
}

impl Model for Peer {
    ghost use Rattle.std.specs.Prelude.{◌≤◌, List, ℕ, take};

    ghost Value = { List ℕ };

    ghost view = { λ p. take p.len p.text };

    ghost invariant = { λ p. p.len ≤ 45 };
}

impl Peer {
    /// This text. None exactly where it is longer than 45 bytes.
    pub fn new(text: &[u8]) -> Option<Peer>
        ensures fits { IsSome result ↔ (length text.now ≤ 45) }
        ensures value { IfSome result (λ p. p ≡ text.now) }
    {
        let len = text.len();
        if len > 45 {
            return None;
        }
        let mut kept = [0; 45];
        kept[..len].copy_from_slice(text);
        Some(Peer { text: kept, len })
    }

    /// The text, lent.
    pub fn get(&self) -> &[u8]
        ensures value { result.now ≡ self.now }
        ensures short { length self.now ≤ 45 }
    {
        &self.text[..self.len]
    }
}

/// The server's own end of a connection.
#[derive(Debug, Drop)]
pub struct Local {
    /// The name that the server goes by.
    pub name: Peer,
    /// The port that it listens on.
    pub port: u16,
    /// Whether requests came by `https`, as a proxy in front may say.
    pub https: bool,
    /// Whether an application may take the connection over.
    pub hijack: bool,
}
