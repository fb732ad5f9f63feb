// The stock hijackers, as an application chooses them.

/// A stock hijacker, as an application chooses it. `Stock::new` makes it.
#[derive(Clone, Copy, Debug, PartialEq, Eq)]
pub enum Stock {
    /// Says each byte again, and goes on.
    Echo,
    /// Says each byte again, a to z as A to Z, up to the first byte 4, before which it ends.
    Upper,
}
