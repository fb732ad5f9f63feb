// The rules that an environment, an answer and a body can break, by their numbers.

/// A rule of an environment: E1 to E10, by its number (docs/DEFINITIONS.md).
#[derive(Clone, Copy, Debug, PartialEq, Eq)]
pub struct EnvRule(pub u8);

/// A rule of an answer: L0 to L11, by its number (docs/DEFINITIONS.md).
#[derive(Clone, Copy, Debug, PartialEq, Eq)]
pub struct Rule(pub u8);

/// A rule of a body: B1 to B3, by its number (docs/DEFINITIONS.md).
#[derive(Clone, Copy, Debug, PartialEq, Eq)]
pub struct BodyRule(pub u8);

/// Which rules an answer is held to.
#[derive(Clone, Copy, Debug, PartialEq, Eq)]
pub enum Set {
    /// L0 to L10, which the server keeps for every application.
    Server,
    /// L11 too: that a reply to HEAD has an empty body.
    Full,
}
