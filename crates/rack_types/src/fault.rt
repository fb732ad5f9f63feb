// What can be wrong with a request, by the number that the fault reply names.

/// Why a request was refused.
#[derive(Clone, Copy, Debug, PartialEq, Eq)]
pub enum Fault {
    /// The bytes are refused by this row of the table of refusals, 1 to 16 (docs/DEFINITIONS.md).
    /// 0 is a form that is not built yet.
    F(u8),
    /// The request was not whole in time.
    T1,
}
