// What goes from one owner to the next.
ghost use Rattle.std.specs.Prelude.{◌≡◌, ℕ};

/// What has a number by which its owners know it.
///
/// Clauses know it by its number together with its tag, a number that contracts alone see. The tag of
/// a connection is that of its link, which never changes.
pub trait Numbered {
    ghost tag: { Self → ℕ };

    ghost number_of: { Self → ℕ };

    /// The number.
    fn number(&self) -> u32
        ensures { result ≡ number_of self.now };
}
