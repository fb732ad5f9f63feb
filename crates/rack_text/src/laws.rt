// A law over the definitions. A function without a result does nothing: its contract is the law.
ghost use Rattle.std.specs.Prelude.{◌≡◌, ◌<◌, ℕ, List, All, Some};
ghost use Rattle.rack_text.specs.Escaped.{escaped, unescaped};

/// What is written for a text is an escaped text, and of that text alone, whatever bytes it has.
pub fn escaped_text_is_read_again()
    ensures { (text : List ℕ) → All (λ b. b < 256) text → unescaped (escaped text) ≡ Some text }
{}
