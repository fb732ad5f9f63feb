// A law over the definitions. A function without a result does nothing: its contract is the law.
ghost use Rattle.std.specs.Prelude.{◌≡◌, ◌↔◌, ℕ, List, length, IsPermutation};
ghost use Rattle.pool_core.specs.Repeats.{SameElements, times};

/// Lists with repeats, of numbers with their tags: two lists hold the same elements exactly where each
/// pair stands equally often in both, which is where one is the other in some order.
pub fn lists_with_repeats()
    ensures often { (xs ys : List (ℕ × ℕ)) → (SameElements xs ys ↔ ((x : ℕ × ℕ) → times x xs ≡ times x ys)) }
    ensures order { (xs ys : List (ℕ × ℕ)) → (SameElements xs ys ↔ IsPermutation xs ys) }
    ensures count { (xs ys : List (ℕ × ℕ)) → SameElements xs ys → length xs ≡ length ys }
{}
