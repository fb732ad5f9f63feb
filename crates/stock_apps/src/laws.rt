// A law over the definitions. A function without a result does nothing: its contract is the law.
ghost use Rattle.std.specs.Prelude.{◌≡◌, ℕ, [], ◌∷◌, List, All, false, codes};
ghost use Rattle.rack_types.specs.Env.{Pairs};
ghost use Rattle.rack_types.specs.RuleWords.{has_value};
ghost use Rattle.stock_apps.specs.Laws.{BreaksIts};

/// `bad` with one number breaks the rule of answers with that number, whatever the request is: L1 to L8,
/// and L10 at every method but HEAD, at which that rule isn't looked at.
pub fn bad_breaks_its_rule()
    ensures first { (pairs : Pairs) (input : List ℕ) → All (λ n. BreaksIts n pairs input) (1 ∷ 2 ∷ 3 ∷ 4 ∷ 5 ∷ 6 ∷ 7 ∷ 8 ∷ []) }
    ensures last { (pairs : Pairs) (input : List ℕ) → has_value (codes "REQUEST_METHOD") (codes "HEAD") pairs ≡ false → BreaksIts 10 pairs input }
{}
