// The rules of a body, piece by piece.
ghost use Rattle.std.specs.Prelude.{◌≡◌, List, ℕ, Bool, ◌∷◌, [], length, Some, None, option_map, if◌then◌else◌};
ghost use Rattle.rack_types.specs.BodyRules.{body_break, body_rule, breaks_B1, left_behind, end_rule};
ghost use Rattle.lint_core.specs.Watch.{here_or_later, at_the_end};

use rack_types::BodyRule;
use std::marker::Model;

/// Holds a body to the length that its `content-length` promises, while its pieces are taken one at a
/// time: B1 where a piece would pass the promise, B2 where the body ends well before it, B3 where it raises.
///
/// A contract sees what is left of the promise, or that nothing is promised.
#[derive(Debug, Drop)]
pub struct BodyWatch {
    left: Option<u64>,
}

impl Model for BodyWatch {
    ghost use Rattle.std.specs.Prelude.{Option, ℕ};

    ghost Value = { Option ℕ };

    ghost view = { λ watch. watch.left };
}

impl BodyWatch {
    /// Watches a body that promises so many bytes, or whose length nothing promises.
    pub fn new(promised: Option<u64>) -> BodyWatch
        ensures { result ≡ promised }
    {
        BodyWatch { left: promised }
    }

    /// The rule that a piece of so many bytes breaks, before it is sent: B1, or none.
    ///
    /// A piece that breaks a rule is not counted: what is left of the promise stays.
    pub fn piece(&mut self, len: u64) -> Option<BodyRule>
        ensures rule { result ≡ (if breaks_B1 self.old len then Some (body_rule 1) else None) }
        ensures left { self.new ≡ (if breaks_B1 self.old len then self.old else left_behind self.old len) }
        ensures break_is { (piece : List ℕ) (pieces : List (List ℕ)) (raises : Bool) → length piece ≡ len
            → body_break self.old (piece ∷ pieces) raises ≡ here_or_later result (body_break self.new pieces raises) }
    {
        let Some(left) = self.left else {
            return None;
        };
        if left < len {
            return Some(BodyRule(1));
        }
        self.left = Some(left - len);
        None
    }

    /// The rule that the body breaks at its end: B3 where it raised, else B2 where something is left of
    /// the promise, else none.
    pub fn end(&self, raised: bool) -> Option<BodyRule>
        ensures rule { result ≡ end_rule self.now raised }
        ensures break_is { body_break self.now [] raised ≡ option_map at_the_end result }
    {
        if raised {
            return Some(BodyRule(3));
        }
        match self.left {
            Some(left) if 0 < left => Some(BodyRule(2)),
            _ => None,
        }
    }
}
