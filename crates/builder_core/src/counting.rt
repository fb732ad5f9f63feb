// How many steps there are, and how deep they stand.
ghost use Rattle.std.specs.Prelude.{◌≡◌, ◌<◌, ◌≤◌, ◌+◌, ◌↔◌, IsTrue, MatchOption};
ghost use Rattle.builder_core.specs.Counts.{height, line_height, line_size, steps_in};

use crate::steps::{Line, Steps};

// How many more steps there may be, or None where there are more than that.
#[cycle(size)]
#[tactic(auto, using(crate::proofs::Folds::sizes))]
pub(crate) fn steps_left<E>(steps: &Steps<E>, left: usize) -> Option<usize>
    ensures { MatchOption result (left < steps_in steps.now) (λ rest. rest + steps_in steps.now ≡ left) }
{
    let mut rest = left;
    for line in &steps.lines {
        rest = line_left(line, rest)?;
    }
    Some(rest)
}

#[cycle(size)]
#[tactic(auto, using(crate::proofs::Folds::sizes))]
fn line_left<E>(line: &Line<E>, left: usize) -> Option<usize>
    ensures { MatchOption result (left < line_size line.now) (λ rest. rest + line_size line.now ≡ left) }
{
    let left = left.checked_sub(1)?;
    match line {
        Line::Use(_) | Line::Run(_) => Some(left),
        Line::Map(_, block) => steps_left(block, left),
        Line::Cascade(apps) => left.checked_sub(apps.len()),
    }
}

// Whether no block stands deeper than this.
#[cycle(depth)]
pub(crate) fn is_within<E>(steps: &Steps<E>, depth: usize) -> bool
    ensures { IsTrue result ↔ (height steps.now ≤ depth) }
{
    for line in &steps.lines {
        if !line_within(line, depth) {
            return false;
        }
    }
    true
}

#[cycle(depth)]
#[tactic(auto, using(crate::proofs::Folds::heights))]
fn line_within<E>(line: &Line<E>, depth: usize) -> bool
    ensures { IsTrue result ↔ (line_height line.now ≤ depth) }
{
    match line {
        Line::Use(_) | Line::Run(_) => true,
        Line::Map(_, block) => depth > 0 && is_within(block, depth - 1),
        Line::Cascade(_) => depth > 0,
    }
}
