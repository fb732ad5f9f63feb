// A runner over a stack.
ghost use Rattle.std.specs.Prelude.{◌≡◌, true, None};
ghost use Rattle.std.specs.Arc.{arc_value};
ghost use Rattle.builder_core.specs.Meaning.{meaning};
ghost use Rattle.builder_core.specs.Nodes.{tree_of};

use crate::stack::Stack;
use rack_types::{Answer, Endpoint, Env, NoMemory, Runner};
use std::marker::Model;
use std::sync::Arc;
use stock_middleware::WareBody;

/// A runner over a stack that it shares with others. It counts its runs, from 0, and is steady: each run
/// gives the stack's answer. It tells neither what it was asked nor what it answered.
///
/// A contract sees the stack and the number of runs.
#[derive(Drop)]
pub struct StackRunner<E> {
    stack: Arc<Stack<E>>,
    runs: u64,
}

impl<E> Model for StackRunner<E> {
    ghost use Rattle.std.specs.Arc.{arc_value};
    ghost use Rattle.builder_core.specs.Runs.{StackRuns};

    ghost Value = { StackRuns E };

    ghost view = { λ r. record { stack = arc_value r.stack; runs = r.runs } };
}

impl<E> StackRunner<E> {
    /// A runner over this stack, without a run. This takes no memory.
    pub fn new(stack: Arc<Stack<E>>) -> StackRunner<E>
        ensures { result ≡ record { stack = arc_value stack; runs = 0 } }
    {
        StackRunner { stack, runs: 0 }
    }
}

impl<E: Endpoint> Runner<WareBody<E::Body>, E::Take> for StackRunner<E> {
    ghost runs = { λ r. r.runs };

    ghost answer = { λ r. meaning E.answer (tree_of r.stack) };

    ghost steady = { true };

    ghost answered = { λ r. None };

    ghost asked = { λ r. None };

    fn run(&mut self, env: &mut Env) -> Result<Answer<WareBody<E::Body>, E::Take>, NoMemory> {
        self.runs += 1;
        self.stack.call(env)
    }
}
