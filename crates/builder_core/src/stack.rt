// Built stacks.
ghost use Rattle.std.specs.Prelude.{◌≡◌, ◌<◌, length};
ghost use Rattle.builder_core.specs.Meaning.{meaning};
ghost use Rattle.builder_core.specs.Nodes.{IsFalling, tree_of};

use crate::calling::call_node;
use crate::places::Place;
use rack_types::{Answer, Endpoint, Env, NoMemory};
use std::marker::Model;
use stock_middleware::{Ware, WareBody};

// A node names its children by numbers that are lower than its own, so that a default is shared.
#[derive(Drop)]
pub(crate) enum Node<E> {
    Run(E),
    Use(Ware, usize),
    Map(Vec<Place>),
    Cascade(Vec<E>),
}

/// A built stack, which `to_app` makes. It is an endpoint itself: what it answers goes by cases on what
/// was built.
///
/// * An endpoint answers itself.
/// * A middleware stands around another application, by its own rules.
/// * Of several places the longest one that fits PATH_INFO answers, the earlier line at a tie. A place
///   fits where PATH_INFO begins with it and the rest is empty or begins with `/`. SCRIPT_NAME gains the
///   place and PATH_INFO becomes the rest; behind the call both are as they were. Where none fits, the
///   answer is a 404 with `x-cascade: pass` and the body `Not Found: ` and PATH_INFO.
/// * A cascade calls its endpoints in order with the same environment, up to the first answer that is
///   raised, taken, or has a status other than 404 and 405, and else to the last. The bodies of those
///   that are passed over are closed. Without endpoints the answer is a 404 with no headers and an empty
///   body.
///
/// A contract sees the nodes and the number of the first one that is called; what they stand for, the tree
/// that was built, is `tree_of`. A call takes memory where a place is entered or none fits,
/// where a middleware takes some, and where an endpoint does.
#[derive(Drop)]
pub struct Stack<E> {
    nodes: Vec<Node<E>>,
    // the number of the node that is called first
    top: usize,
}

impl<E> Model for Stack<E> {
    ghost use Rattle.std.specs.Prelude.{List, ℕ};
    ghost use Rattle.builder_core.specs.declared.stack.Node.{Node};
    ghost use Rattle.builder_core.specs.Nodes.{IsStack};

    ghost Value = { List (Node E) × ℕ };

    ghost view = { λ s. (s.nodes.items, s.top) };

    ghost invariant = { λ s. IsStack s.nodes.items s.top };
}

impl<E> Stack<E> {
    // A stack of these nodes, of which the one at `top` is called first.
    pub(crate) fn new(nodes: Vec<Node<E>>, top: usize) -> Stack<E>
        requires falls { IsFalling nodes.items }
        requires there { top < length nodes.items }
        ensures { result ≡ (nodes.items, top) }
    {
        Stack { nodes, top }
    }
}

impl<E: Endpoint> Endpoint for Stack<E> {
    type Body = WareBody<E::Body>;

    type Take = E::Take;

    ghost answer = { λ s. meaning E.answer (tree_of s) };

    fn call(&self, env: &mut Env) -> Result<Answer<WareBody<E::Body>, E::Take>, NoMemory> {
        call_node(*self.nodes.allocator(), &self.nodes, self.top, env)
    }
}
