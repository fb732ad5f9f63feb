// How a node of a stack is called.
ghost use Rattle.std.specs.Prelude.{◌≡◌, ◌<◌, ◌≤◌, IfOk, OnOk, length};
ghost use Rattle.rack_types.specs.Answer.{told, IsAsGiven};
ghost use Rattle.stock_middleware.specs.WareBody.{ware_content};
ghost use Rattle.builder_core.specs.Meaning.{meaning, worn};
ghost use Rattle.builder_core.specs.Nodes.{IsFalling, tree_at};
ghost use Rattle.builder_core.specs.Places.{inside, path_of};

use crate::cascade::call_first;
use crate::places::{Place, enter, find_place, leave, path_of};
use crate::replies::{call_app, say_not_found};
use crate::stack::Node;
use rack_types::{Answer, Endpoint, Env, NoMemory};
use std::alloc::Global;
use stock_middleware::{Ware, WareBody};

// Calls the application of a node. The pairs are then as before.
#[cycle(call)]
pub(crate) fn call_node<E: Endpoint>(
    alloc: Global,
    nodes: &[Node<E>],
    at: usize,
    env: &mut Env,
) -> Result<Answer<WareBody<E::Body>, E::Take>, NoMemory>
    requires falls { IsFalling nodes.now }
    requires there { at < length nodes.now }
    ensures answers { IfOk result (λ a. told (ware_content E.Body.content) a ≡ meaning E.answer (tree_at nodes.now at) env.old.pairs env.old.input.bytes) }
    ensures same { OnOk result (IsAsGiven env.old env.new) }
{
    match &nodes[at] {
        Node::Run(app) => call_app(app, env),
        Node::Use(ware, inner) => call_worn(alloc, nodes, ware, *inner, env),
        Node::Map(places) => match find_place(places, path_of(env)) {
            None => say_not_found(alloc, env),
            Some(place) => call_inside(alloc, nodes, place, env),
        },
        Node::Cascade(apps) => call_first(alloc, apps, env),
    }
}

// Calls what a middleware stands around, unless the middleware refuses.
#[cycle(call)]
fn call_worn<E: Endpoint>(
    alloc: Global,
    nodes: &[Node<E>],
    ware: &Ware,
    inner: usize,
    env: &mut Env,
) -> Result<Answer<WareBody<E::Body>, E::Take>, NoMemory>
    requires falls { IsFalling nodes.now }
    requires there { inner < length nodes.now }
    ensures answers { IfOk result (λ a. told (ware_content E.Body.content) a ≡ worn ware.now (meaning E.answer (tree_at nodes.now inner)) env.old.pairs env.old.input.bytes) }
    ensures same { OnOk result (IsAsGiven env.old env.new) }
{
    match ware.refuses(alloc, env)? {
        Some(answer) => Ok(answer),
        None => {
            let undo = ware.before(alloc, env)?;
            match call_node(alloc, nodes, inner, env) {
                Ok(answer) => {
                    ware.undo(env, undo);
                    ware.after(alloc, env, answer)
                }
                Err(refused) => Err(refused),
            }
        }
    }
}

// Calls what stands at a place, inside of it.
#[cycle(call)]
fn call_inside<E: Endpoint>(
    alloc: Global,
    nodes: &[Node<E>],
    place: &Place,
    env: &mut Env,
) -> Result<Answer<WareBody<E::Body>, E::Take>, NoMemory>
    requires falls { IsFalling nodes.now }
    requires there { place.now.node < length nodes.now }
    requires fits { length place.now.path ≤ length (path_of env.old.pairs) }
    ensures answers { IfOk result (λ a. told (ware_content E.Body.content) a ≡ meaning E.answer (tree_at nodes.now place.now.node) (inside place.now.path env.old.pairs) env.old.input.bytes) }
    ensures same { OnOk result (IsAsGiven env.old env.new) }
{
    let former = enter(alloc, env, place.path.get())?;
    match call_node(alloc, nodes, place.node, env) {
        Ok(answer) => {
            leave(env, former);
            Ok(answer)
        }
        Err(refused) => Err(refused),
    }
}
