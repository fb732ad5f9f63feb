// Building a stack from its steps.
ghost use Rattle.std.specs.Prelude.{◌≡◌, ◌<◌, ◌≤◌, Some, None, Option, IfErr, IfOk, OnOk, length, reverse, ◌++◌, ◌∷◌, [], is_some, IfSome};
ghost use Rattle.builder_core.specs.Build.{build, last_end, Wears};
ghost use Rattle.builder_core.specs.Builds.{Builds, HasFault};
ghost use Rattle.builder_core.specs.Counts.{part, steps_in};
ghost use Rattle.builder_core.specs.Groups.{state, states, IsGroup, AreGroups};
ghost use Rattle.builder_core.specs.Nodes.{IsFalling, HasBelow, AreBelow, tree_at, tree_of, tree_of_node};
ghost use Rattle.builder_core.specs.Plan.{plan};
ghost use Rattle.builder_core.specs.Spread.{Grown, IsBelow, IsEndNode, end_tree, trees, onto, closed, default_places, parts, end_of, IsLastEnd, spread_over, spread_step};
ghost use Rattle.builder_core.specs.Tree.{Tree, Row, NoPlace};

use crate::counting::{is_within, steps_left};
use crate::places::Place;
use crate::stack::{Node, Stack};
use crate::steps::{BuildFault, Line, Steps};
use rack_types::{Bytes, NoMemory};
use std::alloc::Global;
use stock_middleware::Ware;

// The greatest number of steps, and the greatest depth.
const STEPS: usize = 256;

const DEPTH: usize = 32;

/// Builds a stack of these steps.
///
/// What answers a block is its last `Run` or `Cascade`, or else the default that comes from around it;
/// the whole has none. A `Use` stands around what the lines behind it build. Maps in a row are one
/// application: the longest place that fits answers, and behind all places, as the empty one, stands their
/// default, which each of their blocks gets too: what the lines from the next `Use` on build, or what
/// answers the block.
///
/// TooMany comes exactly where there are more than 256 steps. Else TooDeep comes exactly where something
/// stands deeper than 32, and else NoRun exactly where the whole, or a block of it, has no application.
pub fn to_app<E: Drop>(alloc: Global, steps: Steps<E>) -> Result<Stack<E>, BuildFault>
    ensures builds { IfOk result (λ stack. Builds (plan steps) (tree_of stack)) }
    ensures fault { IfErr result (HasFault (plan steps)) }
{
    if steps_left(&steps, STEPS).is_none() {
        return Err(BuildFault::TooMany);
    }
    if !is_within(&steps, DEPTH) {
        return Err(BuildFault::TooDeep);
    }
    let mut nodes = Vec::new(alloc);
    match add_block(alloc, &mut nodes, steps, None) {
        Ok(Some(top)) => Ok(Stack::new(nodes, top)),
        Ok(None) => Err(BuildFault::NoRun),
        Err(_) => Err(BuildFault::NoMemory),
    }
}

// Puts a node behind the others, and answers its number.
fn push_node<E: Drop>(nodes: &mut Vec<Node<E>>, node: Node<E>) -> Result<usize, NoMemory>
    requires falls { IsFalling nodes.old.items }
    requires below { HasBelow (length nodes.old.items) node }
    ensures grown { OnOk result (Grown nodes.old.items nodes.new.items) }
    ensures within { IfOk result (λ n. n < length nodes.new.items) }
    ensures tree { IfOk result (λ n. tree_at nodes.new.items n ≡ tree_of_node (tree_at nodes.old.items) node) }
{
    let number = nodes.len();
    nodes.push(node)?;
    Ok(number)
}

// The places from the first to the last, and behind them the default as the place `/`.
fn with_default(
    alloc: Global,
    places: Vec<Place>,
    rest: Option<usize>,
) -> Result<Vec<Place>, NoMemory>
    ensures { IfOk result (λ v. v.items ≡ reverse places.items ++ default_places rest) }
{
    let mut places = places;
    places.reverse();
    if let Some(node) = rest {
        places.push(Place {
            path: Bytes::new(Vec::new(alloc)),
            node,
        })?;
    }
    Ok(places)
}

// What stands at the front of these places: the node of them all with the default behind them, or
// the default alone where there are none.
fn close_group<E: Drop>(
    alloc: Global,
    nodes: &mut Vec<Node<E>>,
    places: Vec<Place>,
    rest: Option<usize>,
) -> Result<Option<usize>, NoMemory>
    requires falls { IsFalling nodes.old.items }
    requires places_below { AreBelow (length nodes.old.items) places.items }
    requires rest_below { IsBelow (length nodes.old.items) rest }
    ensures grown { OnOk result (Grown nodes.old.items nodes.new.items) }
    ensures below { IfOk result (λ o. IsBelow (length nodes.new.items) o) }
    ensures trees { IfOk result (λ o. trees nodes.new.items o
        ≡ closed (trees nodes.old.items rest, onto (tree_at nodes.old.items) places.items NoPlace)) }
{
    if places.is_empty() {
        return Ok(rest);
    }
    let places = with_default(alloc, places, rest)?;
    Ok(Some(push_node(nodes, Node::Map(places))?))
}

// The place of the last `run` or `cascade`.
fn last_end<E>(lines: &[Line<E>]) -> Option<usize>
    ensures { IsLastEnd (parts lines.now) (parts lines.now) result }
{
    let mut found = None;
    for i in 0..lines.len() {
        if is_end(&lines[i]) {
            found = Some(i);
        }
    }
    found
}

fn is_end<E>(line: &Line<E>) -> bool
    ensures { result ≡ is_some (end_of (part line.now)) }
{
    match line {
        Line::Run(_) | Line::Cascade(_) => true,
        Line::Use(_) | Line::Map(_, _) => false,
    }
}

// Takes the last `run` or `cascade` out, as a node.
fn take_end<E>(block: &mut Steps<E>) -> Option<Node<E>>
    ensures end { (d : Option (Tree E)) → last_end d (parts block.old.lines.items) ≡ end_tree result d }
    ensures left { (o : Option (Option (Tree E) × Row E)) → spread_over (parts block.new.lines.items) o ≡ spread_over (parts block.old.lines.items) o }
    ensures childless { IfSome result IsEndNode }
    ensures smaller { steps_in block.new ≤ steps_in block.old }
{
    let at = last_end(&block.lines)?;
    match block.lines.remove(at) {
        Line::Run(app) => Some(Node::Run(app)),
        Line::Cascade(apps) => Some(Node::Cascade(apps)),
        Line::Use(_) => unreachable!(),
        Line::Map(_, _) => unreachable!(),
    }
}

// What the lines behind give: the places in a row, from the last to the first, and what stands behind
// them.
#[derive(Drop)]
pub(crate) struct Group {
    places: Vec<Place>,
    rest: Option<usize>,
}

// Puts the node of the last `run` or `cascade` down, and answers its number, or else the default.
fn begin<E: Drop>(
    nodes: &mut Vec<Node<E>>,
    block: &mut Steps<E>,
    default: Option<usize>,
) -> Result<Option<usize>, NoMemory>
    requires falls { IsFalling nodes.old.items }
    requires below { IsBelow (length nodes.old.items) default }
    ensures grown { OnOk result (Grown nodes.old.items nodes.new.items) }
    ensures below { IfOk result (λ o. IsBelow (length nodes.new.items) o) }
    ensures end { IfOk result (λ o. trees nodes.new.items o ≡ last_end (trees nodes.old.items default) (parts block.old.lines.items)) }
    ensures left { (o : Option (Option (Tree E) × Row E)) → spread_over (parts block.new.lines.items) o ≡ spread_over (parts block.old.lines.items) o }
    ensures smaller { steps_in block.new ≤ steps_in block.old }
{
    match take_end(block) {
        Some(end) => Ok(Some(push_node(nodes, end)?)),
        None => Ok(default),
    }
}

// Puts a middleware around what stands at the front. None where nothing stands there.
fn wear<E: Drop>(
    alloc: Global,
    nodes: &mut Vec<Node<E>>,
    ware: Ware,
    group: Group,
) -> Result<Option<Group>, NoMemory>
    requires falls { IsFalling nodes.old.items }
    requires is_group { IsGroup nodes.old.items group }
    ensures grown { OnOk result (Grown nodes.old.items nodes.new.items) }
    ensures groups { IfOk result (λ o. AreGroups nodes.new.items o) }
    ensures steps { IfOk result (λ o. states nodes.new.items o ≡ spread_step (Wears ware) (state nodes.old.items group)) }
{
    match close_group(alloc, nodes, group.places, group.rest)? {
        None => Ok(None),
        Some(inner) => {
            let node = push_node(nodes, Node::Use(ware, inner))?;
            Ok(Some(Group {
                places: Vec::new(alloc),
                rest: Some(node),
            }))
        }
    }
}

// Puts a place in front of the others.
fn hang(path: Bytes, node: usize, group: Group) -> Result<Group, NoMemory>
    ensures rest { IfOk result (λ g. g.rest ≡ group.rest) }
    ensures places { IfOk result (λ g. g.places.items ≡ group.places.items ++ (record { path = path; node = node }) ∷ []) }
{
    let mut group = group;
    group.places.push(Place { path, node })?;
    Ok(group)
}

// One line more at the front. None where its block, or what stands behind it, has no application.
#[cycle(build)]
fn add_line<E: Drop>(
    alloc: Global,
    nodes: &mut Vec<Node<E>>,
    line: Line<E>,
    group: Group,
) -> Result<Option<Group>, NoMemory>
    requires falls { IsFalling nodes.old.items }
    requires is_group { IsGroup nodes.old.items group }
    ensures grown { OnOk result (Grown nodes.old.items nodes.new.items) }
    ensures groups { IfOk result (λ o. AreGroups nodes.new.items o) }
    ensures steps { IfOk result (λ o. states nodes.new.items o ≡ spread_step (part line) (state nodes.old.items group)) }
{
    match line {
        Line::Use(ware) => wear(alloc, nodes, ware, group),
        Line::Run(_app) => Ok(Some(group)),
        Line::Cascade(_apps) => Ok(Some(group)),
        Line::Map(path, block) => match add_block(alloc, nodes, block, group.rest)? {
            None => Ok(None),
            Some(node) => Ok(Some(hang(path, node, group)?)),
        },
    }
}

// Builds a block, and answers the number of its application, or None where it has none.
#[cycle(build)]
fn add_block<E: Drop>(
    alloc: Global,
    nodes: &mut Vec<Node<E>>,
    block: Steps<E>,
    default: Option<usize>,
) -> Result<Option<usize>, NoMemory>
    requires falls { IsFalling nodes.old.items }
    requires below { IsBelow (length nodes.old.items) default }
    ensures grown { OnOk result (Grown nodes.old.items nodes.new.items) }
    ensures below { IfOk result (λ o. IsBelow (length nodes.new.items) o) }
    ensures builds { IfOk result (λ o. trees nodes.new.items o ≡ build block (trees nodes.old.items default)) }
{
    let mut block = block;
    let rest = begin(nodes, &mut block, default)?;
    let mut group = Group {
        places: Vec::new(alloc),
        rest,
    };
    while let Some(line) = block.lines.pop() {
        let Some(next) = add_line(alloc, nodes, line, group)? else {
            return Ok(None);
        };
        group = next;
    }
    close_group(alloc, nodes, group.places, group.rest)
}
