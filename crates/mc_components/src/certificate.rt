ghost use Rattle.std.specs.Prelude.{◌≡◌, ◌<◌, ◌^◌, ℕ, true, length, Some, slice_get, slice_index};
ghost use Rattle.mc_components.specs.declared.search.Node.{Node};
ghost use Rattle.mc_components.specs.Components.{steps};
ghost use Rattle.mc_components.specs.code.Certificate.{step, is_number, is_root, are_together, all_below, is_later, is_entered, is_nearer, is_towards, is_left, is_right, IsCertified};

use crate::search::{Found, Node};
use mc_base::Row;

/// Where the step at a place of a node's row leads; None where there is none.
pub fn step(graph: &[Row<u32>], from: u32, place: u32) -> Option<u32>
    ensures { result ≡ step graph.now from place }
{
    let row = graph.get(from as usize)?;
    row.as_slice().get(place as usize).copied()
}

pub fn is_number(number: Option<u32>, n: u32) -> bool
    ensures { result ≡ is_number number n }
{
    match number {
        Some(m) => m == n,
        None => false,
    }
}

// The number of a node's component, or 0 for what is no node.
pub fn component(components: &[u32], node: u32) -> u32
    ensures { result ≡ slice_index components.now node }
{
    match components.get(node as usize) {
        Some(number) => *number,
        None => 0,
    }
}

fn is_root(components: &[u32], roots: &[u32], node: u32) -> bool
    ensures { result ≡ is_root components.now roots.now node }
{
    let root = roots.get(component(components, node) as usize).copied();
    is_number(root, node)
}

fn are_together(components: &[u32], left: u32, right: u32) -> bool
    ensures { result ≡ are_together components.now left right }
{
    component(components, left) == component(components, right)
}

// Whether each of these nodes is in a component of this number or a smaller one.
#[tactic(auto, using(crate::proofs::Checks::below_fails, crate::proofs::Checks::below_goes_on))]
fn all_below(components: &[u32], number: u32, nodes: &[u32]) -> bool
    ensures { result ≡ all_below components.now number nodes.now }
{
    for node in nodes {
        if component(components, *node) > number {
            return false;
        }
    }
    true
}

// Whether a node was found by a step from an earlier one of its component.
fn is_entered(
    graph: &[Row<u32>],
    components: &[u32],
    nodes: &[Node],
    number: u32,
    node: Node,
) -> bool
    ensures { result ≡ is_entered graph.now components.now nodes.now number node }
{
    is_number(step(graph, node.from, node.entry), number)
        && are_together(components, node.from, number)
        && is_later(nodes.get(node.from as usize).copied(), node)
}

fn is_later(before: Option<Node>, node: Node) -> bool
    ensures { result ≡ is_later before node }
{
    match before {
        Some(before) => before.found < node.found,
        None => false,
    }
}

// Whether a node's step leads towards the first of its component.
fn is_left(
    components: &[u32],
    roots: &[u32],
    nodes: &[Node],
    number: u32,
    node: Node,
    step: Option<u32>,
) -> bool
    ensures { result ≡ is_left components.now roots.now nodes.now number node step }
{
    match step {
        Some(to) => {
            let met = nodes.get(to as usize).copied();
            are_together(components, to, number) && is_towards(components, roots, node, to, met)
        }
        None => false,
    }
}

fn is_towards(components: &[u32], roots: &[u32], node: Node, to: u32, met: Option<Node>) -> bool
    ensures { result ≡ is_towards components.now roots.now node to met }
{
    match met {
        Some(met) => is_root(components, roots, to) || is_nearer(node, met),
        None => false,
    }
}

// Whether a second node leads to an earlier one than a node does, or to as early a one and was found later.
fn is_nearer(node: Node, second: Node) -> bool
    ensures { result ≡ is_nearer node second }
{
    second.low < node.low || second.low == node.low && node.found < second.found
}

// Whether what is known of a node is right.
fn is_right(
    graph: &[Row<u32>],
    components: &[u32],
    roots: &[u32],
    nodes: &[Node],
    number: u32,
    node: Node,
) -> bool
    ensures { result ≡ is_right graph.now components.now roots.now nodes.now number node }
{
    if node.found as usize >= nodes.len() {
        return false;
    }
    is_root(components, roots, number)
        || is_entered(graph, components, nodes, number, node)
            && is_left(
                components,
                roots,
                nodes,
                number,
                node,
                step(graph, number, node.exit),
            )
}

/// Whether what a search found is right: each node is reached from the first of its component and leads to it, and no
/// step leads to a component of a greater number.
pub fn is_certified(graph: &[Row<u32>], components: &[u32], roots: &[u32], nodes: &[Node]) -> bool
    requires { length graph.now < 2 ^ 32 }
    ensures { result ≡ true → IsCertified graph.now components.now roots.now nodes.now }
{
    if nodes.len() != graph.len() {
        return false;
    }
    if components.len() != graph.len() {
        return false;
    }
    goes_down(graph, components) && are_right(graph, components, roots, nodes)
}

// Whether no step leads to a component of a greater number.
fn goes_down(graph: &[Row<u32>], components: &[u32]) -> bool
    ensures { result ≡ true
        → (k : ℕ) → k < length graph.now
        → all_below components.now (slice_index components.now k) (steps graph.now k) ≡ true }
{
    for (number, row) in graph.iter().enumerate() {
        let Some(component) = components.get(number) else {
            return false;
        };
        if !all_below(components, *component, row.as_slice()) {
            return false;
        }
    }
    true
}

// Whether what is known of each node is right.
fn are_right(graph: &[Row<u32>], components: &[u32], roots: &[u32], nodes: &[Node]) -> bool
    requires { length nodes.now < 2 ^ 32 }
    ensures { result ≡ true
        → (k : ℕ) → k < length nodes.now
        → (node : Node) → slice_get nodes.now k ≡ Some node
        → is_right graph.now components.now roots.now nodes.now k node ≡ true }
{
    let mut number = 0;
    for node in nodes {
        if !is_right(graph, components, roots, nodes, number, *node) {
            return false;
        }
        number += 1;
    }
    true
}
