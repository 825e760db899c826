ghost use Rattle.std.specs.Prelude.{◌≡◌, ◌<◌, ℕ, true, List, length, slice_get, slice_index};
ghost use Rattle.mc_model.specs.Lists.{is_in};
ghost use Rattle.mc_components.specs.Reached.{reaches};
ghost use Rattle.mc_components.specs.Components.{steps, NumbersComponents, one_reaches};
ghost use Rattle.mc_components.specs.code.Certificate.{is_number, one_within};

use crate::certificate::{component, is_number};
use mc_base::Row;

/// Whether a node reaches itself by its steps, in a graph whose components have these numbers (`components`). It takes
/// time by the number of the node's steps.
pub fn reaches_itself(graph: &Row<Row<u32>>, numbers: &Row<u32>, node: u32) -> bool
    requires { node < length graph.now }
    ensures { length numbers.now ≡ length graph.now → NumbersComponents graph.now numbers.now
        → result ≡ reaches (steps graph.now) (length graph.now) node node }
{
    one_within(
        numbers.as_slice(),
        component(numbers.as_slice(), node),
        graph.get(node).as_slice(),
    )
}

/// Whether one of some nodes to which a node has steps reaches that node, in a graph whose components have these
/// numbers (`components`).
pub fn one_comes_back(numbers: &Row<u32>, from: u32, nodes: &[u32]) -> bool
    ensures { (graph : List (List ℕ))
        → length numbers.now ≡ length graph → NumbersComponents graph numbers.now
        → ((j : ℕ) → is_in j nodes.now ≡ true → is_in j (steps graph from) ≡ true)
        → result ≡ one_reaches graph from nodes.now }
{
    one_within(
        numbers.as_slice(),
        component(numbers.as_slice(), from),
        nodes,
    )
}

// Whether one of these nodes is in the component of a number.
#[tactic(auto, using(crate::proofs::Checks::one_here, crate::proofs::Checks::one_later))]
fn one_within(numbers: &[u32], number: u32, nodes: &[u32]) -> bool
    ensures { result ≡ one_within numbers.now number nodes.now }
{
    for node in nodes {
        if is_within(numbers, number, *node) {
            return true;
        }
    }
    false
}

fn is_within(numbers: &[u32], number: u32, node: u32) -> bool
    ensures { result ≡ is_number (slice_get numbers.now node) number }
{
    is_number(numbers.get(node as usize).copied(), number)
}
