ghost use Rattle.std.specs.Prelude.{◌≡◌, length, IfOk};
ghost use Rattle.mc_components.specs.Components.{NumbersComponents, StepsGoDown};

use crate::certificate::is_certified;
use crate::search::{Found, search_graph};
use mc_base::{Memory, Row};
use std::alloc::Global;

/// The numbers of the components of a graph, by its nodes: two nodes have the same number exactly where they are one
/// node or reach each other, and each step leads to a component of the same number or of a smaller one. A graph has for
/// each node, by its number, the nodes that it has steps to; a number past the nodes counts for nothing. It takes time
/// by the number of nodes and steps.
///
/// # Errors
///
/// `Memory` where there is no room.
pub fn components(alloc: Global, graph: &Row<Row<u32>>) -> Result<Row<u32>, Memory>
    ensures count { IfOk result (λ numbers. length numbers ≡ length graph.now) }
    ensures alike { IfOk result (λ numbers. NumbersComponents graph.now numbers) }
    ensures ordered { IfOk result (λ numbers. StepsGoDown graph.now numbers) }
{
    let steps = graph.as_slice();
    let Found {
        nodes,
        components,
        roots,
    } = search_graph(alloc, steps)?;
    if !is_certified(
        steps,
        components.as_slice(),
        roots.as_slice(),
        nodes.as_slice(),
    ) {
        return Err(Memory);
    }
    Row::of(components)
}
