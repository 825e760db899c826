ghost use Rattle.std.specs.Prelude.{◌≡◌, ◌<◌, ◌≤◌, ◌+◌, ℕ, [], ◌∷◌, ◌++◌, length, slice_index_or, IfOk};
ghost use Rattle.mc_types.specs.Holds.{InOrder};
ghost use Rattle.mc_types.specs.Writing.{StandsAt, AllStand};
ghost use Rattle.mc_types.specs.code.RootTable.{AreRoots};

use crate::written_types::Written;
use crate::{Cell, Graph};
use mc_base::Memory;
use std::alloc::Global;

/// The root of each cell, the lowest place that it is joined with, from the lowest cell up. A walk from each cell to its
/// root could be as long as there are cells.
fn all_roots(alloc: Global, g: &Graph) -> Result<Vec<usize>, Memory>
    requires { InOrder g.now.cells.items }
    ensures { IfOk result (λ roots. AreRoots g.now.cells.items (length g.now.cells.items) roots.items) }
{
    let mut roots = Vec::new(alloc);
    for at in 0..g.cells.len() {
        let root = match g.cells[at] {
            Cell::Same(lower) => roots[lower],
            _ => at,
        };
        roots.push(root)?;
    }
    Ok(roots)
}

/// The type at a place. One that is nested deeper than the depth, or has more parts than the budget, counts as one
/// that finds no room.
fn write_type(
    alloc: Global,
    g: &Graph,
    roots: &[usize],
    at: usize,
    depth: usize,
    budget: &mut usize,
) -> Result<Written, Memory>
    requires place { at < length g.now.cells.items }
    requires in_order { InOrder g.now.cells.items }
    requires roots { AreRoots g.now.cells.items (length g.now.cells.items) roots.now }
    ensures { IfOk result (λ w. StandsAt g.now.cells.items at w) }
{
    if depth == 0 || *budget == 0 {
        return Err(Memory);
    }
    *budget -= 1;
    let root = roots[at];
    match g.cells[root] {
        Cell::Free => Ok(Written::Free(root)),
        Cell::Same(_) => unreachable!(),
        Cell::Named(n) => Ok(Written::Named(n)),
        Cell::Rigid(n) => Ok(Written::Rigid(n)),
        Cell::App(f, x) => {
            let left = write_type(alloc, g, roots, f, depth - 1, budget)?;
            let right = write_type(alloc, g, roots, x, depth - 1, budget)?;
            Ok(Written::App(Box::new(alloc, left)?, Box::new(alloc, right)?))
        }
    }
}

/// The types at the first places.
pub fn write_types(
    alloc: Global,
    g: &Graph,
    count: usize,
    depth: usize,
    budget: &mut usize,
) -> Result<Vec<Written>, Memory>
    requires room { count ≤ length g.now.cells.items }
    requires in_order { InOrder g.now.cells.items }
    ensures { IfOk result (λ ws. AllStand g.now.cells.items count ws.items) }
{
    let roots = all_roots(alloc, g)?;
    let mut types = Vec::new(alloc);
    for at in 0..count {
        types.push(write_type(alloc, g, &roots, at, depth, budget)?)?;
    }
    Ok(types)
}
