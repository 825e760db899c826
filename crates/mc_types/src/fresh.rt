ghost use Rattle.std.specs.Prelude.{◌≡◌, ◌++◌, ◌∷◌, [], length, replicate, IfOk, OnOk, OnErr};
ghost use Rattle.mc_types.specs.Holds.{InOrder, CellInOrder};
ghost use Rattle.mc_types.specs.Changes.{Grown};

use crate::cells::{Cell, Graph};
use mc_base::Memory;

/// Adds a cell.
pub fn add_cell(g: &mut Graph, cell: Cell) -> Result<usize, Memory>
    requires in_order { InOrder g.old.cells.items }
    requires cell { CellInOrder (length g.old.cells.items) (length g.old.cells.items) cell }
    ensures cells { IfOk result (λ node. (node ≡ length g.old.cells.items)
        × (g.new.cells.items ≡ g.old.cells.items ++ cell ∷ [])) }
    ensures cells_stay { OnErr result (g.new.cells.items ≡ g.old.cells.items) }
    ensures changes { g.new.changes.items ≡ g.old.changes.items }
    ensures in_order { InOrder g.new.cells.items }
    ensures grown { Grown g.old.cells.items g.old.changes.items g.new.cells.items g.new.changes.items }
{
    let node = g.cells.len();
    g.cells.push(cell)?;
    Ok(node)
}

/// Adds free cells.
pub fn add_free(g: &mut Graph, count: usize) -> Result<(), Memory>
    requires { InOrder g.old.cells.items }
    ensures cells { OnOk result (g.new.cells.items ≡ g.old.cells.items ++ replicate count Cell.Free) }
    ensures in_order { InOrder g.new.cells.items }
    ensures grown { Grown g.old.cells.items g.old.changes.items g.new.cells.items g.new.changes.items }
{
    for _k in 0..count {
        add_cell(g, Cell::Free)?;
    }
    Ok(())
}
