ghost use Rattle.std.specs.Prelude.{◌≡◌, ◌<◌, ◌≤◌, ◌+◌, length, IfOk};
ghost use Rattle.mc_types.specs.Holds.{InOrder};
ghost use Rattle.mc_types.specs.Changes.{Grown};
ghost use Rattle.mc_program.specs.PlainPrograms.{plain_type};
ghost use Rattle.mc_types.specs.Placed.{TypeAdded, Apart};

use crate::{Cell, Graph, TypeName, add_cell};
use mc_base::Memory;
use mc_program::ty::Ty;

/// Adds a type, whose variables below a number are the cells from a place on; any other variable is rigid.
pub fn add_type(g: &mut Graph, ty: &Ty, base: usize, count: u32) -> Result<usize, Memory>
    requires in_order { InOrder g.old.cells.items }
    requires room { base + count ≤ length g.old.cells.items }
    ensures node { IfOk result (λ node. node < length g.new.cells.items) }
    ensures in_order { InOrder g.new.cells.items }
    ensures grown { Grown g.old.cells.items g.old.changes.items g.new.cells.items g.new.changes.items }
    ensures apart { Apart count g.old.cells.items → Apart count g.new.cells.items }
    ensures says { IfOk result
        (λ node. TypeAdded g.old.cells.items g.new.cells.items base count (plain_type ty.now) node) }
{
    match ty {
        Ty::Int => Ok(add_cell(g, Cell::Named(TypeName::Int))?),
        Ty::Char => Ok(add_cell(g, Cell::Named(TypeName::Char))?),
        Ty::Str => Ok(add_cell(g, Cell::Named(TypeName::Str))?),
        Ty::Io => Ok(add_cell(g, Cell::Named(TypeName::Io))?),
        Ty::Var(k) => {
            if *k < count {
                Ok(base + *k as usize)
            } else {
                Ok(add_cell(g, Cell::Rigid(*k))?)
            }
        }
        Ty::Union(number, args) => {
            let args = args.as_slice();
            let mut node = add_cell(g, Cell::Named(TypeName::Union(*number)))?;
            for arg in args {
                let part = add_type(g, arg, base, count)?;
                node = add_cell(g, Cell::App(node, part))?;
            }
            Ok(node)
        }
    }
}
