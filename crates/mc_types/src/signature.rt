ghost use Rattle.std.specs.Prelude.{◌≡◌, ◌<◌, ◌≤◌, ◌+◌, length, IfOk};
ghost use Rattle.std.specs.List.{All};
ghost use Rattle.mc_types.specs.Holds.{InOrder};
ghost use Rattle.mc_types.specs.Changes.{Grown};
ghost use Rattle.mc_types.specs.Fits.{FitSays};

use crate::{Graph, add_free, add_type, unify};
use mc_base::Memory;
use mc_program::ty::Ty;
use std::alloc::Global;

/// The types of a candidate's places, over variables of its own; any other variable is rigid.
#[derive(Drop)]
pub struct Signature {
    pub vars: u32,
    pub types: Vec<Ty>,
}

/// Makes the types of places fit a candidate, as far as their names go.
pub fn fit(
    alloc: Global,
    g: &mut Graph,
    signature: &Signature,
    places: &[usize],
) -> Result<bool, Memory>
    requires in_order { InOrder g.old.cells.items }
    requires places { All (λ place. place < length g.old.cells.items) places.now }
    requires lengths { length places.now ≡ length signature.now.types.items }
    ensures in_order { InOrder g.new.cells.items }
    ensures grown { Grown g.old.cells.items g.old.changes.items g.new.cells.items g.new.changes.items }
    ensures says { IfOk result
        (λ yes. FitSays yes g.old.cells.items g.new.cells.items signature.now places.now) }
{
    let base = g.cells.len();
    add_free(g, signature.vars as usize)?;
    for k in 0..places.len() {
        let node = add_type(g, &signature.types[k], base, signature.vars)?;
        if !unify(alloc, g, node, places[k])? {
            return Ok(false);
        }
    }
    Ok(true)
}
