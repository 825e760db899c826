ghost use Rattle.std.specs.Prelude.{◌≡◌, ◌<◌, ◌≤◌, ◌+◌, ◌*◌, ◌^◌, ◌⊎◌, ◌↔◌, ℕ, [], ◌∷◌, ◌++◌, length, IfOk, OnOk, OnErr};
ghost use Rattle.mc_program.specs.PlainPrograms.{plain_type};
ghost use Rattle.mc_types.specs.Holds.{InOrder};
ghost use Rattle.mc_types.specs.Changes.{Grown};
ghost use Rattle.mc_types.specs.Founded.{AllPast};
ghost use Rattle.mc_types.specs.Substitutions.{Unifies};
ghost use Rattle.mc_types.specs.code.Systems.{IsSystem, TypesSay, types_of};

use crate::types::add_type;
use crate::{Graph, enough_marks, founded, restore, unify};
use mc_base::Memory;
use mc_program::ty::Ty;
use std::alloc::Global;

/// Makes two types equal in a graph whose first cells are their variables; where that fails, what was done stays.
fn link_types(
    alloc: Global,
    g: &mut Graph,
    marks: &mut Vec<usize>,
    round: usize,
    vars: u32,
    a: &Ty,
    b: &Ty,
) -> Result<bool, Memory>
    requires system { IsSystem vars g.old.cells.items }
    requires past { AllPast round marks.old.items }
    requires some_round { 0 < round }
    requires small { round < 2 ^ 62 }
    ensures past { AllPast (round + 1) marks.new.items }
    ensures grown { Grown g.old.cells.items g.old.changes.items g.new.cells.items g.new.changes.items }
    ensures answer { IfOk result (λ yes. TypesSay yes vars g.old.cells.items g.new.cells.items
        (plain_type a.now) (plain_type b.now)) }
{
    let cells = g.cells.len();
    let changes = g.changes.len();
    let left = add_type(g, a, 0, vars)?;
    let right = add_type(g, b, 0, vars)?;
    if !unify(alloc, g, left, right)? {
        return Ok(false);
    }
    enough_marks(g, marks, round)?;
    if !founded(alloc, g, marks, round, cells, changes)? {
        return Ok(false);
    }
    Ok(true)
}

/// Makes two types equal in a graph whose first cells are their variables, where that can be; else all is as before.
pub fn unify_types(
    alloc: Global,
    g: &mut Graph,
    marks: &mut Vec<usize>,
    round: usize,
    vars: u32,
    a: &Ty,
    b: &Ty,
) -> Result<bool, Memory>
    requires system { IsSystem vars g.old.cells.items }
    requires past { AllPast round marks.old.items }
    requires some_round { 0 < round }
    requires small { round < 2 ^ 62 }
    ensures past { AllPast (round + 1) marks.new.items }
    ensures system { IsSystem vars g.new.cells.items }
    ensures answer { IfOk result (λ yes. Unifies yes (types_of vars g.old.cells.items)
        (types_of vars g.new.cells.items) a.now b.now) }
    ensures unchanged { OnErr result (g.new.cells.items ≡ g.old.cells.items) }
{
    let cells = g.cells.len();
    let changes = g.changes.len();
    match link_types(alloc, g, marks, round, vars, a, b) {
        Ok(true) => Ok(true),
        Ok(false) => {
            restore(g, cells, changes); // no binding of a failed attempt stays
            Ok(false)
        }
        Err(Memory) => {
            restore(g, cells, changes);
            Err(Memory)
        }
    }
}
