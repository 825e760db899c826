ghost use Rattle.std.specs.Prelude.{◌≡◌, ◌<◌, ◌≤◌, ◌+◌, ℕ, [], ◌∷◌, ◌++◌, length, take, drop, slice_set, slice_index_or, OnOk, OnErr, IfOk};
ghost use Rattle.mc_types.specs.Shapes.{Shape};
ghost use Rattle.mc_types.specs.Holds.{Holds, InOrder, IsRoot, cell_at, Unified};
ghost use Rattle.mc_types.specs.code.Joins.{JoinSays};
ghost use Rattle.mc_types.specs.Changes.{Grown, NothingNew, undone};

use crate::cells::{Cell, Change, Graph};
use mc_base::Memory;
use std::alloc::Global;

/// The lowest place that is joined with a place.
pub fn root(g: &Graph, start: usize) -> usize
    requires place { start < length g.now.cells.items }
    requires in_order { InOrder g.now.cells.items }
    ensures below { result ≤ start }
    ensures root { IsRoot (cell_at g.now.cells.items result) }
    ensures same { (ρ : ℕ → Shape) → Holds ρ g.now.cells.items → ρ start ≡ ρ result }
{
    let mut at = start;
    while let Cell::Same(next) = g.cells[at] {
        at = next;
    }
    at
}

/// Overwrites a cell, and notes what it held.
pub fn put(g: &mut Graph, at: usize, cell: Cell) -> Result<(), Memory>
    requires { at < length g.old.cells.items }
    ensures cells { OnOk result (g.new.cells.items ≡ slice_set g.old.cells.items at cell) }
    ensures changes { OnOk result (g.new.changes.items
        ≡ g.old.changes.items ++ record { at = at; was = cell_at g.old.cells.items at } ∷ []) }
    ensures cells_stay { OnErr result (g.new.cells.items ≡ g.old.cells.items) }
    ensures changes_stay { OnErr result (g.new.changes.items ≡ g.old.changes.items) }
{
    let was = g.cells[at];
    g.changes.push(Change { at, was })?;
    g.cells[at] = cell;
    Ok(())
}

/// Takes back the changes from a number on, and the cells from a place on.
pub fn restore(g: &mut Graph, cells: usize, changes: usize)
    requires { changes ≤ length g.old.changes.items }
    ensures cells { g.new.cells.items
        ≡ undone (drop changes g.old.changes.items) (take cells g.old.cells.items) }
    ensures changes { g.new.changes.items ≡ take changes g.old.changes.items }
{
    g.cells.truncate(cells);
    while g.changes.len() > changes {
        if let Some(change) = g.changes.pop() {
            if change.at < g.cells.len() {
                g.cells[change.at] = change.was;
            }
        }
    }
}

/// Two places whose types are to be made equal.
#[derive(Clone, Copy)]
pub struct Pair {
    pub left: usize,
    pub right: usize,
}

/// What is left to do after two places were joined.
#[derive(Clone, Copy)]
pub enum Joined {
    Done,
    Parts(Pair, Pair),
    Clash,
}

/// Joins two roots.
fn join(g: &mut Graph, low: usize, high: usize) -> Result<Joined, Memory>
    requires below { low < high }
    requires place { high < length g.old.cells.items }
    requires low_root { IsRoot (cell_at g.old.cells.items low) }
    requires high_root { IsRoot (cell_at g.old.cells.items high) }
    requires in_order { InOrder g.old.cells.items }
    ensures grown { Grown g.old.cells.items g.old.changes.items g.new.cells.items g.new.changes.items }
    ensures in_order { InOrder g.new.cells.items }
    ensures len { length g.new.cells.items ≡ length g.old.cells.items }
    ensures nothing_new { NothingNew g.old.cells.items g.new.cells.items }
    ensures says { IfOk result (λ joined. JoinSays joined g.old.cells.items g.new.cells.items low high) }
{
    let low_cell = g.cells[low];
    let high_cell = g.cells[high];
    if let Cell::Free = high_cell {
        put(g, high, Cell::Same(low))?;
        return Ok(Joined::Done);
    }
    if let Cell::Free = low_cell {
        put(g, low, high_cell)?;
        put(g, high, Cell::Same(low))?;
        return Ok(Joined::Done);
    }
    match (low_cell, high_cell) {
        (Cell::Named(m), Cell::Named(n)) if m.is(n) => {
            put(g, high, Cell::Same(low))?;
            Ok(Joined::Done)
        }
        (Cell::Rigid(m), Cell::Rigid(n)) if m == n => {
            put(g, high, Cell::Same(low))?;
            Ok(Joined::Done)
        }
        (Cell::App(f, x), Cell::App(h, y)) => {
            put(g, high, Cell::Same(low))?;
            Ok(Joined::Parts(Pair { left: f, right: h }, Pair { left: x, right: y }))
        }
        _ => Ok(Joined::Clash),
    }
}

/// Makes the types at two places equal, as far as their names go; whether some type has itself in it is another
/// question, which `founded` answers.
pub fn unify(alloc: Global, g: &mut Graph, left: usize, right: usize) -> Result<bool, Memory>
    requires left { left < length g.old.cells.items }
    requires right { right < length g.old.cells.items }
    requires in_order { InOrder g.old.cells.items }
    ensures grown { Grown g.old.cells.items g.old.changes.items g.new.cells.items g.new.changes.items }
    ensures in_order { InOrder g.new.cells.items }
    ensures len { length g.new.cells.items ≡ length g.old.cells.items }
    ensures nothing_new { NothingNew g.old.cells.items g.new.cells.items }
    ensures answer { IfOk result (λ yes. Unified yes g.old.cells.items g.new.cells.items left right) }
{
    let mut work = Vec::new(alloc);
    work.push(Pair { left, right })?;
    while let Some(pair) = work.pop() {
        let a = root(g, pair.left);
        let b = root(g, pair.right);
        if a != b {
            let low = a.min(b);
            let high = a.max(b);
            match join(g, low, high)? {
                Joined::Done => {}
                Joined::Parts(p, q) => {
                    work.push(p)?;
                    work.push(q)?;
                }
                Joined::Clash => return Ok(false),
            }
        }
    }
    Ok(true)
}
