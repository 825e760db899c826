ghost use Rattle.std.specs.Prelude.{◌≡◌, ◌≢◌, ◌<◌, ◌≤◌, ◌+◌, ◌*◌, ◌^◌, ℕ, List, length, IfOk, OnOk, MatchOption};
ghost use Rattle.mc_types.specs.Shapes.{Shape};
ghost use Rattle.mc_types.specs.Holds.{Holds, InOrder, cell_at};
ghost use Rattle.mc_types.specs.Founded.{IsPart, mark_at, AllPast, FoundedSays};
ghost use Rattle.mc_types.specs.code.Marks.{IsDone, IsOnPath, Calm, Visited};

use crate::cells::{Cell, Graph};
use mc_base::Memory;
use std::alloc::Global;

/// The first place that a cell names and that isn't done.
fn next_part(g: &Graph, marks: &[usize], round: usize, at: usize) -> Option<usize>
    requires place { at < length g.now.cells.items }
    requires in_order { InOrder g.now.cells.items }
    requires long { length g.now.cells.items ≤ length marks.now }
    requires small { round < 2 ^ 62 }
    ensures found { MatchOption result
        ((p : ℕ) → IsPart (cell_at g.now.cells.items at) p → IsDone round marks.now p)
        (λ p. IsPart (cell_at g.now.cells.items at) p
        × (IsDone round marks.now p → ⊥)
        × (p < length g.now.cells.items)) }
{
    let done = 2 * round + 1;
    match g.cells[at] {
        Cell::Same(part) if marks[part] != done => Some(part),
        Cell::App(left, _) if marks[left] != done => Some(left),
        Cell::App(_, right) if marks[right] != done => Some(right),
        _ => None,
    }
}

/// Whether no type at or below a place has itself in it; the places are then done.
fn visit(
    alloc: Global,
    g: &Graph,
    marks: &mut [usize],
    round: usize,
    start: usize,
) -> Result<bool, Memory>
    requires place { start < length g.now.cells.items }
    requires in_order { InOrder g.now.cells.items }
    requires calm { Calm round g.now.cells.items marks.old }
    requires small { round < 2 ^ 62 }
    ensures past { AllPast (round + 1) marks.new }
    ensures answer { IfOk result (λ yes. Visited yes round g.now.cells.items marks.old marks.new start) }
{
    if marks[start] == 2 * round + 1 {
        return Ok(true);
    }
    let mut path = Vec::new(alloc);
    path.push(start)?;
    marks[start] = 2 * round;
    while path.len() > 0 {
        let at = path[path.len() - 1];
        match next_part(g, marks, round, at) {
            None => {
                marks[at] = 2 * round + 1;
                path.pop();
            }
            Some(part) => {
                if marks[part] == 2 * round {
                    return Ok(false);
                }
                path.push(part)?;
                marks[part] = 2 * round;
            }
        }
    }
    Ok(true)
}

/// Whether no type has itself in it, where that was so before the changes from a number on and the cells from a
/// place on.
pub fn founded(
    alloc: Global,
    g: &Graph,
    marks: &mut [usize],
    round: usize,
    cells: usize,
    changes: usize,
) -> Result<bool, Memory>
    requires in_order { InOrder g.now.cells.items }
    requires past { AllPast round marks.old }
    requires long { length g.now.cells.items ≤ length marks.old }
    requires some_round { 0 < round }
    requires small { round < 2 ^ 62 }
    requires cells { cells ≤ length g.now.cells.items }
    requires changes { changes ≤ length g.now.changes.items }
    ensures past { AllPast (round + 1) marks.new }
    ensures answer { IfOk result
        (λ yes. FoundedSays yes g.now.cells.items g.now.changes.items cells changes) }
{
    for k in changes..g.changes.len() {
        let at = g.changes[k].at;
        if at >= g.cells.len() {
            continue;
        }
        if !visit(alloc, g, marks, round, at)? {
            return Ok(false);
        }
    }
    for at in cells..g.cells.len() {
        if !visit(alloc, g, marks, round, at)? {
            return Ok(false);
        }
    }
    Ok(true)
}

/// Gives each cell a mark.
pub fn enough_marks(g: &Graph, marks: &mut Vec<usize>, round: usize) -> Result<(), Memory>
    requires past { AllPast round marks.old.items }
    requires some_round { 0 < round }
    ensures past { AllPast round marks.new.items }
    ensures long { OnOk result (length g.now.cells.items ≤ length marks.new.items) }
{
    while marks.len() < g.cells.len() {
        marks.push(0)?;
    }
    Ok(())
}
