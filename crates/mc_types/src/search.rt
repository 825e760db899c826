ghost use Rattle.std.specs.Prelude.{◌≡◌, ◌<◌, ◌≤◌, ◌+◌, ◌*◌, ◌^◌, ◌⊎◌, ◌↔◌, ℕ, List, [], ◌∷◌, ◌++◌, length, IfOk, OnOk, OnErr};
ghost use Rattle.std.specs.List.{All};
ghost use Rattle.mc_types.specs.Holds.{InOrder};
ghost use Rattle.mc_types.specs.Founded.{AllPast, Founded};
ghost use Rattle.mc_types.specs.Typed.{Live, AllProper};
ghost use Rattle.mc_types.specs.code.Passed.{Passed};
ghost use Rattle.mc_types.specs.code.Standing.{Tried, Stands, Moved};

use crate::signature::{Signature, fit};
use crate::state::{Level, Search};
use crate::steps::Step;
use crate::{Graph, enough_marks, founded, restore};
use mc_base::Memory;
use std::alloc::Global;

/// Tries a candidate; where it doesn't type, all is as before.
fn try_candidate(
    alloc: Global,
    g: &mut Graph,
    marks: &mut Vec<usize>,
    round: usize,
    signature: &Signature,
    places: &[usize],
) -> Result<bool, Memory>
    requires in_order { InOrder g.old.cells.items }
    requires founded { Founded g.old.cells.items }
    requires places { All (λ place. place < length g.old.cells.items) places.now }
    requires lengths { length places.now ≡ length signature.now.types.items }
    requires past { AllPast round marks.old.items }
    requires some_round { 0 < round }
    requires small { round < 2 ^ 62 }
    ensures past { AllPast (round + 1) marks.new.items }
    ensures answer { IfOk result (λ yes. Tried yes g.old.cells.items g.old.changes.items
        g.new.cells.items g.new.changes.items signature.now places.now) }
{
    let cells = g.cells.len();
    let changes = g.changes.len();
    if !fit(alloc, g, signature, places)? {
        restore(g, cells, changes);
        return Ok(false);
    }
    enough_marks(g, marks, round)?;
    if !founded(alloc, g, marks, round, cells, changes)? {
        restore(g, cells, changes);
        return Ok(false);
    }
    Ok(true)
}

impl Search {
    /// Goes to the next choices that are live, if there are any.
    pub fn advance(
        &mut self,
        alloc: Global,
        signatures: &[Signature],
        steps: &[Step],
        places: usize,
    ) -> Result<bool, Memory>
        requires proper { AllProper signatures.now places steps.now }
        requires stands { Stands signatures.now steps.now places self.old }
        ensures moved { IfOk result (λ more. Moved more signatures.now steps.now places self.old self.new) }
    {
        'tries: loop {
            let k = self.path.len();
            if k < steps.len() && self.next < steps[k].candidates.len() {
                if self.round >= 1 << 61 {
                    return Err(Memory);
                }
                let step = &steps[k];
                let choice = self.next;
                let cells = self.graph.cells.len();
                let changes = self.graph.changes.len();
                let signature = &signatures[step.candidates[choice]];
                if try_candidate(
                    alloc,
                    &mut self.graph,
                    &mut self.marks,
                    self.round,
                    signature,
                    &step.places,
                )? {
                    self.round += 1;
                    self.path.push(Level {
                        choice,
                        cells,
                        changes,
                    })?;
                    self.next = 0;
                    return Ok(true);
                }
                self.round += 1;
                self.next += 1;
            } else {
                match self.path.pop() {
                    Some(level) => {
                        restore(&mut self.graph, level.cells, level.changes);
                        self.next = level.choice + 1;
                    }
                    None => return Ok(false),
                }
            }
        }
    }
}
