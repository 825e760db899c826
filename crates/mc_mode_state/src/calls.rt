ghost use Rattle.std.specs.Prelude.{◌≡◌, ◌<◌, ◌≤◌, ◌++◌, ◌∷◌, [], ◌&&◌, ◌||◌, ◌+◌, ◌^◌, ℕ, List, Some, None, length, map, not, IfOk, OnOk, if◌then◌else◌};
ghost use Rattle.mc_program.specs.Programs.{TypeTerm};
ghost use Rattle.mc_model.specs.Lists.{is_in};
ghost use Rattle.mc_model.specs.Stream.{is_bound};
ghost use Rattle.mc_accepted.specs.Ordered.{implied_places, zipped};
ghost use Rattle.mc_procs.specs.Named.{NumbersBelow};
ghost use Rattle.mc_mode_state.specs.States.{point_of};
ghost use Rattle.mc_mode_state.specs.code.Given.{there_before};

use crate::asking::is_bound;
use crate::state::State;
use mc_base::{Memory, Row};
use mc_model::inst::{InstId, ModeDecl};
use std::alloc::Global;

/// Whether a number is in a list.
pub fn has(xs: &[u32], x: u32) -> bool
    ensures { result ≡ is_in x xs.now }
{
    for y in xs {
        if x == *y {
            return true;
        }
    }
    false
}

/// Whether an argument with these insts is an output.
pub(crate) fn is_output(first: InstId, last: InstId) -> bool
    ensures { result ≡ (not (is_bound first) && is_bound last) }
{
    !is_bound(first) && is_bound(last)
}

/// Notes the place of an output whose variable is there; else that it is given now.
fn note(
    places: &mut Row<u32>,
    given: &mut Vec<u32>,
    place: u32,
    x: u32,
    is_output: bool,
    is_there: bool,
) -> Result<(), Memory>
    requires { length places.old + 1 < 2 ^ 32 }
    ensures places { OnOk result (places.new
        ≡ (if is_output && is_there then places.old ++ place ∷ [] else places.old)) }
    ensures given { OnOk result (given.new.items
        ≡ (if is_output && not is_there then x ∷ given.old.items else given.old.items)) }
{
    if !is_output {
        return Ok(());
    }
    if is_there {
        places.push(place)?;
        return Ok(());
    }
    given.insert(0, x)?;
    Ok(())
}

impl State {
    /// The places of a call's implied arguments: outputs whose variable is bound, or was an output before.
    pub fn implied(&self, alloc: Global, mode: &ModeDecl, xs: &[u32]) -> Result<Row<u32>, Memory>
        requires variables { NumbersBelow (length self.now.insts.items) xs.now }
        requires finals { length mode.now.first ≡ length mode.now.last }
        requires arguments { length mode.now.first ≡ length xs.now }
        ensures { IfOk result (λ places. places
            ≡ implied_places 0 (zipped mode.now.first mode.now.last) xs.now
            (λ x. is_bound (point_of self.now.insts.items x))) }
    {
        let mut places = Row::new(alloc);
        let mut given = Vec::new(alloc);
        for k in 0..mode.first.len() {
            let x = xs[k as usize];
            let is_output = is_output(*mode.first.get(k), *mode.last.get(k));
            let is_there = self.is_there(&given, x);
            note(&mut places, &mut given, k, x, is_output, is_there)?;
        }
        Ok(places)
    }

    /// Whether a variable was given by an earlier output, or is bound.
    fn is_there(&self, given: &[u32], x: u32) -> bool
        requires { x < length self.now.insts.items }
        ensures { result ≡ there_before given.now (point_of self.now.insts.items) x }
    {
        has(given, x) || is_bound(self.inst(x))
    }
}
