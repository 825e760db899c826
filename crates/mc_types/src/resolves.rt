ghost use Rattle.std.specs.Prelude.{◌≡◌, ◌<◌, ◌≤◌, ◌+◌, ◌*◌, ◌^◌, ◌⊎◌, ◌↔◌, ℕ, List, [], ◌∷◌, ◌++◌, length, map, take, replicate, IfOk, OnOk, OnErr};
ghost use Rattle.mc_types.specs.declared.signature.Signature.{Signature};
ghost use Rattle.mc_types.specs.declared.steps.Step.{Step};
ghost use Rattle.mc_types.specs.Typed.{Live, AllProper};
ghost use Rattle.mc_types.specs.code.Standing.{Stands, choices};
ghost use Rattle.mc_types.specs.Resolved.{OutcomeSays};
ghost use Rattle.mc_types.specs.code.Found.{noted, OutcomeIs, TypesKept};
ghost use Rattle.mc_types.specs.Holds.{InOrder};

use crate::outcome::Outcome;
use crate::signature::Signature;
use crate::state::{Level, Search};
use crate::steps::Step;
use crate::type_search_written::write_types;
use crate::written_types::Written;
use crate::{Graph, add_free};
use mc_base::Memory;
use std::alloc::Global;

/// Types that are nested deeper, or are larger together, count as such that find no room.
const TYPE_DEPTH: usize = 10_000;

const TYPE_BUDGET: usize = 1 << 20;

/// A search that has made no choice.
fn start(alloc: Global, places: usize) -> Result<Search, Memory>
    ensures stands { IfOk result
        (λ s. (signatures : List Signature) (steps : List Step) → Stands signatures steps places s) }
    ensures at_root { IfOk result (λ s. (s.path.items ≡ []) × (s.next ≡ 0)) }
{
    let mut graph = Graph::new(alloc);
    add_free(&mut graph, places)?;
    Ok(Search {
        graph,
        marks: Vec::new(alloc),
        round: 1,
        path: Vec::new(alloc),
        next: 0,
    })
}

/// Keeps the choices of a path where they are for all steps and among the first two.
fn note(
    alloc: Global,
    found: &mut Vec<Vec<usize>>,
    path: &[Level],
    all_steps: bool,
) -> Result<(), Memory>
    ensures { OnOk result (map (λ v. v.items) found.new.items
        ≡ noted all_steps (map (λ v. v.items) found.old.items) (choices path.now)) }
{
    if all_steps && found.len() < 2 {
        let mut choices = Vec::new(alloc);
        for level in path {
            choices.push(level.choice)?;
        }
        found.push(choices)?;
    }
    Ok(())
}

/// Writes out the types of the first places where choices for all steps are the first, else keeps those that there are.
fn keep_types(
    alloc: Global,
    types: Vec<Written>,
    graph: &Graph,
    vars: usize,
    all_steps: bool,
    found: usize,
) -> Result<Vec<Written>, Memory>
    requires in_order { InOrder graph.now.cells.items }
    requires room { vars ≤ length graph.now.cells.items }
    ensures { IfOk result
        (λ ws. TypesKept all_steps found graph.now.cells.items vars types.items ws.items) }
{
    if all_steps && found == 0 {
        let mut budget = TYPE_BUDGET;
        Ok(write_types(alloc, graph, vars, TYPE_DEPTH, &mut budget)?)
    } else {
        Ok(types)
    }
}

/// What was found.
fn outcome(mut found: Vec<Vec<usize>>, types: Vec<Written>) -> Outcome
    requires { length found.items ≤ 2 }
    ensures { OutcomeIs (map (λ v. v.items) found.items) types.items result }
{
    match found.pop() {
        None => Outcome::None,
        Some(last) => match found.pop() {
            None => Outcome::One(last, types),
            Some(first) => Outcome::Two(first, last),
        },
    }
}

/// The one choice of candidates that types all steps, with the types of the clause's variables, which are the first
/// places, or why there is none. At no moment are more choices live than the limit.
pub fn resolve(
    alloc: Global,
    signatures: &[Signature],
    steps: &[Step],
    places: usize,
    vars: usize,
    limit: usize,
) -> Result<Outcome, Memory>
    requires proper { AllProper signatures.now places steps.now }
    requires room { vars ≤ places }
    requires some { 0 < limit }
    requires small { limit < 2 ^ 32 }
    ensures { IfOk result (λ o. OutcomeSays signatures.now steps.now vars limit o) }
{
    let mut search = start(alloc, places)?;
    let mut counts = first_counts(alloc, steps.len())?;
    let mut found = Vec::new(alloc);
    let none = Vec::new(alloc);
    let mut types = keep_types(alloc, none, &search.graph, vars, steps.len() == 0, 0)?;
    note(alloc, &mut found, &search.path, steps.len() == 0)?;
    'moves: while search.advance(alloc, signatures, steps, places)? {
        let k = search.path.len();
        let count = counts[k] + 1;
        if count > limit {
            return Ok(Outcome::TooMany);
        }
        counts[k] = count;
        let all_steps = k == steps.len();
        types = keep_types(alloc, types, &search.graph, vars, all_steps, found.len())?;
        note(alloc, &mut found, &search.path, all_steps)?;
    }
    Ok(outcome(found, types))
}

/// One choice of none has been met, and no others.
fn first_counts(alloc: Global, steps: usize) -> Result<Vec<usize>, Memory>
    ensures { IfOk result (λ counts. counts.items ≡ 1 ∷ replicate steps 0) }
{
    let mut counts = Vec::new(alloc);
    counts.push(1)?;
    for _k in 0..steps {
        counts.push(0)?;
    }
    Ok(counts)
}
