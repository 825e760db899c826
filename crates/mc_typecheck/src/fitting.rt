ghost use Rattle.std.specs.Prelude.{◌≡◌, map, IfOk};
ghost use Rattle.mc_unresolved.specs.Steps.{plain_walk_step};
ghost use Rattle.mc_typecheck.specs.Fitting.{is_there, all_there, step_fits, each_fits, clause_fits};

use crate::Signatures;
use mc_base::Memory;
use mc_source::name::Candidate;
use mc_unresolved::{UnresolvedClause, WalkStep, walk_steps};
use std::alloc::Global;

/// Whether a clause's variables have names, and its candidates and its predicate are in a table.
pub fn fits(
    alloc: Global,
    signatures: &Signatures,
    clause: &UnresolvedClause,
) -> Result<bool, Memory>
    ensures { IfOk result (λ yes. yes ≡ clause_fits signatures.now clause.now) }
{
    let names = clause.names.len();
    let steps = walk_steps(alloc, clause)?;
    Ok(all_fit(signatures, steps.as_slice(), names))
}

/// Whether each step fits.
pub fn all_fit(signatures: &Signatures, steps: &[WalkStep], names: u32) -> bool
    ensures { result ≡ each_fits signatures.now names (map plain_walk_step steps.now) }
{
    for step in steps {
        if !fits_step(signatures, *step, names) {
            return false;
        }
    }
    true
}

/// Whether a step's variable has a name, its candidates are in the table, or its predicate is.
fn fits_step(signatures: &Signatures, step: WalkStep, names: u32) -> bool
    ensures { result ≡ step_fits signatures.now names (plain_walk_step step.entry) }
{
    match step {
        WalkStep::Variable(v) => v < names,
        WalkStep::Number => true,
        WalkStep::Text => true,
        WalkStep::Choose(candidates, _) => are_there(signatures, candidates),
        WalkStep::Equate => true,
        WalkStep::Call(candidates, _) => are_there(signatures, candidates),
        WalkStep::CloseHead(pred, _) => (pred as usize) < signatures.preds,
    }
}

/// Whether candidates are in the table.
fn are_there(signatures: &Signatures, candidates: &[Candidate]) -> bool
    ensures { result ≡ all_there signatures.now candidates.now }
{
    for candidate in candidates {
        if !is_there(signatures, *candidate) {
            return false;
        }
    }
    true
}

fn is_there(signatures: &Signatures, candidate: Candidate) -> bool
    ensures { result ≡ is_there signatures.now candidate }
{
    match candidate {
        Candidate::Con(symbol) => (symbol as usize) < signatures.symbols,
        Candidate::Func(function) => (function as usize) < signatures.preds,
        Candidate::Pred(pred) => (pred as usize) < signatures.preds,
        Candidate::Char(_) => true,
    }
}
