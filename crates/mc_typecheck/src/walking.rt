ghost use Rattle.std.specs.Prelude.{ℕ, map, IfOk, IfSome, IsTrue, OnOk};
ghost use Rattle.mc_program.specs.Programs.{Source};
ghost use Rattle.mc_accepted.specs.ProperTypes.{Parameters};
ghost use Rattle.mc_unresolved.specs.Steps.{plain_walk_step};
ghost use Rattle.mc_typecheck.specs.Walked.{IsAt, ShowsAll, Takes, after_all, start};
ghost use Rattle.mc_typecheck.specs.NamedWalks.{IsNamedAt, TakesNamed};

use crate::{NamedWalk, Signatures, Walk};
use mc_base::Memory;
use mc_unresolved::WalkStep;
use std::alloc::Global;

/// The walk of a clause whose steps these are, and which has so many variables.
pub fn walked(
    alloc: Global,
    signatures: &Signatures,
    steps: &[WalkStep],
    vars: usize,
) -> Result<Walk, Memory>
    ensures { IfOk result (λ walk. (P : Source) (D : Parameters)
        → ShowsAll P D signatures.now (map plain_walk_step steps.now)
        → IsAt P D signatures.now walk (after_all P D (map plain_walk_step steps.now) (start vars))) }
{
    let mut walk = Walk::new(alloc, vars);
    for step in steps {
        take_step(alloc, signatures, &mut walk, *step)?;
    }
    Ok(walk)
}

/// Takes a step.
fn take_step(
    alloc: Global,
    signatures: &Signatures,
    walk: &mut Walk,
    step: WalkStep,
) -> Result<(), Memory>
    ensures { OnOk result (Takes signatures.now walk.old walk.new (plain_walk_step step.entry)) }
{
    match step {
        WalkStep::Variable(v) => walk.push_variable(v as usize),
        WalkStep::Number => walk.push_number(alloc, signatures),
        WalkStep::Text => walk.push_text(alloc, signatures),
        WalkStep::Choose(candidates, arguments) => {
            walk.choose(alloc, signatures, candidates, arguments)
        }
        WalkStep::Equate => walk.equate(alloc, signatures),
        WalkStep::Call(candidates, arguments) => {
            walk.call(alloc, signatures, candidates, arguments)
        }
        WalkStep::CloseHead(pred, arguments) => {
            walk.close_head(alloc, signatures, pred, arguments)
        }
    }
}

/// The same, where each step has one meaning alone, whose types are names without arguments, and no place has two types.
pub fn named_walk(
    alloc: Global,
    signatures: &Signatures,
    steps: &[WalkStep],
    vars: usize,
) -> Result<Option<NamedWalk>, Memory>
    ensures { IfOk result (λ named. IfSome named (λ walk. (P : Source) (D : Parameters)
        → ShowsAll P D signatures.now (map plain_walk_step steps.now)
        → IsNamedAt P D walk (after_all P D (map plain_walk_step steps.now) (start vars)))) }
{
    let mut walk = NamedWalk::new(alloc, vars, steps.len())?;
    for step in steps {
        if !name_step(signatures, &mut walk, *step)? {
            return Ok(None);
        }
    }
    Ok(Some(walk))
}

/// Takes a step, where it is such.
fn name_step(signatures: &Signatures, walk: &mut NamedWalk, step: WalkStep) -> Result<bool, Memory>
    ensures { IfOk result (λ yes. IsTrue yes
        → TakesNamed signatures.now walk.old walk.new (plain_walk_step step.entry)) }
{
    match step {
        WalkStep::Variable(v) => {
            walk.push_variable(v as usize)?;
            Ok(true)
        }
        WalkStep::Number => walk.push_number(signatures),
        WalkStep::Text => walk.push_text(signatures),
        WalkStep::Choose(candidates, arguments) => walk.choose(signatures, candidates, arguments),
        WalkStep::Equate => Ok(false),
        WalkStep::Call(candidates, arguments) => walk.call(signatures, candidates, arguments),
        WalkStep::CloseHead(pred, arguments) => Ok(walk.close_head(signatures, pred, arguments)),
    }
}
