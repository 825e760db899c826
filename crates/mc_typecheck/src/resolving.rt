ghost use Rattle.std.specs.Prelude.{◌≡◌, ℕ, ◌<◌, ◌^◌, IfOk};
ghost use Rattle.mc_program.specs.Programs.{Source};
ghost use Rattle.mc_accepted.specs.ProperTypes.{Parameters};
ghost use Rattle.mc_accepted.specs.Resolving.{Unresolved_clause, steps_of};
ghost use Rattle.mc_typecheck.specs.Searched.{VariablesBelow};
ghost use Rattle.mc_typecheck.specs.Outcomes.{ClauseSays};
ghost use Rattle.mc_typecheck.specs.Walked.{IsAt, WasWalked, after_all, start};

use crate::table::Signatures;
use crate::walk::Walk;
use mc_base::Memory;
use mc_types::{Outcome, resolve};
use std::alloc::Global;

/// The one resolution of a clause that was walked, with the most general types of its variables and of the occurrences
/// of its names, numbers and texts, or why there is none.
pub fn resolve_walk(
    alloc: Global,
    signatures: &Signatures,
    walk: &Walk,
    limit: usize,
) -> Result<Outcome, Memory>
    requires walked { WasWalked signatures.now walk.now }
    requires some { 0 < limit }
    requires small { limit < 2 ^ 32 }
    ensures { IfOk result (λ outcome. (P : Source) (D : Parameters)
        (clause : Unresolved_clause) (vars : ℕ)
        → VariablesBelow vars (steps_of clause)
        → IsAt P D signatures.now walk.now (after_all P D (steps_of clause) (start vars))
        → ClauseSays P D clause limit vars outcome) }
{
    let places = walk.next;
    let outcome = resolve(alloc, &signatures.all, &walk.steps, places, places, limit)?;
    Ok(outcome)
}
