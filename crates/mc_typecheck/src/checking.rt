ghost use Rattle.std.specs.Prelude.{◌≡◌, ℕ, [], true, map, IfOk};
ghost use Rattle.mc_program.specs.Programs.{Source};
ghost use Rattle.mc_accepted.specs.MostGeneral.{rigid_count};
ghost use Rattle.mc_accepted.specs.ProperTypes.{Parameters};
ghost use Rattle.mc_accepted.specs.Resolving.{steps_of};
ghost use Rattle.mc_unresolved.specs.Unresolved.{plain_unresolved_clause};
ghost use Rattle.mc_unresolved.specs.Steps.{plain_walk_step};
ghost use Rattle.mc_typecheck.specs.Ties.{of_head, tied, picks_of};
ghost use Rattle.mc_typecheck.specs.Walked.{Shows, ShowsAll};
ghost use Rattle.mc_typecheck.specs.Fitting.{IsSomeTable, clause_fits};
ghost use Rattle.mc_typecheck.specs.Checked.{Answers};
ghost use Rattle.mc_typecheck.specs.code.Made.{IsMade};

use crate::fitting::all_fit;
use crate::marks::marked;
use crate::picking::picked;
use crate::rigid::rigid_count;
use crate::types::types_of;
use crate::walking::{named_walk, walked};
use crate::{Signatures, resolve_walk};
use mc_base::{Copied, Memory, Row};
use mc_program::program::Resolved;
use mc_source::name::Candidate;
use mc_types::{Outcome, Written};
use mc_unresolved::{UnresolvedClause, WalkStep, resolved_clause, walk_steps};
use std::alloc::Global;

/// How many assignments may be live at one moment of a walk.
const LIMIT: usize = 1024;

/// Why a clause has no one resolution.
#[derive(Drop)]
pub enum TypeFault {
    /// No resolution types it: rule T1
    None,
    /// At least two do, of which these are the first: rule T2
    Two(Row<Candidate>, Row<Candidate>),
    /// At one moment of its walk too many assignments are live: rule L5
    TooMany,
    /// There is too little memory
    Memory,
}

impl From<Memory> for TypeFault {
    ghost use Rattle.std.specs.Prelude.{◌≡◌};
    ghost use Rattle.mc_typecheck.specs.declared.checking.TypeFault.TheVariants as fault_of;

    ghost from_gives = { λ _ fault. fault ≡ fault_of.Memory };

    fn from(_error: Memory) -> TypeFault {
        TypeFault::Memory
    }
}

/// The one resolution of a clause, with the most general types of its variables and of those that its normal goal makes,
/// or the rule that it breaks. (Mercury Language Reference Manual: Types; this project's profile: the order of candidates
/// and of the walk, and the limit.)
pub fn check_clause(
    alloc: Global,
    signatures: &Signatures,
    clause: &UnresolvedClause,
) -> Result<Resolved, TypeFault>
    requires table { IsSomeTable signatures.now }
    requires fits { clause_fits signatures.now clause.now ≡ true }
    ensures { (P : Source) (D : Parameters)
        → ShowsAll P D signatures.now (steps_of (plain_unresolved_clause clause.now))
        → Answers P D clause.now result }
{
    let steps = walk_steps(alloc, clause)?;
    check_steps(alloc, signatures, clause, steps.as_slice())
}

/// The same, where it isn't known whether the clause fits the table. One that doesn't counts as one that finds no room.
pub fn check_any_clause(
    alloc: Global,
    signatures: &Signatures,
    clause: &UnresolvedClause,
) -> Result<Resolved, TypeFault>
    requires table { IsSomeTable signatures.now }
    ensures { (P : Source) (D : Parameters)
        → (clause_fits signatures.now clause.now ≡ true
        → ShowsAll P D signatures.now (steps_of (plain_unresolved_clause clause.now)))
        → Answers P D clause.now result }
{
    let steps = walk_steps(alloc, clause)?;
    let steps = steps.as_slice();
    if !all_fit(signatures, steps, clause.names.len()) {
        return Err(TypeFault::Memory);
    }
    check_steps(alloc, signatures, clause, steps)
}

/// The same, of a clause that fits, and whose steps these are.
fn check_steps(
    alloc: Global,
    signatures: &Signatures,
    clause: &UnresolvedClause,
    steps: &[WalkStep],
) -> Result<Resolved, TypeFault>
    requires table { IsSomeTable signatures.now }
    requires fits { clause_fits signatures.now clause.now ≡ true }
    requires steps { map plain_walk_step steps.now ≡ steps_of (plain_unresolved_clause clause.now) }
    ensures { (P : Source) (D : Parameters)
        → ShowsAll P D signatures.now (steps_of (plain_unresolved_clause clause.now))
        → Answers P D clause.now result }
{
    let vars = clause.names.len() as usize;
    match named_walk(alloc, signatures, steps, vars)? {
        Some(walk) => {
            let picks = walk.resolution();
            let made = resolve(alloc, signatures, clause, steps, picks, &walk.types)?;
            Ok(made)
        }
        None => search_steps(alloc, signatures, clause, steps),
    }
}

/// The same, by a search.
fn search_steps(
    alloc: Global,
    signatures: &Signatures,
    clause: &UnresolvedClause,
    steps: &[WalkStep],
) -> Result<Resolved, TypeFault>
    requires table { IsSomeTable signatures.now }
    requires fits { clause_fits signatures.now clause.now ≡ true }
    requires steps { map plain_walk_step steps.now ≡ steps_of (plain_unresolved_clause clause.now) }
    ensures { (P : Source) (D : Parameters)
        → ShowsAll P D signatures.now (steps_of (plain_unresolved_clause clause.now))
        → Answers P D clause.now result }
{
    let vars = clause.names.len() as usize;
    let walk = walked(alloc, signatures, steps, vars)?;
    match resolve_walk(alloc, signatures, &walk, LIMIT)? {
        Outcome::None => Err(TypeFault::None),
        Outcome::TooMany => Err(TypeFault::TooMany),
        Outcome::Two(first, second) => {
            let first = pick(alloc, signatures, steps, &first)?;
            let second = pick(alloc, signatures, steps, &second)?;
            Err(TypeFault::Two(first, second))
        }
        Outcome::One(choices, types) => {
            let picks = pick(alloc, signatures, steps, &choices)?;
            let made = resolve(alloc, signatures, clause, steps, picks.as_slice(), &types)?;
            Ok(made)
        }
    }
}

/// The candidates that are picked by choices.
fn pick(
    alloc: Global,
    signatures: &Signatures,
    steps: &[WalkStep],
    choices: &Vec<usize>,
) -> Result<Row<Candidate>, Memory>
    ensures { IfOk result (λ picks. (P : Source) (D : Parameters) (vars : ℕ)
        → ShowsAll P D signatures.now (map plain_walk_step steps.now)
        → picks ≡ picks_of (tied P D (map plain_walk_step steps.now) vars []) choices.now.items) }
{
    let picks = picked(alloc, signatures, steps, choices.as_slice())?;
    Ok(Row::of(picks)?)
}

/// The clause that picks make, with those of these types that are its variables' or its normal goal's.
fn resolve(
    alloc: Global,
    signatures: &Signatures,
    clause: &UnresolvedClause,
    steps: &[WalkStep],
    picks: &[Candidate],
    types: &Vec<Written>,
) -> Result<Resolved, Memory>
    ensures { IfOk result (λ made. (P : Source) (D : Parameters)
        → Shows P D signatures.now (of_head clause.now.pred)
        → IsMade P clause.now (map plain_walk_step steps.now) picks.now types.now.items made) }
{
    let rigid = head_count(signatures, clause.pred)?;
    let made = resolved_clause(alloc, clause, picks)?;
    let flags = marked(alloc, steps, clause.names.len() as usize)?;
    let var_types = types_of(alloc, types.as_slice(), flags.as_slice(), rigid)?;
    let var_names = clause.names.copied(alloc)?;
    Ok(Resolved {
        clause: made,
        var_types,
        var_names,
    })
}

/// How many type variables the head of a predicate has, which are rigid.
fn head_count(signatures: &Signatures, pred: u32) -> Result<u32, Memory>
    ensures { IfOk result (λ count. (P : Source) (D : Parameters)
        → Shows P D signatures.now (of_head pred) → count ≡ rigid_count (P.preds pred).types) }
{
    match signatures.place_of_head(pred) {
        None => Err(Memory),
        Some(place) => {
            if place >= signatures.all.len() {
                return Err(Memory);
            }
            let count = rigid_count(signatures.all[place].types.as_slice())?;
            Ok(count)
        }
    }
}
