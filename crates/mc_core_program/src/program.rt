ghost use Rattle.std.specs.Prelude.{◌≡◌, map, IfOk};
ghost use Rattle.mc_program.specs.PlainPrograms.{plain_pred, plain_clause};
ghost use Rattle.mc_goals.specs.Resolved.{clause_of};
ghost use Rattle.mc_core_program.specs.Whole as whole;

use mc_base::{Memory, Row};
use mc_program::program::{Clause, Pred, Program, Resolved};
use std::alloc::Global;

/// A program with its predicates' clauses, by number; a predicate behind them has none.
pub fn with_clauses(
    alloc: Global,
    program: Program,
    clauses: Vec<Row<Resolved>>,
) -> Result<Program, Memory>
    ensures types { IfOk result (λ made. made.types ≡ program.types) }
    ensures symbols { IfOk result (λ made. made.symbols ≡ program.symbols) }
    ensures preds { IfOk result (λ made. map plain_pred made.preds
        ≡ whole.each_with_clauses (map plain_pred program.preds)
        (map (map clause_of) clauses.items)) }
{
    let Program {
        types,
        symbols,
        preds,
    } = program;
    let preds = preds_with(alloc, preds.into_vec(), clauses)?;
    Ok(Program {
        types,
        symbols,
        preds: Row::of(preds)?,
    })
}

// Predicates with their clauses.
fn preds_with(
    alloc: Global,
    preds: Vec<Pred>,
    clauses: Vec<Row<Resolved>>,
) -> Result<Vec<Pred>, Memory>
    ensures { IfOk result (λ made. map plain_pred made.items
        ≡ whole.each_with_clauses (map plain_pred preds.items) (map (map clause_of) clauses.items)) }
{
    let mut made = Vec::with_capacity(alloc, preds.len())?;
    let mut rows = clauses.into_iter();
    for pred in preds {
        let own = match rows.next() {
            Some(row) => bare(alloc, row)?,
            None => Row::new(alloc),
        };
        made.push(with_own(pred, own))?;
    }
    Ok(made)
}

// A predicate with these clauses.
fn with_own(pred: Pred, clauses: Row<Clause>) -> Pred
    ensures { plain_pred result
        ≡ whole.with_clauses (plain_pred pred) (map plain_clause clauses) }
{
    let Pred {
        name,
        is_func,
        types,
        builtin,
        ..
    } = pred;
    Pred {
        name,
        is_func,
        types,
        clauses,
        builtin,
    }
}

// Clauses alone.
fn bare(alloc: Global, clauses: Row<Resolved>) -> Result<Row<Clause>, Memory>
    ensures { IfOk result (λ bare. map plain_clause bare ≡ map clause_of clauses) }
{
    let mut bare = Vec::with_capacity(alloc, clauses.len() as usize)?;
    for resolved in clauses.into_vec() {
        let Resolved { clause, .. } = resolved;
        bare.push(clause)?;
    }
    Row::of(bare)
}
