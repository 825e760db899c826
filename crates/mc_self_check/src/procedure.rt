ghost use Rattle.std.specs.Prelude.{◌≡◌, ◌↔◌, ◌<◌, None, IsTrue, IsFalse, IfOk, length, map};
ghost use Rattle.mc_program.specs.PlainPrograms.{plain_clause, plain_pred};
ghost use Rattle.mc_model.specs.PlainGoals.{plain_flat, plain_proc};
ghost use Rattle.mc_accepted.specs.Fits.{EachClauseHasScopes, HeadsHave};
ghost use Rattle.mc_accepted.specs.Tidy.{EachTidy};
ghost use Rattle.mc_insts.specs.Graphs.{count_of};
ghost use Rattle.mc_procs.specs.Named.{NumbersBelow};
ghost use Rattle.mc_procs.specs.Procedures.{source_of, insts_of, parameters_of, with_insts};
ghost use Rattle.mc_procs.specs.Fitting.{ProcedureFits, bounds_of};
ghost use Rattle.mc_procs.specs.VariableTypes.{type_in};
ghost use Rattle.mc_self_check.specs.ProcedureGoal.{normal_body};
ghost use Rattle.mc_self_check.specs.code.Names.{bounds};
ghost use Rattle.mc_self_check.specs.code.Parts.{NumbersFit, FitsPredicate};

use crate::named::{Counts, is_named, numbers_below};
use crate::proper::all_proper;
use crate::scopes::clause_has_scopes;
use crate::typed::is_typed;
use crate::variables::{have_types, type_of};
use mc_base::Memory;
use mc_model::flat::Flat;
use mc_model::inst::InstId;
use mc_model::sched::Proc;
use mc_procs::Procs;
use mc_program::program::{Clause, Pred};
use mc_program::ty::Ty;
use std::alloc::Global;

/// Whether a procedure fits, so that it may be added to others or be put in the place of one. `goal` is the normal goal of
/// its predicate.
pub fn procedure_fits(
    alloc: Global,
    procs: &mut Procs,
    p: &Proc,
    goal: &Flat,
) -> Result<bool, Memory>
    requires pred { p.now.pred < length procs.old.program.preds }
    requires goal { plain_flat goal.now ≡ normal_body (source_of procs.old) p.now.pred }
    ensures fits { IfOk result (λ b. IsTrue b ↔ ProcedureFits procs.new (plain_proc p.now)) }
    ensures others { procs.new ≡ with_insts procs.old procs.new.insts }
    ensures graph { insts_of procs.new ≡ insts_of procs.old }
    ensures count { count_of procs.new.insts ≡ count_of procs.old.insts }
{
    let pred = procs.program().preds.get(p.pred);
    if !numbers_fit(procs, p) || !fits_predicate(alloc, procs, p, pred, goal)? {
        return Ok(false);
    }
    let types = p.var_types.as_slice();
    let head = p.head.as_slice();
    Ok(
        are_tidy(alloc, procs, p.first.as_slice(), types, head)?
            && are_tidy(alloc, procs, p.last.as_slice(), types, head)?,
    )
}

/// Whether the numbers of a procedure name what is there.
fn numbers_fit(procs: &Procs, p: &Proc) -> bool
    ensures { IsTrue result ↔ NumbersFit procs.now (plain_proc p.now) }
{
    let counts = counts_for(procs, p);
    numbers_below(counts.variables, p.head.as_slice())
        && numbers_below(counts.insts, p.first.as_slice())
        && numbers_below(counts.insts, p.last.as_slice())
        && is_named(counts, &p.body)
}

/// How many variables, symbols, procedures and insts there are for a procedure.
fn counts_for(procs: &Procs, p: &Proc) -> Counts
    ensures { bounds result ≡ bounds_of procs.now (plain_proc p.now) }
{
    Counts {
        variables: p.var_types.len(),
        symbols: procs.program().symbols.len(),
        procedures: procs.preds().len(),
        insts: procs.insts().count(),
    }
}

/// Whether a procedure fits its predicate, whose normal goal is `goal`, but for its insts.
fn fits_predicate(
    alloc: Global,
    procs: &Procs,
    p: &Proc,
    pred: &Pred,
    goal: &Flat,
) -> Result<bool, Memory>
    ensures { IfOk result (λ b. IsTrue b
        ↔ FitsPredicate (source_of procs.now) (parameters_of procs.now) (plain_pred pred.now)
        (plain_flat goal.now) (plain_proc p.now)) }
{
    let program = procs.program();
    let types = p.var_types.as_slice();
    let expected = pred.types.as_slice();
    if has_builtin(pred) || !heads_have(pred.types.len(), pred.clauses.as_slice()) {
        return Ok(false);
    }
    if !all_proper(program, types) || !have_types(types, p.head.as_slice(), expected) {
        return Ok(false);
    }
    Ok(have_scopes(alloc, pred.clauses.as_slice())? && is_typed(alloc, program, types, goal)?)
}

/// Whether a builtin stands for a predicate's clauses.
fn has_builtin(pred: &Pred) -> bool
    ensures { IsFalse result ↔ (pred.now.builtin ≡ None) }
{
    match pred.builtin {
        None => false,
        Some(_) => true,
    }
}

/// Whether each clause's head has that many arguments.
fn heads_have(arity: u32, clauses: &[Clause]) -> bool
    ensures { IsTrue result ↔ HeadsHave arity (map plain_clause clauses.now) }
{
    for clause in clauses {
        if clause.head.len() != arity {
            return false;
        }
    }
    true
}

/// Whether the scopes of each clause are written out.
fn have_scopes(alloc: Global, clauses: &[Clause]) -> Result<bool, Memory>
    ensures { IfOk result (λ b. IsTrue b ↔ EachClauseHasScopes (map plain_clause clauses.now)) }
{
    for clause in clauses {
        if !clause_has_scopes(alloc, clause)? {
            return Ok(false);
        }
    }
    Ok(true)
}

/// Whether insts hold `unique` and `dead` at the state of io alone, at the types of these variables.
fn are_tidy(
    alloc: Global,
    procs: &mut Procs,
    insts: &[InstId],
    types: &[Ty],
    variables: &[u32],
) -> Result<bool, Memory>
    requires { NumbersBelow (count_of procs.old.insts) insts.now }
    ensures tidy { IfOk result (λ b. IsTrue b
        ↔ EachTidy (source_of procs.old) (insts_of procs.old) insts.now
        (map (type_in types.now) variables.now)) }
    ensures others { procs.new ≡ with_insts procs.old procs.new.insts }
    ensures graph { insts_of procs.new ≡ insts_of procs.old }
    ensures count { count_of procs.new.insts ≡ count_of procs.old.insts }
{
    for place in 0..insts.len() {
        if place >= variables.len() {
            return Ok(true);
        }
        let own = Ty::Var(variables[place]);
        if !procs.is_tidy(alloc, insts[place], type_of(types, variables[place], &own))? {
            return Ok(false);
        }
    }
    Ok(true)
}
