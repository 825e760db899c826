ghost use Rattle.std.specs.Prelude.{◌≡◌, ◌↔◌, ◌++◌, ℕ, List, map, IsTrue, IfOk};
ghost use Rattle.mc_program.specs.PlainPrograms.{plain_clause, plain_goal, formulas};
ghost use Rattle.mc_accepted.specs.Scope.{ClauseHasScopes, occurring, occurring_all};
ghost use Rattle.mc_self_check.specs.code.WrittenScopes.{AllIn, NoneIn, FreeIn, AllFreeIn, ScopesIn, PartsIn, DisjunctsIn};

use crate::listed::is_among;
use mc_base::Memory;
use mc_goals::{push_all_occurring, push_all_variables, push_occurring, push_variables};
use mc_program::program::{Clause, Goal};
use std::alloc::Global;

/// Whether a clause's scopes are written out. A body that is one atom, or none, has none, and takes no memory.
pub(crate) fn clause_has_scopes(alloc: Global, clause: &Clause) -> Result<bool, Memory>
    ensures { IfOk result (λ b. IsTrue b ↔ ClauseHasScopes (plain_clause clause.now)) }
{
    if has_no_parts(&clause.body) {
        return Ok(true);
    }
    let mut outside = Vec::new(alloc);
    push_all_variables(&mut outside, clause.head.as_slice())?;
    has_scopes(alloc, outside.as_slice(), &[], &clause.body)
}

/// Whether a goal has no goal inside, and so no scope.
fn has_no_parts(goal: &Goal) -> bool
    ensures { IsTrue result → (O Q : List ℕ) → ScopesIn O Q (plain_goal goal.now) }
{
    match goal {
        Goal::True => true,
        Goal::Equal(_, _) => true,
        Goal::Call(_, _) => true,
        Goal::Conj(goals) => goals.is_empty(),
        _ => false,
    }
}

/// Whether a goal's scopes are written out, where these variables occur outside it and those are quantified around it.
#[cycle(scopes)]
fn has_scopes(alloc: Global, outside: &[u32], around: &[u32], goal: &Goal) -> Result<bool, Memory>
    ensures { IfOk result (λ b. IsTrue b
        ↔ ScopesIn outside.now around.now (plain_goal goal.now)) }
{
    match goal {
        Goal::True => Ok(true),
        Goal::Equal(_, _) => Ok(true),
        Goal::Call(_, _) => Ok(true),
        Goal::Conj(goals) => parts_have_scopes(alloc, outside, around, goals.as_slice()),
        Goal::Disj(goals) => disjuncts_have_scopes(alloc, outside, around, goals.as_slice()),
        Goal::Ite(vars, condition, then_part, else_part) => {
            let vars = vars.as_slice();
            Ok(
                are_apart(vars, outside)
                    && are_known(alloc, outside, around, vars, condition)?
                    && has_scopes_beside(alloc, outside, around, vars, condition, then_part)?
                    && has_scopes_beside(alloc, outside, around, vars, then_part, condition)?
                    && has_scopes(alloc, outside, around, else_part)?,
            )
        }
        Goal::Not(inner) => Ok(
            are_known(alloc, outside, around, &[], inner)?
                && has_scopes(alloc, outside, around, inner)?,
        ),
        Goal::Some(vars, inner) => {
            let vars = vars.as_slice();
            Ok(are_apart(vars, outside) && has_scopes_under(alloc, outside, around, vars, inner)?)
        }
    }
}

/// The same of a goal over which more variables are quantified.
#[cycle(scopes)]
fn has_scopes_under(
    alloc: Global,
    outside: &[u32],
    around: &[u32],
    vars: &[u32],
    goal: &Goal,
) -> Result<bool, Memory>
    ensures { IfOk result (λ b. IsTrue b
        ↔ ScopesIn outside.now (around.now ++ vars.now) (plain_goal goal.now)) }
{
    let around = joined(alloc, around, vars)?;
    has_scopes(alloc, outside, around.as_slice(), goal)
}

/// The same of a condition or its then part, beside which the other one stands.
#[cycle(scopes)]
fn has_scopes_beside(
    alloc: Global,
    outside: &[u32],
    around: &[u32],
    vars: &[u32],
    goal: &Goal,
    other: &Goal,
) -> Result<bool, Memory>
    ensures { IfOk result (λ b. IsTrue b
        ↔ ScopesIn (outside.now ++ occurring (plain_goal other.now)) (around.now ++ vars.now)
        (plain_goal goal.now)) }
{
    let mut outside = joined(alloc, outside, &[])?;
    push_occurring(&mut outside, other)?;
    has_scopes_under(alloc, outside.as_slice(), around, vars, goal)
}

#[cycle(scopes)]
fn parts_have_scopes(
    alloc: Global,
    outside: &[u32],
    around: &[u32],
    goals: &[Goal],
) -> Result<bool, Memory>
    ensures { IfOk result (λ b. IsTrue b
        ↔ PartsIn outside.now around.now (formulas (map plain_goal goals.now))) }
{
    let mut before = joined(alloc, outside, &[])?;
    for place in 0..goals.len() {
        let later = &goals[place + 1..];
        if !part_has_scopes(alloc, before.as_slice(), around, &goals[place], later)? {
            return Ok(false);
        }
        push_occurring(&mut before, &goals[place])?;
    }
    Ok(true)
}

/// The same of a part of a conjunction that has others behind it.
#[cycle(scopes)]
fn part_has_scopes(
    alloc: Global,
    outside: &[u32],
    around: &[u32],
    goal: &Goal,
    later: &[Goal],
) -> Result<bool, Memory>
    ensures { IfOk result (λ b. IsTrue b
        ↔ ScopesIn (outside.now ++ occurring_all (formulas (map plain_goal later.now))) around.now
        (plain_goal goal.now)) }
{
    if has_no_parts(goal) {
        return Ok(true);
    }
    let mut outside = joined(alloc, outside, &[])?;
    push_all_occurring(&mut outside, later)?;
    has_scopes(alloc, outside.as_slice(), around, goal)
}

#[cycle(scopes)]
fn disjuncts_have_scopes(
    alloc: Global,
    outside: &[u32],
    around: &[u32],
    goals: &[Goal],
) -> Result<bool, Memory>
    ensures { IfOk result (λ b. IsTrue b
        ↔ DisjunctsIn outside.now around.now (formulas (map plain_goal goals.now))) }
{
    for goal in goals {
        if !has_scopes(alloc, outside, around, goal)? {
            return Ok(false);
        }
    }
    Ok(true)
}

/// Whether the free variables of a goal under a quantifier occur outside it or are quantified around it.
fn are_known(
    alloc: Global,
    outside: &[u32],
    around: &[u32],
    vars: &[u32],
    goal: &Goal,
) -> Result<bool, Memory>
    ensures { IfOk result (λ b. IsTrue b
        ↔ FreeIn (vars.now ++ (outside.now ++ around.now)) (plain_goal goal.now)) }
{
    let known = joined(alloc, outside, around)?;
    free_under(alloc, known.as_slice(), vars, goal)
}

/// Whether the free variables of a goal are among others.
#[cycle(free)]
fn free_among(alloc: Global, known: &[u32], goal: &Goal) -> Result<bool, Memory>
    ensures { IfOk result (λ b. IsTrue b ↔ FreeIn known.now (plain_goal goal.now)) }
{
    match goal {
        Goal::True => Ok(true),
        Goal::Conj(goals) => all_free_among(alloc, known, goals.as_slice()),
        Goal::Disj(goals) => all_free_among(alloc, known, goals.as_slice()),
        Goal::Ite(vars, condition, then_part, else_part) => {
            let vars = vars.as_slice();
            Ok(
                free_under(alloc, known, vars, condition)?
                    && free_under(alloc, known, vars, then_part)?
                    && free_among(alloc, known, else_part)?,
            )
        }
        Goal::Not(inner) => free_among(alloc, known, inner),
        Goal::Some(vars, inner) => free_under(alloc, known, vars.as_slice(), inner),
        Goal::Equal(left, right) => {
            let mut variables = Vec::new(alloc);
            push_variables(&mut variables, left)?;
            push_variables(&mut variables, right)?;
            Ok(are_among(variables.as_slice(), known))
        }
        Goal::Call(_, args) => {
            let mut variables = Vec::new(alloc);
            push_all_variables(&mut variables, args.as_slice())?;
            Ok(are_among(variables.as_slice(), known))
        }
    }
}

/// The same of a goal over which variables are quantified.
#[cycle(free)]
fn free_under(alloc: Global, known: &[u32], vars: &[u32], goal: &Goal) -> Result<bool, Memory>
    ensures { IfOk result (λ b. IsTrue b
        ↔ FreeIn (vars.now ++ known.now) (plain_goal goal.now)) }
{
    let inner = joined(alloc, vars, known)?;
    free_among(alloc, inner.as_slice(), goal)
}

#[cycle(free)]
fn all_free_among(alloc: Global, known: &[u32], goals: &[Goal]) -> Result<bool, Memory>
    ensures { IfOk result (λ b. IsTrue b
        ↔ AllFreeIn known.now (formulas (map plain_goal goals.now))) }
{
    for goal in goals {
        if !free_among(alloc, known, goal)? {
            return Ok(false);
        }
    }
    Ok(true)
}

/// Whether all of these variables are among others.
fn are_among(variables: &[u32], others: &[u32]) -> bool
    ensures { IsTrue result ↔ AllIn variables.now others.now }
{
    for variable in variables {
        if !is_among(others, *variable) {
            return false;
        }
    }
    true
}

/// Whether none of these variables is among others.
fn are_apart(variables: &[u32], others: &[u32]) -> bool
    ensures { IsTrue result ↔ NoneIn variables.now others.now }
{
    for variable in variables {
        if is_among(others, *variable) {
            return false;
        }
    }
    true
}

/// Variables with others behind them.
fn joined(alloc: Global, variables: &[u32], others: &[u32]) -> Result<Vec<u32>, Memory>
    ensures { IfOk result (λ all. all.items ≡ variables.now ++ others.now) }
{
    let mut all = Vec::new(alloc);
    all.extend_from_slice(variables)?;
    all.extend_from_slice(others)?;
    Ok(all)
}
