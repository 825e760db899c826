ghost use Rattle.std.specs.Prelude.{◌≡◌, ◌++◌, map, IfOk, OnOk};
ghost use Rattle.mc_model.specs.Flat.{flats, variables_of, variables_of_all, free_in, free_in_all};
ghost use Rattle.mc_model.specs.Lists.{without};
ghost use Rattle.mc_model.specs.PlainGoals.{plain_flat};

use mc_base::{Memory, Row};
use mc_mode_state::has;
use mc_model::flat::Flat;
use std::alloc::Global;

/// All variables of a goal, the quantified ones too.
pub fn variables_of(alloc: Global, goal: &Flat) -> Result<Vec<u32>, Memory>
    ensures { IfOk result (λ list. list.items ≡ variables_of (plain_flat goal.now)) }
{
    let mut list = Vec::new(alloc);
    push_variables(&mut list, goal)?;
    Ok(list)
}

/// Those of several goals.
pub fn variables_of_all(alloc: Global, goals: &[Flat]) -> Result<Vec<u32>, Memory>
    ensures { IfOk result (λ list. list.items ≡ variables_of_all (flats (map plain_flat goals.now))) }
{
    let mut list = Vec::new(alloc);
    push_all_variables(&mut list, goals)?;
    Ok(list)
}

/// Those of an if-then-else.
pub fn variables_of_parts(
    alloc: Global,
    vars: &[u32],
    condition: &Flat,
    then_part: &Flat,
    else_part: &Flat,
) -> Result<Vec<u32>, Memory>
    ensures { IfOk result (λ list. list.items ≡ vars.now ++ (variables_of (plain_flat condition.now)
        ++ (variables_of (plain_flat then_part.now) ++ variables_of (plain_flat else_part.now)))) }
{
    let mut list = Vec::from_slice(alloc, vars)?;
    push_variables(&mut list, condition)?;
    push_variables(&mut list, then_part)?;
    push_variables(&mut list, else_part)?;
    Ok(list)
}

/// Variables, and behind them those of a goal.
pub fn with_variables(alloc: Global, vars: &[u32], goal: &Flat) -> Result<Vec<u32>, Memory>
    ensures { IfOk result (λ list. list.items ≡ vars.now ++ variables_of (plain_flat goal.now)) }
{
    let mut list = Vec::from_slice(alloc, vars)?;
    push_variables(&mut list, goal)?;
    Ok(list)
}

/// Puts a goal's arguments at the end, of which mostly there are none.
fn push_row(list: &mut Vec<u32>, xs: &Row<u32>) -> Result<(), Memory>
    ensures { OnOk result (list.new.items ≡ list.old.items ++ xs.now) }
{
    if xs.is_empty() {
        return Ok(());
    }
    list.extend_from_slice(xs.as_slice())?;
    Ok(())
}

/// Puts all variables of a goal at the end.
#[cycle(variables)]
pub fn push_variables(list: &mut Vec<u32>, goal: &Flat) -> Result<(), Memory>
    ensures { OnOk result (list.new.items ≡ list.old.items ++ variables_of (plain_flat goal.now)) }
{
    match goal {
        Flat::True => Ok(()),
        Flat::Conj(goals) => push_all_variables(list, goals.as_slice()),
        Flat::Disj(goals) => push_all_variables(list, goals.as_slice()),
        Flat::Ite(vars, condition, then_part, else_part) => {
            list.extend_from_slice(vars.as_slice())?;
            push_variables(list, condition)?;
            push_variables(list, then_part)?;
            push_variables(list, else_part)
        }
        Flat::Not(goal) => push_variables(list, goal),
        Flat::Some(vars, goal) => {
            list.extend_from_slice(vars.as_slice())?;
            push_variables(list, goal)
        }
        Flat::Same(x, y) => {
            list.push(*x)?;
            list.push(*y)?;
            Ok(())
        }
        Flat::Made(x, _, ys) => {
            list.push(*x)?;
            push_row(list, ys)
        }
        Flat::Const(x, _) => {
            list.push(*x)?;
            Ok(())
        }
        Flat::Call(_, xs) => push_row(list, xs),
    }
}

/// Puts those of several goals there.
#[cycle(variables)]
pub fn push_all_variables(list: &mut Vec<u32>, goals: &[Flat]) -> Result<(), Memory>
    ensures { OnOk result (list.new.items
        ≡ list.old.items ++ variables_of_all (flats (map plain_flat goals.now))) }
{
    for goal in goals {
        push_variables(list, goal)?;
    }
    Ok(())
}

/// The variables of a goal that no part of it quantifies.
pub fn free_in(alloc: Global, goal: &Flat) -> Result<Vec<u32>, Memory>
    ensures { IfOk result (λ list. list.items ≡ free_in (plain_flat goal.now)) }
{
    let mut list = Vec::new(alloc);
    push_free(alloc, &mut list, goal)?;
    Ok(list)
}

/// Those of them that aren't among others.
pub fn free_without(alloc: Global, goal: &Flat, vars: &[u32]) -> Result<Vec<u32>, Memory>
    ensures { IfOk result (λ list. list.items ≡ without (free_in (plain_flat goal.now)) vars.now) }
{
    let free = free_in(alloc, goal)?;
    let mut list = Vec::new(alloc);
    push_others(&mut list, &free, vars)?;
    Ok(list)
}

/// Puts those at the end that aren't among others.
fn push_others(list: &mut Vec<u32>, vars: &[u32], others: &[u32]) -> Result<(), Memory>
    ensures { OnOk result (list.new.items ≡ list.old.items ++ without vars.now others.now) }
{
    for x in vars {
        if !has(others, *x) {
            list.push(*x)?;
        }
    }
    Ok(())
}

#[cycle(free)]
fn push_free(alloc: Global, list: &mut Vec<u32>, goal: &Flat) -> Result<(), Memory>
    ensures { OnOk result (list.new.items ≡ list.old.items ++ free_in (plain_flat goal.now)) }
{
    match goal {
        Flat::True => Ok(()),
        Flat::Conj(goals) => push_all_free(alloc, list, goals.as_slice()),
        Flat::Disj(goals) => push_all_free(alloc, list, goals.as_slice()),
        Flat::Ite(vars, condition, then_part, else_part) => {
            let mut inner = Vec::new(alloc);
            push_free(alloc, &mut inner, condition)?;
            push_free(alloc, &mut inner, then_part)?;
            push_others(list, &inner, vars.as_slice())?;
            push_free(alloc, list, else_part)
        }
        Flat::Not(goal) => push_free(alloc, list, goal),
        Flat::Some(vars, goal) => {
            let mut inner = Vec::new(alloc);
            push_free(alloc, &mut inner, goal)?;
            push_others(list, &inner, vars.as_slice())
        }
        Flat::Same(x, y) => {
            list.push(*x)?;
            list.push(*y)?;
            Ok(())
        }
        Flat::Made(x, _, ys) => {
            list.push(*x)?;
            list.extend_from_slice(ys.as_slice())?;
            Ok(())
        }
        Flat::Const(x, _) => {
            list.push(*x)?;
            Ok(())
        }
        Flat::Call(_, xs) => {
            list.extend_from_slice(xs.as_slice())?;
            Ok(())
        }
    }
}

#[cycle(free)]
fn push_all_free(alloc: Global, list: &mut Vec<u32>, goals: &[Flat]) -> Result<(), Memory>
    ensures { OnOk result (list.new.items
        ≡ list.old.items ++ free_in_all (flats (map plain_flat goals.now))) }
{
    for goal in goals {
        push_free(alloc, list, goal)?;
    }
    Ok(())
}
