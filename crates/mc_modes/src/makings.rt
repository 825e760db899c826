//! Equations of variables with constructors and constants, beside goals that are seen to wait.
ghost use Rattle.std.specs.Prelude.{◌≡◌, ◌<◌, ◌++◌, ℕ, true, map, length, get_or, IfOk, OnOk, IsTrue};
ghost use Rattle.std.specs.List.{list_all, remove};
ghost use Rattle.mc_model.specs.Flat.{flats, variables_of, variables_of_all};
ghost use Rattle.mc_model.specs.PlainGoals.{plain_flat};
ghost use Rattle.mc_accepted.specs.Ordered.{times_in};
ghost use Rattle.mc_procs.specs.Named.{NumbersBelow};
ghost use Rattle.mc_mode_state.specs.States.{point_of};
ghost use Rattle.mc_modes.specs.code.Waiting.{nothing};
ghost use Rattle.mc_modes.specs.code.Sleeping.{changed_by, changed_by_each, making_is_mild, kept_beside, was_found, free_now};

use crate::inputs::{is_free, one_is_free};
use crate::variables::push_variables;
use mc_base::Memory;
use mc_mode_state::{State, has};
use mc_model::flat::Flat;
use std::alloc::Global;

/// How many of them may stand in a conjunction: each is looked at beside all of its goals.
const MOST: usize = 16;

/// How often a variable stands in a list.
fn times_in(xs: &[u32], x: u32) -> usize
    ensures { result ≡ times_in x xs.now }
{
    let mut times = 0;
    for y in xs {
        if x == *y {
            times += 1;
        }
    }
    times
}

/// Whether a goal is such an equation.
fn is_making(goal: &Flat) -> bool {
    matches!(goal, Flat::Made(_, _, _) | Flat::Const(_, _))
}

/// Whether one more of them is too many.
pub fn is_one_too_many(goal: &Flat, before: &mut usize) -> bool {
    if !is_making(goal) {
        return false;
    }
    if *before >= MOST {
        return true;
    }
    *before += 1;
    false
}

/// Puts the variables at the end that a mild goal changes.
fn push_changed(list: &mut Vec<u32>, goal: &Flat) -> Result<(), Memory>
    ensures { OnOk result (list.new.items ≡ list.old.items ++ changed_by (plain_flat goal.now)) }
{
    if let Flat::Made(x, _, _) = goal {
        list.push(*x)?;
        return Ok(());
    }
    push_variables(list, goal)
}

/// Puts those there that one of several changes.
fn push_all_changed(list: &mut Vec<u32>, goals: &[Flat]) -> Result<(), Memory>
    ensures { OnOk result (list.new.items ≡ list.old.items ++ changed_by_each (map plain_flat goals.now)) }
{
    for goal in goals {
        push_changed(list, goal)?;
    }
    Ok(())
}

/// Variables, and behind them those that goals change, but for the one in a place.
pub fn changed_beside(
    alloc: Global,
    others: &[u32],
    goals: &[Flat],
    place: usize,
) -> Result<Vec<u32>, Memory>
    requires { place < length goals.now }
    ensures { IfOk result (λ list. list.items
        ≡ others.now ++ changed_by_each (remove (map plain_flat goals.now) place)) }
{
    let mut list = Vec::from_slice(alloc, others)?;
    push_all_changed(&mut list, &goals[..place])?;
    push_all_changed(&mut list, &goals[place + 1..])?;
    Ok(list)
}

/// Whether a variable is free, and once among those that goals change.
fn is_bound_once(state: &State, changed: &[u32], x: u32) -> bool
    requires { x < length state.now.insts.items }
    ensures { IsTrue result → (free_now state.now x ≡ true) × (times_in x changed.now ≡ 1) }
{
    is_free(state, &[], x) && times_in(changed, x) == 1
}

/// Whether goals change none of these.
fn none_is_changed(state: &State, changed: &[u32], ys: &[u32]) -> bool
    requires { NumbersBelow (length state.now.insts.items) ys.now }
    ensures { IsTrue result → list_all (kept_beside state.now changed.now) ys.now ≡ true }
{
    for y in ys {
        if has(changed, *y) {
            return false;
        }
    }
    true
}

/// Whether the node of a constructor over these variables' insts was found.
fn is_found(alloc: Global, state: &State, symbol: u32, ys: &[u32]) -> Result<bool, Memory>
    requires { NumbersBelow (length state.now.insts.items) ys.now }
    ensures { IfOk result (λ b. IsTrue b → was_found state.now symbol
        (map (point_of state.now.insts.items) ys.now) ≡ true) }
{
    let insts = state.insts_at(alloc, ys)?;
    let node = state.nodes.overs.get(alloc, symbol, &insts)?;
    Ok(node.is_some())
}

/// Whether a goal is mild if it is such an equation, among goals that change these variables with it.
fn making_is_mild(
    alloc: Global,
    state: &State,
    changed: &[u32],
    goal: &Flat,
) -> Result<bool, Memory>
    requires { NumbersBelow (length state.now.insts.items) (variables_of (plain_flat goal.now)) }
    ensures { IfOk result (λ b. IsTrue b → making_is_mild state.now changed.now (plain_flat goal.now) ≡ true) }
{
    match goal {
        Flat::Made(x, symbol, ys) => {
            let ys = ys.as_slice();
            if !is_bound_once(state, changed, *x) || !none_is_changed(state, changed, ys) {
                return Ok(false);
            }
            if one_is_free(state, changed, ys) {
                return Ok(true);
            }
            is_found(alloc, state, *symbol, ys)
        }
        Flat::Const(x, _) => Ok(is_bound_once(state, changed, *x)),
        _ => Ok(true),
    }
}

/// Whether all such equations among goals are, but for the one in a place.
pub fn makings_are_mild(
    alloc: Global,
    state: &State,
    others: &[u32],
    goals: &[Flat],
    place: usize,
) -> Result<bool, Memory>
    requires variables { NumbersBelow (length state.now.insts.items)
        (variables_of_all (flats (map plain_flat goals.now))) }
    requires place { place < length goals.now }
    ensures { IfOk result (λ b. IsTrue b → (j : ℕ) → j < length goals.now → (j ≡ place → ⊥)
        → making_is_mild state.now (others.now ++ changed_by_each (remove (map plain_flat goals.now) place))
        (get_or (map plain_flat goals.now) j nothing) ≡ true) }
{
    let changed = changed_beside(alloc, others, goals, place)?;
    for j in 0..goals.len() {
        if j != place && !making_is_mild(alloc, state, &changed, &goals[j])? {
            return Ok(false);
        }
    }
    Ok(true)
}
