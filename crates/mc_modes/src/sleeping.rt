//! Goals that are seen to wait without being tried: as long as some of their variables are free, whatever else is so.
ghost use Rattle.std.specs.Prelude.{◌≡◌, ◌<◌, ◌≤◌, ◌++◌, ℕ, true, length, map, IfOk, IsTrue, get_or};
ghost use Rattle.std.specs.List.{remove};
ghost use Rattle.mc_model.specs.Flat.{And, Exists, If, Or, flats};
ghost use Rattle.mc_model.specs.PlainGoals.{plain_flat};
ghost use Rattle.mc_procs.specs.Procedures.{source_of};
ghost use Rattle.mc_modes.specs.Fitting.{GoalFits, GoalsFit, AllKnown};
ghost use Rattle.mc_modes.specs.Signatures.{declared_in};
ghost use Rattle.mc_modes.specs.code.Waiting.{nothing};
ghost use Rattle.mc_modes.specs.code.Sleeping.{Asleep, may_be_mild, changed_by_each};

use crate::inputs::{call_sleeps, is_free, may_be_mild, one_is_free};
use crate::makings::{changed_beside, is_one_too_many, makings_are_mild};
use mc_base::{Memory, Row};
use mc_mode_state::State;
use mc_model::flat::Flat;
use mc_model::inst::Sig;
use mc_procs::Procs;
use std::alloc::Global;

/// Whether a goal is seen to wait as long as all variables but these others are as they are now. It may wait where this
/// isn't seen.
#[cycle(sleeping)]
pub fn sleeps(
    alloc: Global,
    procs: &Procs,
    sigs: &[Sig],
    state: &State,
    others: &[u32],
    goal: &Flat,
) -> Result<bool, Memory>
    requires { GoalFits procs.now state.now (plain_flat goal.now) }
    ensures { IfOk result (λ b. IsTrue b → Asleep (source_of procs.now) (declared_in sigs.now)
        state.now others.now (plain_flat goal.now)) }
{
    match goal {
        Flat::Not(goal) => sleeps(alloc, procs, sigs, state, others, goal),
        Flat::Some(vars, goal) => quantified_sleeps(alloc, procs, sigs, state, others, vars, goal),
        Flat::Ite(vars, condition, then_part, else_part) => condition_sleeps(
            alloc, procs, sigs, state, others, vars, condition, then_part, else_part,
        ),
        Flat::Disj(goals) => first_sleeps(alloc, procs, sigs, state, others, goals.as_slice()),
        Flat::Conj(goals) => one_sleeps(alloc, procs, sigs, state, others, goals.as_slice()),
        Flat::True => Ok(false),
        Flat::Const(_, _) => Ok(false),
        Flat::Same(x, y) => Ok(is_free(state, others, *x) && is_free(state, others, *y)),
        Flat::Made(x, _, ys) => {
            Ok(is_free(state, others, *x) && one_is_free(state, others, ys.as_slice()))
        }
        Flat::Call(pred, xs) => Ok(call_sleeps(procs, sigs, state, others, *pred, xs.as_slice())),
    }
}

/// Whether a goal does that has variables quantified around it.
#[cycle(sleeping)]
fn quantified_sleeps(
    alloc: Global,
    procs: &Procs,
    sigs: &[Sig],
    state: &State,
    others: &[u32],
    vars: &Row<u32>,
    goal: &Flat,
) -> Result<bool, Memory>
    requires { GoalFits procs.now state.now (Exists vars.now (plain_flat goal.now)) }
    ensures { IfOk result (λ b. IsTrue b → Asleep (source_of procs.now) (declared_in sigs.now)
        state.now others.now (Exists vars.now (plain_flat goal.now))) }
{
    sleeps(alloc, procs, sigs, state, others, goal)
}

/// Whether an if-then-else does, by its condition.
#[cycle(sleeping)]
fn condition_sleeps(
    alloc: Global,
    procs: &Procs,
    sigs: &[Sig],
    state: &State,
    others: &[u32],
    vars: &Row<u32>,
    condition: &Flat,
    then_part: &Flat,
    else_part: &Flat,
) -> Result<bool, Memory>
    requires { GoalFits procs.now state.now
        (If vars.now (plain_flat condition.now) (plain_flat then_part.now) (plain_flat else_part.now)) }
    ensures { IfOk result (λ b. IsTrue b → Asleep (source_of procs.now) (declared_in sigs.now)
        state.now others.now
        (If vars.now (plain_flat condition.now) (plain_flat then_part.now) (plain_flat else_part.now))) }
{
    sleeps(alloc, procs, sigs, state, others, condition)
}

/// Whether the first branch of a disjunction does.
#[cycle(sleeping)]
fn first_sleeps(
    alloc: Global,
    procs: &Procs,
    sigs: &[Sig],
    state: &State,
    others: &[u32],
    goals: &[Flat],
) -> Result<bool, Memory>
    requires { GoalsFit procs.now state.now (flats (map plain_flat goals.now)) }
    ensures { IfOk result (λ b. IsTrue b → Asleep (source_of procs.now) (declared_in sigs.now)
        state.now others.now (Or (flats (map plain_flat goals.now)))) }
{
    if goals.is_empty() {
        return Ok(false);
    }
    sleeps(alloc, procs, sigs, state, others, &goals[0])
}

/// Whether one of a conjunction's goals does whatever the others change, which are mild.
#[cycle(sleeping)]
fn one_sleeps(
    alloc: Global,
    procs: &Procs,
    sigs: &[Sig],
    state: &State,
    others: &[u32],
    goals: &[Flat],
) -> Result<bool, Memory>
    requires { GoalsFit procs.now state.now (flats (map plain_flat goals.now)) }
    ensures { IfOk result (λ b. IsTrue b → Asleep (source_of procs.now) (declared_in sigs.now)
        state.now others.now (And (flats (map plain_flat goals.now)))) }
{
    let wild = first_wild(procs, sigs, goals, 0);
    if wild < goals.len() {
        if first_wild(procs, sigs, goals, wild + 1) < goals.len() {
            return Ok(false);
        }
        if !sleeps_among(alloc, procs, sigs, state, others, goals, wild)? {
            return Ok(false);
        }
        return makings_are_mild(alloc, state, others, goals, wild);
    }
    for place in 0..goals.len() {
        let sleeps_alone = sleeps(alloc, procs, sigs, state, others, &goals[place])?;
        if sleeps_alone && sleeps_among(alloc, procs, sigs, state, others, goals, place)? {
            return makings_are_mild(alloc, state, others, goals, place);
        }
    }
    Ok(false)
}

/// Whether the goal in a place does whatever the goals in other places change.
#[cycle(sleeping)]
fn sleeps_among(
    alloc: Global,
    procs: &Procs,
    sigs: &[Sig],
    state: &State,
    others: &[u32],
    goals: &[Flat],
    place: usize,
) -> Result<bool, Memory>
    requires fits { GoalsFit procs.now state.now (flats (map plain_flat goals.now)) }
    requires place { place < length goals.now }
    ensures { IfOk result (λ b. IsTrue b → Asleep (source_of procs.now) (declared_in sigs.now)
        state.now (others.now ++ changed_by_each (remove (map plain_flat goals.now) place))
        (get_or (map plain_flat goals.now) place nothing)) }
{
    let changed = changed_beside(alloc, others, goals, place)?;
    sleeps(alloc, procs, sigs, state, &changed, &goals[place])
}

/// The first place, from one on, of a goal that can't be mild, or of one equation with a constructor or constant too
/// many; the number of goals where there is none.
fn first_wild(procs: &Procs, sigs: &[Sig], goals: &[Flat], from: usize) -> usize
    requires known { AllKnown procs.now.program (flats (map plain_flat goals.now)) }
    requires from { from ≤ length goals.now }
    ensures place { result ≤ length goals.now }
    ensures mild { (j : ℕ) → from ≤ j → j < result
        → may_be_mild (source_of procs.now) (declared_in sigs.now) (get_or (map plain_flat goals.now) j nothing) ≡ true }
{
    let mut makings = 0;
    for place in from..goals.len() {
        let goal = &goals[place];
        if is_one_too_many(goal, &mut makings) || !may_be_mild(procs, sigs, goal) {
            return place;
        }
    }
    goals.len()
}
