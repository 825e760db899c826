#![tactic(auto, using(mc_mode_state::proofs::Growths::refused_here, mc_mode_state::proofs::Growths::refused_by, mc_mode_state::proofs::Growths::refused_stepped, crate::proofs::Refusals::refused_moved, mc_mode_state::proofs::Growths::refused_after, crate::proofs::Refusals::refused_moved_after, crate::proofs::Refusals::refused_after_two))]

ghost use Rattle.std.specs.Prelude.{◌≡◌, ◌<◌, ◌^◌, ◌++◌, ℕ, List, [], length, map, Some, None, IfOk, if◌then◌else◌, OnErr};
ghost use Rattle.mc_program.specs.Programs.{Source};
ghost use Rattle.mc_model.specs.Flat.{Flat_goal, flats, variables_of, variables_of_all, And, Or, If, Not, Exists, free_in};
ghost use Rattle.mc_model.specs.Lists.{without};
ghost use Rattle.mc_model.specs.PlainGoals.{plain_flat};
ghost use Rattle.mc_accepted.specs.Arranged.{each_branch, trial, trials};
ghost use Rattle.mc_accepted.specs.NodeOracle.{of_nodes};
ghost use Rattle.mc_insts.specs.Graphs.{count_of};
ghost use Rattle.mc_procs.specs.Named.{NumbersBelow};
ghost use Rattle.mc_procs.specs.Procedures.{source_of};
ghost use Rattle.mc_mode_state.specs.States.{point_of, snapshot_of, TrailWithin, SameLengths, SameState};
ghost use Rattle.mc_mode_state.specs.Agreeing.{StateInvariant, StateExtends, LaterByTrail, OnlyGrown};
ghost use Rattle.mc_mode_state.specs.Answers.{FreshAlike};
ghost use Rattle.mc_modes.specs.Signatures.{SigsFit, declared_in};
ghost use Rattle.mc_modes.specs.Fitting.{GoalFits, GoalsFit};
ghost use Rattle.mc_modes.specs.Tries.{attempt_of, tells_outside, TryPost, AttemptPost};
ghost use Rattle.mc_modes.specs.code.Waiting.{goals_at, variables_of_each, tells_around, Counted, turns, Finds};
ghost use Rattle.mc_modes.specs.code.Parts.{trying_beside, then_try, DoesBranch, DoesTest, DoesTestAndThen};
ghost use Rattle.mc_modes.specs.code.Alike.{NodeAlike, FoundAlike, BegunAlike};

use crate::atoms::call;
use crate::ending::{
    Begun, Condition, as_one, chosen, condition_of, ended, first_bound, merged, negated, nothing,
    quantified_over,
};
use crate::outside::{enter_goals, leave_goals};
use crate::places::Places;
use crate::sleeping::sleeps;
use crate::variables::{
    free_in, free_without, variables_of, variables_of_all, variables_of_parts, with_variables,
};
use crate::waiting::{Found, conjunction_of, goal_at, note, settled, stuck, taken};
use mc_base::{Memory, Row};
use mc_mode_state::{Failed, ModeFault, Part, State};
use mc_model::flat::Flat;
use mc_model::inst::{InstId, Sig};
use mc_model::sched::{GoalNode, Sched};
use mc_procs::Procs;
use std::alloc::Global;

/// Tries a goal: what it is in its order, or the rule that it breaks. After a fault the state is as before.
#[cycle(order)]
pub fn try_goal(
    alloc: Global,
    procs: &mut Procs,
    sigs: &[Sig],
    state: &mut State,
    goal: &Flat,
) -> Result<Part, Failed>
    requires stands { StateInvariant procs.old state.old }
    requires sigs { SigsFit (count_of procs.old.insts) sigs.now }
    requires fits { GoalFits procs.old state.old (plain_flat goal.now) }
    ensures does { TryPost (tells_outside (variables_of (plain_flat goal.now)) state.old)
        (attempt_of sigs.now (plain_flat goal.now) procs.old state.old) procs.old procs.new state.old
        state.new result }
    ensures alike { IfOk result (FreshAlike (plain_flat goal.now) state.new) }
    ensures kept { OnErr result (OnlyGrown procs.old procs.new) }
{
    let mark = state.mark();
    let tried = attempt(alloc, procs, sigs, state, goal);
    settled(state, mark, tried)
}

/// Tries a goal. After a fault the state may be any later one.
#[cycle(order)]
fn attempt(
    alloc: Global,
    procs: &mut Procs,
    sigs: &[Sig],
    state: &mut State,
    goal: &Flat,
) -> Result<Part, Failed>
    requires stands { StateInvariant procs.old state.old }
    requires sigs { SigsFit (count_of procs.old.insts) sigs.now }
    requires fits { GoalFits procs.old state.old (plain_flat goal.now) }
    ensures does { AttemptPost (tells_outside (variables_of (plain_flat goal.now)) state.old)
        (attempt_of sigs.now (plain_flat goal.now) procs.old state.old) procs.old procs.new state.old
        state.new result }
    ensures alike { IfOk result (FreshAlike (plain_flat goal.now) state.new) }
    ensures kept { OnErr result (OnlyGrown procs.old procs.new) }
{
    match goal {
        Flat::True => {
            let mark = state.mark();
            let part = state.one(alloc, Sched::Conj(Row::new(alloc)), mark.trail, true)?;
            Ok(part)
        }
        Flat::Conj(goals) => conjunction(alloc, procs, sigs, state, goals.as_slice()),
        Flat::Disj(goals) => disjunction(alloc, procs, sigs, state, goals.as_slice()),
        Flat::Ite(vars, condition, then_part, else_part) => if_then_else(
            alloc, procs, sigs, state, vars, condition, then_part, else_part,
        ),
        Flat::Not(goal) => negation(alloc, procs, sigs, state, goal),
        Flat::Some(vars, goal) => quantified(alloc, procs, sigs, state, vars, goal),
        Flat::Same(x, y) => state.same(alloc, procs, *x, *y),
        Flat::Made(x, symbol, ys) => state.made(alloc, procs, *x, *symbol, ys.as_slice()),
        Flat::Const(x, value) => state.constant(alloc, procs, *x, value),
        Flat::Call(pred, xs) => call(alloc, procs, sigs, state, *pred, xs.as_slice()),
    }
}

/// A conjunction: its goals, each among the others.
#[cycle(order)]
fn conjunction(
    alloc: Global,
    procs: &mut Procs,
    sigs: &[Sig],
    state: &mut State,
    goals: &[Flat],
) -> Result<Part, Failed>
    requires stands { StateInvariant procs.old state.old }
    requires sigs { SigsFit (count_of procs.old.insts) sigs.now }
    requires fits { GoalsFit procs.old state.old (flats (map plain_flat goals.now)) }
    requires few { length goals.now < 2 ^ 32 }
    ensures does { AttemptPost (tells_outside (variables_of_all (flats (map plain_flat goals.now))) state.old)
        (attempt_of sigs.now (And (flats (map plain_flat goals.now))) procs.old state.old) procs.old
        procs.new state.old state.new result }
    ensures alike { IfOk result (FreshAlike (And (flats (map plain_flat goals.now))) state.new) }
    ensures kept { OnErr result (OnlyGrown procs.old procs.new) }
{
    let mark = state.mark();
    enter_goals(alloc, state, goals)?;
    match in_turn(alloc, procs, sigs, state, goals) {
        Ok(part) => {
            leave_goals(alloc, state, goals)?;
            let part = conjunction_of(alloc, state, part, mark.trail)?;
            Ok(part)
        }
        Err(Failed::Fault(fault)) => {
            leave_goals(alloc, state, goals)?;
            Err(Failed::Fault(fault))
        }
        Err(Failed::Memory) => Err(Failed::Memory),
    }
}

/// The goals of a conjunction, which count among what occurs outside: the first that runs, then the first of the others
/// that runs now, and so on, up to an unreachable point.
#[cycle(order)]
fn in_turn(
    alloc: Global,
    procs: &mut Procs,
    sigs: &[Sig],
    state: &mut State,
    goals: &[Flat],
) -> Result<Part, Failed>
    requires stands { StateInvariant procs.old state.old }
    requires sigs { SigsFit (count_of procs.old.insts) sigs.now }
    requires fits { GoalsFit procs.old state.old (flats (map plain_flat goals.now)) }
    requires counted { Counted (variables_of_all (flats (map plain_flat goals.now))) state.old }
    requires few { length goals.now < 2 ^ 32 }
    ensures does { AttemptPost (tells_around (variables_of_all (flats (map plain_flat goals.now))) state.old)
        (turns sigs.now (map plain_flat goals.now) procs.old state.old) procs.old procs.new
        state.old state.new result }
    ensures alike { IfOk result (FreshAlike (And (flats (map plain_flat goals.now))) state.new) }
    ensures kept { OnErr result (OnlyGrown procs.old procs.new) }
{
    let mut waiting = Places::of(alloc, goals.len());
    let mut done = Vec::with_capacity(alloc, goals.len())?;
    let mut fresh = Vec::new(alloc);
    let mut reachable = true;
    'turns: while reachable && !waiting.is_empty() {
        match first_ready(alloc, procs, sigs, state, goals, &waiting)? {
            Found::Ready(place, part) => {
                waiting.take(place)?;
                reachable = taken(state, &mut done, &mut fresh, part)?;
            }
            Found::NoneReady(found) => {
                let fault = stuck(alloc, state, goals, &waiting, found)?;
                state.leave(&fresh);
                return Err(Failed::Fault(fault));
            }
        }
    }
    state.leave(&fresh);
    Ok(Part {
        goals: done,
        reachable,
        freshened: Vec::new(alloc),
    })
}

/// The first waiting goal that runs; those that are seen to wait aren't tried. Where none runs, the state is as before.
#[cycle(order)]
fn first_ready(
    alloc: Global,
    procs: &mut Procs,
    sigs: &[Sig],
    state: &mut State,
    goals: &[Flat],
    waiting: &Places,
) -> Result<Found, Memory>
    requires stands { StateInvariant procs.old state.old }
    requires sigs { SigsFit (count_of procs.old.insts) sigs.now }
    requires fits { GoalsFit procs.old state.old (flats (map plain_flat goals.now)) }
    requires waiting { NumbersBelow (length goals.now) waiting.now }
    requires counted { Counted (variables_of_each (goals_at goals.now waiting.now)) state.old }
    ensures does { IfOk result (Finds sigs.now (goals_at goals.now waiting.now) procs.old
        procs.new state.old state.new) }
    ensures alike { IfOk result (FoundAlike (goals_at goals.now waiting.now) state.new) }
    ensures kept { OnErr result (OnlyGrown procs.old procs.new) }
{
    let mut found = None;
    for place in 0..waiting.len() {
        let goal = goal_at(goals, waiting, place);
        if !sleeps(alloc, procs, sigs, state, &[], goal)? {
            match try_among(alloc, procs, sigs, state, goal) {
                Ok(part) => return Ok(Found::Ready(place, part)),
                Err(Failed::Fault(fault)) => note(&mut found, fault),
                Err(Failed::Memory) => return Err(Memory),
            }
        }
    }
    Ok(Found::NoneReady(found))
}

/// A goal that counts among what occurs outside until it is tried. To an atom that is all the same.
#[cycle(order)]
fn try_among(
    alloc: Global,
    procs: &mut Procs,
    sigs: &[Sig],
    state: &mut State,
    goal: &Flat,
) -> Result<Part, Failed>
    requires stands { StateInvariant procs.old state.old }
    requires sigs { SigsFit (count_of procs.old.insts) sigs.now }
    requires fits { GoalFits procs.old state.old (plain_flat goal.now) }
    requires counted { Counted (variables_of (plain_flat goal.now)) state.old }
    ensures does { TryPost (tells_around (variables_of (plain_flat goal.now)) state.old)
        (attempt_of sigs.now (plain_flat goal.now) procs.old state.old) procs.old procs.new state.old
        state.new result }
    ensures alike { IfOk result (FreshAlike (plain_flat goal.now) state.new) }
    ensures kept { OnErr result (OnlyGrown procs.old procs.new) }
{
    match goal {
        Flat::Same(x, y) => state.same(alloc, procs, *x, *y),
        Flat::Made(x, symbol, ys) => state.made(alloc, procs, *x, *symbol, ys.as_slice()),
        Flat::Const(x, value) => state.constant(alloc, procs, *x, value),
        Flat::Call(pred, xs) => call(alloc, procs, sigs, state, *pred, xs.as_slice()),
        _ => compound_among(alloc, procs, sigs, state, goal),
    }
}

/// A compound goal that does.
#[cycle(order)]
fn compound_among(
    alloc: Global,
    procs: &mut Procs,
    sigs: &[Sig],
    state: &mut State,
    goal: &Flat,
) -> Result<Part, Failed>
    requires stands { StateInvariant procs.old state.old }
    requires sigs { SigsFit (count_of procs.old.insts) sigs.now }
    requires fits { GoalFits procs.old state.old (plain_flat goal.now) }
    requires counted { Counted (variables_of (plain_flat goal.now)) state.old }
    ensures does { TryPost (tells_around (variables_of (plain_flat goal.now)) state.old)
        (attempt_of sigs.now (plain_flat goal.now) procs.old state.old) procs.old procs.new state.old
        state.new result }
    ensures alike { IfOk result (FreshAlike (plain_flat goal.now) state.new) }
    ensures kept { OnErr result (OnlyGrown procs.old procs.new) }
{
    let vars = variables_of(alloc, goal)?;
    state.leave(&vars);
    match try_goal(alloc, procs, sigs, state, goal) {
        Ok(part) => {
            state.enter(&vars)?;
            Ok(part)
        }
        Err(Failed::Fault(fault)) => {
            state.enter(&vars)?;
            Err(Failed::Fault(fault))
        }
        Err(Failed::Memory) => Err(Failed::Memory),
    }
}

/// A goal beside other variables, which occur outside it.
#[cycle(order)]
fn beside(
    alloc: Global,
    procs: &mut Procs,
    sigs: &[Sig],
    state: &mut State,
    vars: &[u32],
    goal: &Flat,
) -> Result<Part, Failed>
    requires stands { StateInvariant procs.old state.old }
    requires sigs { SigsFit (count_of procs.old.insts) sigs.now }
    requires fits { GoalFits procs.old state.old (plain_flat goal.now) }
    requires variables { NumbersBelow (length state.old.insts.items) vars.now }
    ensures does { TryPost (tells_outside (variables_of (plain_flat goal.now)) state.old)
        (trying_beside vars.now sigs.now (plain_flat goal.now) procs.old state.old) procs.old
        procs.new state.old state.new result }
    ensures alike { IfOk result (FreshAlike (plain_flat goal.now) state.new) }
    ensures kept { OnErr result (OnlyGrown procs.old procs.new) }
{
    state.enter(vars)?;
    match try_goal(alloc, procs, sigs, state, goal) {
        Ok(part) => {
            state.leave(vars);
            Ok(part)
        }
        Err(Failed::Fault(fault)) => {
            state.leave(vars);
            Err(Failed::Fault(fault))
        }
        Err(Failed::Memory) => Err(Failed::Memory),
    }
}

/// A goal with variables quantified around it.
#[cycle(order)]
fn quantified(
    alloc: Global,
    procs: &mut Procs,
    sigs: &[Sig],
    state: &mut State,
    vars: &Row<u32>,
    goal: &Flat,
) -> Result<Part, Failed>
    requires stands { StateInvariant procs.old state.old }
    requires sigs { SigsFit (count_of procs.old.insts) sigs.now }
    requires fits { GoalFits procs.old state.old (Exists vars.now (plain_flat goal.now)) }
    ensures does { AttemptPost (tells_outside (variables_of (plain_flat goal.now)) state.old)
        (attempt_of sigs.now (Exists vars.now (plain_flat goal.now)) procs.old state.old) procs.old
        procs.new state.old state.new result }
    ensures alike { IfOk result (FreshAlike (Exists vars.now (plain_flat goal.now)) state.new) }
    ensures kept { OnErr result (OnlyGrown procs.old procs.new) }
{
    let mark = state.mark();
    match try_goal(alloc, procs, sigs, state, goal) {
        Ok(part) => {
            let reachable = part.reachable;
            let goal = as_one(alloc, state, part, mark.trail)?;
            let part = quantified_over(alloc, state, vars, goal, mark.trail, reachable)?;
            Ok(part)
        }
        Err(failed) => Err(failed),
    }
}

/// A negation: the goal binds none of its free variables, and the insts before it come back.
#[cycle(order)]
fn negation(
    alloc: Global,
    procs: &mut Procs,
    sigs: &[Sig],
    state: &mut State,
    goal: &Flat,
) -> Result<Part, Failed>
    requires stands { StateInvariant procs.old state.old }
    requires sigs { SigsFit (count_of procs.old.insts) sigs.now }
    requires fits { GoalFits procs.old state.old (plain_flat goal.now) }
    ensures does { AttemptPost (tells_outside (variables_of (plain_flat goal.now)) state.old)
        (attempt_of sigs.now (Not (plain_flat goal.now)) procs.old state.old) procs.old procs.new
        state.old state.new result }
    ensures alike { IfOk result (FreshAlike (Not (plain_flat goal.now)) state.new) }
    ensures kept { OnErr result (OnlyGrown procs.old procs.new) }
{
    let vars = free_in(alloc, goal)?;
    let free = state.free(alloc, &vars)?;
    let mark = state.mark();
    match beside(alloc, procs, sigs, state, &vars, goal) {
        Ok(part) => match first_bound(state, &free, part.reachable) {
            Some(x) => Err(Failed::Fault(ModeFault::NegatedBinds(x))),
            None => {
                let goal = as_one(alloc, state, part, mark.trail)?;
                state.back(mark.trail);
                let part = negated(alloc, state, goal, mark.trail)?;
                Ok(part)
            }
        },
        Err(failed) => Err(failed),
    }
}

/// A branch, beside other variables. The insts before it come back.
#[cycle(order)]
fn branch(
    alloc: Global,
    procs: &mut Procs,
    sigs: &[Sig],
    state: &mut State,
    seen: &Row<u32>,
    vars: &[u32],
    goal: &Flat,
    ends: &mut Vec<Row<InstId>>,
) -> Result<GoalNode, Failed>
    requires stands { StateInvariant procs.old state.old }
    requires sigs { SigsFit (count_of procs.old.insts) sigs.now }
    requires fits { GoalFits procs.old state.old (plain_flat goal.now) }
    requires variables { NumbersBelow (length state.old.insts.items) vars.now }
    requires seen { NumbersBelow (length state.old.insts.items) seen.now }
    ensures does { DoesBranch (tells_outside (variables_of (plain_flat goal.now)) state.old)
        (trying_beside vars.now sigs.now (plain_flat goal.now) procs.old state.old) seen.now
        procs.old procs.new state.old state.new ends.old.items ends.new.items result }
    ensures alike { IfOk result (NodeAlike (variables_of (plain_flat goal.now)) state.new) }
    ensures kept { OnErr result (OnlyGrown procs.old procs.new) }
{
    let mark = state.mark();
    match beside(alloc, procs, sigs, state, vars, goal) {
        Ok(part) => {
            let goal = ended(alloc, state, seen, part, mark.trail, ends)?;
            state.back(mark.trail);
            Ok(goal)
        }
        Err(failed) => Err(failed),
    }
}

/// A disjunction: its goals as branches from the same insts, whose ends are merged.
#[cycle(order)]
fn disjunction(
    alloc: Global,
    procs: &mut Procs,
    sigs: &[Sig],
    state: &mut State,
    goals: &[Flat],
) -> Result<Part, Failed>
    requires stands { StateInvariant procs.old state.old }
    requires sigs { SigsFit (count_of procs.old.insts) sigs.now }
    requires fits { GoalsFit procs.old state.old (flats (map plain_flat goals.now)) }
    ensures does { AttemptPost (tells_outside (variables_of_all (flats (map plain_flat goals.now))) state.old)
        (attempt_of sigs.now (Or (flats (map plain_flat goals.now))) procs.old state.old) procs.old
        procs.new state.old state.new result }
    ensures alike { IfOk result (FreshAlike (Or (flats (map plain_flat goals.now))) state.new) }
    ensures kept { OnErr result (OnlyGrown procs.old procs.new) }
{
    let own = variables_of_all(alloc, goals)?;
    let seen = state.seen(alloc, &own)?;
    let mut branches = Vec::with_capacity(alloc, goals.len())?;
    let mut ends = Vec::with_capacity(alloc, goals.len())?;
    for goal in goals {
        match branch(alloc, procs, sigs, state, &seen, &[], goal, &mut ends) {
            Ok(node) => branches.push(node)?,
            Err(failed) => return Err(failed),
        }
    }
    let goal = Sched::Disj(Row::of(branches)?);
    merged(alloc, procs, state, &own, &seen, &ends, goal)
}

/// A condition, beside the then part. It binds none of its free variables that it doesn't quantify.
#[cycle(order)]
fn test(
    alloc: Global,
    procs: &mut Procs,
    sigs: &[Sig],
    state: &mut State,
    vars: &Row<u32>,
    condition: &Flat,
    then_part: &Flat,
) -> Result<Condition, Failed>
    requires stands { StateInvariant procs.old state.old }
    requires sigs { SigsFit (count_of procs.old.insts) sigs.now }
    requires condition { GoalFits procs.old state.old (plain_flat condition.now) }
    requires then_part { GoalFits procs.old state.old (plain_flat then_part.now) }
    ensures does { let xs = without (free_in (plain_flat condition.now)) vars.now in
        DoesTest (tells_outside (variables_of (plain_flat condition.now)) state.old)
        (trying_beside (xs ++ variables_of (plain_flat then_part.now)) sigs.now
        (plain_flat condition.now) procs.old state.old) xs procs.old procs.new state.old state.new
        result }
    ensures alike { IfOk result (λ c. NodeAlike (variables_of (plain_flat condition.now)) state.new c.goal) }
    ensures kept { OnErr result (OnlyGrown procs.old procs.new) }
{
    let outer = free_without(alloc, condition, vars.as_slice())?;
    let free = state.free(alloc, &outer)?;
    let others = with_variables(alloc, &outer, then_part)?;
    let mark = state.mark();
    match beside(alloc, procs, sigs, state, &others, condition) {
        Ok(part) => {
            let bound = first_bound(state, &free, part.reachable);
            let condition = condition_of(alloc, state, part, mark.trail, bound)?;
            Ok(condition)
        }
        Err(failed) => Err(failed),
    }
}

/// A then part, from the insts after the condition. Behind an unreachable point it stands as the empty conjunction.
#[cycle(order)]
fn then_branch(
    alloc: Global,
    procs: &mut Procs,
    sigs: &[Sig],
    state: &mut State,
    seen: &Row<u32>,
    reachable: bool,
    condition: &Flat,
    then_part: &Flat,
    ends: &mut Vec<Row<InstId>>,
) -> Result<GoalNode, Failed>
    requires stands { StateInvariant procs.old state.old }
    requires sigs { SigsFit (count_of procs.old.insts) sigs.now }
    requires condition { GoalFits procs.old state.old (plain_flat condition.now) }
    requires then_part { GoalFits procs.old state.old (plain_flat then_part.now) }
    requires seen { NumbersBelow (length state.old.insts.items) seen.now }
    ensures does { DoesBranch (tells_outside (variables_of (plain_flat then_part.now)) state.old)
        (then_try reachable (variables_of (plain_flat condition.now)) sigs.now
        (plain_flat then_part.now) procs.old state.old) seen.now procs.old procs.new state.old
        state.new ends.old.items ends.new.items result }
    ensures alike { IfOk result (NodeAlike (variables_of (plain_flat then_part.now)) state.new) }
    ensures kept { OnErr result (OnlyGrown procs.old procs.new) }
{
    if !reachable {
        return Ok(nothing(alloc));
    }
    let vars = variables_of(alloc, condition)?;
    branch(alloc, procs, sigs, state, seen, &vars, then_part, ends)
}

/// A condition and a then part, after which the insts before them come back.
#[cycle(order)]
fn test_and_then(
    alloc: Global,
    procs: &mut Procs,
    sigs: &[Sig],
    state: &mut State,
    seen: &Row<u32>,
    vars: &Row<u32>,
    condition: &Flat,
    then_part: &Flat,
    ends: &mut Vec<Row<InstId>>,
) -> Result<Begun, Failed>
    requires stands { StateInvariant procs.old state.old }
    requires sigs { SigsFit (count_of procs.old.insts) sigs.now }
    requires condition { GoalFits procs.old state.old (plain_flat condition.now) }
    requires then_part { GoalFits procs.old state.old (plain_flat then_part.now) }
    requires seen { NumbersBelow (length state.old.insts.items) seen.now }
    ensures does { DoesTestAndThen vars.now (plain_flat condition.now) (plain_flat then_part.now)
        sigs.now procs.old state.old seen.now procs.new state.new ends.old.items ends.new.items
        result }
    ensures alike { IfOk result (BegunAlike (variables_of (plain_flat condition.now) ++ variables_of (plain_flat then_part.now)) state.new) }
    ensures kept { OnErr result (OnlyGrown procs.old procs.new) }
{
    let mark = state.mark();
    let first = match test(alloc, procs, sigs, state, vars, condition, then_part) {
        Ok(first) => first,
        Err(failed) => return Err(failed),
    };
    let Condition {
        goal,
        reachable,
        bound,
    } = first;
    match then_branch(
        alloc, procs, sigs, state, seen, reachable, condition, then_part, ends,
    ) {
        Ok(then_goal) => {
            state.back(mark.trail);
            Ok(Begun {
                condition: goal,
                bound,
                then_part: then_goal,
            })
        }
        Err(failed) => Err(failed),
    }
}

/// An if-then-else: the then part from the insts after the condition, the else part from those before it.
#[cycle(order)]
fn if_then_else(
    alloc: Global,
    procs: &mut Procs,
    sigs: &[Sig],
    state: &mut State,
    vars: &Row<u32>,
    condition: &Flat,
    then_part: &Flat,
    else_part: &Flat,
) -> Result<Part, Failed>
    requires stands { StateInvariant procs.old state.old }
    requires sigs { SigsFit (count_of procs.old.insts) sigs.now }
    requires fits { GoalFits procs.old state.old (If vars.now (plain_flat condition.now)
        (plain_flat then_part.now) (plain_flat else_part.now)) }
    ensures does { let goal = If vars.now (plain_flat condition.now) (plain_flat then_part.now)
        (plain_flat else_part.now) in
        AttemptPost (tells_outside (variables_of goal) state.old)
        (attempt_of sigs.now goal procs.old state.old) procs.old procs.new state.old state.new result }
    ensures alike { IfOk result (FreshAlike (If vars.now (plain_flat condition.now) (plain_flat then_part.now) (plain_flat else_part.now)) state.new) }
    ensures kept { OnErr result (OnlyGrown procs.old procs.new) }
{
    let own = variables_of_parts(alloc, vars.as_slice(), condition, then_part, else_part)?;
    let seen = state.seen(alloc, &own)?;
    let mut ends = Vec::new(alloc);
    let begun = match test_and_then(
        alloc, procs, sigs, state, &seen, vars, condition, then_part, &mut ends,
    ) {
        Ok(begun) => begun,
        Err(failed) => return Err(failed),
    };
    match branch(alloc, procs, sigs, state, &seen, &[], else_part, &mut ends) {
        Ok(else_goal) => chosen(
            alloc, procs, state, &own, &seen, vars, begun, else_goal, &ends,
        ),
        Err(failed) => Err(failed),
    }
}
