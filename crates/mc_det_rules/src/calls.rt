ghost use Rattle.std.specs.Prelude.{◌≡◌, length, map, not, true, if◌then◌else◌, IfOk, OnOk};
ghost use Rattle.std.specs.List.{list_any};
ghost use Rattle.std.specs.Option.{option_or};
ghost use Rattle.mc_model.specs.Scheduled.{nodes};
ghost use Rattle.mc_model.specs.PlainGoals.{plain_node, plain_sched, plain_arm, plain_proc, arms_of};
ghost use Rattle.mc_accepted.specs.Accepted.{entered};
ghost use Rattle.mc_accepted.specs.Determined.{insts_after};
ghost use Rattle.mc_accepted.specs.Ordered.{variables_of_node};
ghost use Rattle.mc_procs.specs.Named.{Named, NamedIn, EachNamed, EachArmNamed};
ghost use Rattle.mc_procs.specs.Fitting.{ProcedureFits};
ghost use Rattle.mc_procs.specs.Procedures.{procedure_at};
ghost use Rattle.mc_det.specs.code.Points.{insts_in, undone};
ghost use Rattle.mc_det.specs.code.Walks.{bounds_in};
ghost use Rattle.mc_det_rules.specs.code.Io.{fails};
ghost use Rattle.mc_det_rules.specs.code.Calls.{binds, both, in_first_alone, before_others, of_condition, of_goal, of_call, misplaced, found_in, found_in_part, found_in_all, found_in_each, found_in_arms};

use crate::binding::binds_in;
use mc_base::Memory;
use mc_det::Point;
use mc_model::inst::InstId;
use mc_model::sched::{Arm, GoalNode, Proc, Sched};
use mc_procs::Procs;
use std::alloc::Global;

/// The procedure of a goal's first committed call that stands where all solutions are needed: where all answers of the goal
/// are asked for, and where its first one alone is.
#[derive(Clone, Copy)]
pub(crate) struct Misplaced {
    pub(crate) in_all: Option<u32>,
    pub(crate) in_first: Option<u32>,
}

const NONE_FOUND: Misplaced = Misplaced {
    in_all: None,
    in_first: None,
};

/// The first of two that is there.
fn first_found(a: Option<u32>, b: Option<u32>) -> Option<u32>
    ensures { result ≡ option_or a b }
{
    match a {
        Some(k) => Some(k),
        None => b,
    }
}

/// Both, one beside the other.
fn both(a: Misplaced, b: Misplaced) -> Misplaced
    ensures { result ≡ both a b }
{
    Misplaced {
        in_all: first_found(a.in_all, b.in_all),
        in_first: first_found(a.in_first, b.in_first),
    }
}

/// A goal that is always asked for its first answer alone.
fn in_first_alone(a: Misplaced) -> Misplaced
    ensures { result ≡ in_first_alone a }
{
    Misplaced {
        in_all: a.in_first,
        in_first: a.in_first,
    }
}

/// A goal after which others come: it is asked for all its answers where one of them can fail.
fn before_others(is_sure: bool, a: Misplaced) -> Misplaced
    ensures { result ≡ before_others is_sure a }
{
    Misplaced {
        in_all: a.in_all,
        in_first: if is_sure { a.in_first } else { a.in_all },
    }
}

/// A condition, whose then part sees what it binds or not.
fn of_condition(is_seen: bool, is_sure: bool, a: Misplaced) -> Misplaced
    ensures { result ≡ of_condition is_seen is_sure a }
{
    if is_seen {
        before_others(is_sure, a)
    } else {
        in_first_alone(a)
    }
}

/// A goal, which is pruned or not.
fn of_goal(is_pruned: bool, a: Misplaced) -> Misplaced
    ensures { result ≡ of_goal is_pruned a }
{
    if is_pruned { in_first_alone(a) } else { a }
}

/// Whether it matters if all answers are asked for.
fn depends(a: Misplaced) -> bool
    ensures { not result ≡ true → a.in_all ≡ a.in_first }
{
    a.in_all != a.in_first
}

/// A call of a procedure.
fn of_call(procs: &Procs, k: u32, has_implied: bool) -> Misplaced
    ensures { result ≡ of_call (procedure_at procs.now.added k).det.committed has_implied k }
{
    if k < procs.count() && procs.get(k).det.committed {
        return committed(k, has_implied);
    }
    NONE_FOUND
}

/// A call of a committed procedure.
fn committed(k: u32, has_implied: bool) -> Misplaced
    ensures { result ≡ of_call true has_implied k }
{
    Misplaced {
        in_all: Some(k),
        in_first: if has_implied { Some(k) } else { None },
    }
}

/// Enters the changes of a goal.
fn enter(
    procs: &Procs,
    point: &mut Point,
    goal: &GoalNode,
    found: &mut Vec<(u32, InstId)>,
) -> Result<(), Memory>
    requires named { Named (bounds_in procs.now (length point.old)) (plain_node goal.now) }
    ensures count { OnOk result (length point.new ≡ length point.old) }
    ensures insts { OnOk result
        (insts_in point.new ≡ insts_after (plain_node goal.now) (insts_in point.old)) }
    ensures found { OnOk result
        (undone found.new.items point.new ≡ undone found.old.items point.old) }
{
    let _ = procs.count();
    point.enter(goal.changes.as_slice(), found)
}

/// That a goal names what is there at a point. It only says so.
fn is_named(procs: &Procs, point: &Point, goal: &GoalNode)
    requires { Named (bounds_in procs.now (length point.now)) (plain_node goal.now) }
    ensures { Named (bounds_in procs.now (length point.now)) (plain_node goal.now) }
{
    let _ = (procs.count(), point.get(0), goal.pruned);
}

/// The committed calls of a goal at a point. Its marks tell. The point is as before at the end.
#[tactic(auto, using(mc_det::proofs::Naming::sched_named))]
#[cycle(calls)]
pub(crate) fn calls(
    alloc: Global,
    procs: &Procs,
    point: &mut Point,
    goal: &GoalNode,
) -> Result<Misplaced, Memory>
    requires { Named (bounds_in procs.now (length point.old)) (plain_node goal.now) }
    ensures point { OnOk result (point.new ≡ point.old) }
    ensures found { IfOk result (λ found. found
        ≡ found_in (procedure_at procs.now.added) (insts_in point.old) (plain_node goal.now)) }
{
    let inside = calls_in(alloc, procs, point, &goal.goal)?;
    Ok(of_goal(goal.pruned, inside))
}

#[tactic(auto, using(mc_det::proofs::Naming::conj_named, mc_det::proofs::Naming::disj_named, mc_det::proofs::Naming::arms_in_named, mc_det::proofs::Naming::condition_named, mc_det::proofs::Naming::then_named, mc_det::proofs::Naming::else_named, mc_det::proofs::Naming::not_named, mc_det::proofs::Naming::some_named))]
#[cycle(calls)]
fn calls_in(
    alloc: Global,
    procs: &Procs,
    point: &mut Point,
    goal: &Sched,
) -> Result<Misplaced, Memory>
    requires { NamedIn (bounds_in procs.now (length point.old)) (plain_sched goal.now) }
    ensures point { OnOk result (point.new ≡ point.old) }
    ensures found { IfOk result (λ found. found
        ≡ found_in_part (procedure_at procs.now.added) (insts_in point.old) (plain_sched goal.now)) }
{
    match goal {
        Sched::Conj(goals) => calls_of_all(alloc, procs, point, goals.as_slice()),
        Sched::Disj(goals) => calls_of_each(alloc, procs, point, goals.as_slice()),
        Sched::Switch(_, arms) => calls_of_arms(alloc, procs, point, arms.as_slice()),
        Sched::Ite(_, condition, then_part, else_part) => {
            let first = calls_of_condition(alloc, procs, point, condition, then_part)?;
            let second = calls_of_then(alloc, procs, point, then_part, condition)?;
            let third = calls(alloc, procs, point, else_part)?;
            Ok(both(first, both(second, third)))
        }
        Sched::Not(inner) => {
            let found = calls(alloc, procs, point, inner)?;
            Ok(in_first_alone(found))
        }
        Sched::Some(_, inner) => calls(alloc, procs, point, inner),
        Sched::Call(k, _, implied) => Ok(of_call(procs, *k, !implied.is_empty())),
        Sched::Assign(_, _) => Ok(NONE_FOUND),
        Sched::Test(_, _) => Ok(NONE_FOUND),
        Sched::Build(_, _, _) => Ok(NONE_FOUND),
        Sched::Take(_, _, _) => Ok(NONE_FOUND),
        Sched::Const(_, _) => Ok(NONE_FOUND),
        Sched::TestConst(_, _) => Ok(NONE_FOUND),
        Sched::Apply(_, _, _) => Ok(NONE_FOUND),
    }
}

/// A condition has its first answer alone asked for where the then part sees nothing that it binds. That is asked only where
/// it matters, so that then parts within then parts aren't looked through again and again.
#[cycle(calls)]
fn calls_of_condition(
    alloc: Global,
    procs: &Procs,
    point: &mut Point,
    condition: &GoalNode,
    then_part: &GoalNode,
) -> Result<Misplaced, Memory>
    requires { Named (bounds_in procs.now (length point.old)) (plain_node condition.now) }
    ensures point { OnOk result (point.new ≡ point.old) }
    ensures found { IfOk result (λ found. found
        ≡ of_condition
        (list_any (binds point.old condition.now.changes) (variables_of_node (plain_node then_part.now)))
        (not (fails (plain_node then_part.now)))
        (found_in (procedure_at procs.now.added) (insts_in point.old) (plain_node condition.now))) }
{
    let found = calls(alloc, procs, point, condition)?;
    if !depends(found) {
        return Ok(found);
    }
    let is_seen = binds_in(point, condition.changes.as_slice(), then_part);
    Ok(of_condition(is_seen, !then_part.det.can_fail, found))
}

/// A then part, which stands after the changes of its condition.
#[cycle(calls)]
fn calls_of_then(
    alloc: Global,
    procs: &Procs,
    point: &mut Point,
    then_part: &GoalNode,
    condition: &GoalNode,
) -> Result<Misplaced, Memory>
    requires named { Named (bounds_in procs.now (length point.old)) (plain_node then_part.now) }
    requires condition { Named (bounds_in procs.now (length point.old)) (plain_node condition.now) }
    ensures point { OnOk result (point.new ≡ point.old) }
    ensures found { IfOk result (λ found. found
        ≡ found_in (procedure_at procs.now.added)
        (insts_after (plain_node condition.now) (insts_in point.old)) (plain_node then_part.now)) }
{
    let mut before = Vec::new(alloc);
    enter(procs, point, condition, &mut before)?;
    is_named(procs, point, then_part);
    let found = calls(alloc, procs, point, then_part)?;
    point.undo(before);
    Ok(found)
}

/// The calls of a conjunction. A goal's changes are entered before the next one, and at the end all of them are undone.
#[cycle(calls)]
fn calls_of_all(
    alloc: Global,
    procs: &Procs,
    point: &mut Point,
    goals: &[GoalNode],
) -> Result<Misplaced, Memory>
    requires { EachNamed (bounds_in procs.now (length point.old)) (nodes (map plain_node goals.now)) }
    ensures point { OnOk result (point.new ≡ point.old) }
    ensures found { IfOk result (λ found. found
        ≡ found_in_all (procedure_at procs.now.added) (insts_in point.old)
        (nodes (map plain_node goals.now))) }
{
    let mut before = Vec::new(alloc);
    let mut found = NONE_FOUND;
    for goal in goals {
        is_named(procs, point, goal);
        let part = calls(alloc, procs, point, goal)?;
        found = both(before_others(!goal.det.can_fail, found), part);
        enter(procs, point, goal, &mut before)?;
    }
    point.undo(before);
    Ok(found)
}

#[cycle(calls)]
fn calls_of_each(
    alloc: Global,
    procs: &Procs,
    point: &mut Point,
    goals: &[GoalNode],
) -> Result<Misplaced, Memory>
    requires { EachNamed (bounds_in procs.now (length point.old)) (nodes (map plain_node goals.now)) }
    ensures point { OnOk result (point.new ≡ point.old) }
    ensures found { IfOk result (λ found. found
        ≡ found_in_each (procedure_at procs.now.added) (insts_in point.old)
        (nodes (map plain_node goals.now))) }
{
    let mut found = NONE_FOUND;
    for goal in goals {
        is_named(procs, point, goal);
        let part = calls(alloc, procs, point, goal)?;
        found = both(found, part);
    }
    Ok(found)
}

#[cycle(calls)]
fn calls_of_arms(
    alloc: Global,
    procs: &Procs,
    point: &mut Point,
    arms: &[Arm],
) -> Result<Misplaced, Memory>
    requires { EachArmNamed (bounds_in procs.now (length point.old)) (arms_of (map plain_arm arms.now)) }
    ensures point { OnOk result (point.new ≡ point.old) }
    ensures found { IfOk result (λ found. found
        ≡ found_in_arms (procedure_at procs.now.added) (insts_in point.old)
        (arms_of (map plain_arm arms.now))) }
{
    let mut found = NONE_FOUND;
    for arm in arms {
        is_named(procs, point, &arm.body);
        let part = calls(alloc, procs, point, &arm.body)?;
        found = both(found, part);
    }
    Ok(found)
}

/// The procedure of the first committed call of a body that stands where all solutions are needed, in the context that the
/// procedure's own determinism gives.
pub(crate) fn misplaced_call(alloc: Global, procs: &Procs, p: &Proc) -> Result<Option<u32>, Memory>
    requires { ProcedureFits procs.now (plain_proc p.now) }
    ensures { IfOk result (λ found. found
        ≡ misplaced (procedure_at procs.now.added) (entered p.now.head p.now.first) p.now.det.committed
        (plain_node p.now.body)) }
{
    let variables = p.var_types.len();
    let mut point = Point::entered(alloc, variables, p.head.as_slice(), p.first.as_slice())?;
    let found = calls(alloc, procs, &mut point, &p.body)?;
    Ok(in_context(p.det.committed, found))
}

/// What is found in a goal whose first answer alone is asked for, or all are.
fn in_context(is_first: bool, found: Misplaced) -> Option<u32>
    ensures { result ≡ (if is_first then found.in_first else found.in_all) }
{
    if is_first {
        found.in_first
    } else {
        found.in_all
    }
}
