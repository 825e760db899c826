ghost use Rattle.std.specs.Prelude.{◌≡◌, ◌<◌, ◌||◌, ◌&&◌, not, false, nat_eq, map, IfOk};
ghost use Rattle.mc_program.specs.Values.{plain_value};
ghost use Rattle.mc_source.specs.Determinism.{is_zero};
ghost use Rattle.mc_model.specs.Scheduled.{nodes, node, Conj, Switch, Ite, Not, Exists, Build, Take, Const, TestConst, Call, Apply};
ghost use Rattle.mc_model.specs.PlainGoals.{plain_node, plain_sched, plain_arm, arms_of};
ghost use Rattle.mc_accepted.specs.Ordered.{builtin_most};
ghost use Rattle.mc_accepted.specs.MergedArms.{takes_constants};
ghost use Rattle.mc_insts.specs.Graphs.{count_of};
ghost use Rattle.mc_procs.specs.Procedures.{insts_of};
ghost use Rattle.mc_switch.specs.Kept.{never_answers, has_no_answer};
ghost use Rattle.mc_switch.specs.code.Choices.{allows_one};

use crate::formed::Formed;
use crate::symbols::allows;
use mc_base::{Copied, Memory, Row};
use mc_model::inst::InstId;
use mc_model::sched::{Arm, GoalNode, Sched};
use mc_procs::Procs;
use mc_program::builtin::Builtin;
use mc_program::copy::copy_value;
use mc_program::value::Value;
use mc_source::det::{Det, Most};
use std::alloc::Global;

/// A goal without what is kept of it, and whether the point after it is unreachable.
#[derive(Drop)]
pub(crate) struct FormedGoal {
    pub(crate) goal: Sched,
    pub(crate) never_ends: bool,
}

/// Goals, and whether the point after all of them is unreachable.
#[derive(Drop)]
pub(crate) struct FormedNodes {
    pub(crate) nodes: Row<GoalNode>,
    pub(crate) never_end: bool,
}

/// Arms, and whether the point after each of them is unreachable.
#[derive(Drop)]
pub(crate) struct FormedArms {
    pub(crate) arms: Row<Arm>,
    pub(crate) never_end: bool,
}

/// A goal with what is kept of it.
pub(crate) fn with_changes(
    part: FormedGoal,
    changes: Row<(u32, InstId)>,
    det: Det,
    pruned: bool,
) -> Formed
    ensures node { plain_node result.node ≡ node (plain_sched part.goal) changes det pruned }
    ensures changes { result.node.changes ≡ changes }
    ensures never { result.never_ends ≡ part.never_ends }
{
    let FormedGoal { goal, never_ends } = part;
    Formed {
        node: GoalNode {
            goal,
            changes,
            det,
            pruned,
        },
        never_ends,
    }
}

/// A goal after which the point is reachable.
pub(crate) fn reached(goal: Sched) -> FormedGoal
    ensures goal { result.goal ≡ goal }
    ensures never { result.never_ends ≡ false }
{
    FormedGoal {
        goal,
        never_ends: false,
    }
}

pub(crate) fn conj_part(parts: FormedNodes) -> FormedGoal
    ensures goal { plain_sched result.goal ≡ Conj (nodes (map plain_node parts.nodes)) }
    ensures never { result.never_ends ≡ parts.never_end }
{
    FormedGoal {
        goal: Sched::Conj(parts.nodes),
        never_ends: parts.never_end,
    }
}

pub(crate) fn switch_part(x: u32, parts: FormedArms) -> FormedGoal
    ensures goal { plain_sched result.goal ≡ Switch x (arms_of (map plain_arm parts.arms)) }
    ensures never { result.never_ends ≡ parts.never_end }
{
    FormedGoal {
        goal: Sched::Switch(x, parts.arms),
        never_ends: parts.never_end,
    }
}

/// A goal in a box.
fn boxed(alloc: Global, goal: GoalNode) -> Result<Box<GoalNode>, Memory>
    ensures { IfOk result (λ made. made.value ≡ goal) }
{
    let made = Box::new(alloc, goal)?;
    Ok(made)
}

/// A goal in a box, beside what is in hand; after want of memory all is dropped. What is in hand is of any type, so that
/// the drop of large goals needn't be proved for each box.
fn boxed_beside<T: Drop>(
    alloc: Global,
    goal: GoalNode,
    others: T,
) -> Result<(Box<GoalNode>, T), Memory>
    ensures goal { IfOk result (λ both. both.0.value ≡ goal) }
    ensures others { IfOk result (λ both. both.1 ≡ others) }
{
    match Box::new(alloc, goal) {
        Ok(made) => Ok((made, others)),
        Err(_) => Err(Memory),
    }
}

pub(crate) fn not_part(alloc: Global, part: Formed) -> Result<FormedGoal, Memory>
    ensures goal { IfOk result (λ whole. plain_sched whole.goal ≡ Not (plain_node part.node)) }
    ensures never { IfOk result (λ whole. whole.never_ends ≡ false) }
{
    Ok(reached(Sched::Not(Box::new(alloc, part.node)?)))
}

pub(crate) fn some_part(alloc: Global, vars: &Row<u32>, part: Formed) -> Result<FormedGoal, Memory>
    ensures goal { IfOk result
        (λ whole. plain_sched whole.goal ≡ Exists vars.now (plain_node part.node)) }
    ensures never { IfOk result (λ whole. whole.never_ends ≡ part.never_ends) }
{
    let Formed { node, never_ends } = part;
    let node = boxed(alloc, node)?;
    let vars = vars.copied(alloc)?;
    Ok(FormedGoal {
        goal: Sched::Some(vars, node),
        never_ends,
    })
}

pub(crate) fn ite_part(
    alloc: Global,
    vars: &Row<u32>,
    condition: Formed,
    then_part: Formed,
    else_part: Formed,
) -> Result<FormedGoal, Memory>
    ensures goal { IfOk result (λ whole. plain_sched whole.goal
        ≡ Ite vars.now (plain_node condition.node) (plain_node then_part.node) (plain_node else_part.node)) }
    ensures never { IfOk result (λ whole. whole.never_ends
        ≡ ((condition.never_ends || then_part.never_ends) && else_part.never_ends)) }
{
    let never_ends = both(
        either(condition.never_ends, then_part.never_ends),
        else_part.never_ends,
    );
    let others = (then_part.node, else_part.node);
    let (condition, (then_part, else_part)) = boxed_beside(alloc, condition.node, others)?;
    let (then_part, else_part) = boxed_beside(alloc, then_part, else_part)?;
    let else_part = boxed(alloc, else_part)?;
    let vars = vars.copied(alloc)?;
    Ok(FormedGoal {
        goal: Sched::Ite(vars, condition, then_part, else_part),
        never_ends,
    })
}

pub(crate) fn build_part(
    alloc: Global,
    x: u32,
    symbol: u32,
    args: &Row<u32>,
) -> Result<FormedGoal, Memory>
    ensures goal { IfOk result (λ part. plain_sched part.goal ≡ Build x symbol args.now) }
    ensures never { IfOk result (λ part. part.never_ends ≡ false) }
{
    Ok(reached(Sched::Build(x, symbol, args.copied(alloc)?)))
}

pub(crate) fn constant_part(alloc: Global, x: u32, value: &Value) -> Result<FormedGoal, Memory>
    ensures goal { IfOk result (λ part. plain_sched part.goal ≡ Const x (plain_value value.now)) }
    ensures never { IfOk result (λ part. part.never_ends ≡ false) }
{
    Ok(reached(Sched::Const(x, copy_value(alloc, value)?)))
}

/// A deconstruction of a variable that has this inst.
pub(crate) fn take_part(
    alloc: Global,
    procs: &Procs,
    i: InstId,
    x: u32,
    symbol: u32,
    args: &Row<u32>,
) -> Result<FormedGoal, Memory>
    requires { i < count_of procs.now.insts }
    ensures goal { IfOk result (λ part. plain_sched part.goal ≡ Take x symbol args.now) }
    ensures never { IfOk result (λ part. part.never_ends ≡ not (allows_one procs.now i symbol)) }
{
    let is_allowed = allows(alloc, procs, i, symbol)?;
    Ok(FormedGoal {
        goal: Sched::Take(x, symbol, args.copied(alloc)?),
        never_ends: !is_allowed,
    })
}

/// A test of a variable that has this inst for a constant.
pub(crate) fn test_part(
    alloc: Global,
    procs: &Procs,
    i: InstId,
    x: u32,
    value: &Value,
) -> Result<FormedGoal, Memory>
    ensures goal { IfOk result
        (λ part. plain_sched part.goal ≡ TestConst x (plain_value value.now)) }
    ensures never { IfOk result (λ part. part.never_ends ≡ not (takes_constants (insts_of procs.now i))) }
{
    let never_ends = !takes_constants(procs, i);
    Ok(FormedGoal {
        goal: Sched::TestConst(x, copy_value(alloc, value)?),
        never_ends,
    })
}

pub(crate) fn call_part(
    alloc: Global,
    procs: &Procs,
    k: u32,
    args: &Row<u32>,
    implied: &Row<u32>,
) -> Result<FormedGoal, Memory>
    ensures goal { IfOk result (λ part. plain_sched part.goal ≡ Call k args.now implied.now false) }
    ensures never { IfOk result (λ part. part.never_ends ≡ never_answers procs.now.added k) }
{
    let never_ends = never_answers(procs, k);
    let args = args.copied(alloc)?;
    let implied = implied.copied(alloc)?;
    Ok(FormedGoal {
        goal: Sched::Call(k, args, implied),
        never_ends,
    })
}

pub(crate) fn apply_part(
    alloc: Global,
    op: Builtin,
    inputs: &Row<u32>,
    outputs: &Row<u32>,
) -> Result<FormedGoal, Memory>
    ensures goal { IfOk result (λ part. plain_sched part.goal ≡ Apply op inputs.now outputs.now) }
    ensures never { IfOk result (λ part. part.never_ends ≡ is_zero (builtin_most op)) }
{
    let inputs = inputs.copied(alloc)?;
    let outputs = outputs.copied(alloc)?;
    Ok(FormedGoal {
        goal: Sched::Apply(op, inputs, outputs),
        never_ends: never_applies(op),
    })
}

/// Whether one of two holds.
pub(crate) fn either(a: bool, b: bool) -> bool
    ensures { result ≡ a || b }
{
    a || b
}

/// Whether both of two hold.
pub(crate) fn both(a: bool, b: bool) -> bool
    ensures { result ≡ a && b }
{
    a && b
}

/// Whether a procedure is declared to have no answer; a number past the end is no procedure.
fn never_answers(procs: &Procs, k: u32) -> bool
    ensures { result ≡ never_answers procs.now.added k }
{
    if k >= procs.count() {
        return false;
    }
    has_no_answer(procs.get(k).declared)
}

/// Whether a declared determinism has no answer.
fn has_no_answer(declared: Option<Det>) -> bool
    ensures { result ≡ has_no_answer declared }
{
    match declared {
        Some(d) => d.most == Most::Zero,
        None => false,
    }
}

/// Whether a builtin has no answer.
fn never_applies(op: Builtin) -> bool
    ensures { result ≡ is_zero (builtin_most op) }
{
    match op {
        Builtin::Error => true,
        _ => false,
    }
}

/// Whether an inst allows the constants of builtin types: it is `ground`, `unique` or `dead`.
fn takes_constants(procs: &Procs, i: InstId) -> bool
    ensures { result ≡ takes_constants (insts_of procs.now i) }
{
    procs.fit();
    is_whole(i)
}

/// Whether an inst is one of `ground`, `unique` and `dead`.
fn is_whole(i: InstId) -> bool
    ensures { result ≡ nat_eq i 1 || (nat_eq i 2 || nat_eq i 3) }
{
    i == 1 || i == 2 || i == 3
}
