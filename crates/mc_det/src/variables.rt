ghost use Rattle.std.specs.Prelude.{◌≡◌, ◌++◌, ◌∷◌, map, IfOk, OnOk};
ghost use Rattle.mc_model.specs.Scheduled.{nodes};
ghost use Rattle.mc_model.specs.PlainGoals.{plain_node, plain_sched, plain_arm, arms_of};
ghost use Rattle.mc_accepted.specs.Ordered.{variables_of_node, variables_of_scheduled, variables_of_nodes, variables_of_arms};

use crate::point::emptied;
use mc_base::Memory;
use mc_model::sched::{Arm, GoalNode, Sched};
use std::alloc::Global;

/// The variables of a goal, each as often as it stands there, in the room of a list that is done with.
pub(crate) fn variables_of(
    alloc: Global,
    done: &mut Vec<u32>,
    goal: &GoalNode,
) -> Result<Vec<u32>, Memory>
    ensures { IfOk result (λ vs. vs.items ≡ variables_of_node (plain_node goal.now)) }
{
    let mut variables = emptied(alloc, done);
    put_node(&mut variables, goal)?;
    Ok(variables)
}

/// The variables of goals, in the room of a list that is done with.
pub(crate) fn variables_of_all(
    alloc: Global,
    done: &mut Vec<u32>,
    goals: &[GoalNode],
) -> Result<Vec<u32>, Memory>
    ensures { IfOk result
        (λ vs. vs.items ≡ variables_of_nodes (nodes (map plain_node goals.now))) }
{
    let mut variables = emptied(alloc, done);
    put_nodes(&mut variables, goals)?;
    Ok(variables)
}

/// Puts variables behind others.
fn put(variables: &mut Vec<u32>, more: &[u32]) -> Result<(), Memory>
    ensures { OnOk result (variables.new.items ≡ variables.old.items ++ more.now) }
{
    for x in more {
        variables.push(*x)?;
    }
    Ok(())
}

/// Puts a variable and others behind others.
fn put_made(variables: &mut Vec<u32>, x: u32, more: &[u32]) -> Result<(), Memory>
    ensures { OnOk result (variables.new.items ≡ variables.old.items ++ x ∷ more.now) }
{
    variables.push(x)?;
    put(variables, more)
}

/// Puts a goal's variables behind others.
#[cycle(variables)]
fn put_node(variables: &mut Vec<u32>, goal: &GoalNode) -> Result<(), Memory>
    ensures { OnOk result
        (variables.new.items ≡ variables.old.items ++ variables_of_node (plain_node goal.now)) }
{
    put_sched(variables, &goal.goal)
}

#[cycle(variables)]
fn put_sched(variables: &mut Vec<u32>, goal: &Sched) -> Result<(), Memory>
    ensures { OnOk result (variables.new.items
        ≡ variables.old.items ++ variables_of_scheduled (plain_sched goal.now)) }
{
    match goal {
        Sched::Conj(goals) => put_nodes(variables, goals.as_slice()),
        Sched::Disj(goals) => put_nodes(variables, goals.as_slice()),
        Sched::Switch(x, arms) => {
            variables.push(*x)?;
            put_arms(variables, arms.as_slice())
        }
        Sched::Ite(vars, condition, then_part, else_part) => {
            put(variables, vars.as_slice())?;
            put_node(variables, condition)?;
            put_node(variables, then_part)?;
            put_node(variables, else_part)
        }
        Sched::Not(inner) => put_node(variables, inner),
        Sched::Some(vars, inner) => {
            put(variables, vars.as_slice())?;
            put_node(variables, inner)
        }
        Sched::Assign(x, y) => put(variables, &[*x, *y]),
        Sched::Test(x, y) => put(variables, &[*x, *y]),
        Sched::Build(x, _, ys) => put_made(variables, *x, ys.as_slice()),
        Sched::Take(x, _, ys) => put_made(variables, *x, ys.as_slice()),
        Sched::Const(x, _) => put(variables, &[*x]),
        Sched::TestConst(x, _) => put(variables, &[*x]),
        Sched::Call(_, xs, _) => put(variables, xs.as_slice()),
        Sched::Apply(_, xs, ys) => {
            put(variables, xs.as_slice())?;
            put(variables, ys.as_slice())
        }
    }
}

#[cycle(variables)]
fn put_nodes(variables: &mut Vec<u32>, goals: &[GoalNode]) -> Result<(), Memory>
    ensures { OnOk result (variables.new.items
        ≡ variables.old.items ++ variables_of_nodes (nodes (map plain_node goals.now))) }
{
    for goal in goals {
        put_node(variables, goal)?;
    }
    Ok(())
}

#[cycle(variables)]
fn put_arms(variables: &mut Vec<u32>, arms: &[Arm]) -> Result<(), Memory>
    ensures { OnOk result (variables.new.items
        ≡ variables.old.items ++ variables_of_arms (arms_of (map plain_arm arms.now))) }
{
    for arm in arms {
        put_node(variables, &arm.body)?;
    }
    Ok(())
}
