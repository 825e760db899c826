ghost use Rattle.std.specs.Prelude.{◌≡◌, ◌++◌, ◌∷◌, [], Bool, length, map, not, IfOk, OnOk, if◌then◌else◌};
ghost use Rattle.mc_model.specs.Outcomes.{inputs_of};
ghost use Rattle.mc_model.specs.PlainGoals.{plain_node, plain_sched};
ghost use Rattle.mc_model.specs.Scheduled.{Apply, nodes, node_then};
ghost use Rattle.mc_model.specs.Stream.{is_bound};
ghost use Rattle.mc_accepted.specs.Arranged.{test_nodes};
ghost use Rattle.mc_accepted.specs.Ordered.{at_inputs, at_outputs, modes_of, zipped};
ghost use Rattle.mc_mode_state.specs.code.Applying.{at_sides};

use crate::asking::is_bound;
use crate::part::unmarked;
use mc_base::{Memory, Row};
use mc_model::inst::{InstId, ModeDecl};
use mc_model::sched::{GoalNode, Sched};
use mc_program::builtin::Builtin;
use std::alloc::Global;

/// Whether an argument with this inst at a call is on that side.
fn is_on_side(first: InstId, inputs: bool) -> bool
    ensures { result ≡ (if inputs then is_bound first else not (is_bound first)) }
{
    if inputs {
        is_bound(first)
    } else {
        !is_bound(first)
    }
}

fn add(found: &mut Vec<u32>, x: u32, is_wanted: bool) -> Result<(), Memory>
    ensures { OnOk result (found.new.items
        ≡ (if is_wanted then found.old.items ++ x ∷ [] else found.old.items)) }
{
    if is_wanted {
        found.push(x)?;
        return Ok(());
    }
    Ok(())
}

/// The arguments at inputs, or those at outputs.
fn on_side(alloc: Global, mode: &ModeDecl, xs: &[u32], inputs: bool) -> Result<Row<u32>, Memory>
    requires { length mode.now.first ≡ length xs.now }
    ensures { IfOk result (λ row. row ≡ at_sides inputs (map is_bound mode.now.first) xs.now) }
{
    let mut found = Vec::new(alloc);
    for k in 0..mode.first.len() {
        let is_wanted = is_on_side(*mode.first.get(k), inputs);
        add(&mut found, xs[k as usize], is_wanted)?;
    }
    let row = Row::of(found)?;
    Ok(row)
}

/// The goal that applies a builtin, which has this mode, to arguments.
pub(crate) fn apply_goal(
    alloc: Global,
    op: Builtin,
    mode: &ModeDecl,
    xs: &[u32],
) -> Result<Sched, Memory>
    requires modes { zipped mode.now.first mode.now.last ≡ modes_of op }
    requires many { length mode.now.first ≡ length mode.now.last }
    requires arguments { length mode.now.first ≡ length xs.now }
    ensures { IfOk result (λ goal. plain_sched goal
        ≡ Apply op (at_inputs (inputs_of op) xs.now) (at_outputs (inputs_of op) xs.now)) }
{
    let inputs = on_side(alloc, mode, xs, true)?;
    let outputs = on_side(alloc, mode, xs, false)?;
    Ok(Sched::Apply(op, inputs, outputs))
}

/// A goal, and then tests of variables.
pub(crate) fn with_tests(
    alloc: Global,
    goal: GoalNode,
    tests: &[(u32, u32)],
) -> Result<Vec<GoalNode>, Memory>
    ensures { IfOk result (λ goals. nodes (map plain_node goals.items)
        ≡ node_then (plain_node goal) (test_nodes tests.now)) }
{
    let mut goals = Vec::with_capacity(alloc, 1)?;
    goals.push(goal)?;
    for test in tests {
        goals.push(unmarked(alloc, Sched::Test(test.0, test.1)))?;
    }
    Ok(goals)
}
