ghost use Rattle.std.specs.Prelude.{◌≤◌, length, IfOk};
ghost use Rattle.mc_core_program.specs.Goals.{IsNormal, AreNormal};

use mc_base::{Memory, Row};
use mc_goals::normal_goal;
use mc_model::flat::Normal;
use mc_program::program::{Pred, Resolved};
use std::alloc::Global;

/// The normal goals of predicates and of their clauses, by number, where there are at least as many predicates as rows of
/// clauses.
pub fn normal_goals(
    alloc: Global,
    preds: &Row<Pred>,
    clauses: &Row<Row<Resolved>>,
) -> Result<Vec<Normal>, Memory>
    requires { length clauses.now ≤ length preds.now }
    ensures { IfOk result (λ goals. AreNormal preds.now clauses.now goals.items) }
{
    let mut goals = Vec::with_capacity(alloc, clauses.len() as usize)?;
    for number in 0..clauses.len() {
        goals.push(goal_at(alloc, number, preds.get(number), clauses.get(number))?)?;
    }
    Ok(goals)
}

// The normal goal of a predicate.
fn goal_at(
    alloc: Global,
    number: u32,
    pred: &Pred,
    clauses: &Row<Resolved>,
) -> Result<Normal, Memory>
    ensures { IfOk result (IsNormal number pred.now clauses.now) }
{
    let goal = normal_goal(alloc, number, pred, clauses)?;
    Ok(goal)
}
