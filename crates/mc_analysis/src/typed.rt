ghost use Rattle.std.specs.Prelude.{◌≡◌, ◌↔◌, ◌<◌, None, IsTrue, IfOk, length};
ghost use Rattle.mc_analysis.specs.Premises.{GoalsAreTyped};
ghost use Rattle.mc_analysis.specs.code.Tests.{PredIsTyped};

use crate::goals::has_builtin;
use mc_base::Memory;
use mc_model::flat::Normal;
use mc_program::program::Program;
use mc_self_check::goal_is_typed;
use std::alloc::Global;

/// Whether the goals of predicates that are no builtins are typed.
pub(crate) fn goals_are_typed(
    alloc: Global,
    program: &Program,
    goals: &[Normal],
) -> Result<bool, Memory>
    requires { length goals.now ≡ length program.now.preds }
    ensures { IfOk result (λ b. IsTrue b ↔ GoalsAreTyped program.now goals.now) }
{
    for pred in 0..program.preds.len() {
        if !pred_is_typed(alloc, program, goals, pred)? {
            return Ok(false);
        }
    }
    Ok(true)
}

/// Whether a predicate's goal is typed; that of a builtin isn't asked.
fn pred_is_typed(
    alloc: Global,
    program: &Program,
    goals: &[Normal],
    pred: u32,
) -> Result<bool, Memory>
    requires there { pred < length program.now.preds }
    requires as_many { length goals.now ≡ length program.now.preds }
    ensures { IfOk result (λ b. IsTrue b ↔ PredIsTyped program.now goals.now pred) }
{
    if has_builtin(program.preds.get(pred)) {
        return Ok(true);
    }
    goal_is_typed(alloc, program, pred, &goals[pred as usize])
}
