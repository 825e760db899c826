ghost use Rattle.std.specs.Prelude.{◌≡◌};
ghost use Rattle.mc_model.specs.PlainGoals.{plain_node};
ghost use Rattle.mc_accepted.specs.Switched.{is_equation};

use mc_model::sched::{GoalNode, Sched};

/// Whether a goal is an equation.
pub fn is_equation(goal: &GoalNode) -> bool
    ensures { result ≡ is_equation (plain_node goal.now) }
{
    match &goal.goal {
        Sched::Assign(_, _) => true,
        Sched::Test(_, _) => true,
        Sched::Build(_, _, _) => true,
        Sched::Take(_, _, _) => true,
        Sched::Const(_, _) => true,
        Sched::TestConst(_, _) => true,
        Sched::Conj(_) => false,
        Sched::Disj(_) => false,
        Sched::Switch(_, _) => false,
        Sched::Ite(_, _, _, _) => false,
        Sched::Not(_) => false,
        Sched::Some(_, _) => false,
        Sched::Call(_, _, _) => false,
        Sched::Apply(_, _, _) => false,
    }
}
