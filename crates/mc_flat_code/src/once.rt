ghost use Rattle.std.specs.Prelude.{◌≡◌, IsTrue, map, true, false};
ghost use Rattle.mc_model.specs.Scheduled.{nodes};
ghost use Rattle.mc_model.specs.PlainGoals.{plain_node, plain_sched};
ghost use Rattle.mc_flat_code.specs.Standing.{AnswersOnce};
ghost use Rattle.mc_flat_code.specs.code.Answering.{Once, OnceIn, AllOnce};

use mc_model::sched::{GoalNode, Sched};

/// Whether a goal has to be left behind its first answer: it is pruned, and may leave something to be tried.
#[tactic(auto, using(crate::proofs::OneAnswer::answers_once))]
pub fn is_left(goal: &GoalNode) -> bool
    ensures yes { result ≡ true → goal.now.pruned ≡ true }
    ensures no { result ≡ false → goal.now.pruned ≡ true
        → AnswersOnce (plain_sched goal.now.goal) }
{
    goal.pruned && !answers_once(&goal.goal)
}

/// Whether a goal answers once by its form. True only where its events end behind its first answer.
#[cycle(once)]
fn answers_once(goal: &Sched) -> bool
    ensures { IsTrue result → OnceIn (plain_sched goal.now) }
{
    match goal {
        Sched::Conj(goals) => all_answer_once(goals.as_slice()),
        Sched::Ite(_, condition, then_part, else_part) => {
            node_answers_once(condition)
                && node_answers_once(then_part)
                && node_answers_once(else_part)
        }
        Sched::Some(_, inner) => node_answers_once(inner),
        Sched::Disj(_) => false,
        Sched::Switch(_, _) => false,
        Sched::Call(_, _, _) => false,
        Sched::Not(_) => true,
        Sched::Assign(_, _) => true,
        Sched::Test(_, _) => true,
        Sched::Build(_, _, _) => true,
        Sched::Take(_, _, _) => true,
        Sched::Const(_, _) => true,
        Sched::TestConst(_, _) => true,
        Sched::Apply(_, _, _) => true,
    }
}

/// The same of a goal with its mark: a pruned one gives its first answer alone.
#[cycle(once)]
fn node_answers_once(goal: &GoalNode) -> bool
    ensures { IsTrue result → Once (plain_node goal.now) }
{
    if goal.pruned {
        return true;
    }
    answers_once(&goal.goal)
}

/// Whether each of these goals answers once by its form.
#[cycle(once)]
fn all_answer_once(goals: &[GoalNode]) -> bool
    ensures { IsTrue result → AllOnce (nodes (map plain_node goals.now)) }
{
    for goal in goals {
        if !node_answers_once(goal) {
            return false;
        }
    }
    true
}
