ghost use Rattle.std.specs.Prelude.{◌≡◌, IsTrue, map};
ghost use Rattle.mc_program.specs.Values.{plain_value};
ghost use Rattle.mc_model.specs.Scheduled.{for_symbol, for_constant, nodes};
ghost use Rattle.mc_model.specs.PlainGoals.{plain_label, plain_node, plain_arm, arms_of};
ghost use Rattle.mc_flat_code.specs.Standing.{Opens, FirstOpens, EachOpens, FirstArmOpens, EachArmOpens};

use mc_model::sched::{Arm, GoalNode, On, Sched};
use mc_program::same::same_value;
use mc_program::value::Value;

/// Whether each answer of a goal comes behind a test of this variable for what an arm is for: the goal begins with the
/// test, or each of its alternatives does.
#[cycle(opening)]
pub fn opens(variable: u32, on: &On, goal: &GoalNode) -> bool
    ensures { IsTrue result → Opens (plain_label on.now) variable (plain_node goal.now) }
{
    match &goal.goal {
        Sched::Conj(goals) => match goals.as_slice() {
            [] => false,
            [first, ..] => opens(variable, on, first),
        },
        Sched::Disj(goals) => alternatives_open(variable, on, goals.as_slice()),
        Sched::Switch(_, arms) => arms_open(variable, on, arms.as_slice()),
        Sched::Some(_, inner) => opens(variable, on, inner),
        Sched::Build(v, symbol, _) => *v == variable && is_symbol(on, *symbol),
        Sched::Take(v, symbol, _) => *v == variable && is_symbol(on, *symbol),
        Sched::Const(v, value) => *v == variable && is_constant(on, value),
        Sched::TestConst(v, value) => *v == variable && is_constant(on, value),
        Sched::Ite(_, _, _, _) => false,
        Sched::Not(_) => false,
        Sched::Assign(_, _) => false,
        Sched::Test(_, _) => false,
        Sched::Call(_, _, _) => false,
        Sched::Apply(_, _, _) => false,
    }
}

/// Whether each of these alternatives opens so, and there is one.
#[cycle(opening)]
fn alternatives_open(variable: u32, on: &On, goals: &[GoalNode]) -> bool
    ensures first { IsTrue result
        → FirstOpens (plain_label on.now) variable (nodes (map plain_node goals.now)) }
    ensures each { IsTrue result
        → EachOpens (plain_label on.now) variable (nodes (map plain_node goals.now)) }
{
    if goals.is_empty() {
        return false;
    }
    for goal in goals {
        if !opens(variable, on, goal) {
            return false;
        }
    }
    true
}

/// Whether the goal of each of these arms opens so, and there is one.
#[cycle(opening)]
fn arms_open(variable: u32, on: &On, arms: &[Arm]) -> bool
    ensures first { IsTrue result
        → FirstArmOpens (plain_label on.now) variable (arms_of (map plain_arm arms.now)) }
    ensures each { IsTrue result
        → EachArmOpens (plain_label on.now) variable (arms_of (map plain_arm arms.now)) }
{
    if arms.is_empty() {
        return false;
    }
    for arm in arms {
        if !opens(variable, on, &arm.body) {
            return false;
        }
    }
    true
}

/// Whether an arm is for this constructor.
fn is_symbol(on: &On, symbol: u32) -> bool
    ensures { IsTrue result → plain_label on.now ≡ for_symbol symbol }
{
    match on {
        On::Symbol(wanted) => *wanted == symbol,
        On::Const(_) => false,
    }
}

/// Whether an arm is for this constant.
fn is_constant(on: &On, value: &Value) -> bool
    ensures { IsTrue result → plain_label on.now ≡ for_constant (plain_value value.now) }
{
    match on {
        On::Symbol(_) => false,
        On::Const(wanted) => same_value(wanted, value),
    }
}
