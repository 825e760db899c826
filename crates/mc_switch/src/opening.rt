ghost use Rattle.std.specs.Prelude.{◌≡◌, ◌++◌, ◌∷◌, [], map, IfOk, OnOk};
ghost use Rattle.mc_model.specs.Scheduled.{nodes};
ghost use Rattle.mc_model.specs.PlainGoals.{plain_node, plain_sched};
ghost use Rattle.mc_accepted.specs.Switched.{openings, openings_in, openings_all};
ghost use Rattle.mc_switch.specs.Openings.{plain_opening, plain_openings};
ghost use Rattle.mc_switch.specs.code.Labels.{constant_opening};

use crate::equations::is_equation;
use mc_base::{Memory, Row};
use mc_model::sched::{GoalNode, Sched};
use mc_program::value::Value;
use std::alloc::Global;

/// What a goal takes a variable to be: a constructor, by its symbol, or a constant.
#[derive(Clone, Copy, PartialEq, Eq, Hash)]
pub enum OpeningLabel<'a> {
    Symbol(u32),
    Int(i64),
    Char(char),
    Str(&'a [u8]),
}

/// A variable that a goal deconstructs, with the constructor or the constant.
#[derive(Clone, Copy)]
pub struct Opening<'a> {
    pub variable: u32,
    pub label: OpeningLabel<'a>,
}

/// What a goal deconstructs before its first part that is no equation.
pub fn openings<'a>(alloc: Global, goal: &'a GoalNode) -> Result<Row<Opening<'a>>, Memory>
    ensures { IfOk result
        (λ row. map plain_opening row ≡ openings (plain_node goal.now)) }
{
    let mut opened = Vec::new(alloc);
    push_openings(&goal.goal, &mut opened)?;
    Row::of(opened)
}

/// Puts in what a goal deconstructs before its first part that is no equation.
#[cycle(openings)]
fn push_openings<'a>(goal: &'a Sched, opened: &mut Vec<Opening<'a>>) -> Result<(), Memory>
    ensures { OnOk result
        (plain_openings opened.new.items ≡ plain_openings opened.old.items ++ openings_in (plain_sched goal.now)) }
{
    match goal {
        Sched::Conj(goals) => push_equations(goals.as_slice(), opened),
        Sched::Some(_, inner) => push_openings(&inner.goal, opened),
        Sched::Take(variable, symbol, _) => {
            let label = OpeningLabel::Symbol(*symbol);
            opened.push(Opening {
                variable: *variable,
                label,
            })?;
            Ok(())
        }
        Sched::TestConst(variable, value) => push_constant(*variable, value, opened),
        Sched::Disj(_) => Ok(()),
        Sched::Switch(_, _) => Ok(()),
        Sched::Ite(_, _, _, _) => Ok(()),
        Sched::Not(_) => Ok(()),
        Sched::Assign(_, _) => Ok(()),
        Sched::Test(_, _) => Ok(()),
        Sched::Build(_, _, _) => Ok(()),
        Sched::Const(_, _) => Ok(()),
        Sched::Call(_, _, _) => Ok(()),
        Sched::Apply(_, _, _) => Ok(()),
    }
}

/// Puts in what these goals deconstruct before the first that is no equation.
#[cycle(openings)]
fn push_equations<'a>(goals: &'a [GoalNode], opened: &mut Vec<Opening<'a>>) -> Result<(), Memory>
    ensures { OnOk result
        (plain_openings opened.new.items ≡ plain_openings opened.old.items
        ++ openings_all (nodes (map plain_node goals.now))) }
{
    for goal in goals {
        if !is_equation(goal) {
            return Ok(());
        }
        push_openings(&goal.goal, opened)?;
    }
    Ok(())
}

/// Puts in a test for a constant, where that is an integer, a character or a string.
fn push_constant<'a>(
    variable: u32,
    value: &'a Value,
    opened: &mut Vec<Opening<'a>>,
) -> Result<(), Memory>
    ensures { OnOk result
        (plain_openings opened.new.items ≡ plain_openings opened.old.items ++ constant_opening variable value.now) }
{
    let label = match value {
        Value::Int(n) => OpeningLabel::Int(*n),
        Value::Char(c) => OpeningLabel::Char(*c),
        Value::Str(text) => OpeningLabel::Str(text.bytes()),
        Value::Con(_, _) => return Ok(()),
        Value::Io(_, _) => return Ok(()),
    };
    opened.push(Opening { variable, label })?;
    Ok(())
}
