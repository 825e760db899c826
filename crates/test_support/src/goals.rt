use crate::word::Word;
use mc_base::{Memory, Row, Text};
use mc_model::sched::{Arm, GoalNode, On, Sched};
use mc_program::value::Value;
use mc_source::det::{Det, Most};
use std::alloc::Global;

/// The determinism of every goal: nothing that runs goals asks for it but whether a procedure is committed.
pub const DET: Det = Det {
    can_fail: true,
    most: Most::Many,
    committed: false,
};

fn node(alloc: Global, goal: Sched, pruned: bool) -> GoalNode {
    GoalNode {
        goal,
        changes: Row::new(alloc),
        det: DET,
        pruned,
    }
}

pub fn numbers(alloc: Global, list: &[u32]) -> Result<Row<u32>, Memory> {
    Row::of(Vec::from_slice(alloc, list)?)
}

/// The goal that a table of words is: its last one, with those that it joins.
pub fn goal_of(alloc: Global, words: &[Word]) -> Result<GoalNode, Memory> {
    let mut goals = Vec::new(alloc);
    for word in words {
        let goal = joined(alloc, *word, &mut goals)?;
        goals.push(goal)?;
    }
    Ok(last(alloc, &mut goals))
}

/// The goal of a word, which takes the goals that it joins.
fn joined(alloc: Global, word: Word, goals: &mut Vec<GoalNode>) -> Result<GoalNode, Memory> {
    match word {
        Word::All(count) => {
            let parts = Row::of(last_goals(goals, count)?)?;
            Ok(node(alloc, Sched::Conj(parts), false))
        }
        Word::Any(count) => {
            let parts = Row::of(last_goals(goals, count)?)?;
            Ok(node(alloc, Sched::Disj(parts), false))
        }
        Word::Switch(variable, count) => switch(alloc, variable, last_goals(goals, count)?),
        Word::If => conditional(alloc, goals),
        Word::Not => {
            let inner = Box::new(alloc, last(alloc, goals))?;
            Ok(node(alloc, Sched::Not(inner), false))
        }
        Word::Once => {
            let inner = last(alloc, goals);
            Ok(node(alloc, inner.goal, true))
        }
        atom => Ok(node(alloc, atomic(alloc, atom)?, false)),
    }
}

/// The goal of a word that joins none.
fn atomic(alloc: Global, word: Word) -> Result<Sched, Memory> {
    match word {
        Word::Same(left, right) => Ok(Sched::Assign(left, right)),
        Word::Int(variable, number) => Ok(Sched::Const(variable, Value::Int(number))),
        Word::Text(variable, text) => {
            let text = Text::new(alloc, text.as_bytes())?;
            Ok(Sched::Const(variable, Value::Str(text)))
        }
        Word::Made(variable, symbol, args) => {
            Ok(Sched::Take(variable, symbol, numbers(alloc, args)?))
        }
        Word::Call(procedure, args) => {
            Ok(Sched::Call(procedure, numbers(alloc, args)?, Row::new(alloc)))
        }
        Word::Apply(builtin, inputs, outputs) => {
            let inputs = numbers(alloc, inputs)?;
            Ok(Sched::Apply(builtin, inputs, numbers(alloc, outputs)?))
        }
        _ => Ok(Sched::Conj(Row::new(alloc))),
    }
}

/// The last goal, taken from the others.
fn last(alloc: Global, goals: &mut Vec<GoalNode>) -> GoalNode {
    match goals.pop() {
        Some(goal) => goal,
        None => node(alloc, Sched::Conj(Row::new(alloc)), false),
    }
}

/// The last goals, so many, taken from the others.
fn last_goals(goals: &mut Vec<GoalNode>, count: usize) -> Result<Vec<GoalNode>, Memory> {
    let at = goals.len().saturating_sub(count);
    Ok(goals.split_off(at)?)
}

fn conditional(alloc: Global, goals: &mut Vec<GoalNode>) -> Result<GoalNode, Memory> {
    let otherwise = Box::new(alloc, last(alloc, goals))?;
    let follows = Box::new(alloc, last(alloc, goals))?;
    let condition = Box::new(alloc, last(alloc, goals))?;
    let goal = Sched::Ite(Row::new(alloc), condition, follows, otherwise);
    Ok(node(alloc, goal, false))
}

fn switch(alloc: Global, variable: u32, goals: Vec<GoalNode>) -> Result<GoalNode, Memory> {
    let mut arms = Vec::new(alloc);
    let mut symbol = 0u32;
    for body in goals {
        arms.push(Arm {
            on: On::Symbol(symbol),
            body,
        })?;
        symbol = symbol.wrapping_add(1);
    }
    Ok(node(alloc, Sched::Switch(variable, Row::of(arms)?), false))
}
