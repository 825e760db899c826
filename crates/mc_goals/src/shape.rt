ghost use Rattle.std.specs.Prelude.{◌≡◌, ◌<◌, ◌^◌, map, length, IfOk, OnOk};
ghost use Rattle.mc_program.specs.PlainPrograms.{plain_clause};
ghost use Rattle.mc_model.specs.Lists.{from};
ghost use Rattle.mc_model.specs.PlainGoals.{plain_flat};
ghost use Rattle.mc_accepted.specs.Normal as normal;
ghost use Rattle.mc_accepted.specs.Normal.{all_disjuncts, one_or_either, clause_goals};

use crate::clauses::goal_of_clause;
use crate::goals::add_disjunct;
use mc_base::{Memory, Row};
use mc_model::flat::Flat;
use mc_program::program::{Clause, Pred};
use std::alloc::Global;

/// The one goal of a predicate, without types and names: its head variables, the number of its variables, and its goal.
#[derive(Drop)]
pub struct Shape {
    pub head: Row<u32>,
    pub vars: u32,
    pub body: Flat,
}

/// The one goal of a predicate's clauses, whose scopes are written out.
pub fn flat_goal(alloc: Global, pred: &Pred) -> Result<Shape, Memory>
    ensures head { IfOk result (λ shape. shape.head ≡ from 0 (length pred.now.types)) }
    ensures vars { IfOk result (λ shape. shape.vars
        ≡ (normal.normal_goal (length pred.now.types) (map plain_clause pred.now.clauses)).variables) }
    ensures body { IfOk result (λ shape. plain_flat shape.body
        ≡ (normal.normal_goal (length pred.now.types) (map plain_clause pred.now.clauses)).body) }
{
    let head = below(alloc, pred.types.len())?;
    let mut vars = pred.types.len();
    let body = goal_of_clauses(alloc, &mut vars, pred.clauses.as_slice())?;
    Ok(Shape { head, vars, body })
}

/// The one goal that clauses are. The numbers of their variables are no longer free.
fn goal_of_clauses(alloc: Global, next: &mut u32, clauses: &[Clause]) -> Result<Flat, Memory>
    ensures goal { IfOk result (λ goal. plain_flat goal
        ≡ one_or_either (clause_goals next.old (map plain_clause clauses.now)).goals) }
    ensures next { OnOk result (next.new
        ≡ (clause_goals next.old (map plain_clause clauses.now)).next) }
{
    match clauses {
        [clause] => {
            let made = goal_of_clause(alloc, *next, clause)?;
            *next = made.next;
            Ok(made.goal)
        }
        [] => Ok(Flat::Disj(Row::new(alloc))),
        [_, _, ..] => Ok(Flat::Disj(Row::of(disjuncts(alloc, next, clauses)?)?)),
    }
}

/// The disjuncts that several clauses are. The numbers of their variables are no longer free.
fn disjuncts(alloc: Global, next: &mut u32, clauses: &[Clause]) -> Result<Vec<Flat>, Memory>
    ensures goals { IfOk result (λ goals. map plain_flat goals.items
        ≡ all_disjuncts (clause_goals next.old (map plain_clause clauses.now)).goals) }
    ensures next { OnOk result (next.new
        ≡ (clause_goals next.old (map plain_clause clauses.now)).next) }
{
    let mut goals = Vec::with_capacity(alloc, clauses.len())?;
    for clause in clauses {
        let made = goal_of_clause(alloc, *next, clause)?;
        *next = made.next;
        add_disjunct(&mut goals, made.goal)?;
    }
    Ok(goals)
}

/// The numbers below another, in order.
pub fn below(alloc: Global, count: u32) -> Result<Row<u32>, Memory>
    ensures { IfOk result (λ row. row ≡ from 0 count) }
{
    let mut numbers = Vec::with_capacity(alloc, count as usize)?;
    for k in 0..count {
        numbers.push(k)?;
    }
    Row::of(numbers)
}
