ghost use Rattle.std.specs.Prelude.{◌≡◌, ℕ, List, [], ◌<◌, ◌^◌, ◌+◌, ◌++◌, map, IfOk, OnOk, slice_index_or};
ghost use Rattle.mc_program.specs.Programs.{Expression};
ghost use Rattle.mc_program.specs.PlainPrograms.{plain_expression, plain_goal, plain_clause};
ghost use Rattle.mc_model.specs.PlainGoals.{plain_flat};
ghost use Rattle.mc_accepted.specs.Scope.{occurring};
ghost use Rattle.mc_accepted.specs.Normal.{conjunction, named_by_quantifiers, other_variables, head_equation, head_equations, clause_goal};
ghost use Rattle.mc_goals.specs.code.Numbering.{number_at, Places};
ghost use Rattle.mc_goals.specs.code.Naming.{held, followed};
ghost use Rattle.mc_goals.specs.code.Meeting.{Knows, head_variables};

use crate::building::Building;
use crate::goals::{add_equated, add_goal, conjunction_of, variable_of};
use crate::numbering::Numbering;
use crate::numbers::Numbers;
use crate::occurrences::{push_named, push_occurring};
use mc_base::{Memory, Row};
use mc_model::flat::Flat;
use mc_program::expr::Expr;
use mc_program::program::Clause;
use std::alloc::Global;

/// A clause's goal, the next number for a variable, and the clause's variables that are no head arguments.
#[derive(Drop)]
pub struct ClauseGoal {
    pub goal: Flat,
    pub next: u32,
    pub others: Vec<u32>,
}

/// The goal of a clause whose own variables are numbered from `first` on.
pub fn goal_of_clause(alloc: Global, first: u32, clause: &Clause) -> Result<ClauseGoal, Memory>
    ensures goal { IfOk result (λ r. plain_flat r.goal
        ≡ conjunction (clause_goal first (plain_clause clause.now)).goals) }
    ensures next { IfOk result (λ r. r.next ≡ (clause_goal first (plain_clause clause.now)).next) }
    ensures others { IfOk result (λ r. r.others.items ≡ other_variables (plain_clause clause.now)) }
{
    let met = numbering_of(alloc, first, clause)?;
    let Numbering {
        slots,
        others,
        first: _,
    } = met;
    let rest = number_behind(first, others.len())?;
    let numbers = Numbers { slots, rest };
    // A fact over constants has a goal for each argument, and takes no more room than that.
    let room = Vec::with_capacity(alloc, clause.head.as_slice().len())?;
    let mut building = Building {
        goals: room,
        made: Vec::new(alloc),
        next: rest,
    };
    add_head(alloc, &numbers, &mut building, &clause.head)?;
    add_goal(alloc, &numbers, &mut building, &clause.body)?;
    let Building {
        goals,
        made: _,
        next,
    } = building;
    Ok(ClauseGoal {
        goal: conjunction_of(goals)?,
        next,
        others,
    })
}

/// The number that is so many behind another.
fn number_behind(first: u32, count: usize) -> Result<u32, Memory>
    ensures { IfOk result (λ number. number ≡ first + count) }
{
    match u32::try_from(count) {
        Err(_) => Err(Memory),
        Ok(count) => match first.checked_add(count) {
            None => Err(Memory),
            Some(number) => Ok(number),
        },
    }
}

/// The numbers of a clause's variables.
fn numbering_of(alloc: Global, first: u32, clause: &Clause) -> Result<Numbering, Memory>
    ensures { IfOk result (λ met. Knows first (plain_clause clause.now).head
        (head_variables (plain_clause clause.now).head
        ++ (occurring (plain_clause clause.now).body ++ named_by_quantifiers (plain_clause clause.now).body)) met) }
{
    let mut met = Numbering {
        slots: Vec::new(alloc),
        others: Vec::new(alloc),
        first,
    };
    met.meet_head(alloc, &clause.head)?;
    let mut variables = Vec::new(alloc);
    push_occurring(&mut variables, &clause.body)?;
    push_named(&mut variables, &clause.body)?;
    met.meet_all(variables.as_slice())?;
    Ok(met)
}

/// Puts the equations of a head's arguments at the end, in order.
fn add_head(
    alloc: Global,
    numbers: &Numbers,
    into: &mut Building,
    head: &Row<Expr>,
) -> Result<(), Memory>
    ensures { (hs : List Expression) → Places numbers.now hs → OnOk result (held into.new
        ≡ followed (held into.old) (head_equations (number_at numbers.now) hs (held into.old).next 0
        (map plain_expression head.now))) }
{
    for place in 0..head.len() {
        add_argument(alloc, numbers, into, place, head.get(place))?;
    }
    Ok(())
}

/// Puts the equation of a head variable and an argument at the end, unless the argument is that variable.
fn add_argument(
    alloc: Global,
    numbers: &Numbers,
    into: &mut Building,
    place: u32,
    argument: &Expr,
) -> Result<(), Memory>
    ensures { (hs : List Expression) → Places numbers.now hs → OnOk result (held into.new
        ≡ followed (held into.old) (head_equation (number_at numbers.now) hs (held into.old).next place
        (plain_expression argument.now))) }
{
    if let Some(variable) = variable_of(argument) {
        if numbers.is_own(variable, place) {
            return Ok(());
        }
    }
    add_equated(alloc, numbers, into, place, argument)
}
