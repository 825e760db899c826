ghost use Rattle.std.specs.Prelude.{◌≡◌, ◌+◌, ◌∷◌, ◌++◌, [], length, map, IfOk, OnOk};
ghost use Rattle.mc_accepted.specs.Resolving.{equate, call, steps_of, term_steps, goal_steps};
ghost use Rattle.mc_unresolved.specs.Unresolved.{plain_unresolved, plain_unresolved_goal, plain_unresolved_clause};
ghost use Rattle.mc_unresolved.specs.Steps.{plain_walk_step};
ghost use Rattle.mc_unresolved.specs.code.Tasks.{steps_of_terms, steps_of_goals, term_weight, terms_weight, goal_weight, goals_weight, Put, Opens, Takes};

use crate::clause::UnresolvedClause;
use crate::goal::UnresolvedGoal;
use crate::steps::WalkStep;
use crate::term::Unresolved;
use mc_base::Memory;
use mc_source::name::Candidate;
use std::alloc::Global;

/// What is still to be walked.
#[derive(Clone, Copy)]
enum Task<'a> {
    Goal(&'a UnresolvedGoal),
    Term(&'a Unresolved),
    Step(WalkStep<'a>),
}

/// The steps of the walk of a clause: the head, then the goals in written order; in a term, the arguments left to right
/// before the name that holds them. What is nested takes no stack. (Mercury Language Reference Manual: Types.)
pub fn walk_steps<'a>(
    alloc: Global,
    clause: &'a UnresolvedClause,
) -> Result<Vec<WalkStep<'a>>, Memory>
    ensures { IfOk result (λ steps. map plain_walk_step steps.items
        ≡ steps_of (plain_unresolved_clause clause.now)) }
{
    let head = clause.head.as_slice();
    // A fact over constants takes no more room than this.
    let mut pending = Vec::with_capacity(alloc, head.len().saturating_add(3))?;
    let mut steps = Vec::with_capacity(alloc, head.len().saturating_add(1))?;
    pending.push(Task::Goal(&clause.body))?;
    put(&mut pending, WalkStep::CloseHead(clause.pred, head.len()))?;
    put_terms(&mut pending, head)?;
    while let Some(task) = pending.pop() {
        take(task, &mut pending, &mut steps)?;
    }
    Ok(steps)
}

/// Takes a step, or opens a term or a goal.
fn take<'a>(
    task: Task<'a>,
    pending: &mut Vec<Task<'a>>,
    steps: &mut Vec<WalkStep<'a>>,
) -> Result<(), Memory>
    ensures { OnOk result (Takes task.entry steps.old.items steps.new.items
        pending.old.items pending.new.items) }
{
    match task {
        Task::Step(step) => {
            steps.push(step)?;
            Ok(())
        }
        Task::Term(term) => {
            open_term(term, pending)?;
            Ok(())
        }
        Task::Goal(goal) => {
            open_goal(goal, pending)?;
            Ok(())
        }
    }
}

/// Puts a step in front of what is pending.
fn put<'a>(pending: &mut Vec<Task<'a>>, step: WalkStep<'a>) -> Result<(), Memory>
    ensures { OnOk result (Put (plain_walk_step step.entry ∷ []) 1 pending.old.items pending.new.items) }
{
    pending.push(Task::Step(step))?;
    Ok(())
}

/// Puts a term in front of what is pending.
fn put_term<'a>(pending: &mut Vec<Task<'a>>, term: &'a Unresolved) -> Result<(), Memory>
    ensures { OnOk result (Put (term_steps (plain_unresolved term.now))
        (term_weight (plain_unresolved term.now)) pending.old.items pending.new.items) }
{
    pending.push(Task::Term(term))?;
    Ok(())
}

/// Puts a goal in front of what is pending.
fn put_goal<'a>(pending: &mut Vec<Task<'a>>, goal: &'a UnresolvedGoal) -> Result<(), Memory>
    ensures { OnOk result (Put (goal_steps (plain_unresolved_goal goal.now))
        (goal_weight (plain_unresolved_goal goal.now)) pending.old.items pending.new.items) }
{
    pending.push(Task::Goal(goal))?;
    Ok(())
}

/// Puts terms in front of what is pending.
fn put_terms<'a>(pending: &mut Vec<Task<'a>>, terms: &'a [Unresolved]) -> Result<(), Memory>
    ensures { OnOk result (Put (steps_of_terms terms.now) (terms_weight terms.now)
        pending.old.items pending.new.items) }
{
    let mut k = terms.len();
    while k > 0 {
        k -= 1;
        pending.push(Task::Term(&terms[k]))?;
    }
    Ok(())
}

/// Puts goals in front of what is pending.
fn put_goals<'a>(pending: &mut Vec<Task<'a>>, goals: &'a [UnresolvedGoal]) -> Result<(), Memory>
    ensures { OnOk result (Put (steps_of_goals goals.now) (goals_weight goals.now)
        pending.old.items pending.new.items) }
{
    let mut k = goals.len();
    while k > 0 {
        k -= 1;
        pending.push(Task::Goal(&goals[k]))?;
    }
    Ok(())
}

/// Puts a term in front of what is pending, as its arguments and the step that ends it.
fn open_term<'a>(term: &'a Unresolved, pending: &mut Vec<Task<'a>>) -> Result<(), Memory>
    ensures { OnOk result (Opens (term_steps (plain_unresolved term.now))
        (term_weight (plain_unresolved term.now)) pending.old.items pending.new.items) }
{
    match term {
        Unresolved::Variable(v) => put(pending, WalkStep::Variable(*v)),
        Unresolved::Number(_) => put(pending, WalkStep::Number),
        Unresolved::Text(_) => put(pending, WalkStep::Text),
        Unresolved::Name(candidates, args) => {
            let args = args.as_slice();
            put(pending, WalkStep::Choose(candidates.as_slice(), args.len()))?;
            put_terms(pending, args)?;
            Ok(())
        }
    }
}

/// Puts a goal in front of what is pending, as its parts and the step that ends it.
fn open_goal<'a>(goal: &'a UnresolvedGoal, pending: &mut Vec<Task<'a>>) -> Result<(), Memory>
    ensures { OnOk result (Opens (goal_steps (plain_unresolved_goal goal.now))
        (goal_weight (plain_unresolved_goal goal.now)) pending.old.items pending.new.items) }
{
    match goal {
        UnresolvedGoal::Equation(left, right) => open_equation(left, right, pending),
        UnresolvedGoal::Atom(candidates, args) => {
            open_atom(candidates.as_slice(), args.as_slice(), pending)
        }
        UnresolvedGoal::AllOf(goals) => put_goals(pending, goals.as_slice()),
        UnresolvedGoal::OneOf(goals) => put_goals(pending, goals.as_slice()),
        UnresolvedGoal::Choice(_, condition, then_part, else_part) => {
            open_choice(condition, then_part, else_part, pending)
        }
        UnresolvedGoal::Negation(goal) => put_goal(pending, goal),
        UnresolvedGoal::Exists(_, goal) => put_goal(pending, goal),
    }
}

/// Puts an equation in front of what is pending, as its sides and the step that ends it.
fn open_equation<'a>(
    left: &'a Unresolved,
    right: &'a Unresolved,
    pending: &mut Vec<Task<'a>>,
) -> Result<(), Memory>
    ensures { OnOk result (Put
        (term_steps (plain_unresolved left.now) ++ (term_steps (plain_unresolved right.now) ++ equate ∷ []))
        (term_weight (plain_unresolved left.now) + (term_weight (plain_unresolved right.now) + 1))
        pending.old.items pending.new.items) }
{
    put(pending, WalkStep::Equate)?;
    put_term(pending, right)?;
    put_term(pending, left)?;
    Ok(())
}

/// Puts an atom in front of what is pending, as its arguments and the step that ends it.
fn open_atom<'a>(
    candidates: &'a [Candidate],
    args: &'a [Unresolved],
    pending: &mut Vec<Task<'a>>,
) -> Result<(), Memory>
    ensures { OnOk result (Put (steps_of_terms args.now ++ call candidates.now (length args.now) ∷ [])
        (terms_weight args.now + 1) pending.old.items pending.new.items) }
{
    put(pending, WalkStep::Call(candidates, args.len()))?;
    put_terms(pending, args)?;
    Ok(())
}

/// Puts the parts of a choice in front of what is pending.
fn open_choice<'a>(
    condition: &'a UnresolvedGoal,
    then_part: &'a UnresolvedGoal,
    else_part: &'a UnresolvedGoal,
    pending: &mut Vec<Task<'a>>,
) -> Result<(), Memory>
    ensures { OnOk result (Put (goal_steps (plain_unresolved_goal condition.now)
        ++ (goal_steps (plain_unresolved_goal then_part.now) ++ goal_steps (plain_unresolved_goal else_part.now)))
        (goal_weight (plain_unresolved_goal condition.now)
        + (goal_weight (plain_unresolved_goal then_part.now) + goal_weight (plain_unresolved_goal else_part.now)))
        pending.old.items pending.new.items) }
{
    put_goal(pending, else_part)?;
    put_goal(pending, then_part)?;
    put_goal(pending, condition)?;
    Ok(())
}
