ghost use Rattle.std.specs.Prelude.{◌≡◌, length, map, IfOk};
ghost use Rattle.mc_program.specs.PlainPrograms.{plain_expression, plain_goal, plain_clause};
ghost use Rattle.mc_accepted.specs.Resolving.{equation, choice, resolved, resolved_term, resolved_goal};
ghost use Rattle.mc_unresolved.specs.Unresolved.{plain_unresolved, plain_unresolved_goal, plain_unresolved_clause};
ghost use Rattle.mc_unresolved.specs.code.Picked.{resolved_list, resolved_goal_list};

use crate::clause::UnresolvedClause;
use crate::goal::UnresolvedGoal;
use crate::picks::Picks;
use crate::term::Unresolved;
use mc_base::{Copied, Memory, Row};
use mc_program::expr::Expr;
use mc_program::program::{Clause, Goal};
use mc_source::name::Candidate;
use std::alloc::Global;

/// The clause that picks make of one whose names are not resolved. There is a pick for each occurrence of a name, in
/// the order of the walk. (Mercury Language Reference Manual: Types, overloading.)
pub fn resolved_clause(
    alloc: Global,
    clause: &UnresolvedClause,
    picks: &[Candidate],
) -> Result<Clause, Memory>
    ensures form { IfOk result (λ made. plain_clause made
        ≡ resolved (plain_unresolved_clause clause.now) picks.now) }
    ensures vars { IfOk result (λ made. made.vars ≡ length clause.now.names) }
    ensures place { IfOk result (λ made. made.place ≡ clause.now.place) }
{
    let mut picks = Picks { rest: picks };
    let head = make_terms(alloc, clause.head.as_slice(), &mut picks)?;
    let body = make_goal(alloc, &clause.body, &mut picks)?;
    Ok(Clause {
        vars: clause.names.len(),
        head: Row::of(head)?,
        body,
        place: clause.place,
    })
}

/// The term that picks make. The last arguments are taken by a loop, so that a long list takes no stack for each
/// element; `fronts` has the arguments before the last ones, outermost first.
#[cycle(terms)]
fn make_term(alloc: Global, term: &Unresolved, picks: &mut Picks) -> Result<Expr, Memory>
    ensures { IfOk result (λ made. (plain_expression made, picks.new.rest.now)
        ≡ resolved_term (plain_unresolved term.now) picks.old.rest.now) }
{
    let mut fronts = Vec::new(alloc);
    let mut rest = term;
    let mut made = loop {
        match rest {
            Unresolved::Variable(v) => break Expr::Var(*v),
            Unresolved::Number(n) => break Expr::Int(*n),
            Unresolved::Text(bytes) => break Expr::Str(bytes.copied(alloc)?),
            Unresolved::Name(_, args) => match args.as_slice() {
                [] => break picks.named(Row::new(alloc)),
                [front @ .., last] => {
                    let args = make_terms(alloc, front, picks)?;
                    fronts.push(args)?;
                    rest = last;
                }
            },
        }
    };
    while let Some(front) = fronts.pop() {
        let mut args = front;
        args.push(made)?;
        made = picks.named(Row::of(args)?);
    }
    Ok(made)
}

/// The terms that picks make, in order.
#[cycle(terms)]
fn make_terms(alloc: Global, terms: &[Unresolved], picks: &mut Picks) -> Result<Vec<Expr>, Memory>
    ensures { IfOk result (λ made. (map plain_expression made.items, picks.new.rest.now)
        ≡ resolved_list (map plain_unresolved terms.now) picks.old.rest.now) }
{
    let mut made = Vec::with_capacity(alloc, terms.len())?;
    for term in terms {
        made.push(make_term(alloc, term, picks)?)?;
    }
    Ok(made)
}

/// The goal that picks make.
#[cycle(goals)]
fn make_goal(alloc: Global, goal: &UnresolvedGoal, picks: &mut Picks) -> Result<Goal, Memory>
    ensures { IfOk result (λ made. (plain_goal made, picks.new.rest.now)
        ≡ resolved_goal (plain_unresolved_goal goal.now) picks.old.rest.now) }
{
    match goal {
        UnresolvedGoal::Equation(left, right) => make_equation(alloc, left, right, picks),
        UnresolvedGoal::Atom(_, args) => {
            let args = make_terms(alloc, args.as_slice(), picks)?;
            Ok(picks.called(Row::of(args)?))
        }
        UnresolvedGoal::AllOf(parts) => {
            let goals = make_goals(alloc, parts.as_slice(), picks)?;
            Ok(Goal::Conj(Row::of(goals)?))
        }
        UnresolvedGoal::OneOf(parts) => {
            let goals = make_goals(alloc, parts.as_slice(), picks)?;
            Ok(Goal::Disj(Row::of(goals)?))
        }
        UnresolvedGoal::Choice(vars, condition, then_part, else_part) => {
            make_choice(alloc, vars, condition, then_part, else_part, picks)
        }
        UnresolvedGoal::Negation(part) => {
            let part = make_part(alloc, part, picks)?;
            Ok(Goal::Not(part))
        }
        UnresolvedGoal::Exists(vars, part) => {
            let part = make_part(alloc, part, picks)?;
            let vars = vars.copied(alloc)?;
            Ok(Goal::Some(vars, part))
        }
    }
}

/// The equation that picks make of terms.
fn make_equation(
    alloc: Global,
    left: &Unresolved,
    right: &Unresolved,
    picks: &mut Picks,
) -> Result<Goal, Memory>
    ensures { IfOk result (λ made. (plain_goal made, picks.new.rest.now)
        ≡ resolved_goal (equation (plain_unresolved left.now) (plain_unresolved right.now)) picks.old.rest.now) }
{
    let left = make_term(alloc, left, picks)?;
    let right = make_term(alloc, right, picks)?;
    Ok(Goal::Equal(left, right))
}

/// The choice that picks make of its parts.
#[cycle(goals)]
fn make_choice(
    alloc: Global,
    vars: &Row<u32>,
    condition: &UnresolvedGoal,
    then_part: &UnresolvedGoal,
    else_part: &UnresolvedGoal,
    picks: &mut Picks,
) -> Result<Goal, Memory>
    ensures { IfOk result (λ made. (plain_goal made, picks.new.rest.now)
        ≡ resolved_goal (choice vars.now (plain_unresolved_goal condition.now) (plain_unresolved_goal then_part.now)
        (plain_unresolved_goal else_part.now)) picks.old.rest.now) }
{
    let vars = vars.copied(alloc)?;
    let condition = make_part(alloc, condition, picks)?;
    let then_part = make_part(alloc, then_part, picks)?;
    let else_part = make_part(alloc, else_part, picks)?;
    Ok(Goal::Ite(vars, condition, then_part, else_part))
}

/// The goal that picks make of a part of another.
#[cycle(goals)]
fn make_part(alloc: Global, part: &UnresolvedGoal, picks: &mut Picks) -> Result<Box<Goal>, Memory>
    ensures { IfOk result (λ made. (plain_goal made.value, picks.new.rest.now)
        ≡ resolved_goal (plain_unresolved_goal part.now) picks.old.rest.now) }
{
    let made = make_goal(alloc, part, picks)?;
    Ok(Box::new(alloc, made)?)
}

/// The goals that picks make, in order.
#[cycle(goals)]
fn make_goals(
    alloc: Global,
    parts: &[UnresolvedGoal],
    picks: &mut Picks,
) -> Result<Vec<Goal>, Memory>
    ensures { IfOk result (λ made. (map plain_goal made.items, picks.new.rest.now)
        ≡ resolved_goal_list (map plain_unresolved_goal parts.now) picks.old.rest.now) }
{
    let mut made = Vec::with_capacity(alloc, parts.len())?;
    for part in parts {
        made.push(make_goal(alloc, part, picks)?)?;
    }
    Ok(made)
}
