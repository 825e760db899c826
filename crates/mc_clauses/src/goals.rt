ghost use Rattle.std.specs.Prelude.{◌≡◌, List, ◌∷◌, ◌++◌, [], IfOk, OnOk, MatchOption};
ghost use Rattle.mc_term_data.specs.declared.term.Term.{Term};
ghost use Rattle.mc_term_data.specs.Plain.{plain_term};
ghost use Rattle.mc_unresolved.specs.Unresolved.{plain_unresolved_goal};
ghost use Rattle.mc_clauses.specs.Unresolved.{conjuncts, either, for_some, for_all, not_implied};
ghost use Rattle.mc_clauses.specs.code.Walking.{Walked};
ghost use Rattle.mc_clauses.specs.code.GoalWalks.{the_goal, the_goals, goal_row, plain_chosen, chosen_walk, equation_walk, call_walk, Passes, AreBelow};

use crate::pieces::{Chosen, Unclosed, choice, exists, negation, two_goals};
use crate::terms::{Module, term, terms};
use crate::variables::{Inner, Variables};
use crate::view::{GoalView, view};
use mc_base::{Memory, Row, Text};
use mc_term_data::Term;
use mc_unresolved::UnresolvedGoal;

/// A goal whose names are looked up. It takes stack for each level that terms are nested, and none for the disjuncts
/// behind one that is a conditional, nor for a disjunction that is the last disjunct of another.
#[cycle(goals)]
pub fn goal<'a>(
    at: &Module<'_>,
    whole: &'a Term,
    variables: &mut Variables<'a>,
) -> Result<UnresolvedGoal, Memory>
    ensures { IfOk result (λ made. Walked plain_unresolved_goal (the_goal at.now whole.now).itself
        variables.old variables.new made) }
{
    match view(whole) {
        GoalView::True => Ok(UnresolvedGoal::AllOf(Row::new(at.alloc))),
        GoalView::Fail => Ok(UnresolvedGoal::OneOf(Row::new(at.alloc))),
        GoalView::Conjunction(parts) => {
            let made = goals(at, parts, variables)?;
            Ok(UnresolvedGoal::AllOf(made))
        }
        GoalView::Disjunction(parts) => {
            let made = disjunction(at, parts, variables)?;
            Ok(made)
        }
        GoalView::Conditional(condition, then_part) => {
            let chosen = chosen(at, condition, then_part, variables)?;
            let made = choice(at.alloc, chosen, UnresolvedGoal::OneOf(Row::new(at.alloc)))?;
            Ok(made)
        }
        GoalView::Negation(part) => {
            let part = goal(at, part, variables)?;
            let made = negation(at.alloc, part)?;
            Ok(made)
        }
        GoalView::Existential(list, part) => {
            let made = existential(at, list, part, variables)?;
            Ok(made)
        }
        GoalView::Universal(list, part) => {
            let made = universal(at, list, part, variables)?;
            Ok(made)
        }
        GoalView::Implication(left, right) => {
            let denied = not_implied(at, left, right, variables)?;
            let made = negation(at.alloc, denied)?;
            Ok(made)
        }
        GoalView::Unification(left, right) => {
            let made = equation(at, left, right, variables)?;
            Ok(made)
        }
        GoalView::Disunification(left, right) => {
            let equation = equation(at, left, right, variables)?;
            let made = negation(at.alloc, equation)?;
            Ok(made)
        }
        GoalView::Call(name, args) => {
            let made = call(at, name, args, variables)?;
            Ok(made)
        }
    }
}

/// Goals whose names are looked up, from left to right.
#[cycle(goals)]
fn goals<'a>(
    at: &Module<'_>,
    goals: &'a [Term],
    variables: &mut Variables<'a>,
) -> Result<Row<UnresolvedGoal>, Memory>
    ensures { IfOk result (λ made. Walked goal_row (conjuncts (the_goals at.now goals.now))
        variables.old variables.new made) }
{
    let mut made = Vec::with_capacity(at.alloc, goals.len())?;
    for one in goals {
        made.push(goal(at, one, variables)?)?;
    }
    let row = Row::of(made)?;
    Ok(row)
}

/// A disjunction. What follows a conditional is its else part, which takes no stack.
#[cycle(goals)]
fn disjunction<'a>(
    at: &Module<'_>,
    disjuncts: &'a [Term],
    variables: &mut Variables<'a>,
) -> Result<UnresolvedGoal, Memory>
    ensures { IfOk result (λ made. Walked plain_unresolved_goal (either (the_goals at.now disjuncts.now)).itself
        variables.old variables.new made) }
{
    let mut unclosed = Unclosed::new(at.alloc);
    let mut rest = disjuncts;
    while let Some((last, front)) = split_last(rest) {
        for first in front {
            disjunct(at, first, &mut unclosed, variables)?;
        }
        rest = last_disjunct(at, last, &mut unclosed, variables)?;
    }
    let made = unclosed.close(at.alloc)?;
    Ok(made)
}

/// The last of some terms, and those before it.
fn split_last(terms: &[Term]) -> Option<(&Term, &[Term])>
    ensures { MatchOption result (terms.now ≡ []) (λ p. terms.now ≡ p.1.now ++ p.0.now ∷ []) }
{
    match terms {
        [] => None,
        [front @ .., last] => Some((last, front)),
    }
}

/// Takes the last disjunct. Where it is a disjunction itself, its disjuncts are left.
#[cycle(goals)]
fn last_disjunct<'a>(
    at: &Module<'_>,
    last: &'a Term,
    unclosed: &mut Unclosed,
    variables: &mut Variables<'a>,
) -> Result<&'a [Term], Memory>
    ensures passed { IfOk result (λ rest. Passes at.now (last.now ∷ []) rest.now
        unclosed.old unclosed.new variables.old variables.new) }
    ensures smaller { IfOk result (λ rest. AreBelow rest.now last.now) }
{
    match view(last) {
        GoalView::Disjunction(parts) => {
            unclosed.begin(at.alloc, None)?;
            Ok(parts)
        }
        _ => {
            disjunct(at, last, unclosed, variables)?;
            Ok(&[])
        }
    }
}

/// Takes a disjunct, whatever follows it.
#[cycle(goals)]
fn disjunct<'a>(
    at: &Module<'_>,
    first: &'a Term,
    unclosed: &mut Unclosed,
    variables: &mut Variables<'a>,
) -> Result<(), Memory>
    ensures { OnOk result ((others : List Term) → Passes at.now (first.now ∷ others) others
        unclosed.old unclosed.new variables.old variables.new) }
{
    match view(first) {
        GoalView::Conditional(condition, then_part) => {
            let chosen = chosen(at, condition, then_part, variables)?;
            unclosed.begin(at.alloc, Some(chosen))?;
            Ok(())
        }
        _ => {
            let made = goal(at, first, variables)?;
            unclosed.made.push(made)?;
            Ok(())
        }
    }
}

/// A condition and its then part.
#[cycle(goals)]
fn chosen<'a>(
    at: &Module<'_>,
    condition: &'a Term,
    then_part: &'a Term,
    variables: &mut Variables<'a>,
) -> Result<Chosen, Memory>
    ensures { IfOk result (λ made. Walked plain_chosen
        (chosen_walk (the_goal at.now condition.now) (the_goal at.now then_part.now))
        variables.old variables.new made) }
{
    match view(condition) {
        GoalView::Existential(list, part) => {
            let inner = variables.enter(at.alloc, list)?;
            let Inner { vars, hidden } = inner;
            let condition = goal(at, part, variables)?;
            let then_part = goal(at, then_part, variables)?;
            variables.leave(hidden)?;
            let vars = Row::of(vars)?;
            Ok(Chosen {
                vars,
                condition,
                then_part,
            })
        }
        _ => {
            let condition = goal(at, condition, variables)?;
            let then_part = goal(at, then_part, variables)?;
            Ok(Chosen {
                vars: Row::new(at.alloc),
                condition,
                then_part,
            })
        }
    }
}

/// `some [V] G`
#[cycle(goals)]
fn existential<'a>(
    at: &Module<'_>,
    list: &'a Term,
    part: &'a Term,
    variables: &mut Variables<'a>,
) -> Result<UnresolvedGoal, Memory>
    ensures { IfOk result (λ made. Walked plain_unresolved_goal
        (for_some (plain_term list.now) (the_goal at.now part.now)).itself
        variables.old variables.new made) }
{
    let inner = variables.enter(at.alloc, list)?;
    let Inner { vars, hidden } = inner;
    let part = goal(at, part, variables)?;
    variables.leave(hidden)?;
    let made = exists(at.alloc, vars, part)?;
    Ok(made)
}

/// `all [V] G`
#[cycle(goals)]
fn universal<'a>(
    at: &Module<'_>,
    list: &'a Term,
    part: &'a Term,
    variables: &mut Variables<'a>,
) -> Result<UnresolvedGoal, Memory>
    ensures { IfOk result (λ made. Walked plain_unresolved_goal
        (for_all (plain_term list.now) (the_goal at.now part.now)).itself
        variables.old variables.new made) }
{
    let inner = variables.enter(at.alloc, list)?;
    let Inner { vars, hidden } = inner;
    let part = denied(at, part, variables)?;
    variables.leave(hidden)?;
    let denied = exists(at.alloc, vars, part)?;
    let made = negation(at.alloc, denied)?;
    Ok(made)
}

/// What has no answer where a goal is true for all values.
#[cycle(goals)]
fn denied<'a>(
    at: &Module<'_>,
    whole: &'a Term,
    variables: &mut Variables<'a>,
) -> Result<UnresolvedGoal, Memory>
    ensures { IfOk result (λ made. Walked plain_unresolved_goal (the_goal at.now whole.now).denied
        variables.old variables.new made) }
{
    match view(whole) {
        GoalView::Implication(left, right) => {
            let made = not_implied(at, left, right, variables)?;
            Ok(made)
        }
        _ => {
            let made = goal(at, whole, variables)?;
            let denied = negation(at.alloc, made)?;
            Ok(denied)
        }
    }
}

/// `A, not B`
#[cycle(goals)]
fn not_implied<'a>(
    at: &Module<'_>,
    left: &'a Term,
    right: &'a Term,
    variables: &mut Variables<'a>,
) -> Result<UnresolvedGoal, Memory>
    ensures { IfOk result (λ made. Walked plain_unresolved_goal
        (not_implied (the_goal at.now left.now) (the_goal at.now right.now))
        variables.old variables.new made) }
{
    let left = goal(at, left, variables)?;
    let right = goal(at, right, variables)?;
    let denied = negation(at.alloc, right)?;
    let made = two_goals(at.alloc, left, denied)?;
    Ok(made)
}

/// `X = Y`
fn equation<'a>(
    at: &Module<'_>,
    left: &'a Term,
    right: &'a Term,
    variables: &mut Variables<'a>,
) -> Result<UnresolvedGoal, Memory>
    ensures { IfOk result (λ made. Walked plain_unresolved_goal (equation_walk at.now left.now right.now)
        variables.old variables.new made) }
{
    let left = term(at, left, variables)?;
    let right = term(at, right, variables)?;
    Ok(UnresolvedGoal::Equation(left, right))
}

/// A call.
fn call<'a>(
    at: &Module<'_>,
    name: &'a Row<Text>,
    args: &'a Row<Term>,
    variables: &mut Variables<'a>,
) -> Result<UnresolvedGoal, Memory>
    ensures { IfOk result (λ made. Walked plain_unresolved_goal (call_walk at.now name.now args.now)
        variables.old variables.new made) }
{
    let made = terms(at, args.as_slice(), variables)?;
    let candidates = at.meanings(name, args.len())?;
    Ok(UnresolvedGoal::Atom(candidates, made))
}
