ghost use Rattle.mc_clauses.specs.code.Views.{IsView, IsViewBy, IsViewOver, IsDeeper, AreAsDeep};

use mc_base::{Row, Text};
use mc_clause_syntax::GoalForm;
use mc_term_data::{Node, Term, arity};

/// What a term is as a goal, once state variables are written out.
#[derive(Clone, Copy)]
pub enum GoalView<'a> {
    /// `true`, and what is no goal
    True,
    /// `fail`
    Fail,
    /// `A, B`
    Conjunction(&'a [Term]),
    /// `A ; B`
    Disjunction(&'a [Term]),
    /// `C -> T`
    Conditional(&'a Term, &'a Term),
    /// `not A`
    Negation(&'a Term),
    /// `some [V] A`
    Existential(&'a Term, &'a Term),
    /// `all [V] A`
    Universal(&'a Term, &'a Term),
    /// `A => B`
    Implication(&'a Term, &'a Term),
    /// `X = Y`
    Unification(&'a Term, &'a Term),
    /// `X \= Y`
    Disunification(&'a Term, &'a Term),
    /// A call
    Call(&'a Row<Text>, &'a Row<Term>),
}

/// What a term is as a goal.
pub fn view(goal: &Term) -> GoalView<'_>
    ensures is { IsView goal.now result }
    ensures deeper { IsDeeper goal.now result }
{
    match &goal.node {
        Node::Conj(parts) => GoalView::Conjunction(parts.as_slice()),
        Node::Disj(parts) => GoalView::Disjunction(parts.as_slice()),
        Node::App(name, parts) => {
            let form = GoalForm::of(name.as_slice(), arity(parts.as_slice()));
            view_by(form, name, parts)
        }
        Node::Var(_) => GoalView::True,
        Node::Int(_) => GoalView::True,
        Node::Str(_) => GoalView::True,
        Node::List(_, _) => GoalView::True,
    }
}

// What a name over parts is as a goal, by its form.
fn view_by<'a>(form: GoalForm, name: &'a Row<Text>, parts: &'a Row<Term>) -> GoalView<'a>
    ensures is { IsViewBy form name.now parts.now result }
    ensures deep { AreAsDeep parts.now result }
{
    match form {
        GoalForm::Fail => GoalView::Fail,
        GoalForm::Conjunction => GoalView::Conjunction(parts.as_slice()),
        GoalForm::Disjunction => GoalView::Disjunction(parts.as_slice()),
        GoalForm::Call => GoalView::Call(name, parts),
        _ => view_over(form, parts.as_slice()),
    }
}

// What a form over one part or two is as a goal.
fn view_over(form: GoalForm, parts: &[Term]) -> GoalView<'_>
    ensures is { IsViewOver form parts.now result }
    ensures deep { AreAsDeep parts.now result }
{
    match parts {
        [part] => match form {
            GoalForm::Negation => GoalView::Negation(part),
            _ => GoalView::True,
        },
        [left, right] => match form {
            GoalForm::Arrow => GoalView::Conditional(left, right),
            GoalForm::Existential => GoalView::Existential(left, right),
            GoalForm::Universal => GoalView::Universal(left, right),
            GoalForm::Implication => GoalView::Implication(left, right),
            GoalForm::Unification => GoalView::Unification(left, right),
            GoalForm::Disunification => GoalView::Disunification(left, right),
            _ => GoalView::True,
        },
        [] => GoalView::True,
        [_, _, _, ..] => GoalView::True,
    }
}
